//! A count of elementary reads that costs no bytes and no time.

ghost use Rattle.std.specs.Prelude.{◌≡◌, ℕ, ◌+◌};
ghost use Rattle.perf_base.specs.ReadCount.{steps_of};
ghost use Rattle.perf_base.specs.LayoutReads.{one_if_any};

use std::marker::Model;
use std::mem;
use std::snapshot::Snapshot;

#[derive(Drop)]
enum Steps {
    Many(u64),
    Sum(Snapshot<Steps>, Snapshot<Steps>),
}

/// The number of elementary reads made so far: a number for contracts alone, which takes no space
/// at run time.
#[derive(Drop)]
pub struct ReadCounter {
    made: Snapshot<Steps>,
}

impl Model for ReadCounter {
    ghost Value = { ℕ };

    ghost view = { λ r. steps_of r.made.value };
}

impl ReadCounter {
    /// No reads yet.
    #[inline]
    pub fn new() -> ReadCounter
        ensures { result ≡ 0 }
    {
        ReadCounter::of(0)
    }

    /// `count` reads.
    #[inline]
    pub fn of(count: u64) -> ReadCounter
        ensures { result ≡ count }
    {
        ReadCounter {
            made: Snapshot::of(&Steps::Many(count)),
        }
    }

    /// Counts one read.
    #[inline]
    pub fn tick(&mut self)
        ensures { self.new ≡ self.old + 1 }
    {
        self.add(ReadCounter::of(1));
    }

    /// Counts one read if there is a byte to read.
    #[inline]
    pub fn tick_if_any(&mut self, count: usize)
        ensures { self.new ≡ self.old + one_if_any count }
    {
        if 0 < count {
            self.tick();
        }
    }

    /// Counts the reads of another count.
    #[inline]
    pub fn add(&mut self, more: ReadCounter)
        ensures { self.new ≡ self.old + more }
    {
        let before = mem::replace(&mut self.made, Snapshot::of(&Steps::Many(0)));
        let ReadCounter { made } = more;
        self.made = Snapshot::of(&Steps::Sum(before, made));
    }
}
