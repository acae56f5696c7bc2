//! Generated histories against a search back in time.

ghost use Rattle.std.specs.Prelude.{◌<◌};

use crate::tests::checks::check_debug;
use crate::tests::searching::{name_back, place_back};
use perf_history::{Change, Comm, Fork, History, Identity, Map, Mode, Symbol};
use std::alloc::{AllocError, Global};

// How many histories there are.
const HISTORIES: u64 = 1_000;

// Numbers that look random, the same in each run.
#[derive(Drop)]
struct Numbers {
    state: u64,
}

impl Numbers {
    // A number below a limit.
    fn below(&mut self, limit: u32) -> u32
        requires { 0 < limit }
        ensures { result < limit }
    {
        self.state = self
            .state
            .wrapping_mul(6_364_136_223_846_793_005)
            .wrapping_add(1_442_695_040_888_963_407);
        ((self.state >> 33) % u64::from(limit)) as u32
    }

    // A process or a thread: one of few, of which one is -1.
    fn id(&mut self) -> u32 {
        let id = self.below(7);
        if id == 6 { u32::MAX } else { id }
    }

    // An address near one of the ends.
    fn address(&mut self) -> u64 {
        let near = u64::from(self.below(64));
        if self.below(4) == 0 {
            u64::MAX - near
        } else {
            near
        }
    }

    fn name(&mut self) -> &'static [u8] {
        match self.below(4) {
            0 => b"//anon",
            1 => b"[stack]",
            2 => b"/bin/sh",
            _ => b"/bin/ls",
        }
    }

    fn mode(&mut self) -> Mode {
        Mode::of_misc(self.below(4) as u16)
    }

    fn fork(&mut self) -> Change<'static> {
        Change::Fork(Fork {
            pid: self.id(),
            ppid: self.id(),
            tid: self.id(),
            ptid: self.id(),
            made_up: self.below(5) == 0,
        })
    }

    fn map(&mut self) -> Change<'static> {
        Change::Map(Map {
            pid: self.id(),
            mode: self.mode(),
            start: self.address(),
            len: u64::from(self.below(32)),
            offset: self.address(),
            file: self.name(),
            identity: Identity::BuildId(self.name()),
            executable: self.below(2) == 0,
        })
    }

    fn change(&mut self) -> Change<'static> {
        match self.below(8) {
            0 => Change::Comm(Comm {
                tid: self.id(),
                name: self.name(),
            }),
            1 | 2 => self.fork(),
            3 => Change::Symbol(Symbol {
                start: self.address(),
                len: u64::from(self.below(32)),
                name: self.name(),
                removed: self.below(3) == 0,
            }),
            _ => self.map(),
        }
    }
}

// Whether names and places are those of the search.
fn agrees(history: &History<'static>, changes: &[Change<'static>], numbers: &mut Numbers) -> bool {
    for _ in 0..30 {
        let tid = numbers.id();
        if history.comm(tid) != name_back(changes, tid) {
            return false;
        }
        let (pid, mode, address) = (numbers.id(), numbers.mode(), numbers.address());
        if history.place(pid, mode, address) != place_back(changes, pid, mode, address) {
            return false;
        }
    }
    true
}

// Applies changes to a history, and lists them.
fn change_both(
    history: &mut History<'static>,
    changes: &mut Vec<Change<'static>>,
    numbers: &mut Numbers,
) -> Result<(), AllocError> {
    for _ in 0..numbers.below(50) {
        let change = numbers.change();
        history.apply(change)?;
        changes.push(change)?;
    }
    Ok(())
}

// Whether a generated history agrees with the search.
fn seed_agrees(alloc: Global, seed: u64) -> Result<bool, AllocError> {
    let mut numbers = Numbers { state: seed };
    let (mut history, mut changes) = (History::new(alloc), Vec::new(alloc));
    let changed = change_both(&mut history, &mut changes, &mut numbers);
    let agrees = agrees(&history, &changes, &mut numbers);
    drop(history);
    drop(changes);
    changed?;
    Ok(agrees)
}

// The first generated history that differs from the search.
fn first_difference(alloc: Global, count: u64) -> Result<Option<u64>, AllocError> {
    for seed in 0..count {
        if !seed_agrees(alloc, seed)? {
            return Ok(Some(seed));
        }
    }
    Ok(None)
}

#[test]
fn histories_agree(rt: HostRuntime) {
    check_debug(&rt, first_difference(rt.alloc(), HISTORIES), "Ok(None)");
}
