//! Fields of eight bytes, taken from bytes in memory.

ghost use Rattle.std.specs.Prelude.{◌≡◌, ◌==◌, ◌≤◌, ◌+◌, ◌-◌, ◌∷◌, [], List, ℕ, None, OnSome, length, take};
ghost use Rattle.std.specs.Prelude.{drop, option_map};
ghost use Rattle.std.specs.Int.RustNames.{bit_and};
ghost use Rattle.perf_base.specs.Configuration.{Configuration};
ghost use Rattle.perf_base.specs.Table.{present_if};
ghost use Rattle.perf_base.specs.Took.{took, take_parts};
ghost use Rattle.perf_sample_types.specs.Sample as sample;
ghost use Rattle.perf_sample_types.specs.SampleRows.{TakesField};
ghost use Rattle.perf_words.specs.SetBits.{sample_flags_bits};

use crate::sample_field::SampleField;
use crate::sample_parts::{Cpu, Task};
use bitflags::Flags;
use perf_base::{Endian, ReadCounter};
use perf_reader::halves::{first_half, second_half};
use perf_words::SampleFlags;

// Bytes from which fields are taken one after another, and how many elementary reads were made.
#[derive(Drop)]
pub(crate) struct Row<'c> {
    left: &'c [u8],
    reads: ReadCounter,
}

impl<'c> Row<'c> {
    // A row from which nothing was taken.
    #[inline(always)]
    pub(crate) fn new(bytes: &'c [u8]) -> Row<'c>
        ensures left { result.left.now ≡ bytes.now }
        ensures reads { result.reads ≡ 0 }
    {
        Row {
            left: bytes,
            reads: ReadCounter::new(),
        }
    }

    // How many bytes of `all` were taken, and in how many reads.
    #[inline(always)]
    pub(crate) fn into_taken(self, all: usize) -> (usize, ReadCounter)
        requires { length self.left.now ≤ all }
        ensures len { result.0 ≡ all - length self.entry.left.now }
        ensures reads { result.1 ≡ self.entry.reads }
    {
        (all - self.left.len(), self.reads)
    }
}

// A kind of field that takes eight bytes.
pub(crate) trait WordField: SampleField {
    // how many elementary reads those are
    ghost reads: { ℕ };

    // The field in these bytes.
    fn of_word<E: Endian>(order: &E, word: [u8; 8]) -> Self
        ensures runs { (c : Configuration) → (bytes : List ℕ) → (n : ℕ) → 8 ≤ length bytes →
            take 8 bytes ≡ word →
            take_parts (E.order order.now) (Self.parts c) bytes n
            ≡ took (Self.value result) (drop 8 bytes) (n + reads) };

    // The same number of reads.
    fn reads() -> ReadCounter
        ensures count { result ≡ reads }
        ensures few { result ≤ 8 };
}

impl WordField for u64 {
    ghost reads = { 1 };

    #[inline(always)]
    fn of_word<E: Endian>(order: &E, word: [u8; 8]) -> u64 {
        order.convert_u64(word)
    }

    #[inline(always)]
    fn reads() -> ReadCounter {
        ReadCounter::of(1)
    }
}

impl WordField for Task {
    ghost reads = { 2 };

    #[inline(always)]
    fn of_word<E: Endian>(order: &E, word: [u8; 8]) -> Task {
        Task {
            pid: Some(first_half(order, word)),
            tid: Some(second_half(order, word)),
        }
    }

    #[inline(always)]
    fn reads() -> ReadCounter {
        ReadCounter::of(2)
    }
}

impl WordField for Cpu {
    ghost reads = { 2 };

    #[inline(always)]
    fn of_word<E: Endian>(order: &E, word: [u8; 8]) -> Cpu {
        Cpu(first_half(order, word))
    }

    #[inline(always)]
    fn reads() -> ReadCounter {
        ReadCounter::of(2)
    }
}

// Puts a field into its place, which is empty, if the sample type has its flag. `None` if there are
// too few bytes.
#[inline(always)]
pub(crate) fn take_flagged<E: Endian, T: WordField + Drop>(
    place: &mut Option<T>,
    row: &mut Row<'_>,
    order: &E,
    flags: SampleFlags,
    flag: SampleFlags,
) -> Option<()>
    requires { place.old ≡ None }
    ensures { OnSome result ((c : Configuration) → TakesField (E.order order.now)
        (present_if
        (bit_and (sample_flags_bits flags) (sample_flags_bits flag) == sample_flags_bits flag)
        (T.parts (sample.settings_of c)))
        (option_map T.value place.new) row.old row.new) }
{
    if !flags.contains(flag) {
        return Some(());
    }
    match row.left.split_first_chunk::<8>() {
        Some((word, left)) => {
            *place = Some(T::of_word(order, *word));
            row.left = left;
            row.reads.add(T::reads());
            Some(())
        }
        None => None,
    }
}
