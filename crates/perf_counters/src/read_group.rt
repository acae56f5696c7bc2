//! The read of a group of counters.

ghost use Rattle.std.specs.Prelude.{◌≡◌, ◌%◌, ◌≤◌, length, vec_capacity};
ghost use Rattle.perf_base.specs.Cow.{cow_items};
ghost use Rattle.perf_counters.specs.GroupEntry.{block_len};

use crate::group_entry::{GroupEntry, block_len};
use crate::group_iter::GroupIter;
use crate::read_format::is_known;
use crate::read_value::ReadValue;
use bitflags::Flags;
use perf_base::{CowSlice, Endian, ErrorKind, ParseResult, ReadResult, Refusal};
use perf_buffers::input::Input;
use perf_reader::read::{HasTransition, ReadFrom};
use perf_reader::reader::Reader;
use perf_words::ReadFormat;
use std::alloc::Global;

/// What was read of a group of counters at once (`PERF_FORMAT_GROUP`): an entry for each, in one
/// list of numbers that may be borrowed.
#[derive(Debug, Drop)]
pub struct ReadGroup<'a> {
    time_enabled: Option<u64>,
    time_running: Option<u64>,
    with_id: bool,
    with_lost: bool,
    words: CowSlice<'a, u64>,
    ghost whole: { length (cow_items words) % block_len with_id with_lost ≡ 0 },
}

impl<'a> ReadGroup<'a> {
    ghost use Rattle.std.specs.Prelude.{IsTrue, IsOk, IfOk, IfErr, IsNone, ◌↔◌, slice_get, [], not};
    ghost use Rattle.perf_counters.specs.ReadGroup.{group_read, group_with, group_of};
    ghost use Rattle.perf_counters.specs.ReadGroup.{is_borrowed_group, read_group_form};
    ghost use Rattle.perf_counters.specs.Prelude.{is_borrowed, kind_of, element_len, read_format_bits};
    ghost use Rattle.perf_counters.specs.Prelude.{IsClone, IsOwnedCopy};
    ghost use Rattle.perf_counters.specs.Prelude.{single_read, entry_with_id, entries_left};

    /// The group of these numbers. A time whose flag is not in the read format is ignored. The
    /// entries' numbers follow one another, [`ReadFormat::element_len`] for each: its value, its id
    /// and its lost samples.
    #[tactic(auto, using(crate::proofs::Flags::read_flags))]
    pub fn from_parts(
        read_format: ReadFormat,
        time_enabled: u64,
        time_running: u64,
        words: CowSlice<'a, u64>,
    ) -> ReadGroup<'a>
        requires { length (cow_items words) % element_len (read_format_bits read_format) ≡ 0 }
        ensures value { let format = read_format_bits read_format in
            let numbers = cow_items words.entry in
            group_read result ≡ group_with format time_enabled time_running numbers }
        ensures form { is_borrowed_group result ≡ is_borrowed words.entry }
    {
        ReadGroup {
            time_enabled: read_format
                .contains(ReadFormat::TOTAL_TIME_ENABLED)
                .then_some(time_enabled),
            time_running: read_format
                .contains(ReadFormat::TOTAL_TIME_RUNNING)
                .then_some(time_running),
            with_id: read_format.contains(ReadFormat::ID),
            with_lost: read_format.contains(ReadFormat::LOST),
            words,
        }
    }

    /// The read of one counter as a group of one, which owns its numbers. It fails only if out of
    /// memory.
    pub fn from_value(alloc: Global, value: ReadValue) -> ParseResult<ReadGroup<'a>>
        ensures same { IfOk result (λ group. group_read group ≡ group_of (single_read value)) }
        ensures owned { IfOk result (λ group. IsTrue (not (is_borrowed_group group))) }
        ensures refused { IfErr result (λ e. kind_of e ≡ ErrorKind.OutOfMemory) }
    {
        ReadGroup::from_value_over(Vec::new(alloc), value)
    }

    // The same, in the memory of a list that is not needed any more.
    pub(crate) fn from_value_over(
        mut words: Vec<u64>,
        value: ReadValue,
    ) -> ParseResult<ReadGroup<'a>>
        ensures same { IfOk result (λ group. group_read group ≡ group_of (single_read value)) }
        ensures owned { IfOk result (λ group. IsTrue (not (is_borrowed_group group))) }
        ensures enough { 3 ≤ vec_capacity words → IsOk result }
        ensures refused { IfErr result (λ e. kind_of e ≡ ErrorKind.OutOfMemory) }
    {
        words.clear();
        match (value.id(), value.lost()) {
            (None, None) => words.extend_from_slice(&[value.value()])?,
            (Some(id), None) => words.extend_from_slice(&[value.value(), id])?,
            (None, Some(lost)) => words.extend_from_slice(&[value.value(), lost])?,
            (Some(id), Some(lost)) => words.extend_from_slice(&[value.value(), id, lost])?,
        };
        Ok(ReadGroup {
            time_enabled: value.time_enabled(),
            time_running: value.time_running(),
            with_id: value.id().is_some(),
            with_lost: value.lost().is_some(),
            words: CowSlice::Owned(words),
        })
    }

    /// The number of counters in the group.
    #[inline]
    pub fn len(&self) -> usize
        ensures { result ≡ length (group_read self.now).entries }
    {
        self.words.len() / block_len(self.with_id, self.with_lost)
    }

    /// Whether the group has no counters.
    #[inline]
    pub fn is_empty(&self) -> bool
        ensures { IsTrue result ↔ ((group_read self.now).entries ≡ []) }
    {
        self.words.is_empty()
    }

    /// How long the group was enabled, in nanoseconds, if the read format has
    /// `PERF_FORMAT_TOTAL_TIME_ENABLED`.
    #[inline]
    pub fn time_enabled(&self) -> Option<u64>
        ensures { result ≡ (group_read self.now).time_enabled }
    {
        self.time_enabled
    }

    /// How long the group ran, in nanoseconds, if the read format has
    /// `PERF_FORMAT_TOTAL_TIME_RUNNING`. It is less than [`ReadGroup::time_enabled`] if groups took
    /// turns, because there were more events than counters.
    #[inline]
    pub fn time_running(&self) -> Option<u64>
        ensures { result ≡ (group_read self.now).time_running }
    {
        self.time_running
    }

    // Whether each entry has an id.
    #[inline]
    pub(crate) fn with_id(&self) -> bool
        ensures { result ≡ (group_read self.now).with_id }
    {
        self.with_id
    }

    // Whether each entry has a count of lost samples.
    #[inline]
    pub(crate) fn with_lost(&self) -> bool
        ensures { result ≡ (group_read self.now).with_lost }
    {
        self.with_lost
    }

    /// The entry at an index, counted from 0. It takes the same time for every index.
    #[inline]
    #[tactic(auto, using(crate::proofs::Blocks::block_fits))]
    pub fn get(&self, index: usize) -> Option<GroupEntry>
        ensures { result ≡ slice_get (group_read self.now).entries index }
    {
        let words = self.words.as_slice();
        let block_len = block_len(self.with_id, self.with_lost);
        if index >= words.len() / block_len {
            return None;
        }
        let place = index * block_len;
        let block = &words[place..place + block_len];
        Some(GroupEntry::of_block(block, self.with_id, self.with_lost))
    }

    /// The first entry with this id. There is none if the read format has no `PERF_FORMAT_ID`.
    pub fn get_by_id(&self, id: u64) -> Option<GroupEntry>
        ensures first { result ≡ entry_with_id id (group_read self.now).entries }
        ensures without_ids { IsTrue (not (group_read self.now).with_id) → IsNone result }
    {
        if !self.with_id {
            return None;
        }
        self.entries().find(|entry| entry.id() == Some(id))
    }

    /// The entries, in order.
    #[inline]
    pub fn entries(&self) -> GroupIter<'_>
        ensures { entries_left result ≡ (group_read self.now).entries }
    {
        GroupIter::new(
            self.words.as_slice(),
            self.len(),
            self.with_id,
            self.with_lost,
        )
    }

    /// A copy of the group. It needs no memory if its numbers are borrowed.
    pub fn clone(&self, alloc: Global) -> ParseResult<ReadGroup<'a>>
        ensures { IsClone group_read read_group_form self.now result }
    {
        let words = self.words.clone(alloc)?;
        Ok(ReadGroup {
            time_enabled: self.time_enabled,
            time_running: self.time_running,
            with_id: self.with_id,
            with_lost: self.with_lost,
            words,
        })
    }

    /// Makes the group own its numbers, so that it does not borrow from the input. It needs no
    /// memory if it owns them already. If out of memory, it returns `OutOfMemory` and the group is
    /// dropped.
    pub fn into_owned<'b>(self, alloc: Global) -> ParseResult<ReadGroup<'b>>
        ensures { IsOwnedCopy group_read read_group_form self.entry result }
    {
        let ReadGroup {
            time_enabled,
            time_running,
            with_id,
            with_lost,
            words,
        } = self;
        Ok(ReadGroup {
            time_enabled,
            time_running,
            with_id,
            with_lost,
            words: words.into_owned(alloc)?,
        })
    }

    // The numbers of its entries, where they are.
    #[inline]
    pub(crate) fn into_words(self) -> CowSlice<'a, u64> {
        self.words
    }
}

impl<'p> ReadGroup<'p> {
    ghost use Rattle.perf_counters.specs.Prelude.{Call, Reads, kinds};
    ghost use Rattle.perf_counters.specs.ReadGroup.{read_group, group_read};

    // Reads a group into the memory of a list that is not needed any more.
    #[tactic(auto, using(crate::proofs::Blocks::group_reads))]
    pub(crate) fn read_over<I: Input<'p>, E: Endian>(
        reader: &mut Reader<I, E>,
        spare: Vec<u64>,
    ) -> ReadResult<ReadGroup<'p>>
        ensures call { Call I.source E.order (Reads read_group group_read)
            reader.old (kinds result) reader.new }
    {
        let format = reader.config().read_format();
        if !format.contains(ReadFormat::GROUP) {
            return Err(Refusal::GroupRead);
        }
        if !is_known(format) {
            return Err(Refusal::ReadFormat);
        }
        let count = reader.read_u64()? as usize;
        let time_enabled = reader.read_u64_if(format.contains(ReadFormat::TOTAL_TIME_ENABLED))?;
        let time_running = reader.read_u64_if(format.contains(ReadFormat::TOTAL_TIME_RUNNING))?;
        let len = match count.checked_mul(format.element_len()) {
            Some(len) => len,
            None => return Err(Refusal::GroupLength),
        };
        let words = reader.read_numbers_over(spare, len)?;
        Ok(ReadGroup {
            time_enabled,
            time_running,
            with_id: format.contains(ReadFormat::ID),
            with_lost: format.contains(ReadFormat::LOST),
            words: CowSlice::Owned(words),
        })
    }
}

impl HasTransition for ReadGroup<'_> {
    ghost use Rattle.perf_reader.specs.Prelude.{Reads};
    ghost use Rattle.perf_counters.specs.ReadGroup.{read_group, group_read};

    ghost transition = { Reads read_group group_read };
}

/// A read format without a group is [`Refusal::GroupRead`], and one with unknown flags is
/// [`Refusal::ReadFormat`], both before the count. A list of more numbers than can be counted is
/// [`Refusal::GroupLength`], after the times. Nothing is allocated from a claimed count alone, and
/// a list needs no memory if the input reports that it has fewer.
impl<'p, I: Input<'p>> ReadFrom<'p, I> for ReadGroup<'p> {
    fn read<E: Endian>(reader: &mut Reader<I, E>) -> ReadResult<Self> {
        ReadGroup::read_over(reader, Vec::new(reader.alloc()))
    }
}
