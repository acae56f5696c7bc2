//! The read of one counter.

ghost use Rattle.std.specs.Prelude.{◌≡◌, option_map, Some};
ghost use Rattle.std.specs.Result.{result_ok};
ghost use Rattle.perf_words.specs.SetBits.{read_format_bits};
ghost use Rattle.perf_counters.specs.ReadValue.{single_read, read_with, read_value, not_one_text};
ghost use Rattle.perf_counters.specs.ReadGroup.{group_read, single_of, only_entry, if_requested};

use crate::group_entry::GroupEntry;
use crate::read_format::is_known;
use crate::read_group::ReadGroup;
use bitflags::Flags;
use perf_base::{Endian, ReadResult, Refusal};
use perf_buffers::input::Input;
use perf_reader::read::{HasTransition, ReadFrom};
use perf_reader::reader::Reader;
use perf_words::ReadFormat;
use std::fmt;

/// What was read of one counter: its value, and the numbers selected by the read format
/// (`read_format` of the attribute).
#[derive(Clone, Debug, Drop)]
pub struct ReadValue {
    value: u64,
    time_enabled: Option<u64>,
    time_running: Option<u64>,
    id: Option<u64>,
    lost: Option<u64>,
}

// A number if requested, or 0 if it is missing.
#[inline]
fn if_requested(number: Option<u64>, with: bool) -> Option<u64>
    ensures { result ≡ if_requested with number }
{
    with.then_some(number.unwrap_or(0))
}

impl ReadValue {
    /// The read of these numbers. Those whose flag is not in the read format are ignored.
    #[tactic(auto, using(crate::proofs::Flags::read_flags))]
    pub fn from_parts(
        read_format: ReadFormat,
        value: u64,
        time_enabled: u64,
        time_running: u64,
        id: u64,
        lost: u64,
    ) -> ReadValue
        ensures { single_read result ≡
            read_with (read_format_bits read_format) value time_enabled time_running id lost }
    {
        ReadValue {
            value,
            time_enabled: read_format
                .contains(ReadFormat::TOTAL_TIME_ENABLED)
                .then_some(time_enabled),
            time_running: read_format
                .contains(ReadFormat::TOTAL_TIME_RUNNING)
                .then_some(time_running),
            id: read_format.contains(ReadFormat::ID).then_some(id),
            lost: read_format.contains(ReadFormat::LOST).then_some(lost),
        }
    }

    /// An entry as a single read, with the times of a group and the numbers that the group's
    /// entries have. The entry may come from another group: a number that it does not have is 0.
    pub fn from_group_and_entry(group: &ReadGroup<'_>, entry: &GroupEntry) -> ReadValue
        ensures { single_read result ≡ single_of (group_read group.now) entry.now }
    {
        ReadValue {
            value: entry.value(),
            time_enabled: group.time_enabled(),
            time_running: group.time_running(),
            id: if_requested(entry.id(), group.with_id()),
            lost: if_requested(entry.lost(), group.with_lost()),
        }
    }

    /// The counter's value.
    #[inline]
    pub fn value(&self) -> u64
        ensures { result ≡ (single_read self.now).value }
    {
        self.value
    }

    /// How long the event was enabled, in nanoseconds, if the read format has
    /// `PERF_FORMAT_TOTAL_TIME_ENABLED`.
    #[inline]
    pub fn time_enabled(&self) -> Option<u64>
        ensures { result ≡ (single_read self.now).time_enabled }
    {
        self.time_enabled
    }

    /// How long the event ran, in nanoseconds, if the read format has
    /// `PERF_FORMAT_TOTAL_TIME_RUNNING`. It is less than [`ReadValue::time_enabled`] if events took
    /// turns, because there were more of them than counters.
    #[inline]
    pub fn time_running(&self) -> Option<u64>
        ensures { result ≡ (single_read self.now).time_running }
    {
        self.time_running
    }

    /// The kernel's id of the event, if the read format has `PERF_FORMAT_ID`.
    #[inline]
    pub fn id(&self) -> Option<u64>
        ensures { result ≡ (single_read self.now).id }
    {
        self.id
    }

    /// How many samples of the event were lost, if the read format has `PERF_FORMAT_LOST`.
    #[inline]
    pub fn lost(&self) -> Option<u64>
        ensures { result ≡ (single_read self.now).lost }
    {
        self.lost
    }
}

impl HasTransition for ReadValue {
    ghost use Rattle.perf_reader.specs.Prelude.{ReadsPlain};

    ghost transition = { ReadsPlain read_value single_read };
}

/// A read format with a group is [`Refusal::SingleRead`], and one with unknown flags is
/// [`Refusal::ReadFormat`], both before the first number.
impl<'p, I: Input<'p>> ReadFrom<'p, I> for ReadValue {
    #[inline]
    #[tactic(auto, using(crate::proofs::Flags::read_flags, perf_reader::proofs::Calls::chain))]
    fn read<E: Endian>(reader: &mut Reader<I, E>) -> ReadResult<Self> {
        let format = reader.config().read_format();
        if format.contains(ReadFormat::GROUP) {
            return Err(Refusal::SingleRead);
        }
        if !is_known(format) {
            return Err(Refusal::ReadFormat);
        }
        Ok(ReadValue {
            value: reader.read_u64()?,
            time_enabled: reader.read_u64_if(format.contains(ReadFormat::TOTAL_TIME_ENABLED))?,
            time_running: reader.read_u64_if(format.contains(ReadFormat::TOTAL_TIME_RUNNING))?,
            id: reader.read_u64_if(format.contains(ReadFormat::ID))?,
            lost: reader.read_u64_if(format.contains(ReadFormat::LOST))?,
        })
    }
}

/// The only entry of a group. A group without entries or with several is refused. It needs no
/// memory.
impl<'a> TryFrom<ReadGroup<'a>> for ReadValue {
    type Error = TryFromGroupError;

    ghost try_from_gives = { λ group result. option_map single_read (result_ok result) ≡
        option_map (single_of (group_read group)) (only_entry (group_read group).entries) };

    fn try_from(group: ReadGroup<'a>) -> Result<ReadValue, TryFromGroupError> {
        let mut entries = group.entries();
        match (entries.next(), entries.next()) {
            (Some(entry), None) => Ok(ReadValue::from_group_and_entry(&group, &entry)),
            _ => Err(TryFromGroupError(())),
        }
    }
}

/// A group without entries, or with several, was to become the read of one counter.
#[derive(Clone, Debug, Drop)]
pub struct TryFromGroupError(());

impl fmt::Display for TryFromGroupError {
    ghost output = { λ e. Some not_one_text };

    fn fmt<W: fmt::Write>(&self, f: &mut fmt::Formatter<W>) -> fmt::Result {
        f.write_str("can only convert groups with a single element to ReadValues")
    }
}

impl std::error::Error for TryFromGroupError {}
