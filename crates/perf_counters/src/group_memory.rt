//! Groups of counters in the memory of groups that are not needed any more.

ghost use Rattle.std.specs.Prelude.{◌≡◌, IfOk, IfErr};
ghost use Rattle.perf_counters.specs.Prelude.{Call, Reads, kinds, kind_of, single_read};
ghost use Rattle.perf_counters.specs.ReadGroup.{read_group, group_read, group_of};

use crate::read_group::ReadGroup;
use crate::read_value::ReadValue;
use perf_base::{Endian, ErrorKind, ParseResult, ReadResult};
use perf_buffers::input::Input;
use perf_reader::reader::Reader;
use perf_reader::spare::spare_of;
use std::alloc::Global;

// The memory of a group's numbers, if it owns any.
#[inline]
fn spare_words(alloc: Global, old: Option<ReadGroup<'_>>) -> Vec<u64> {
    match old {
        Some(group) => spare_of(alloc, Some(group.into_words())),
        None => Vec::new(alloc),
    }
}

/// Reads a group into the memory of another, which is not needed any more, by the rule of
/// [`Reader::list_over`]. The refusals are those of the group.
#[inline]
pub fn read_group_over<'p, I: Input<'p>, E: Endian>(
    reader: &mut Reader<I, E>,
    old: Option<ReadGroup<'p>>,
) -> ReadResult<ReadGroup<'p>>
    ensures call { Call I.source E.order (Reads read_group group_read)
        reader.old (kinds result) reader.new }
{
    let spare = spare_words(reader.alloc(), old);
    ReadGroup::read_over(reader, spare)
}

/// The read of one counter as a group of one, in the memory of another group, which is not needed
/// any more. It fails only if out of memory.
#[inline]
pub fn group_of_value<'a>(
    alloc: Global,
    old: Option<ReadGroup<'a>>,
    value: ReadValue,
) -> ParseResult<ReadGroup<'a>>
    ensures same { IfOk result (λ group. group_read group ≡ group_of (single_read value)) }
    ensures refused { IfErr result (λ e. kind_of e ≡ ErrorKind.OutOfMemory) }
{
    ReadGroup::from_value_over(spare_words(alloc, old), value)
}
