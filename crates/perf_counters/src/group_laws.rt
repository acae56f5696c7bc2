//! The laws of groups: what the calls of [`GroupIter`] return in any mixture, and that the read of
//! one counter is unchanged when it goes through a group.

ghost use Rattle.std.specs.Prelude.{◌≡◌, IfOk, IfErr, Some, option_map};
ghost use Rattle.perf_counters.specs.EntryCalls.{entry_of_call, left_by, answers_of, left_by_all};
ghost use Rattle.perf_counters.specs.GroupIter.{entries_left};
ghost use Rattle.perf_counters.specs.ReadValue.{single_read};
ghost use Rattle.perf_counters.specs.Prelude.{kind_of, result_ok};

use crate::group_entry::GroupEntry;
use crate::group_iter::GroupIter;
use crate::read_group::ReadGroup;
use crate::read_value::{ReadValue, TryFromGroupError};
use perf_base::{ErrorKind, ParseResult};
use std::alloc::Global;

/// A call of [`GroupIter`].
#[derive(Copy, Clone, Debug)]
pub enum EntryCall {
    /// `next`
    Next,
    /// `next_back`
    NextBack,
    /// `nth`
    Nth(usize),
    /// `nth_back`
    NthBack(usize),
}

/// The result of one call: an entry from an end of those that are left, or `None` past the last.
pub fn entry_call(entries: &mut GroupIter<'_>, call: EntryCall) -> Option<GroupEntry>
    ensures answer { result ≡ entry_of_call call (entries_left entries.old) }
    ensures left { entries_left entries.new ≡ left_by call (entries_left entries.old) }
{
    match call {
        EntryCall::Next => entries.next(),
        EntryCall::NextBack => entries.next_back(),
        EntryCall::Nth(place) => entries.nth(place),
        EntryCall::NthBack(place) => entries.nth_back(place),
    }
}

/// The results of calls one after another, and what is left after them.
pub fn entry_calls(
    alloc: Global,
    entries: &mut GroupIter<'_>,
    calls: &[EntryCall],
) -> ParseResult<Vec<Option<GroupEntry>>>
    ensures answers { let before = entries_left entries.old in
        IfOk result (λ given. given.items ≡ answers_of calls.now before) }
    ensures left { let before = entries_left entries.old in
        IfOk result (λ _. entries_left entries.new ≡ left_by_all calls.now before) }
    ensures refused { IfErr result (λ e. kind_of e ≡ ErrorKind.OutOfMemory) }
{
    let mut answers = Vec::with_capacity(alloc, calls.len())?;
    for call in calls {
        answers.push(entry_call(entries, *call))?;
    }
    Ok(answers)
}

/// The read of one counter as a group of one, and this group as the read of one counter again.
pub fn through_a_group(
    alloc: Global,
    value: ReadValue,
) -> ParseResult<Result<ReadValue, TryFromGroupError>>
    ensures same { let before = Some (single_read value) in
        IfOk result (λ back. option_map single_read (result_ok back) ≡ before) }
    ensures refused { IfErr result (λ e. kind_of e ≡ ErrorKind.OutOfMemory) }
{
    Ok(ReadValue::try_from(ReadGroup::from_value(alloc, value)?))
}
