//! Reads of counters and groups of them.

use crate::tests::checks::{add, check_debug, check_text};
use bitflags::Flags;
use perf_base::{CowSlice, ParseResult};
use perf_counters::group_laws::{EntryCall, entry_call, entry_calls, through_a_group};
use perf_counters::{GroupEntry, GroupIter, ReadGroup, ReadValue, TryFromGroupError};
use perf_types::Read;
use perf_words::ReadFormat;
use std::alloc::{AllocError, Global};
use std::iter::Copied;
use std::process::Abort;
use std::slice::Iter;

// The values of up to six entries. The id of an entry is 100 more, and its lost samples are 200
// more.
const VALUES: [u64; 6] = [1, 2, 3, 4, 5, 6];

// Read formats, and the numbers of the six entries as the kernel writes them.
const GROUPS: [(u64, &[u64]); 4] = [
    (8, &[1, 2, 3, 4, 5, 6]),
    (12, &[1, 101, 2, 102, 3, 103, 4, 104, 5, 105, 6, 106]),
    (24, &[1, 201, 2, 202, 3, 203, 4, 204, 5, 205, 6, 206]),
    (
        28,
        &[
            1, 101, 201, 2, 102, 202, 3, 103, 203, 4, 104, 204, 5, 105, 205, 6, 106, 206,
        ],
    ),
];

// What a call does: the last two go past the end of six entries.
const CALLS: [EntryCall; 8] = [
    EntryCall::Next,
    EntryCall::NextBack,
    EntryCall::Nth(0),
    EntryCall::Nth(1),
    EntryCall::NthBack(0),
    EntryCall::NthBack(1),
    EntryCall::Nth(7),
    EntryCall::NthBack(6),
];

// ID and LOST of a read format.
const ID: u64 = 4;

const LOST: u64 = 16;

// A number that is there if a read format has a bit.
fn number_under(format: u64, bit: u64, number: u64) -> Option<u64> {
    if format & bit == 0 {
        None
    } else {
        Some(number)
    }
}

// Whether it is the entry with that value in that form.
fn has_numbers(format: u64, entry: &GroupEntry, value: u64) -> bool {
    let id = number_under(format, ID, value.wrapping_add(100));
    let lost = number_under(format, LOST, value.wrapping_add(200));
    entry.value() == value && entry.id() == id && entry.lost() == lost
}

// The same of an entry and a value that may be absent.
fn is_entry(format: u64, entry: Option<GroupEntry>, value: Option<u64>) -> bool {
    match entry {
        Some(entry) => match value {
            Some(value) => has_numbers(format, &entry, value),
            None => false,
        },
        None => value.is_none(),
    }
}

// The same call of a list's iterator.
fn list_call(list: &mut Copied<Iter<'_, u64>>, call: EntryCall) -> Option<u64> {
    match call {
        EntryCall::Next => list.next(),
        EntryCall::NextBack => list.next_back(),
        EntryCall::Nth(place) => list.nth(place),
        EntryCall::NthBack(place) => list.nth_back(place),
    }
}

// Whether four calls, by their indices in `CALLS`, return what those of a list's iterator do.
fn goes_as_a_list(entries: GroupIter<'_>, format: u64, values: &[u64], code: usize) -> bool {
    let mut entries = entries;
    let mut list = values.iter().copied();
    for place in [code, code / 8, code / 64, code / 512] {
        let call = CALLS[place % 8];
        let entry = entry_call(&mut entries, call);
        let value = list_call(&mut list, call);
        if !is_entry(format, entry, value) || entries.len() != list.len() {
            return false;
        }
    }
    true
}

// Whether any mixture of four calls does.
fn go_as_a_list(group: &ReadGroup<'_>, format: u64, values: &[u64]) -> bool {
    for code in 0..4096usize {
        if !goes_as_a_list(group.entries(), format, values, code) {
            return false;
        }
    }
    group.len() == values.len()
}

// Whether iterating over the entries of these numbers is like iterating over a list of their values.
fn is_as_a_list(format: ReadFormat, numbers: CowSlice<'_, u64>, values: &[u64]) -> bool {
    if numbers.len() % format.element_len() != 0 {
        return false;
    }
    let group = ReadGroup::from_parts(format, 0, 0, numbers);
    let is_as_a_list = go_as_a_list(&group, format.bits(), values);
    drop(group);
    is_as_a_list
}

// The same of borrowed and of owned numbers.
fn are_as_lists(alloc: Global, format: ReadFormat, numbers: &[u64], values: &[u64]) -> bool {
    match Vec::from_slice(alloc, numbers) {
        Ok(owned) => {
            is_as_a_list(format, CowSlice::Borrowed(numbers), values)
                && is_as_a_list(format, CowSlice::Owned(owned), values)
        }
        Err(_) => false,
    }
}

// Of a read format and the numbers under it, the first count of entries that are not like a list.
fn wrong_count(alloc: Global, bits: u64, numbers: &[u64]) -> Option<usize> {
    let format = ReadFormat::from_bits_retain(bits);
    for count in 0..7usize {
        let len = count.saturating_mul(format.element_len());
        let first = &numbers[..len.min(numbers.len())];
        if !are_as_lists(alloc, format, first, &VALUES[..count]) {
            return Some(count);
        }
    }
    None
}

#[test]
fn mixtures_of_calls(rt: HostRuntime) {
    for &(bits, numbers) in &GROUPS {
        check_debug(&rt, wrong_count(rt.alloc(), bits, numbers), "None");
    }
}

fn five() -> ReadGroup<'static> {
    ReadGroup::from_parts(
        ReadFormat::GROUP,
        0,
        0,
        CowSlice::Borrowed(&[1, 2, 3, 4, 5]),
    )
}

// A copy of a group's entries while these advance: how many are left of both, and what the copy
// returns from both ends.
fn text_of_copy(alloc: Global, group: &ReadGroup<'_>) -> String {
    let mut text = String::new(alloc);
    let mut entries = group.entries();
    let _ = entries.nth(1);
    if let Ok(copy) = entries.clone() {
        let _ = entries.nth(2);
        add(&mut text, &entries.len());
        add_answers(&mut text, alloc, copy);
    }
    text
}

// Adds how many entries are left, and the results of three calls.
fn add_answers(text: &mut String, alloc: Global, entries: GroupIter<'_>) {
    let mut entries = entries;
    add(text, &entries.size_hint());
    let calls = [EntryCall::NthBack(1), EntryCall::Next, EntryCall::Next];
    add(text, &entry_calls(alloc, &mut entries, &calls));
}

#[test]
fn a_copy_of_entries_goes_on_alone(rt: HostRuntime) {
    check_text(
        &rt,
        text_of_copy(rt.alloc(), &five()),
        "0 (3, Some(3)) Ok([Some(GroupEntry { value: 4, id: None, lost: None }), \
            Some(GroupEntry { value: 3, id: None, lost: None }), None]) ",
    );
}

// Entries with values and ids, under a read format without times.
pub fn with_ids() -> ReadGroup<'static> {
    let numbers = CowSlice::Borrowed(&[10u64, 1, 20, 2, 30, 2]);
    ReadGroup::from_parts(ReadFormat::from_bits_retain(0x0c), 7, 8, numbers)
}

// An entry with a value and its lost samples, with both times.
pub fn without_ids() -> ReadGroup<'static> {
    let numbers = CowSlice::Borrowed(&[10u64, 1]);
    ReadGroup::from_parts(ReadFormat::from_bits_retain(0x1b), 7, 8, numbers)
}

// No entries.
pub fn of_none() -> ReadGroup<'static> {
    ReadGroup::from_parts(ReadFormat::GROUP, 0, 0, CowSlice::Borrowed(&[]))
}

// The results of the calls of a read.
fn numbers_of_read(read: &ReadValue) -> [Option<u64>; 5] {
    [
        Some(read.value()),
        read.time_enabled(),
        read.time_running(),
        read.id(),
        read.lost(),
    ]
}

// A read of one counter with every number.
fn single() -> ReadValue {
    ReadValue::from_parts(ReadFormat::from_bits_retain(0x17), 3, 4, 5, 6, 7)
}

// One with only its id.
pub fn single_with_id() -> ReadValue {
    ReadValue::from_parts(ReadFormat::ID, 3, 4, 5, 6, 7)
}

#[test]
fn single_reads(rt: HostRuntime) {
    let numbers = [
        numbers_of_read(&single()),
        numbers_of_read(&single_with_id()),
    ];
    check_debug(
        &rt,
        (numbers, single_with_id()),
        "([[Some(3), Some(4), Some(5), Some(6), Some(7)], [Some(3), None, None, Some(6), None]], \
            ReadValue { value: 3, time_enabled: None, time_running: None, id: Some(6), lost: None })",
    );
}

// A read record and its clone.
fn read_and_clone() -> Result<(Read, Read), AllocError> {
    let read = Read {
        pid: 1,
        tid: 2,
        values: single(),
    };
    let copy = read.clone()?;
    Ok((read, copy))
}

#[test]
fn reads_are_cloned(rt: HostRuntime) {
    check_debug(
        &rt,
        read_and_clone(),
        "Ok((Read { pid: 1, tid: 2, values: ReadValue { value: 3, time_enabled: Some(4), \
            time_running: Some(5), id: Some(6), lost: Some(7) } }, \
            Read { pid: 1, tid: 2, values: ReadValue { value: 3, time_enabled: Some(4), \
            time_running: Some(5), id: Some(6), lost: Some(7) } }))",
    );
}

// A clone of a read, converted to a group of one and back.
fn after_a_group(alloc: Global) -> ParseResult<Result<ReadValue, TryFromGroupError>> {
    let group = ReadGroup::from_value(alloc, single().clone()?)?;
    Ok(ReadValue::try_from(group))
}

// A read, converted to a group of one and back, twice.
fn after_two_groups(alloc: Global) -> ParseResult<Result<ReadValue, TryFromGroupError>> {
    match after_a_group(alloc)? {
        Ok(read) => through_a_group(alloc, read),
        Err(error) => Ok(Err(error)),
    }
}

// Asserts that it is the read of one counter with every number.
fn check_single(
    rt: &(impl AllocGlobal + Abort),
    answer: ParseResult<Result<ReadValue, TryFromGroupError>>,
) {
    let want = "Ok(Ok(ReadValue { value: 3, time_enabled: Some(4), time_running: Some(5), \
        id: Some(6), lost: Some(7) }))";
    check_debug(rt, answer, want);
}

#[test]
fn a_read_is_the_same_after_a_group(rt: HostRuntime) {
    let alloc = rt.alloc();
    check_single(&rt, after_a_group(alloc));
    check_single(&rt, through_a_group(alloc, single()));
    check_single(&rt, after_two_groups(alloc));
}

// The results of a read that is made from the times of one group and the first entry of another.
fn read_of(group: &ReadGroup<'_>, entries: &ReadGroup<'_>) -> Option<[Option<u64>; 5]> {
    match entries.get(0) {
        Some(entry) => Some(numbers_of_read(&ReadValue::from_group_and_entry(group, &entry))),
        None => None,
    }
}

// Those of a group without ids and one with them: of the second and the first, of the second alone, and of
// the first and the second.
fn text_of_reads(alloc: Global) -> String {
    let mut text = String::new(alloc);
    let values = ReadGroup::from_parts(ReadFormat::GROUP, 0, 0, CowSlice::Borrowed(&[5]));
    let with_ids = ReadFormat::from_bits_retain(0x0c);
    let others = ReadGroup::from_parts(with_ids, 1, 2, CowSlice::Borrowed(&[8, 9]));
    add(&mut text, &read_of(&others, &values));
    add(&mut text, &read_of(&others, &others));
    add(&mut text, &read_of(&values, &others));
    drop(values);
    drop(others);
    text
}

#[test]
fn entry_of_another_group(rt: HostRuntime) {
    check_text(
        &rt,
        text_of_reads(rt.alloc()),
        "Some([Some(5), None, None, Some(0), None]) Some([Some(8), None, None, Some(9), None]) \
            Some([Some(8), None, None, None, None]) ",
    );
}
