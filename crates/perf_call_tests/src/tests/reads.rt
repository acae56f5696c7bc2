//! Reads of counters, alone and in groups.

use crate::tests::checks::check_answer;
use perf_event_data::endian::Little;
use perf_event_data::parse::{Parse, ParseConfig, ParseResult, Parser};
use perf_event_data::sys::perf_event_attr;
use perf_event_data::{Read, ReadGroup, ReadValue};
use perf_test_helpers::attributes::attribute;
use std::alloc::{AllocError, Global};

const ID: u64 = 1 << 2;

const GROUP: u64 = 1 << 3;

// All but GROUP.
const ALL_OF_ONE: u64 = 0x17;

// The attribute of an event whose counters are read in this format.
fn reading(read_format: u64) -> perf_event_attr {
    attribute(0, read_format)
}

// The configuration of that attribute.
fn with_format(read_format: u64) -> ParseConfig<Little> {
    ParseConfig::from(reading(read_format))
}

// READ of process 1 and thread 2, with the numbers from 3 to 7.
const SEVEN: &[u8] = b"\x08\0\0\0\0\0\x38\0\x01\0\0\0\x02\0\0\0\x03\0\0\0\0\0\0\0\
    \x04\0\0\0\0\0\0\0\x05\0\0\0\0\0\0\0\x06\0\0\0\0\0\0\0\x07\0\0\0\0\0\0\0";

// The length of the group that a read makes, and the read of that group.
fn text_of_one(alloc: Global) -> ParseResult<String> {
    let mut parser = Parser::new(alloc, &SEVEN[8..], with_format(ALL_OF_ONE));
    let read = Read::parse(&mut parser)?;
    let group = ReadGroup::from_value(alloc, read.values)?;
    let len = group.len();
    match ReadValue::try_from(group) {
        Ok(read) => Ok(format!(in alloc; "{len} {read:?}")?),
        Err(error) => Ok(format!(in alloc; "{len} {error}")?),
    }
}

#[test]
fn a_read_as_a_group_and_back(rt: HostRuntime) {
    let want = "1 ReadValue { value: 3, time_enabled: Some(4), time_running: Some(5), \
        id: Some(6), lost: Some(7) }";
    check_answer(&rt, "the read", text_of_one(rt.alloc()), want);
}

// The bytes of numbers in little endian.
fn bytes_of(alloc: Global, numbers: &[u64]) -> Result<Vec<u8>, AllocError> {
    let mut bytes = Vec::new(alloc);
    for number in numbers {
        bytes.extend_from_slice(&number.to_le_bytes())?;
    }
    Ok(bytes)
}

// The text of the read that an entry of one group makes with the numbers of another.
fn text_of_entry(
    alloc: Global,
    values: &ReadGroup<'_>,
    with_ids: &ReadGroup<'_>,
) -> Result<String, AllocError> {
    match values.get(0) {
        Some(entry) => {
            let read = ReadValue::from_group_and_entry(with_ids, &entry);
            format!(in alloc; "{read:?}")
        }
        None => String::from_str(alloc, "no entry"),
    }
}

fn text_of_groups(alloc: Global) -> ParseResult<String> {
    let bytes = bytes_of(alloc, &[1, 5, 1, 8, 9])?;
    let mut parser = Parser::new(alloc, bytes.as_slice(), with_format(GROUP));
    let values = ReadGroup::parse(&mut parser)?;
    let mut parser = parser.reconfigure(with_format(GROUP | ID));
    let with_ids = ReadGroup::parse(&mut parser)?;
    let text = text_of_entry(alloc, &values, &with_ids);
    drop(values);
    drop(with_ids);
    Ok(text?)
}

#[test]
fn an_entry_with_the_numbers_of_another_group(rt: HostRuntime) {
    let want =
        "ReadValue { value: 5, time_enabled: None, time_running: None, id: Some(0), lost: None }";
    check_answer(&rt, "the entry", text_of_groups(rt.alloc()), want);
}
