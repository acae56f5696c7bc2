//! The texts of errors, and lists that may be borrowed.

use crate::tests::checks::{add, check_answer, check_text};
use anyhow::anyhow;
use perf_base::{CowSlice, ErrorKind, ParseError};
use perf_test_inputs::errors::text_of_error;
use std::alloc::{AllocError, AllocFailed, Global};
use std::io;
use std::process::Abort;

fn check_error(rt: &(impl AllocGlobal + Abort), error: ParseError, want: &str) {
    check_answer(rt, text_of_error(rt.alloc(), &error), want);
}

const KINDS: [(ErrorKind, &str); 6] = [
    (
        ErrorKind::Eof,
        "Eof, Some(\"why\"), no cause, unexpected EOF during parsing: why",
    ),
    (
        ErrorKind::InvalidRecord,
        "InvalidRecord, Some(\"why\"), no cause, invalid record: why",
    ),
    (
        ErrorKind::UnsupportedConfig,
        "UnsupportedConfig, Some(\"why\"), no cause, unsupported config: why",
    ),
    (
        ErrorKind::UnsupportedData,
        "UnsupportedData, Some(\"why\"), no cause, unsupported serialized data: why",
    ),
    (
        ErrorKind::External,
        "External, Some(\"why\"), no cause, user-provided error: why",
    ),
    (
        ErrorKind::OutOfMemory,
        "OutOfMemory, Some(\"why\"), no cause, out of memory: why",
    ),
];

#[test]
fn an_error_is_written_with_its_message(rt: HostRuntime) {
    for &(kind, want) in &KINDS {
        check_error(&rt, ParseError::custom(kind, "why"), want);
    }
}

#[test]
fn an_error_is_written_with_its_cause(rt: HostRuntime) {
    let want = "External, None, no disk, user-provided error: no disk";
    check_error(&rt, ParseError::new(anyhow!("no disk")), want);
    check_error(&rt, ParseError::from(anyhow!("no disk")), want);
}

#[test]
fn out_of_memory_and_an_early_end_have_no_more_text(rt: HostRuntime) {
    let eof = "Eof, None, no cause, unexpected EOF during parsing";
    check_error(&rt, ParseError::eof(), eof);
    let want = "OutOfMemory, None, no cause, out of memory";
    let lost = AllocFailed { value: 1u8 };
    check_error(&rt, ParseError::out_of_memory(), want);
    check_error(&rt, AllocError.into(), want);
    check_error(&rt, lost.into(), want);
}

const EXTERNAL: &str = "External, None, no cause, user-provided error";

const INPUT_ERRORS: [(io::ErrorKind, &str); 4] = [
    (
        io::ErrorKind::UnexpectedEof,
        "Eof, None, no cause, unexpected EOF during parsing",
    ),
    (io::ErrorKind::Interrupted, EXTERNAL),
    (io::ErrorKind::OutOfMemory, EXTERNAL),
    (io::ErrorKind::Other, EXTERNAL),
];

#[test]
fn an_input_error_is_an_early_end_or_external(rt: HostRuntime) {
    for &(kind, want) in &INPUT_ERRORS {
        check_error(&rt, io::Error::from(kind).into(), want);
    }
}

fn add_list(text: &mut String, list: CowSlice<'_, u16>) {
    add(text, &(list.as_slice(), list.len(), list.is_empty()));
    drop(list);
}

fn text_of_lists(alloc: Global, items: &[u16]) -> String {
    let mut text = String::new(alloc);
    add_list(&mut text, CowSlice::Borrowed(items));
    if let Ok(items) = items.to_vec(alloc) {
        add_list(&mut text, CowSlice::Owned(items));
    }
    text
}

#[test]
fn a_list_reads_alike_borrowed_and_owned(rt: HostRuntime) {
    let want = "([7, 8, 9], 3, false) ([7, 8, 9], 3, false) ";
    check_text(&rt, text_of_lists(rt.alloc(), &[7, 8, 9]), want);
    check_text(
        &rt,
        text_of_lists(rt.alloc(), &[]),
        "([], 0, true) ([], 0, true) ",
    );
}
