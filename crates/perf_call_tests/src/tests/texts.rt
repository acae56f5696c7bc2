//! The arguments of `perfrec`, and what it writes.

use crate::tests::checks::check_same;
use crate::tests::runs::{RunCase, check_run};
use perf_event_data::Record;
use perf_event_data::endian::Little;
use perf_event_data::parse::{ErrorKind, ParseError, ParseResult};
use perf_event_data::sys::perf_event_header;
use perf_lines::outcome::Outcome;
use perf_run::line_of;
use perf_test_helpers::drops::drop_record;
use perf_text::args::command;
use perf_text::command::Command;
use perf_text::order::OrderName;
use std::alloc::{AllocError, Global};
use std::process::Abort;

// The text of `count` frames of a header alone, and its last line.
fn text_of_many(alloc: Global, count: usize, end: &str) -> Result<String, AllocError> {
    let mut text = String::new(alloc);
    for index in 0..count {
        write!(text, "{index} 22 0 8 Unknown data=\n")?;
    }
    text.push_str(end)?;
    Ok(text)
}

// Asserts the text of `count` frames of a header alone for a limit.
fn check_many(
    rt: &(impl AllocGlobal + Abort),
    count: usize,
    limit: usize,
    end: &str,
) -> Result<(), AllocError> {
    let text = text_of_many(rt.alloc(), count.min(limit), end)?;
    let input = [22, 0, 0, 0, 0, 0, 8, 0].repeat(rt.alloc(), count)?;
    let case = RunCase {
        limit,
        with_attr: false,
        text: &text,
        outcome: Outcome::Clean,
    };
    check_run(rt, input.as_slice(), Little, case);
    Ok(())
}

const DONE: &str = "end done\n";

const LIMIT: &str = "end limit\n";

// The number of frames, more than are kept at a time, the limit, and the last line.
const MANY: [(usize, usize, &str); 5] = [
    (256, 256, LIMIT),
    (256, 257, DONE),
    (257, 256, LIMIT),
    (600, 1000, DONE),
    (600, 513, LIMIT),
];

#[test]
fn frames_are_numbered_on_from_batch_to_batch(rt: HostRuntime) -> Result<(), AllocError> {
    for &(count, limit, end) in &MANY {
        check_many(&rt, count, limit, end)?;
    }
    Ok(())
}

// The line of a frame that is refused by an error of this kind.
fn text_of_line(alloc: Global, kind: ErrorKind) -> ParseResult<String> {
    let header = perf_event_header {
        type_: 1,
        misc: 2,
        size: 3,
    };
    let answer: ParseResult<Record<'_>> = Err(ParseError::custom(kind, "why"));
    let line = line_of(alloc, 7, &header, &answer);
    drop_record(answer);
    line
}

// The line of an error of each kind.
const KINDS: [(ErrorKind, &str); 6] = [
    (ErrorKind::Eof, "7 1 2 3 refused Eof"),
    (ErrorKind::InvalidRecord, "7 1 2 3 refused InvalidRecord"),
    (
        ErrorKind::UnsupportedConfig,
        "7 1 2 3 refused UnsupportedConfig",
    ),
    (
        ErrorKind::UnsupportedData,
        "7 1 2 3 refused UnsupportedData",
    ),
    (ErrorKind::External, "7 1 2 3 refused External"),
    (ErrorKind::OutOfMemory, "7 1 2 3 refused OutOfMemory"),
];

#[test]
fn each_kind_has_its_name(rt: HostRuntime) -> ParseResult<()> {
    for &(kind, text) in &KINDS {
        let line = text_of_line(rt.alloc(), kind)?;
        check_same(&rt, "the line", line.as_str(), text);
    }
    Ok(())
}

// Arguments.
fn owned(alloc: Global, words: &[&str]) -> Result<Vec<String>, AllocError> {
    let mut owned = Vec::new(alloc);
    for word in words {
        owned.push(String::from_str(alloc, word)?)?;
    }
    Ok(owned)
}

// Asserts what arguments ask for.
fn check_command(rt: &(impl AllocGlobal + Abort), words: &[&str], want: Option<Command>) {
    match owned(rt.alloc(), words) {
        Ok(words) => check_same(rt, "what is asked", command(&words), want),
        Err(_) => panic!(rt; "no memory"),
    }
}

const COMMANDS: [(&str, &str, OrderName, usize); 7] = [
    ("little", "10", OrderName::Little, 10),
    ("big", "0", OrderName::Big, 0),
    ("native", "007", OrderName::Native, 7),
    (
        "little",
        "18446744073709551615",
        OrderName::Little,
        usize::MAX,
    ),
    ("little", "00000000000000000000000001", OrderName::Little, 1),
    (
        "big",
        "0000018446744073709551615",
        OrderName::Big,
        usize::MAX,
    ),
    (
        "native",
        "18446744073709551614",
        OrderName::Native,
        usize::MAX - 1,
    ),
];

#[test]
fn an_order_and_a_limit_are_a_command(rt: HostRuntime) {
    for &(name, digits, order, limit) in &COMMANDS {
        let want = Command {
            order,
            limit,
            with_attr: false,
        };
        check_command(&rt, &[name, digits], Some(want));
        let want = Command {
            with_attr: true,
            ..want
        };
        check_command(&rt, &[name, digits, "attr"], Some(want));
    }
}

// Arguments that are no command: too few, names that are no byte order, digits that are no limit or
// of another script, arguments in other places, a wrong third argument, and too many.
const NO_COMMANDS: [&[&str]; 62] = [
    &[],
    &["--help"],
    &["-h"],
    &["little"],
    &["big"],
    &["native"],
    &["3"],
    &["attr"],
    &["middle", "3"],
    &["Little", "3"],
    &["BIG", "3"],
    &["", "3"],
    &["little ", "3"],
    &[" little", "3"],
    &["little 3"],
    &["--help", "3"],
    &["3", "little"],
    &["little", ""],
    &["little", "x"],
    &["little", "1x"],
    &["little", "-1"],
    &["little", "+1"],
    &["little", " 1"],
    &["little", "1 "],
    &["little", "0x1"],
    &["little", "0x10"],
    &["little", "1_0"],
    &["little", "1.0"],
    &["little", "1e1"],
    &["little", "18446744073709551616"],
    &["little", "00018446744073709551616"],
    &["little", "99999999999999999999"],
    &["little", "340282366920938463463374607431768211456"],
    &["little", "\u{661}\u{660}"],
    &["little", "1\u{660}"],
    &["little", "\u{ff11}"],
    &["little", "--help"],
    &["little", "little"],
    &["little", "attr"],
    &["little", "attr", "3"],
    &["attr", "little", "3"],
    &["attr", "3", "attr"],
    &["big", "x", "attr"],
    &["native", "", "attr"],
    &["native", "18446744073709551616", "attr"],
    &["little", "\u{661}", "attr"],
    &["little", "3", ""],
    &["little", "3", "Attr"],
    &["little", "3", "ATTR"],
    &["little", "3", " attr"],
    &["little", "3", "attr "],
    &["little", "3", "attrs"],
    &["little", "3", "att"],
    &["little", "3", "3"],
    &["little", "3", "little"],
    &["little", "3", "--help"],
    &["--help", "little", "3"],
    &["middle", "3", "attr"],
    &["little", "3", "attr", "attr"],
    &["little", "3", "attr", ""],
    &["little", "3", "attr", "--help"],
    &["little", "3", "4", "attr"],
];

#[test]
fn other_words_are_no_command(rt: HostRuntime) {
    for words in &NO_COMMANDS {
        check_command(&rt, *words, None);
    }
}

const STATUSES: [(Outcome, u8); 5] = [
    (Outcome::Clean, 0),
    (Outcome::Refused, 1),
    (Outcome::BadAttr, 2),
    (Outcome::Faulted, 3),
    (Outcome::Stopped, 3),
];

#[test]
fn each_outcome_has_its_status(rt: HostRuntime) {
    for &(outcome, status) in &STATUSES {
        check_same(&rt, "the status", outcome.status(), status);
    }
}
