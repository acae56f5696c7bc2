//! Runs over a buffered reader, whose records are read in place.
//!
//! The first request for memory of each test is the reader's, and the next ones are the run's.

use crate::tests::page::Page;
use perf_event_data::endian::Little;
use perf_event_data::parse::{ErrorKind, ParseConfig, ParseResult, Parser};
use perf_event_data::sys::{perf_event_attr, perf_event_header};
use perf_event_data::{Record, RunEnd, read_records};
use perf_lines::outcome::Outcome;
use perf_run::{line_of, run};
use perf_test_helpers::drops::drop_run;
use std::alloc::Global;
use std::io::BufReader;
use std::process::Abort;

// Whether a request for memory is granted, and whether the next one is.
fn are_granted(alloc: Global) -> (bool, bool) {
    let first = Vec::from_slice(alloc, &[0u8]).is_ok();
    (first, Vec::from_slice(alloc, &[0u8]).is_ok())
}

// The line of a frame, tried again if memory runs out: one request is refused, and no further one.
fn line_at_last(
    alloc: Global,
    index: usize,
    header: &perf_event_header,
    answer: &ParseResult<Record<'_>>,
) -> ParseResult<String> {
    match line_of(alloc, index, header, answer) {
        Ok(line) => Ok(line),
        Err(_) => line_of(alloc, index, header, answer),
    }
}

// A header, and the record or why there is none.
type Answer<'p> = (perf_event_header, ParseResult<Record<'p>>);

// Whether what is listed is a prefix of these lines.
fn are_first(alloc: Global, frames: &[Answer<'_>], lines: &[&str]) -> bool {
    for (index, ((header, answer), want)) in frames.iter().zip(lines).enumerate() {
        match line_at_last(alloc, index, header, answer) {
            Ok(line) if line.as_str() == *want => {}
            _ => return false,
        }
    }
    frames.len() <= lines.len()
}

// How a run ended.
fn ending(end: &RunEnd) -> &'static str {
    match end {
        RunEnd::Limit => "limit",
        RunEnd::Done => "done",
        RunEnd::CutHeader => "cut",
        RunEnd::Fault(error) if error.kind() == ErrorKind::OutOfMemory => "out of memory",
        RunEnd::Fault(_) => "fault",
    }
}

// Bytes, the sample type that they are read under, and the limit of a run over them.
type Input<'a> = (&'a [u8], u64, usize);

// What a run over a reader lists: how many frames, whether they are the first of these lines, how it ended, and
// whether the next two requests are granted, which shows how many requests the run made. None without a
// reader.
fn listed(
    alloc: Global,
    input: Input<'_>,
    lines: &[&str],
) -> Option<(usize, bool, &'static str, (bool, bool))> {
    let (bytes, sample_type, limit) = input;
    let reader = BufReader::with_capacity(alloc, 8192, bytes).ok()?;
    let attr = perf_event_attr {
        sample_type,
        ..Default::default()
    };
    let mut parser = Parser::new(alloc, reader, ParseConfig::<Little>::from(attr));
    let run = read_records(&mut parser, limit);
    let grants = are_granted(alloc);
    let (count, end) = (run.frames.len(), ending(&run.end));
    let are_first = are_first(alloc, &run.frames, lines);
    drop_run(run);
    drop(parser);
    Some((count, are_first, end, grants))
}

// What a run is over, and its lines and its end, if it has memory.
type Row<'a> = (&'a str, Input<'a>, &'a [&'a str], &'a str);

// Asserts that runs list frames with these lines and end so, or, if memory runs out, that they list the first of
// them. Prints which it is, and what is granted then.
fn check_runs(rt: &(impl AllocGlobal + Print + Abort), rows: &[Row<'_>]) {
    for (name, input, lines, last) in rows {
        let Some((count, are_first, end, (first, second))) = listed(rt.alloc(), *input, *lines)
        else {
            continue;
        };
        let _ = println!(rt; "{name}: {count} listed, {end}, then [{first}, {second}]");
        assert!(rt; are_first, "{name}: other lines");
        assert!(rt; is_end(count, end, lines.len(), *last), "{name}: {end}");
    }
}

// Whether a run may end so, whose whole list has these counts and ends.
fn is_end(count: usize, end: &str, whole: usize, last: &str) -> bool {
    end == "out of memory" || count == whole && end == last
}

// The sample types of call chains alone, and of them and raw bytes.
const CHAINS: u64 = 0x20;

const CHAINS_AND_RAW: u64 = 0x420;

// The line of a sample that is refused.
const REFUSED: &[&str] = &["0 9 0 24 refused Eof"];

// The tests with refused allocations try each row alone.
const RUNS: [Row<'static>; 6] = [
    ("nothing", (b"", 0, 10), &[], "done"),
    ("half a header", (b"\x0D\0\0\0", 0, 10), &[], "cut"),
    (
        "no frame",
        (b"\x0D\0\0\0\0\0\x10\0\x05\0\0\0\0\0\0\0", 0, 0),
        &[],
        "limit",
    ),
    // Lost samples, and then a sample with a call chain.
    (
        "a call chain",
        (
            b"\x0D\0\0\0\0\0\x10\0\x05\0\0\0\0\0\0\0\
            \x09\0\0\0\0\0\x20\0\x02\0\0\0\0\0\0\0\x01\0\0\0\0\0\0\0\x02\0\0\0\0\0\0\0",
            CHAINS,
            10,
        ),
        &[
            "0 13 0 16 LostSamples lost=5",
            "1 9 0 32 Sample callchain=1,2",
        ],
        "done",
    ),
    // A call chain that claims four numbers and contains one. The sample is refused for that, even if
    // the allocation of its box fails.
    (
        "a short chain",
        (
            b"\x09\0\0\0\0\0\x18\0\x04\0\0\0\0\0\0\0\x01\0\0\0\0\0\0\0",
            CHAINS,
            10,
        ),
        REFUSED,
        "done",
    ),
    // A call chain without the raw bytes that should follow. The sample is refused for that, even if
    // the allocation of its box fails, but if that of the chain's list fails, out of memory comes
    // first.
    (
        "a chain alone",
        (
            b"\x09\0\0\0\0\0\x18\0\x01\0\0\0\0\0\0\0\x07\0\0\0\0\0\0\0",
            CHAINS_AND_RAW,
            10,
        ),
        REFUSED,
        "done",
    ),
];

#[test]
fn runs_over_a_reader(rt: HostRuntime) {
    check_runs(&rt, &RUNS);
}

// ---- the text of a run

// Whether this is the text of a run with a limit of no frames. Its first request is the reader's, and
// the next ones are the text's.
fn is_text(text: &[u8], outcome: Outcome) -> bool {
    match outcome {
        Outcome::Clean => text == b"end limit\n".as_slice(),
        Outcome::Faulted => text == b"end fault OutOfMemory\n".as_slice(),
        Outcome::Stopped => text.is_empty(),
        Outcome::Refused | Outcome::BadAttr => false,
    }
}

#[test]
fn the_text_of_a_run_without_a_reader(rt: HostRuntime) {
    let mut page = Page::new();
    let empty: &[u8] = &[];
    let outcome = run(rt.alloc(), empty, &mut page, Little, 0, false, 8192);
    let text = page.text();
    let _ = println!(rt; "a text: {outcome:?}, {} bytes", text.len());
    assert!(rt; is_text(text, outcome), "{outcome:?}");
}
