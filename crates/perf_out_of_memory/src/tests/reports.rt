//! Reports and counts: what is printed and counted before a failed allocation stays, and the error
//! that is returned is that memory ran out.

use crate::tests::page::Page;
use crate::tests::requests::{Found, tell};
use perf_event_data::RunEnd;
use perf_event_data::endian::Little;
use perf_event_data::parse::ErrorKind;
use perf_reports::counts::Counts;
use perf_reports::printing::{Report, print_buffer};
use perf_reports::streams::count_stream;
use std::alloc::Global;
use std::io::Write;

// An attribute of 64 bytes whose samples have an address and a call chain. The tasks 2 and 4 of the
// process 1 are called `sh` and by a name of 96 bytes.
const TASKS: &[u8] = b"\0\0\0\0\x40\0\0\0\0\0\0\0\0\0\0\0\0\0\0\0\0\0\0\0\x21\0\0\0\0\0\0\0\
    \0\0\0\0\0\0\0\0\0\0\0\0\0\0\0\0\0\0\0\0\0\0\0\0\0\0\0\0\0\0\0\0\
    \x03\0\0\0\0\0\x18\0\x01\0\0\0\x02\0\0\0sh\0\0\0\0\0\0\
    \x03\0\0\0\0\0\x70\0\x01\0\0\0\x04\0\0\0\
    nnnnnnnnnnnnnnnnnnnnnnnnnnnnnnnnnnnnnnnnnnnnnnnn\
    nnnnnnnnnnnnnnnnnnnnnnnnnnnnnnnnnnnnnnnnnnnnnnnn";

const LINES: &[u8] = b"comm 1 2 sh\ncomm 1 4 \
    nnnnnnnnnnnnnnnnnnnnnnnnnnnnnnnnnnnnnnnnnnnnnnnn\
    nnnnnnnnnnnnnnnnnnnnnnnnnnnnnnnnnnnnnnnnnnnnnnnn\n";

// The same attribute, and samples: address 1 without calls, and address 2 with the calls 10 and 20.
const SAMPLES: &[u8] = b"\0\0\0\0\x40\0\0\0\0\0\0\0\0\0\0\0\0\0\0\0\0\0\0\0\x21\0\0\0\0\0\0\0\
    \0\0\0\0\0\0\0\0\0\0\0\0\0\0\0\0\0\0\0\0\0\0\0\0\0\0\0\0\0\0\0\0\
    \x09\0\0\0\0\0\x18\0\x01\0\0\0\0\0\0\0\0\0\0\0\0\0\0\0\
    \x09\0\0\0\0\0\x28\0\x02\0\0\0\0\0\0\0\x02\0\0\0\0\0\0\0\x0A\0\0\0\0\0\0\0\x14\0\0\0\0\0\0\0";

// The number of lines, if the text is of whole lines.
fn whole_lines(text: &[u8]) -> Option<u64> {
    if !text.is_empty() && !text.ends_with(b"\n") {
        return None;
    }
    let mut count = 0u64;
    for byte in text {
        count = count.saturating_add(u64::from(*byte == b'\n'));
    }
    Some(count)
}

// Whether this is the text of an error that memory ran out: of a record, or of a line.
fn is_starved(error: &[u8]) -> bool {
    error == b"out of memory".as_slice() || error == b"memory allocation failed".as_slice()
}

// What was printed: the number of whole lines, and 0 with no error, 1 with one that memory ran out, or else 2.
fn end_of(text: &[u8], error: &[u8]) -> Found {
    match whole_lines(text) {
        Some(count) if error.is_empty() => [count, 0, 0, 0],
        Some(count) if is_starved(error) => [count, 1, 0, 0],
        _ => [0, 2, 0, 0],
    }
}

// How a recording is printed. What is printed is compared with these lines, if any are given.
fn printed(alloc: Global, recording: &[u8], report: Report, lines: &[u8]) -> Found {
    let (outcome, output, mut errors) = print_buffer(
        alloc,
        recording,
        Page::new(),
        Page::new(),
        report,
    );
    let _ = match outcome {
        Ok(true) => Ok(()),
        Ok(false) => write!(errors, "refused"),
        Err(error) => write!(errors, "{error}"),
    };
    if lines.is_empty() || lines.starts_with(output.text()) {
        end_of(output.text(), errors.text())
    } else {
        [0, 2, 0, 0]
    }
}

// The ends that may be: with both lines; out of memory after the first one, or before it.
const ENDINGS: [Found; 3] = [[2, 0, 0, 0], [1, 1, 0, 0], [0, 1, 0, 0]];

#[test]
fn a_report_of_tasks(rt: HostRuntime) {
    let found = printed(rt.alloc(), TASKS, Report::Tasks, LINES);
    tell(&rt, "a report of tasks", found, &ENDINGS);
}

#[test]
fn a_report_of_samples(rt: HostRuntime) {
    let found = printed(rt.alloc(), SAMPLES, Report::Samples, b"");
    tell(&rt, "a report of samples", found, &ENDINGS);
}

// The counts, and 0 if it ended with the bytes, 1 if out of memory, or else 2.
fn with_end(counts: &Counts, end: u64) -> Found {
    [counts.records, counts.refused, counts.checksum, end]
}

// The counts of the samples, and how it ended.
fn counted(alloc: Global) -> Found {
    match count_stream(alloc, SAMPLES, Little, true) {
        Ok((counts, RunEnd::Done)) => with_end(&counts, 0),
        Ok((counts, RunEnd::Fault(error))) if error.kind() == ErrorKind::OutOfMemory => {
            with_end(&counts, 1)
        }
        Ok((counts, _)) => with_end(&counts, 2),
        Err(_) => with_end(&Counts::NONE, 2),
    }
}

// Of the first sample 9 + 24 + 1, and of the second 9 + 40 + 2 + 10 + 20.
#[test]
fn counts_of_samples(rt: HostRuntime) {
    let wanted = [[2, 0, 34 + 81, 0], [1, 0, 34, 1]];
    tell(&rt, "counts of samples", counted(rt.alloc()), &wanted);
}
