//! Readers that fail, and a buffer that counts its faults.

ghost use Rattle.std.specs.Prelude.{◌≡◌, true, false, None, Some, take, nat_lt};

use crate::tests::checks::check_text;
use anyhow::anyhow;
use perf_event_data::endian::Little;
use perf_event_data::parse::{
    ErrorKind, ParseBuf, ParseBufChunk, ParseConfig, ParseError, ParseResult, Parser,
};
use perf_test_runs::perfrec::Perfrec;
use perf_test_runs::{error_of_record, fault_of_run, text_of_runs};
use std::alloc::{AllocError, Global};
use std::io;
use std::io::{BufReader, Read};
use std::process::Abort;
use std::test::Fail;

// Two frames of 16 bytes, which lost 5 and 6.
const TWO: &[u8] = b"\x0D\0\0\0\0\0\x10\0\x05\0\0\0\0\0\0\0\x0D\0\0\0\0\0\x10\0\x06\0\0\0\0\0\0\0";

// Gives one byte at a time, and fails after `before` of them: from then on, or once.
#[derive(Drop)]
struct Faulty<'a> {
    bytes: &'a [u8],
    before: Option<usize>,
    kind: io::ErrorKind,
    once: bool,
}

impl Read for Faulty<'_> {
    fn read(&mut self, buf: &mut [u8]) -> io::Result<usize> {
        if self.before == Some(0) {
            if self.once {
                self.before = None;
            }
            return Err(self.kind.into());
        }
        if self.bytes.is_empty() || buf.is_empty() {
            return Ok(0);
        }
        self.before = self.before.map(|n| n.saturating_sub(1));
        buf[0] = self.bytes[0];
        self.bytes = &self.bytes[1..];
        Ok(1)
    }
}

const IO_KINDS: [io::ErrorKind; 3] = [
    io::ErrorKind::Other,
    io::ErrorKind::UnexpectedEof,
    io::ErrorKind::Interrupted,
];

const NEVER: &str = "0 13 0 16 LostSamples lost=5; 1 13 0 16 LostSamples lost=6; done";

const ONCE: &str =
    "0 13 0 16 LostSamples lost=5; fault External | 0 13 0 16 LostSamples lost=6; done";

const TWICE: &str =
    "0 13 0 16 LostSamples lost=5; fault External | fault External | 0 13 0 16 LostSamples lost=6; done";

// The text of a run that a fault ends after `before` bytes.
fn ended_after(before: usize) -> &'static str {
    match before {
        0..=15 => "fault External",
        16..=31 => "0 13 0 16 LostSamples lost=5; fault External",
        _ => "0 13 0 16 LostSamples lost=5; 1 13 0 16 LostSamples lost=6; fault External",
    }
}

// Asserts the text of the runs with these limits over a reader that fails after `before` bytes,
// whatever its error is, and however many bytes are read ahead.
fn check_reader(
    rt: &(impl AllocGlobal + Abort),
    before: usize,
    once: bool,
    limits: &[usize],
    want: &str,
) -> Result<(), Fail> {
    for &kind in &IO_KINDS {
        for &capacity in &[1, 7, 8192] {
            let reader = Faulty {
                bytes: TWO,
                before: Some(before),
                kind,
                once,
            };
            let reader = BufReader::with_capacity(rt.alloc(), capacity, reader)?;
            check_text(
                rt,
                text_of_runs(rt.alloc(), &Perfrec, reader, Little, limits),
                want,
            );
        }
    }
    Ok(())
}

#[test]
fn a_failing_reader_ends_the_run_after_whole_frames(rt: HostRuntime) -> Result<(), Fail> {
    for before in 0..33 {
        check_reader(&rt, before, false, &[10], ended_after(before))?;
    }
    Ok(())
}

#[test]
fn a_run_goes_on_after_a_reader_that_failed_once(rt: HostRuntime) -> Result<(), Fail> {
    check_reader(&rt, 16, true, &[10, 10], ONCE)
}

// What is asked of a parser.
#[derive(Copy, Clone)]
enum Asked {
    // A run.
    Run,
    // A record.
    Record,
    // The rest of the bytes.
    Rest,
}

// The error that a parser answers with.
fn error_of<'p, B: ParseBuf<'p>>(
    parser: &mut Parser<B, Little>,
    asked: Asked,
) -> Option<ParseError> {
    match asked {
        Asked::Run => fault_of_run(parser, 10),
        Asked::Record => error_of_record(parser),
        Asked::Rest => parser.parse_rest().err(),
    }
}

// Its kind, and whether it has a cause.
fn text_of_cause<'p, B: ParseBuf<'p> + Drop>(
    alloc: Global,
    buf: B,
    asked: Asked,
) -> Result<String, AllocError> {
    let mut parser = Parser::new(alloc, buf, ParseConfig::<Little>::default());
    let error = error_of(&mut parser, asked);
    drop(parser);
    match error {
        Some(error) => format!(in alloc; "{:?}, {}", error.kind(), error.cause().is_some()),
        None => String::from_str(alloc, "no error"),
    }
}

// An error from outside with a cause.
const BY_CAUSE: &str = "External, true";

// Asserts that over a reader that fails at once.
fn check_cause(
    rt: &(impl AllocGlobal + Abort),
    bytes: &[u8],
    capacity: usize,
    asked: Asked,
) -> Result<(), Fail> {
    let reader = Faulty {
        bytes,
        before: Some(0),
        kind: io::ErrorKind::UnexpectedEof,
        once: false,
    };
    let reader = BufReader::with_capacity(rt.alloc(), capacity.max(1), reader)?;
    check_text(rt, text_of_cause(rt.alloc(), reader, asked), BY_CAUSE);
    Ok(())
}

#[test]
fn a_fault_of_a_reader_has_it_as_its_cause(rt: HostRuntime) -> Result<(), Fail> {
    check_cause(&rt, TWO, 7, Asked::Run)
}

#[test]
fn a_fault_of_a_record_has_its_cause(rt: HostRuntime) -> Result<(), Fail> {
    check_cause(&rt, &[], 8, Asked::Record)
}

// Counts its faults: after `before` bytes it fails `to_come` times, and then gives the rest. The
// count cannot exceed its greatest value, so there it fails no more.
#[derive(Drop)]
struct Counting<'p> {
    bytes: &'p [u8],
    before: usize,
    to_come: u64,
    faults: u64,
}

impl<'p> ParseBuf<'p> for Counting<'p> {
    ghost source = { λ s. record {
      left = s.bytes.now;
      told = true;
      whole = false;
      can_fault = nat_lt s.faults 18446744073709551615;
      faults = Some s.faults;
    } };

    ghost ready = { λ s. take s.before s.bytes.now };

    ghost hint = { λ _. None };

    fn chunk(&mut self) -> ParseResult<ParseBufChunk<'_, 'p>> {
        if self.before == 0 {
            if self.to_come > 0 && self.faults < u64::MAX {
                self.to_come -= 1;
                self.faults += 1;
                return Err(ParseError::new(anyhow!("no disk")));
            }
            self.before = self.bytes.len();
        }
        if self.bytes.is_empty() {
            return Err(ParseError::eof());
        }
        let bytes = self.bytes;
        Ok(ParseBufChunk::External(&bytes[..self.before.min(bytes.len())]))
    }

    fn advance(&mut self, count: usize) {
        self.bytes = &self.bytes[count..];
        self.before -= count;
    }

    fn remaining_hint(&self) -> Option<usize> {
        None
    }
}

// Asserts the text of the runs with these limits over a buffer that fails `to_come` times after
// `before` bytes, and has already failed `faults` times.
fn check_counted(
    rt: &(impl AllocGlobal + Abort),
    before: usize,
    (to_come, faults): (u64, u64),
    limits: &[usize],
    want: &str,
) {
    let buf = Counting {
        bytes: TWO,
        before,
        to_come,
        faults,
    };
    check_text(
        rt,
        text_of_runs(rt.alloc(), &Perfrec, buf, Little, limits),
        want,
    );
}

// How many faults are to come and how many there were, the limits of the runs, and their text.
const FAULTS: [((u64, u64), &[usize], &str); 5] = [
    ((0, 0), &[10], NEVER),
    ((1, 0), &[10, 10], ONCE),
    ((2, 0), &[10, 10, 10], TWICE),
    ((2, u64::MAX - 1), &[10, 10], ONCE),
    ((1, u64::MAX), &[10], NEVER),
];

#[test]
fn a_run_goes_on_after_counted_faults(rt: HostRuntime) {
    for &(faults, limits, want) in &FAULTS {
        check_counted(&rt, 16, faults, limits, want);
    }
}

#[test]
fn a_counted_fault_ends_the_run_wherever_it_comes(rt: HostRuntime) {
    for before in 0..33 {
        check_counted(&rt, before, (1, 0), &[10], ended_after(before));
    }
}

#[test]
fn a_fault_is_no_end_of_the_rest(rt: HostRuntime) {
    for &before in &[0, 3, 32] {
        let buf = Counting {
            bytes: TWO,
            before,
            to_come: 1,
            faults: 0,
        };
        check_text(&rt, text_of_cause(rt.alloc(), buf, Asked::Rest), BY_CAUSE);
    }
}
