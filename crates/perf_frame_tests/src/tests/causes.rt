//! The messages and causes of the error that ends a run.

ghost use Rattle.std.specs.Prelude.{true, false, None, []};

use crate::tests::checks::check_text;
use anyhow::anyhow;
use bitflags::Flags;
use perf_event_data::SampleFlags;
use perf_event_data::endian::Little;
use perf_event_data::parse::{ErrorKind, ParseBuf, ParseBufChunk, ParseError, ParseResult};
use perf_test_helpers::attributes::attribute;
use perf_test_helpers::everywhere::parser_of;
use perf_test_inputs::errors::text_of_error;
use perf_test_runs::fault_of_run;
use std::alloc::{AllocError, Global};
use std::io;
use std::io::{BufReader, Read};
use std::process::Abort;
use std::test::Fail;

// The text of the fault that ends a run.
fn text_of_fault<'p, B: ParseBuf<'p> + Drop>(alloc: Global, buf: B) -> Result<String, AllocError> {
    let mut parser = parser_of(alloc, buf, Little, &attribute(SampleFlags::IP.bits(), 0));
    let fault = fault_of_run(&mut parser, 10);
    drop(parser);
    match fault {
        Some(error) => text_of_error(alloc, &error),
        None => String::from_str(alloc, "no fault"),
    }
}

// Gives some bytes, and then fails.
#[derive(Drop)]
struct Failing<'a> {
    bytes: &'a [u8],
}

impl Read for Failing<'_> {
    fn read(&mut self, buf: &mut [u8]) -> io::Result<usize> {
        if self.bytes.is_empty() {
            return Err(io::Error::other("no disk"));
        }
        self.bytes.read(buf)
    }
}

// Gives some bytes, and then fails, by an error with a message or with a cause. Its hint never
// changes.
#[derive(Drop)]
struct Breaking<'p> {
    bytes: &'p [u8],
    hint: Option<usize>,
    has_message: bool,
}

impl<'p> ParseBuf<'p> for Breaking<'p> {
    ghost source = { λ _. record {
      left = [];
      told = false;
      whole = false;
      can_fault = true;
      faults = None;
    } };

    ghost ready = { λ s. s.bytes.now };

    ghost hint = { λ s. s.hint };

    fn chunk(&mut self) -> ParseResult<ParseBufChunk<'_, 'p>> {
        if !self.bytes.is_empty() {
            return Ok(ParseBufChunk::External(self.bytes));
        }
        if self.has_message {
            Err(ParseError::custom(ErrorKind::External, "no disk"))
        } else {
            Err(ParseError::new(anyhow!("no disk")))
        }
    }

    fn advance(&mut self, count: usize) {
        self.bytes = &self.bytes[count..];
    }

    fn remaining_hint(&self) -> Option<usize> {
        self.hint
    }
}

const BY_CAUSE: &str = "External, None, no disk, user-provided error: no disk";

const BY_MESSAGE: &str = "External, Some(\"no disk\"), no cause, user-provided error: no disk";

// A sample and a task's name, each of 24 bytes.
const FRAMES: [&[u8]; 2] = [
    b"\x09\0\0\0\0\0\x18\0\x01\0\0\0\x02\0\0\0ab\0\0\0\0\0\0",
    b"\x03\0\0\0\0\0\x18\0\x01\0\0\0\x02\0\0\0ab\0\0\0\0\0\0",
];

// How many bytes of them are given: none, one, half a header, a header, half a body, and all.
const COUNTS: [usize; 6] = [0, 1, 4, 8, 16, 24];

#[test]
fn a_run_ends_by_the_error_of_its_reader(rt: HostRuntime) -> Result<(), Fail> {
    for &frame in &FRAMES {
        for &count in &COUNTS {
            for &capacity in &[1, 7, 8192] {
                let bytes = &frame[..count.min(frame.len())];
                let reader = BufReader::with_capacity(rt.alloc(), capacity, Failing { bytes })?;
                check_text(&rt, text_of_fault(rt.alloc(), reader), BY_CAUSE);
            }
        }
    }
    Ok(())
}

// Asserts the text of the fault without a hint, with one that is too large, and with one that is
// too small for a body.
fn check_broken(rt: &(impl AllocGlobal + Abort), bytes: &[u8], has_message: bool, want: &str) {
    for &hint in &[None, Some(1000), Some(3)] {
        let buf = Breaking {
            bytes,
            hint,
            has_message,
        };
        check_text(rt, text_of_fault(rt.alloc(), buf), want);
    }
}

#[test]
fn a_run_ends_by_the_error_of_its_buffer(rt: HostRuntime) {
    for &frame in &FRAMES {
        for &count in &COUNTS {
            let bytes = &frame[..count.min(frame.len())];
            check_broken(&rt, bytes, false, BY_CAUSE);
            check_broken(&rt, bytes, true, BY_MESSAGE);
        }
    }
}
