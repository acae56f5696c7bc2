//! Readers, writers and byte orders that fail.

ghost use Rattle.std.specs.Prelude.{◌<◌};

use crate::tests::checks::{check_kept, check_same, check_written};
use crate::tests::runs::{
    ONE_AFTER_64, REFUSED, REFUSED_TEXT, RunCase, TEXT, TWO_AFTER_72, check_run,
};
use perf_event_data::endian::Little;
use perf_lines::outcome::Outcome;
use perf_lines::output::write_and_flush;
use perf_run::run;
use perf_test_inputs::bytes::{FIVE_LOST, PLAIN_64, PLAIN_100, TWO};
use perf_test_inputs::orders::Counting;
use perf_test_inputs::readers::Failing;
use perf_text::output::write_whole;
use std::cell::Cell;
use std::io;
use std::io::{Read, Write};
use std::process::Abort;

// ---- readers

// Asserts what is written for a reader that gives one byte at a time, seven or all that it has.
fn check_reads(
    rt: &(impl AllocGlobal + Abort),
    with_attr: bool,
    bytes: &[u8],
    fault: Option<io::ErrorKind>,
    text: &str,
    outcome: Outcome,
) {
    let actual = RunCase {
        limit: 10,
        with_attr,
        text,
        outcome,
    };
    for &most in &[1, 7, 8192] {
        check_run(rt, Failing { bytes, most, fault }, Little, actual);
    }
}

const NOTHING: &str = "end fault External\n";

const ONE: &str = "0 13 0 16 LostSamples lost=5\nend fault External\n";

const BOTH: &str =
    "0 13 0 16 LostSamples lost=5\n1 13 0 16 LostSamples lost=5\nend fault External\n";

#[test]
fn a_fault_ends_the_text_after_whole_frames(rt: HostRuntime) {
    for count in 0..33 {
        let text = match count {
            0..=15 => NOTHING,
            16..=31 => ONE,
            _ => BOTH,
        };
        let fault = Some(io::ErrorKind::Other);
        check_reads(&rt, false, &TWO[..count], fault, text, Outcome::Faulted);
    }
}

// Bytes, how the reader fails after them, and what is written.
const FAULTS: [(&[u8], io::ErrorKind, &str); 3] = [
    (
        &[1, 0, 0, 0, 0, 0, 48, 0, 0x16, 0x4c, 1, 0],
        io::ErrorKind::UnexpectedEof,
        NOTHING,
    ),
    (&[], io::ErrorKind::Interrupted, NOTHING),
    (&FIVE_LOST, io::ErrorKind::Other, ONE),
];

#[test]
fn a_fault_of_the_reader_ends_the_text(rt: HostRuntime) {
    for &(bytes, kind, text) in &FAULTS {
        check_reads(&rt, false, bytes, Some(kind), text, Outcome::Faulted);
    }
}

// How many bytes of an attribute of 72 bytes and five lost samples are given, how the reader fails
// after them, and what is written.
const INSIDE: [(usize, io::ErrorKind, &str); 9] = [
    (0, io::ErrorKind::UnexpectedEof, NOTHING),
    (7, io::ErrorKind::UnexpectedEof, NOTHING),
    (71, io::ErrorKind::UnexpectedEof, NOTHING),
    (72, io::ErrorKind::UnexpectedEof, NOTHING),
    (0, io::ErrorKind::Other, NOTHING),
    (7, io::ErrorKind::Other, NOTHING),
    (71, io::ErrorKind::Other, NOTHING),
    (72, io::ErrorKind::Other, NOTHING),
    (88, io::ErrorKind::Other, ONE),
];

#[test]
fn a_fault_inside_the_attribute_is_no_refusal(rt: HostRuntime) {
    for &(count, kind, text) in &INSIDE {
        let bytes = &TWO_AFTER_72[..count.min(TWO_AFTER_72.len())];
        check_reads(&rt, true, bytes, Some(kind), text, Outcome::Faulted);
    }
}

// Bytes that end, and what is written.
const ENDING: [(&[u8], &str, Outcome); 3] = [
    (&TWO, TEXT, Outcome::Clean),
    (&REFUSED, REFUSED_TEXT, Outcome::Refused),
    (&[13, 0, 0], "end cut\n", Outcome::Refused),
];

#[test]
fn a_reader_may_give_one_byte_a_read(rt: HostRuntime) {
    for &(bytes, text, outcome) in &ENDING {
        check_reads(&rt, false, bytes, None, text, outcome);
    }
    check_reads(&rt, true, &TWO_AFTER_72, None, TEXT, Outcome::Clean);
}

// ---- writers

// How a writer fails: it takes at most `most` bytes at a time, and `room` of them in all. Then a
// write fails or takes nothing. If `lasts`, so do all writes after it, and each flush fails;
// otherwise later writes succeed.
#[derive(Copy, Clone)]
struct Limits {
    most: usize,
    room: usize,
    fails: bool,
    lasts: bool,
}

#[derive(Drop)]
struct Limited {
    output: Vec<u8>,
    limits: Limits,
}

impl Write for Limited {
    fn write(&mut self, buf: &[u8]) -> io::Result<usize> {
        if self.limits.room == 0 {
            if !self.limits.lasts {
                self.limits.room = usize::MAX;
            }
            return if self.limits.fails {
                Err(io::Error::from(io::ErrorKind::Interrupted))
            } else {
                Ok(0)
            };
        }
        let count = buf.len().min(self.limits.most).min(self.limits.room);
        self.limits.room -= count;
        self.output.extend_from_slice(&buf[..count])?;
        Ok(count)
    }

    fn flush(&mut self) -> io::Result<()> {
        if self.limits.lasts {
            Err(io::Error::from(io::ErrorKind::Other))
        } else {
            Ok(())
        }
    }
}

// Asserts what a writer has kept of the text of a run.
fn check_writer(
    rt: &(impl AllocGlobal + Abort),
    limits: Limits,
    input: &[u8],
    output: &[u8],
    outcome: Outcome,
) {
    let mut writer = Limited {
        output: Vec::new(rt.alloc()),
        limits,
    };
    let end = run(rt.alloc(), input, &mut writer, Little, 10, false, 8192);
    check_written(rt, (&writer.output, end), (output, outcome));
}

// Asserts what a writer has kept of a text that it could not take as a whole.
fn check_part(rt: &(impl AllocGlobal + Abort), limits: Limits, text: &[u8], output: &[u8]) {
    let mut writer = Limited {
        output: Vec::new(rt.alloc()),
        limits,
    };
    let is_whole = write_and_flush(&mut writer, text);
    check_kept(rt, (&writer.output, is_whole), (output, false));
}

// How many bytes a writer takes at a time, and whether a write fails after them, or takes nothing.
const WAYS: [(usize, bool); 6] = [
    (1, true),
    (1, false),
    (4, true),
    (4, false),
    (8192, true),
    (8192, false),
];

#[test]
fn nothing_is_written_after_a_failure(rt: HostRuntime) {
    let text = REFUSED_TEXT.as_bytes();
    for room in 0..text.len() {
        let output = &text[..room.min(text.len())];
        for &(most, fails) in &WAYS {
            let limits = Limits {
                most,
                room,
                fails,
                lasts: false,
            };
            check_writer(&rt, limits, &REFUSED, output, Outcome::Stopped);
            check_part(&rt, limits, text, output);
        }
    }
}

#[test]
fn a_writer_may_take_one_byte_a_write(rt: HostRuntime) {
    let text = REFUSED_TEXT.as_bytes();
    for &most in &[1, 4] {
        let limits = Limits {
            most,
            room: text.len(),
            fails: true,
            lasts: false,
        };
        check_writer(&rt, limits, &REFUSED, text, Outcome::Refused);
    }
}

// The capacity of a writer that takes four bytes at a time, and what it keeps.
const ROOMS: [(usize, &[u8]); 3] = [
    (0, b""),
    (8, b"0 13 0 1"),
    (400, b"0 13 0 16 LostSamples lost=5\nend done\n"),
];

#[test]
fn a_writer_that_fails_stops_the_run(rt: HostRuntime) {
    for &(room, output) in &ROOMS {
        for &fails in &[false, true] {
            let limits = Limits {
                most: 4,
                room,
                fails,
                lasts: true,
            };
            check_writer(&rt, limits, &FIVE_LOST, output, Outcome::Stopped);
        }
    }
}

// ---- reading and then writing

// How often a reader was read from, and how often before the first write of a writer that shares
// this.
#[derive(Drop)]
struct Log {
    reads: Cell<usize>,
    before: Cell<Option<usize>>,
}

#[derive(Drop)]
struct LoggedReader<'a> {
    reader: Failing<'a>,
    log: &'a Log,
}

impl Read for LoggedReader<'_> {
    fn read(&mut self, buf: &mut [u8]) -> io::Result<usize> {
        self.log.reads.set(self.log.reads.get().saturating_add(1));
        self.reader.read(buf)
    }
}

#[derive(Drop)]
struct LoggedWriter<'a> {
    log: &'a Log,
}

impl Write for LoggedWriter<'_> {
    fn write(&mut self, buf: &[u8]) -> io::Result<usize> {
        if self.log.before.get().is_none() {
            self.log.before.set(Some(self.log.reads.get()));
        }
        Ok(buf.len().min(5))
    }

    fn flush(&mut self) -> io::Result<()> {
        Ok(())
    }
}

// Asserts the number of reads of the two frames, each of one byte, and that all of them come before
// the first write.
fn check_order_of_calls(
    rt: &(impl AllocGlobal + Abort),
    fault: Option<io::ErrorKind>,
    limit: usize,
    piece: usize,
    reads: usize,
)
    requires { 0 < piece }
{
    let log = Log {
        reads: Cell::new(0),
        before: Cell::new(None),
    };
    let reader = Failing {
        bytes: &TWO,
        most: 1,
        fault,
    };
    let reader = LoggedReader { reader, log: &log };
    let mut writer = LoggedWriter { log: &log };
    let _ = run(rt.alloc(), reader, &mut writer, Little, limit, false, piece);
    let actual = (log.reads.get(), log.before.get());
    check_same(rt, "how many reads", actual, (reads, Some(reads)));
}

// A limit, the length of pieces, and the number of reads: the read after the last byte gives the
// end or a fault; a limit needs none.
const READS: [(usize, usize, usize); 5] = [
    (10, 1, 33),
    (10, 8192, 33),
    (1, 1, 16),
    (1, 8192, 16),
    (0, 7, 0),
];

#[test]
fn all_reading_comes_before_all_writing(rt: HostRuntime) {
    for &fault in &[None, Some(io::ErrorKind::Other)] {
        for &(limit, piece, reads) in &READS {
            check_order_of_calls(&rt, fault, limit, piece.max(1), reads);
        }
    }
}

// ---- byte orders

const WITHOUT_MEMORY: &str = "end fault OutOfMemory\n";

// Attributes of 64 bytes, alone and before five lost samples, and one that is refused, with the
// limit and what is written.
const ATTRIBUTES: [(usize, &[u8], &str, Outcome); 4] = [
    (10, &PLAIN_64, WITHOUT_MEMORY, Outcome::Faulted),
    (10, &ONE_AFTER_64, WITHOUT_MEMORY, Outcome::Faulted),
    (0, &ONE_AFTER_64, WITHOUT_MEMORY, Outcome::Faulted),
    (
        10,
        &PLAIN_100,
        "attr refused InvalidRecord\n",
        Outcome::BadAttr,
    ),
];

// The configuration after the attribute has a byte order of its own.
#[test]
fn a_refused_order_ends_the_text_out_of_memory(rt: HostRuntime) {
    let calls = Cell::new(0);
    for &(limit, bytes, text, outcome) in &ATTRIBUTES {
        let actual = RunCase {
            limit,
            with_attr: true,
            text,
            outcome,
        };
        check_run(&rt, bytes, Counting::single(&calls), actual);
    }
}

#[test]
fn a_run_without_an_attribute_borrows_its_order(rt: HostRuntime) {
    let calls = Cell::new(0);
    for &(bytes, text, outcome) in &ENDING {
        let actual = RunCase {
            limit: 10,
            with_attr: false,
            text,
            outcome,
        };
        check_run(&rt, bytes, Counting::single(&calls), actual);
    }
}

#[test]
fn an_interrupted_write_is_made_again(rt: HostRuntime) {
    let text = REFUSED_TEXT.as_bytes();
    for room in 0..text.len() {
        let limits = Limits {
            most: 4,
            room,
            fails: true,
            lasts: false,
        };
        let mut writer = Limited {
            output: Vec::new(rt.alloc()),
            limits,
        };
        let is_whole = write_whole(&mut writer, text, true).is_ok();
        check_kept(&rt, (&writer.output, is_whole), (text, true));
    }
}
