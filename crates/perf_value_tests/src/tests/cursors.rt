//! The bytes of one frame, and the buffers that they are cut from.

use crate::tests::checks::{add, check_debug, check_text};
use perf_base::ParseResult;
use perf_buffers::cursor::ParseBufCursor;
use perf_buffers::parsebuf::ParseBuf;
use perf_buffers::pieces::PieceBuf;
use std::alloc::Global;
use std::io::BufReader;
use std::process::Abort;

const BYTES: &[u8] = b"abcde";

// Adds how many bytes a buffer reports, and those that it shows, with how long they live.
fn add_chunk<'p, B: ParseBuf<'p>>(text: &mut String, buf: &mut B) {
    add(text, &buf.remaining_hint());
    add(text, &buf.chunk());
}

// Advances by two bytes, if as many are shown.
fn skip_two<'p, B: ParseBuf<'p>>(buf: &mut B) {
    let count = match buf.chunk() {
        Ok(chunk) => chunk.as_bytes().len(),
        Err(_) => 0,
    };
    if count >= 2 {
        buf.advance(2);
    }
}

// Adds what a buffer shows, and what it shows two bytes later.
fn add_both<'p, B: ParseBuf<'p>>(text: &mut String, buf: &mut B) {
    add_chunk(text, buf);
    skip_two(buf);
    add_chunk(text, buf);
}

// The first byte that a buffer shows.
fn first_of<'p, B: ParseBuf<'p>>(buf: &mut B) -> Option<u8> {
    match buf.chunk() {
        Ok(chunk) => chunk.as_bytes().first().copied(),
        Err(_) => None,
    }
}

// Adds what a cursor gives, or why there is none.
fn add_given(text: &mut String, answer: ParseResult<ParseBufCursor<'_>>) {
    match answer {
        Ok(cursor) => {
            add(text, &cursor.as_slice());
            drop(cursor);
        }
        Err(error) => add(text, &error.kind()),
    }
}

// Adds what a cursor gives and shows.
fn add_cursor(text: &mut String, answer: ParseResult<ParseBufCursor<'_>>) {
    match answer {
        Ok(mut cursor) => {
            add(text, &cursor.as_slice());
            add_both(text, &mut cursor);
            drop(cursor);
        }
        Err(error) => add(text, &error.kind()),
    }
}

// What a cursor over the first three bytes of a buffer gives and shows, and what the buffer does
// after it: what it reports and shows first, why there is no cursor over three more, whether it
// shows any bytes after that, and what a cursor over none gives.
fn text_of_cursor<'p, B: ParseBuf<'p> + Drop>(alloc: Global, buf: B) -> String {
    let (mut buf, mut text) = (buf, String::new(alloc));
    add_cursor(&mut text, ParseBufCursor::new(alloc, &mut buf, 3));
    add(&mut text, &buf.remaining_hint());
    add(&mut text, &first_of(&mut buf));
    add_given(&mut text, ParseBufCursor::new(alloc, &mut buf, 3));
    add(&mut text, &buf.chunk().is_ok());
    add_given(&mut text, ParseBufCursor::new(alloc, &mut buf, 0));
    text
}

// What a buffer shows, twice, and two bytes later.
fn text_alone<'p, B: ParseBuf<'p> + Drop>(alloc: Global, buf: B) -> String {
    let (mut buf, mut text) = (buf, String::new(alloc));
    add_chunk(&mut text, &mut buf);
    add_both(&mut text, &mut buf);
    text
}

fn text_of<'p, B: ParseBuf<'p> + Drop>(alloc: Global, buf: B, is_cut: bool) -> String {
    if is_cut {
        text_of_cursor(alloc, buf)
    } else {
        text_alone(alloc, buf)
    }
}

// A buffer of the bytes.
#[derive(Copy, Clone)]
enum Buffer {
    Slice,
    // Pieces of so many bytes, and whether they last.
    Pieces(usize, bool),
    // A reader of so many bytes at a time.
    Reader(usize),
}

// The text of a buffer.
fn text_over(alloc: Global, buffer: Buffer, is_cut: bool) -> String {
    match buffer {
        Buffer::Slice => text_of(alloc, BYTES, is_cut),
        Buffer::Pieces(most, lasts) => {
            text_of(alloc, PieceBuf::new(BYTES, most.max(1), lasts), is_cut)
        }
        Buffer::Reader(capacity) => match BufReader::with_capacity(alloc, capacity, BYTES) {
            Ok(reader) => text_of(alloc, reader, is_cut),
            Err(_) => String::new(alloc),
        },
    }
}

// Asserts the texts of buffers.
fn check_buffers(rt: &(impl AllocGlobal + Abort), is_cut: bool, rows: &[(Buffer, &str)]) {
    for &(buffer, want) in rows {
        check_text(rt, text_over(rt.alloc(), buffer, is_cut), want);
    }
}

const LENT: &str = "Some([97, 98, 99]) Some(3) Ok(External([97, 98, 99])) \
    Some(1) Ok(External([99])) Some(2) Some(100) Eof false Some([]) ";

const OWN: &str = "None Some(3) Ok(Temporary([97, 98, 99])) Some(1) Ok(Temporary([99])) \
    Some(2) Some(100) Eof false Some([]) ";

const OF_A_READER: &str = "None Some(3) Ok(Temporary([97, 98, 99])) Some(1) Ok(Temporary([99])) \
    None Some(100) Eof false Some([]) ";

// What is left of the bytes after a cursor over three of them.
fn left_after_three(alloc: Global) -> &'static [u8] {
    let mut bytes = BYTES;
    drop(ParseBufCursor::new(alloc, &mut bytes, 3));
    bytes
}

#[test]
fn a_cursor_over_a_slice_borrows_it(rt: HostRuntime) {
    check_buffers(&rt, true, &[(Buffer::Slice, LENT)]);
    check_debug(&rt, left_after_three(rt.alloc()), "[100, 101]");
}

// Buffers whose bytes do not last.
const PASSING: [(Buffer, &str); 6] = [
    (Buffer::Pieces(1, false), OWN),
    (Buffer::Pieces(3, false), OWN),
    (Buffer::Pieces(64, false), OWN),
    (Buffer::Reader(1), OF_A_READER),
    (Buffer::Reader(7), OF_A_READER),
    (Buffer::Reader(8192), OF_A_READER),
];

#[test]
fn a_cursor_over_bytes_that_do_not_last_keeps_its_own(rt: HostRuntime) {
    check_buffers(&rt, true, &PASSING);
}

const LASTING: [(Buffer, &str); 3] = [
    (Buffer::Pieces(1, true), OWN),
    (Buffer::Pieces(3, true), LENT),
    (Buffer::Pieces(64, true), LENT),
];

#[test]
fn a_cursor_borrows_what_one_borrowed_piece_has(rt: HostRuntime) {
    check_buffers(&rt, true, &LASTING);
}

// What buffers report and show, twice, and two bytes later.
const ALONE: [(Buffer, &str); 4] = [
    (
        Buffer::Slice,
        "Some(5) Ok(External([97, 98, 99, 100, 101])) Some(5) \
            Ok(External([97, 98, 99, 100, 101])) Some(3) Ok(External([99, 100, 101])) ",
    ),
    (
        Buffer::Reader(7),
        "None Ok(Temporary([97, 98, 99, 100, 101])) None Ok(Temporary([97, 98, 99, 100, 101])) \
            None Ok(Temporary([99, 100, 101])) ",
    ),
    (
        Buffer::Pieces(3, true),
        "Some(5) Ok(External([97, 98, 99])) Some(5) Ok(External([97, 98, 99])) \
            Some(3) Ok(External([99, 100, 101])) ",
    ),
    (
        Buffer::Pieces(2, false),
        "Some(5) Ok(Temporary([97, 98])) Some(5) Ok(Temporary([97, 98])) \
            Some(3) Ok(Temporary([99, 100])) ",
    ),
];

#[test]
fn buffers_report_what_they_have(rt: HostRuntime) {
    check_buffers(&rt, false, &ALONE);
}
