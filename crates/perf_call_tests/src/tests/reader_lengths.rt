//! The length of the buffers that a reader has to fill.

ghost use Rattle.std.specs.Prelude.{◌<◌};

use crate::tests::checks::{check_same, check_written};
use crate::tests::runs::{TEXT, TWO_AFTER_72};
use perf_event_data::endian::Little;
use perf_lines::outcome::Outcome;
use perf_run::run;
use perf_test_inputs::bytes::TWO;
use std::cell::Cell;
use std::io;
use std::io::Read;
use std::process::Abort;

// Fills buffers, and keeps the length of the longest one.
#[derive(Drop)]
struct LengthReader<'a> {
    bytes: &'a [u8],
    longest: &'a Cell<usize>,
}

impl Read for LengthReader<'_> {
    fn read(&mut self, buf: &mut [u8]) -> io::Result<usize> {
        self.longest.set(self.longest.get().max(buf.len()));
        self.bytes.read(buf)
    }
}

// Asserts that a run writes the text of two frames, and that its reader fills a piece at a time.
fn check_piece(rt: &(impl AllocGlobal + Abort), bytes: &[u8], with_attr: bool, piece: usize)
    requires { 0 < piece }
{
    let longest = Cell::new(0);
    let reader = LengthReader {
        bytes,
        longest: &longest,
    };
    let mut output = Vec::new(rt.alloc());
    let end = run(
        rt.alloc(),
        reader,
        &mut output,
        Little,
        10,
        with_attr,
        piece,
    );
    check_written(rt, (&output, end), (TEXT.as_bytes(), Outcome::Clean));
    check_same(rt, "the longest piece", longest.get(), piece);
}

#[test]
fn a_reader_fills_a_piece_at_a_time(rt: HostRuntime) {
    for &piece in &[1usize, 7, 8192] {
        check_piece(&rt, &TWO, false, piece.max(1));
        check_piece(&rt, &TWO_AFTER_72, true, piece.max(1));
    }
}
