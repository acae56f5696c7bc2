//! Streams, and what a run over them writes.

use crate::tests::checks::check_written;
use perf_event_data::endian::Endian;
use perf_lines::outcome::Outcome;
use perf_run::run;
use std::io::Read;
use std::process::Abort;

/// The text of two records of five lost samples.
pub const TEXT: &str = "0 13 0 16 LostSamples lost=5\n1 13 0 16 LostSamples lost=5\nend done\n";

/// A frame that is refused, and a record of five lost samples.
pub const REFUSED: [u8; 24] = [
    2, 0, 0, 0, 0, 0, 7, 0, 13, 0, 0, 0, 0, 0, 16, 0, 5, 0, 0, 0, 0, 0, 0, 0,
];

/// Their text.
pub const REFUSED_TEXT: &str =
    "0 2 0 7 refused InvalidRecord\n1 13 0 16 LostSamples lost=5\nend done\n";

/// An attribute of 64 bytes that contains only its size, and one record of five lost samples.
pub const ONE_AFTER_64: [u8; 80] = [
    0, 0, 0, 0, 64, 0, 0, 0, 0, 0, 0, 0, 0, 0, 0, 0, 0, 0, 0, 0, 0, 0, 0, 0, 0, 0, 0, 0, 0, 0, 0,
    0, 0, 0, 0, 0, 0, 0, 0, 0, 0, 0, 0, 0, 0, 0, 0, 0, 0, 0, 0, 0, 0, 0, 0, 0, 0, 0, 0, 0, 0, 0, 0,
    0, 13, 0, 0, 0, 0, 0, 16, 0, 5, 0, 0, 0, 0, 0, 0, 0,
];

/// One of 72 bytes, and two such records.
pub const TWO_AFTER_72: [u8; 104] = [
    0, 0, 0, 0, 72, 0, 0, 0, 0, 0, 0, 0, 0, 0, 0, 0, 0, 0, 0, 0, 0, 0, 0, 0, 0, 0, 0, 0, 0, 0, 0,
    0, 0, 0, 0, 0, 0, 0, 0, 0, 0, 0, 0, 0, 0, 0, 0, 0, 0, 0, 0, 0, 0, 0, 0, 0, 0, 0, 0, 0, 0, 0, 0,
    0, 0, 0, 0, 0, 0, 0, 0, 0, 13, 0, 0, 0, 0, 0, 16, 0, 5, 0, 0, 0, 0, 0, 0, 0, 13, 0, 0, 0, 0, 0,
    16, 0, 5, 0, 0, 0, 0, 0, 0, 0,
];

/// The arguments of a run, what it writes and how it ends.
#[derive(Copy, Clone)]
pub struct RunCase<'a> {
    pub limit: usize,
    pub with_attr: bool,
    pub text: &'a str,
    pub outcome: Outcome,
}

/// Asserts what a run over a reader writes, in pieces of one byte, of seven and of more than there
/// are.
pub fn check_run<R: Read + Copy, E: Endian + Copy>(
    rt: &(impl AllocGlobal + Abort),
    reader: R,
    order: E,
    case: RunCase<'_>,
) {
    for &piece in &[1usize, 7, 8192] {
        let (limit, with_attr) = (case.limit, case.with_attr);
        let mut output = Vec::new(rt.alloc());
        let piece = piece.max(1);
        let end = run(
            rt.alloc(),
            reader,
            &mut output,
            order,
            limit,
            with_attr,
            piece,
        );
        check_written(rt, (&output, end), (case.text.as_bytes(), case.outcome));
    }
}
