//! The frames of a pipe, each with its offset.

ghost use Rattle.std.specs.Prelude.{◌+◌, ◌≤◌, ◌<◌, ◌^◌, length};

use perf_base::endian::Dynamic;
use perf_base::sys::perf_event_header;

/// A frame of a pipe: its offset in the file, its header and the bytes after it, of which a header
/// that no whole frame follows has none.
#[derive(Copy, Clone, Debug)]
pub struct Note<'p> {
    pub at: usize,
    pub header: perf_event_header,
    pub body: &'p [u8],
    ghost fits: { at + 8 + length body.now < 2 ^ 64 },
}

/// The frames of a pipe, each once, in order.
#[derive(Drop)]
pub struct NoteFrames<'p> {
    pub order: Dynamic,
    pub frames: &'p [u8],
    pub left: &'p [u8],
    ghost fits: { 16 + length frames.now < 2 ^ 64 },
    ghost suffix: { length left.now ≤ length frames.now },
}
