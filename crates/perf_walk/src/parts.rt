//! The parts of a frame.

ghost use Rattle.std.specs.Prelude.{◌≡◌, ◌<◌, get_or, max, take};
ghost use Rattle.perf_flat.specs.Arrays.{low_u32};
ghost use Rattle.perf_flat.specs.Strings.{span_at};
ghost use Rattle.perf_words.specs.Bits.{has_bit};
ghost use Rattle.perf_walk.specs.Parts.{bytes_at};

use perf_flat::frame::{FlatFrame, Span};

// A number of a frame.
pub(crate) fn number(frame: &FlatFrame, index: usize) -> u64
    requires { index < 24 }
    ensures { result ≡ get_or frame.now.numbers index 0 }
{
    frame.numbers[index]
}

// A number of a frame, of 32 bits.
pub(crate) fn short_number(frame: &FlatFrame, index: usize) -> u32
    requires { index < 24 }
    ensures { result ≡ low_u32 (get_or frame.now.numbers index 0) }
{
    (number(frame, index) % (1 << 32)) as u32
}

// Whether a bit of a number is set.
pub(crate) fn has_bit(number: u64, bit: u32) -> bool
    requires { bit < 64 }
    ensures { result ≡ has_bit number bit }
{
    (number >> bit) % 2 == 1
}

// A span of a frame.
fn span(frame: &FlatFrame, index: usize) -> Span
    requires { index < 8 }
    ensures { result ≡ span_at frame.now.spans index }
{
    frame.spans[index]
}

// The bytes at a span of a frame.
pub(crate) fn string<'p>(bytes: &'p [u8], frame: &FlatFrame, index: usize) -> &'p [u8]
    requires { index < 8 }
    ensures { result.now ≡ bytes_at bytes.now (span_at frame.now.spans index) }
{
    bytes_at(bytes, span(frame, index))
}

/// The bytes of a frame at a span of it. There are none if the span is not inside the frame, as that
/// of another frame may be.
pub fn bytes_at(bytes: &[u8], span: Span) -> &[u8]
    ensures { result.now ≡ bytes_at bytes.now span }
{
    let (at, len) = (span.at as usize, span.len as usize);
    if bytes.len() < at + len {
        return &[];
    }
    &bytes[at..at + len]
}

// The first frame of these bytes, of which the header states this size.
pub(crate) fn first_frame(bytes: &[u8], size: u16) -> &[u8]
    ensures { result.now ≡ take (max 8 size) bytes.now }
{
    let len = usize::from(size).max(8).min(bytes.len());
    &bytes[..len]
}
