//! Frames that have no record.

ghost use Rattle.std.specs.Prelude.{◌≡◌};
ghost use Rattle.perf_flat.specs.Flat as flat;

use crate::frame::{FlatFrame, NUMBERS, SPANS, Span};
use perf_base::sys::perf_event_header;
use perf_base::{ErrorKind, Refusal};

/// The kind of a refusal as a number, which [`FlatFrame`] has as its `refusal`.
#[inline]
pub fn kind_code(kind: ErrorKind) -> u16
    ensures { result ≡ flat.kind_code kind }
{
    match kind {
        ErrorKind::Eof => 1,
        ErrorKind::InvalidRecord => 2,
        ErrorKind::UnsupportedConfig => 3,
        ErrorKind::UnsupportedData => 4,
        ErrorKind::External => 5,
        ErrorKind::OutOfMemory => 6,
    }
}

// The reason of a refusal, as a number.
#[inline]
fn reason_code(refusal: Refusal) -> u16
    ensures { result ≡ flat.reason_code refusal }
{
    match refusal {
        Refusal::Eof | Refusal::OutOfMemory | Refusal::Kept(_) => 0,
        Refusal::SmallHeader => 1,
        Refusal::NoRoomForId => 2,
        Refusal::BuildIdLength => 3,
        Refusal::UsedStack => 4,
        Refusal::SingleRead => 5,
        Refusal::GroupRead => 6,
        Refusal::ReadFormat => 7,
        Refusal::GroupLength => 8,
        Refusal::AttributeSize => 9,
        Refusal::AttributeTail => 10,
    }
}

// The flat frame of a header alone.
#[inline]
#[tactic(auto, unfolding(crate::specs::Arrays::filled, crate::specs::Arrays::filled_spans))]
fn empty_frame(header: perf_event_header, refusal: u16, reason: u16) -> FlatFrame
    ensures { result ≡ flat.empty_frame header refusal reason }
{
    FlatFrame {
        type_: header.type_,
        misc: header.misc,
        size: header.size,
        read: 0,
        refusal,
        reason,
        present: 0,
        pid: 0,
        tid: 0,
        time: 0,
        id: 0,
        stream_id: 0,
        cpu: 0,
        read_format: 0,
        numbers: [0; NUMBERS],
        spans: [Span { at: 0, len: 0 }; SPANS],
    }
}

/// A place for frames to be read into, in which all numbers are 0.
pub fn blank_frame() -> FlatFrame
    ensures { result ≡ flat.blank_frame }
{
    let header = perf_event_header {
        type_: 0,
        misc: 0,
        size: 0,
    };
    empty_frame(header, 0, 0)
}

// Writes the flat frame of a header without a record.
#[inline(never)]
pub(crate) fn refuse_frame(header: perf_event_header, refusal: Refusal, frame: &mut FlatFrame)
    ensures { frame.new ≡ flat.refused_frame header refusal }
{
    *frame = empty_frame(header, kind_code(refusal.kind()), reason_code(refusal));
}
