//! Readers of the bytes of one frame, in place or assembled.

ghost use Rattle.std.specs.Prelude.{◌≡◌, ◌<◌, ◌≤◌, ◌*◌, ℕ, Bool, List, length, IsTrue};
ghost use Rattle.std.specs.Prelude.{IfOk, OnErr};
ghost use Rattle.perf_buffers.specs.Cutting.{AllocatesFirst, RefusesNext};
ghost use Rattle.perf_buffers.specs.FrameBytes.{GivesNextBytes, FindsFrame};
ghost use Rattle.perf_buffers.specs.Prelude.{chunk_bytes, chunk_is_borrowed, kinds, kind_if_refused, BufferInvariant};
ghost use Rattle.perf_buffers.specs.Prelude.{CanFail, NeedsNoMemory, makes_all_room};

use crate::cut::assemble;
use crate::parsebuf::{ParseBuf, ParseBufChunk};
use perf_base::{Kept, ReadResult};

/// Makes something of the bytes of a frame, and of a state of the caller.
pub trait FrameReader<'p, S>: Drop {
    /// What is made of them.
    type Output;

    // how many bytes it reads
    ghost len: { Self → ℕ };

    // which outputs and new states belong to these bytes, to whether they live as long as the
    // input, and to a state
    ghost gives: { Self → List ℕ → Bool → S → Self.Output → S → Type 0 };

    /// What is made of a frame's bytes.
    fn read(self, state: &mut S, bytes: ParseBufChunk<'_, 'p>) -> Self::Output
        requires { length (chunk_bytes bytes) ≡ len self }
        ensures { gives self (chunk_bytes bytes.entry) (chunk_is_borrowed bytes.entry)
            state.old result state.new };
}

/// Counts the frames that begin in the bytes of a chunk.
pub trait FrameCount {
    // the most that it counts
    ghost most: { Self → ℕ };

    /// How many frames begin in these bytes. Each has at least eight of them.
    fn count(&self, bytes: &[u8]) -> usize
        ensures most { result ≤ most self.now }
        ensures shown { 8 * result ≤ length bytes.now };
}

// A frame as found in the next chunk.
pub(crate) enum Found<O, F> {
    // It is complete, and this was made of it.
    Whole(O),
    // The chunk ends before the frame does. Nothing was taken, and this is its reader.
    Cut(F),
}

// What a reader makes of the next `len` bytes, if the next chunk has them all.
#[inline]
pub(crate) fn read_in_place<'p, S, B: ParseBuf<'p>, F: FrameReader<'p, S>>(
    buf: &mut B,
    cause: &mut Kept,
    len: usize,
    reader: F,
    state: &mut S,
) -> ReadResult<Found<F::Output, F>>
    requires some { 0 < len }
    requires len { F.len reader ≡ len }
    ensures stays { BufferInvariant (B.source buf.old) (kind_if_refused (kinds result)) (B.source buf.new) }
    ensures can_fail { CanFail (B.source buf.old) (kind_if_refused (kinds result)) }
    ensures memory { NeedsNoMemory (kinds result) }
    ensures ok { IfOk result (λ found. FindsFrame (F.gives reader) reader (B.source buf.old) len
        state.old found (B.source buf.new) state.new) }
    ensures same { OnErr result (state.new ≡ state.old) }
    ensures err { RefusesNext (B.source buf.old) len (kinds result) (B.source buf.new) }
{
    let chunk = match buf.chunk() {
        Ok(chunk) => chunk,
        Err(error) => {
            drop(reader);
            return Err(cause.keep(error));
        }
    };
    if chunk.as_bytes().len() < len {
        return Ok(Found::Cut(reader));
    }
    let output = reader.read(state, chunk.first(len));
    buf.advance(len);
    Ok(Found::Whole(output))
}

// What a reader makes of the next `len` bytes, which are assembled in `room`. Its capacity is kept
// for the next frame.
#[cold]
#[inline(never)]
pub(crate) fn read_assembled<'p, S, B: ParseBuf<'p>, F: FrameReader<'p, S>>(
    buf: &mut B,
    cause: &mut Kept,
    room: &mut Vec<u8>,
    len: usize,
    has_hint: bool,
    reader: F,
    state: &mut S,
) -> ReadResult<F::Output>
    requires { F.len reader ≡ len }
    ensures stays { BufferInvariant (B.source buf.old) (kind_if_refused (kinds result)) (B.source buf.new) }
    ensures can_fail { CanFail (B.source buf.old) (kind_if_refused (kinds result)) }
    ensures beforehand { AllocatesFirst (makes_all_room has_hint len) (B.source buf.old)
        (kinds result) (B.source buf.new) }
    ensures ok { (IsTrue (B.source buf.old).whole → ⊥) → IfOk result (λ output.
        GivesNextBytes (F.gives reader) (B.source buf.old) len state.old output (B.source buf.new)
        state.new) }
    ensures same { OnErr result (state.new ≡ state.old) }
    ensures err { RefusesNext (B.source buf.old) len (kinds result) (B.source buf.new) }
{
    match assemble(buf, cause, room, len, has_hint) {
        Ok(()) => Ok(reader.read(state, ParseBufChunk::Temporary(room.as_slice()))),
        Err(refusal) => {
            drop(reader);
            Err(refusal)
        }
    }
}
