//! Any kind of buffer as an input.

ghost use Rattle.std.specs.Prelude.{◌≡◌, ◌≤◌, ◌*◌, [], length, true, IsTrue, IsOk, IfOk, IfErr, OnErr};
ghost use Rattle.perf_base.specs.Refusals.{IsErrorOf, refusal_kind};
ghost use Rattle.perf_buffers.specs.FrameBytes.{GivesNextBytes, TakesOrLeaves};
ghost use Rattle.perf_buffers.specs.Prelude.{kinds, kind_if_refused, BufferInvariant, Refuses, CanFail, is_made_beforehand};
ghost use Rattle.perf_buffers.specs.Cutting.{WholeNeedsNoMemory, RefusesShort, AllocatesFirst, RefusesNext};

use crate::cursor::ParseBufCursor;
use crate::cut::{cut, says_too_few, shortage, skip};
use crate::fill::fill;
use crate::frame_reader::{Found, FrameCount, FrameReader, read_assembled, read_in_place};
use crate::input::Input;
use crate::parsebuf::{ParseBuf, ParseBufChunk};
use crate::rest::take_rest;
use crate::zeros::take_zeros;
use perf_base::{CowSlice, ErrorKind, Kept, ParseError, ReadResult, Refusal};
use std::alloc::Global;

/// A buffer, the error of its last fault, and space for a frame that no chunk contains in full.
#[derive(Drop)]
pub struct Outer<B> {
    buf: B,
    cause: Kept,
    // Where frames are assembled. It is kept for the next frame.
    room: Vec<u8>,
}

impl<B> Outer<B> {
    /// A buffer that has returned no fault.
    #[inline]
    pub fn new(alloc: Global, buf: B) -> Outer<B>
        ensures { result.buf ≡ buf }
    {
        Outer {
            buf,
            cause: Kept::none(),
            room: Vec::new(alloc),
        }
    }

    /// The buffer.
    #[inline]
    pub fn buf(&self) -> &B
        ensures { result.now ≡ self.now.buf }
    {
        &self.buf
    }

    /// The error that a refusal becomes: the buffer's own, if the buffer refused.
    #[inline]
    pub fn error_of(&mut self, refusal: Refusal) -> ParseError
        ensures error { IsErrorOf result refusal }
        ensures buf { self.new.buf ≡ self.old.buf }
    {
        self.cause.error_of(refusal)
    }
}

impl<'p, B: ParseBuf<'p>> Outer<B> {
    /// The next `N` bytes, if the next chunk has them all; otherwise nothing is taken. A refusal is
    /// that of the chunk.
    #[inline]
    pub fn take_shown<const N: usize>(&mut self) -> ReadResult<Option<[u8; N]>>
        ensures stays { BufferInvariant (B.source self.old.buf) (kind_if_refused (kinds result))
            (B.source self.new.buf) }
        ensures ok { IfOk result (λ taken. IsTrue (B.source self.old.buf).told →
            TakesOrLeaves (B.source self.old.buf) N taken (B.source self.new.buf)) }
        ensures err { IfErr result (λ e. Refuses (B.source self.old.buf) (refusal_kind e)
            × (IsTrue (B.source self.old.buf).told →
            (B.source self.new.buf).left ≡ (B.source self.old.buf).left)) }
    {
        let chunk = match self.buf.chunk() {
            Ok(chunk) => chunk,
            Err(error) => return Err(self.cause.keep(error)),
        };
        let front = match chunk.as_bytes().first_chunk::<N>() {
            Some(front) => *front,
            None => return Ok(None),
        };
        self.buf.advance(N);
        Ok(Some(front))
    }

    /// How many frames begin in the bytes of the next chunk. Nothing is taken.
    #[inline]
    pub fn frames_shown<C: FrameCount>(&mut self, frames: &C) -> ReadResult<usize>
        ensures stays { BufferInvariant (B.source self.old.buf) (kind_if_refused (kinds result))
            (B.source self.new.buf) }
        ensures same { IsTrue (B.source self.old.buf).told →
            (B.source self.new.buf).left ≡ (B.source self.old.buf).left }
        ensures most { IfOk result (λ count. count ≤ C.most frames.now) }
        ensures shown { IfOk result (λ count. IsTrue (B.source self.old.buf).told →
            8 * count ≤ length (B.source self.old.buf).left) }
        ensures err { IfErr result (λ e. Refuses (B.source self.old.buf) (refusal_kind e)) }
    {
        match self.buf.chunk() {
            Ok(chunk) => Ok(frames.count(chunk.as_bytes())),
            Err(error) => Err(self.cause.keep(error)),
        }
    }

    /// Hands the next `len` bytes to a reader of frames and takes them.
    ///
    /// This is the one rule for the bytes of a frame. The buffer's hint is asked for first, once:
    /// if it is less than `len`, the frame is `Eof` and its bytes are skipped. If the next chunk
    /// has all of them they are read in place, and otherwise they are assembled in memory, which is
    /// kept for the next frame that needs it. No bytes are read without asking for a chunk. If the
    /// frame is refused, the state is unchanged.
    #[inline]
    pub fn with_frame<S, F: FrameReader<'p, S>>(
        &mut self,
        len: usize,
        reader: F,
        state: &mut S,
    ) -> ReadResult<F::Output>
        requires { F.len reader ≡ len }
        ensures stays { BufferInvariant (B.source self.old.buf) (kind_if_refused (kinds result))
            (B.source self.new.buf) }
        ensures can_fail { CanFail (B.source self.old.buf) (kind_if_refused (kinds result)) }
        ensures whole_memory { WholeNeedsNoMemory (B.source self.old.buf) (kinds result) }
        ensures nothing { len ≡ 0 → IsOk result
            × (B.source self.new.buf ≡ B.source self.old.buf)
            × IfOk result (λ output. F.gives reader [] true state.old output state.new) }
        ensures short { RefusesShort (B.hint self.old.buf) len (kinds result) }
        ensures beforehand { AllocatesFirst (is_made_beforehand (B.hint self.old.buf) len)
            (B.source self.old.buf) (kinds result) (B.source self.new.buf) }
        ensures ok { IfOk result (λ output. GivesNextBytes (F.gives reader)
            (B.source self.old.buf) len state.old output (B.source self.new.buf) state.new) }
        ensures same { OnErr result (state.new ≡ state.old) }
        ensures err { RefusesNext (B.source self.old.buf) len (kinds result) (B.source self.new.buf) }
    {
        if len == 0 {
            return Ok(reader.read(state, ParseBufChunk::External(&[])));
        }
        let hint = self.buf.remaining_hint();
        if says_too_few(hint, len) {
            drop(reader);
            return Err(shortage(&mut self.buf, &mut self.cause, len));
        }
        match read_in_place(&mut self.buf, &mut self.cause, len, reader, state) {
            Ok(Found::Whole(output)) => Ok(output),
            Ok(Found::Cut(reader)) => read_assembled(
                &mut self.buf,
                &mut self.cause,
                &mut self.room,
                len,
                hint.is_some(),
                reader,
                state,
            ),
            Err(refusal) => Err(refusal),
        }
    }
}

impl<'p, B: ParseBuf<'p>> Input<'p> for Outer<B> {
    ghost source = { λ o. B.source o.buf };

    ghost hint = { λ o. B.hint o.buf };

    #[inline]
    fn fill(&mut self, out: &mut [u8]) -> ReadResult<()> {
        fill(&mut self.buf, &mut self.cause, out)
    }

    #[inline]
    fn skip(&mut self, len: usize) -> ReadResult<()> {
        skip(&mut self.buf, &mut self.cause, len)
    }

    #[inline]
    fn take_zeros(&mut self, len: usize) -> ReadResult<bool> {
        take_zeros(&mut self.buf, &mut self.cause, len)
    }

    #[inline]
    fn take_rest(&mut self, alloc: Global) -> ReadResult<CowSlice<'p, u8>> {
        match take_rest(alloc, &mut self.buf) {
            Ok(bytes) => Ok(bytes),
            Err(error) => Err(self.cause.keep(error)),
        }
    }

    #[inline]
    fn cut(&mut self, alloc: Global, len: usize) -> ReadResult<ParseBufCursor<'p>> {
        cut(alloc, &mut self.buf, &mut self.cause, len)
    }

    #[inline]
    fn shown_bytes(&self) -> &[u8] {
        &[]
    }

    #[inline]
    fn remaining_hint(&self) -> Option<usize> {
        self.buf.remaining_hint()
    }
}
