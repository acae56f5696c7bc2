//! A slice in pieces.

ghost use Rattle.std.specs.Prelude.{◌≡◌, ◌<◌, Some, [], length, take, IfOk, IfErr};

use crate::parsebuf::{ParseBuf, ParseBufChunk};
use perf_base::{ParseError, ParseResult};

/// Hands a slice out in pieces, like a source that never has all bytes at once.
#[derive(Debug, Drop)]
pub struct PieceBuf<'p> {
    bytes: &'p [u8],
    most: usize,
    borrowed: bool,
    ghost positive: { 0 < most },
}

impl<'p> PieceBuf<'p> {
    ghost use Rattle.perf_buffers.specs.Buffer.{chunk_bytes, chunk_is_borrowed};
    ghost use Rattle.perf_buffers.specs.Pieces.{piece_bytes, piece_most, piece_borrowed};

    /// Pieces of at most `most` bytes of the slice. They live as long as the slice if `borrowed`,
    /// and otherwise until the buffer advances.
    pub fn new(bytes: &'p [u8], most: usize, borrowed: bool) -> PieceBuf<'p>
        requires { 0 < most }
        ensures bytes { piece_bytes result ≡ bytes.now }
        ensures most { piece_most result ≡ most }
        ensures borrowed { piece_borrowed result ≡ borrowed }
    {
        PieceBuf {
            bytes,
            most,
            borrowed,
        }
    }

    // The next piece, which lives as long as pieces do.
    #[inline]
    fn piece(&self) -> ParseBufChunk<'_, 'p>
        ensures bytes { chunk_bytes result ≡ take (piece_most self.now) (piece_bytes self.now) }
        ensures borrowed { chunk_is_borrowed result ≡ piece_borrowed self.now }
    {
        let bytes = self.bytes;
        let piece = &bytes[..self.most.min(bytes.len())];
        if self.borrowed {
            ParseBufChunk::External(piece)
        } else {
            ParseBufChunk::Temporary(piece)
        }
    }
}

impl<'p> ParseBuf<'p> for PieceBuf<'p> {
    ghost use Rattle.perf_buffers.specs.Prelude.{sem, Rests, kind_of, Shows, ShowsReady, Refuses};
    ghost use Rattle.perf_buffers.specs.Prelude.{KeepsChunk, chunk_is_borrowed};
    ghost use Rattle.perf_buffers.specs.Pieces.{piece_borrowed, piece_source, piece_ready};
    ghost use Rattle.perf_buffers.specs.contracts.pieces.PieceBuf.{the_row};
    ghost use mir.Syntax.{named};

    ghost source = { piece_source };

    ghost ready = { piece_ready };

    ghost hint = { λ s. Some (length s.bytes.now) };

    /// The next piece. It lives as long as the slice if pieces do, and otherwise until the buffer
    /// advances.
    #[inline]
    fn chunk(&mut self) -> ParseResult<ParseBufChunk<'_, 'p>>
        ensures shows { IfOk result (λ c. Shows (piece_source self.old) c) }
        ensures same { ShowsReady (piece_ready self.old) result }
        ensures refuses { IfErr result (λ e. Refuses (piece_source self.old) (kind_of e)) }
        ensures borrowed { IfOk result (λ c. chunk_is_borrowed c ≡ piece_borrowed self.old) }
        ensures* after_borrow { sem 𝓛 (Rests (the_row (record { mir = named 1; lft = [] }))
            self.entry (λ new.
            KeepsChunk (piece_source self.old) result (piece_source new) (piece_ready new))) }
    {
        if self.bytes.is_empty() {
            return Err(ParseError::eof());
        }
        Ok(self.piece())
    }

    #[inline]
    fn advance(&mut self, count: usize) {
        self.bytes = &self.bytes[count..];
    }

    #[inline]
    fn remaining_hint(&self) -> Option<usize> {
        Some(self.bytes.len())
    }
}
