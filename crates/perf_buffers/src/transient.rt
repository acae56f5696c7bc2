//! Bytes that are borrowed for a short time, as an input: what is kept of them is copied.

ghost use Rattle.std.specs.Prelude.{◌≡◌, length, true, false, Some, None};

use crate::cursor::{Content, ParseBufCursor};
use crate::input::Input;
use perf_base::{CowSlice, ReadResult, Refusal};
use std::alloc::Global;

/// Bytes that are borrowed for a short time.
#[derive(Debug, Drop)]
pub struct TransientBytes<'a> {
    bytes: &'a [u8],
}

impl<'a> TransientBytes<'a> {
    /// An input over these bytes.
    #[inline]
    pub fn new(bytes: &'a [u8]) -> TransientBytes<'a>
        ensures { result.bytes.now ≡ bytes.now }
    {
        TransientBytes { bytes }
    }
}

impl<'a, 'p> Input<'p> for TransientBytes<'a> {
    ghost source = { λ l. record {
      left = l.bytes.now;
      told = true;
      whole = false;
      can_fault = false;
      faults = None;
    } };

    ghost hint = { λ l. Some (length l.bytes.now) };

    #[inline]
    fn fill(&mut self, out: &mut [u8]) -> ReadResult<()> {
        self.bytes.fill(out)
    }

    #[inline]
    fn skip(&mut self, len: usize) -> ReadResult<()> {
        self.bytes.skip(len)
    }

    #[inline]
    fn take_zeros(&mut self, len: usize) -> ReadResult<bool> {
        self.bytes.take_zeros(len)
    }

    #[inline]
    fn take_rest(&mut self, alloc: Global) -> ReadResult<CowSlice<'p, u8>> {
        if self.bytes.is_empty() {
            return Ok(CowSlice::Borrowed(&[]));
        }
        match self.bytes.to_vec(alloc) {
            Ok(rest) => {
                self.bytes = &[];
                Ok(CowSlice::Owned(rest))
            }
            Err(_) => Err(Refusal::OutOfMemory),
        }
    }

    #[inline]
    fn cut(&mut self, alloc: Global, len: usize) -> ReadResult<ParseBufCursor<'p>> {
        if len == 0 {
            return Ok(ParseBufCursor::lent(&[]));
        }
        if self.bytes.len() < len {
            self.bytes = &[];
            return Err(Refusal::Eof);
        }
        match self.bytes[..len].to_vec(alloc) {
            Ok(copy) => {
                self.bytes = &self.bytes[len..];
                Ok(ParseBufCursor {
                    content: Content::Own(copy, 0),
                })
            }
            Err(_) => Err(Refusal::OutOfMemory),
        }
    }

    #[inline]
    fn shown_bytes(&self) -> &[u8] {
        self.bytes
    }

    #[inline]
    fn remaining_hint(&self) -> Option<usize> {
        Some(self.bytes.len())
    }
}
