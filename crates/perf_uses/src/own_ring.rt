//! A buffer of one's own: the two halves of a ring.

ghost use Rattle.std.specs.Prelude.{◌≡◌, ◌++◌, ◌+◌, ◌<◌, ◌^◌, length, None, Some, true, false};

use perf_event_data::parse::{ParseBuf, ParseBufChunk, ParseError, ParseResult};

/// The bytes of a ring that have not been read: those up to its end, and those from its beginning.
#[derive(Drop)]
pub struct Ring<'p> {
    first: &'p [u8],
    second: &'p [u8],
    ghost fits: { length first.now + length second.now < 2 ^ 64 },
}

impl<'p> Ring<'p> {
    /// The ring in which `second` comes after `first`.
    pub fn new(first: &'p [u8], second: &'p [u8]) -> Ring<'p>
        requires { length first.now + length second.now < 2 ^ 64 }
        ensures first { result.first.now ≡ first.now }
        ensures second { result.second.now ≡ second.now }
    {
        Ring { first, second }
    }
}

impl<'p> ParseBuf<'p> for Ring<'p> {
    // what is left, and what is known of it
    ghost source = { λ r. record {
      left = r.first.now ++ r.second.now;
      told = true;
      whole = false;
      can_fault = false;
      faults = None;
    } };

    // the bytes that the next chunk has again
    ghost ready = { λ r. r.first.now };

    // what `remaining_hint` returns
    ghost hint = { λ r. Some (length r.first.now + length r.second.now) };

    fn chunk(&mut self) -> ParseResult<ParseBufChunk<'_, 'p>> {
        if self.first.is_empty() {
            self.first = self.second;
            self.second = &[];
        }
        if self.first.is_empty() {
            return Err(ParseError::eof());
        }
        Ok(ParseBufChunk::External(self.first))
    }

    fn advance(&mut self, count: usize) {
        self.first = &self.first[count..];
    }

    fn remaining_hint(&self) -> Option<usize> {
        Some(self.first.len() + self.second.len())
    }
}
