//! A buffer of one's own that owns its bytes.

ghost use Rattle.std.specs.Prelude.{◌≡◌, ◌-◌, length, drop, None, Some, true, false};

use perf_event_data::parse::{ParseBuf, ParseBufChunk, ParseError, ParseResult};

/// Bytes that were received, of which the first `position` have been read.
#[derive(Drop)]
pub struct Received {
    bytes: Vec<u8>,
    position: usize,
}

impl Received {
    /// A buffer of these bytes.
    pub fn new(bytes: Vec<u8>) -> Received
        ensures bytes { result.bytes ≡ bytes }
        ensures position { result.position ≡ 0 }
    {
        Received { bytes, position: 0 }
    }
}

impl<'p> ParseBuf<'p> for Received {
    // what is left, and what is known of it
    ghost source = { λ r. record {
      left = drop r.position r.bytes.items;
      told = true;
      whole = false;
      can_fault = false;
      faults = None;
    } };

    // the bytes that the next chunk has again
    ghost ready = { λ r. drop r.position r.bytes.items };

    // what `remaining_hint` returns
    ghost hint = { λ r. Some (length r.bytes.items - r.position) };

    fn chunk(&mut self) -> ParseResult<ParseBufChunk<'_, 'p>> {
        let position = self.position;
        if position >= self.bytes.len() {
            return Err(ParseError::eof());
        }
        Ok(ParseBufChunk::Temporary(&self.bytes[position..]))
    }

    fn advance(&mut self, count: usize) {
        self.position += count;
    }

    fn remaining_hint(&self) -> Option<usize> {
        Some(self.bytes.len().saturating_sub(self.position))
    }
}
