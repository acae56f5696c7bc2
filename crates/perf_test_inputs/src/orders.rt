//! Byte orders: one that counts, and may refuse a second one, and one like no other.

ghost use Rattle.std.specs.Prelude.{◌+◌, ◌%◌, ◌^◌, ◌++◌, take, drop, false};
ghost use Rattle.std.specs.Int.{w16, w32, w64, from_le_bytes};
ghost use Rattle.perf_base.specs.Order.{little};

use perf_base::endian::Little;
use perf_base::{Endian, ParseError, ParseResult};
use std::cell::Cell;

/// The least significant byte first. It counts the 64-bit numbers that it converts.
#[derive(Copy, Clone)]
pub struct Counting<'a> {
    pub calls: &'a Cell<u64>,
    /// Whether there is never memory for a second one.
    pub is_single: bool,
}

impl<'a> Counting<'a> {
    /// An order that counts in this place, and has a second one.
    pub fn new(calls: &'a Cell<u64>) -> Self {
        Counting {
            calls,
            is_single: false,
        }
    }

    /// One that has no second one.
    pub fn single(calls: &'a Cell<u64>) -> Self {
        Counting {
            calls,
            is_single: true,
        }
    }
}

impl Endian for Counting<'_> {
    ghost order = { λ _. little };

    ghost may_refuse = { λ order. order.is_single };

    fn convert_u16(&self, bytes: [u8; 2]) -> u16 {
        Little.convert_u16(bytes)
    }

    fn convert_u32(&self, bytes: [u8; 4]) -> u32 {
        Little.convert_u32(bytes)
    }

    fn convert_u64(&self, bytes: [u8; 8]) -> u64 {
        self.calls.set(self.calls.get().saturating_add(1));
        Little.convert_u64(bytes)
    }

    fn duplicate(&self) -> ParseResult<Self> {
        if self.is_single {
            Err(ParseError::out_of_memory())
        } else {
            Ok(*self)
        }
    }
}

/// Words of two bytes, the most significant word first, each in little endian. A number of one word is
/// `added` more, modulo 2^16.
#[derive(Copy, Clone)]
pub struct Words {
    pub added: u16,
}

impl Endian for Words {
    ghost order = { λ o. record {
      two = λ b. (from_le_bytes w16 b + o.added) % 2 ^ 16;
      four = λ b. from_le_bytes w32 (drop 2 b ++ take 2 b);
      eight = λ b. from_le_bytes w64
          (drop 6 b ++ take 2 (drop 4 b) ++ take 2 (drop 2 b) ++ take 2 b);
    } };

    ghost may_refuse = { λ _. false };

    fn convert_u16(&self, bytes: [u8; 2]) -> u16 {
        u16::from_le_bytes(bytes).wrapping_add(self.added)
    }

    fn convert_u32(&self, bytes: [u8; 4]) -> u32 {
        let [b0, b1, b2, b3] = bytes;
        u32::from_le_bytes([b2, b3, b0, b1])
    }

    fn convert_u64(&self, bytes: [u8; 8]) -> u64 {
        let [b0, b1, b2, b3, b4, b5, b6, b7] = bytes;
        u64::from_le_bytes([b6, b7, b4, b5, b2, b3, b0, b1])
    }

    fn duplicate(&self) -> ParseResult<Self> {
        Ok(*self)
    }
}
