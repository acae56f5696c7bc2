//! A byte order of one's own: little endian, except for the halves of a 64-bit number.

ghost use Rattle.std.specs.Prelude.{◌++◌, take, drop, false};
ghost use Rattle.std.specs.Int.{w16, w32, w64, from_le_bytes};

use perf_event_data::endian::Endian;
use perf_event_data::parse::ParseResult;

/// Little endian, except that the higher four of eight bytes come first.
#[derive(Copy, Clone)]
pub struct HighWordFirst;

impl Endian for HighWordFirst {
    // the numbers that two, four and eight bytes are
    ghost order = { λ _. record {
      two = from_le_bytes w16;
      four = from_le_bytes w32;
      eight = λ bytes. from_le_bytes w64 (drop 4 bytes ++ take 4 bytes);
    } };

    // a second one needs no memory
    ghost may_refuse = { λ _. false };

    fn convert_u16(&self, bytes: [u8; 2]) -> u16 {
        u16::from_le_bytes(bytes)
    }

    fn convert_u32(&self, bytes: [u8; 4]) -> u32 {
        u32::from_le_bytes(bytes)
    }

    fn convert_u64(&self, bytes: [u8; 8]) -> u64 {
        let [b0, b1, b2, b3, b4, b5, b6, b7] = bytes;
        u64::from_le_bytes([b4, b5, b6, b7, b0, b1, b2, b3])
    }

    fn duplicate(&self) -> ParseResult<Self> {
        Ok(*self)
    }
}
