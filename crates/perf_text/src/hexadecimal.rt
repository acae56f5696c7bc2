//! Hexadecimal digits, written before the end of an array.

ghost use Rattle.std.specs.Prelude.{◌≡◌, ◌+◌, ◌-◌, ◌/◌, ◌%◌, ◌*◌, ◌<◌, ◌≤◌, ◌∷◌, ◌++◌, length, drop, false};
ghost use Rattle.std.specs.Fmt.{digits, digit_glyph};

use crate::strip::ROOM;

// The two digits of each byte.
static PAIRS: [u8; 512] =
    *b"000102030405060708090a0b0c0d0e0f101112131415161718191a1b1c1d1e1f202122232425262728292a2b2c2d2e2f303132333435363738393a3b3c3d3e3f404142434445464748494a4b4c4d4e4f505152535455565758595a5b5c5d5e5f606162636465666768696a6b6c6d6e6f707172737475767778797a7b7c7d7e7f808182838485868788898a8b8c8d8e8f909192939495969798999a9b9c9d9e9fa0a1a2a3a4a5a6a7a8a9aaabacadaeafb0b1b2b3b4b5b6b7b8b9babbbcbdbebfc0c1c2c3c4c5c6c7c8c9cacbcccdcecfd0d1d2d3d4d5d6d7d8d9dadbdcdddedfe0e1e2e3e4e5e6e7e8e9eaebecedeeeff0f1f2f3f4f5f6f7f8f9fafbfcfdfeff";

// Writes a number before `end`, two digits at a time, and returns where it begins.
#[inline]
pub(crate) fn put_digits(bytes: &mut [u8; ROOM], end: usize, number: u64) -> usize
    requires { (16 ≤ end) × (end ≤ ROOM) }
    ensures start { (result ≤ end) × (end ≤ result + 16) }
    ensures written { drop result bytes.new ≡ digits 16 false number ++ drop end bytes.old }
{
    let mut left = number;
    let mut at = end;
    while left >= 256 {
        put_pair(bytes, at, left % 256);
        left /= 256;
        at -= 2;
    }
    if left >= 16 {
        put_pair(bytes, at, left);
        return at - 2;
    }
    put_digit(bytes, at, left)
}

// Writes one digit before `end`, and returns where it is.
#[inline]
fn put_digit(bytes: &mut [u8; ROOM], end: usize, digit: u64) -> usize
    requires { (digit < 16) × ((0 < end) × (end ≤ ROOM)) }
    ensures start { result + 1 ≡ end }
    ensures written { drop result bytes.new ≡ digit_glyph false digit ∷ drop end bytes.old }
{
    bytes[end - 1] = PAIRS[2 * digit as usize + 1];
    end - 1
}

// Writes the two digits of a byte before `end`.
#[inline]
pub(crate) fn put_pair(bytes: &mut [u8; ROOM], end: usize, byte: u64)
    requires { (byte < 256) × ((2 ≤ end) × (end ≤ ROOM)) }
    ensures { drop (end - 2) bytes.new
        ≡ digit_glyph false (byte / 16) ∷ digit_glyph false (byte % 16) ∷ drop end bytes.old }
{
    let from = 2 * byte as usize;
    put_two(bytes, end, PAIRS[from], PAIRS[from + 1]);
}

// Writes two bytes before `end`.
#[inline(always)]
pub(crate) fn put_two(bytes: &mut [u8; ROOM], end: usize, first: u8, second: u8)
    requires { (2 ≤ end) × (end ≤ ROOM) }
    ensures { drop (end - 2) bytes.new ≡ first ∷ second ∷ drop end bytes.old }
{
    bytes[end - 2] = first;
    bytes[end - 1] = second;
}
