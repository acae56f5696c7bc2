//! A short text that grows at its front, because digits are computed from the last to the first.

ghost use Rattle.std.specs.Prelude.{◌≡◌, ◌+◌, ◌*◌, ◌≤◌, ◌++◌, [], drop, length, decimal};
ghost use Rattle.std.specs.List.{flat_map};
ghost use Rattle.std.specs.Str.{IsUtf8};
ghost use Rattle.perf_text.specs.Numbers.{hex, hex_byte, present};

use crate::hexadecimal::{put_digits, put_pair, put_two};

/// The capacity of a strip, in bytes.
pub const ROOM: usize = 256;

/// The number of digits of the longest number.
pub const MOST_DIGITS: usize = 20;

/// The length of the longest number in hexadecimal, with `0x`.
pub const MOST_HEX: usize = 18;

/// A text at the end of an array.
#[derive(Drop)]
pub struct Strip {
    bytes: [u8; ROOM],
    start: usize,
    ghost within: { start ≤ 256 },
    ghost is_text: { ∥ IsUtf8 (drop start bytes) ∥₁ },
}

impl Strip {
    ghost use Rattle.perf_text.specs.Strips.{strip_text, room_of};

    /// An empty strip.
    #[inline(always)]
    pub fn new() -> Strip
        ensures text { strip_text result ≡ [] }
        ensures room { room_of result ≡ ROOM }
    {
        Strip {
            bytes: [0; ROOM],
            start: ROOM,
        }
    }

    /// Removes the text.
    #[inline(always)]
    pub fn clear(&mut self)
        ensures text { strip_text self.new ≡ [] }
        ensures room { room_of self.new ≡ ROOM }
    {
        self.start = ROOM;
    }

    /// Writes a word before the text.
    #[inline(always)]
    pub fn put(&mut self, word: &str)
        requires { length word.now ≤ room_of self.old }
        ensures text { strip_text self.new ≡ word.now ++ strip_text self.old }
        ensures room { room_of self.new + length word.now ≡ room_of self.old }
    {
        let start = self.start - word.len();
        self.bytes[start..self.start].copy_from_slice(word.as_bytes());
        self.start = start;
    }

    /// Writes a number before the text.
    #[inline(always)]
    pub fn put_number(&mut self, number: u64)
        requires { MOST_DIGITS ≤ room_of self.old }
        ensures text { strip_text self.new ≡ decimal number ++ strip_text self.old }
        ensures room { room_of self.old ≤ room_of self.new + MOST_DIGITS }
    {
        self.start = itoa::write_digits(number, &mut self.bytes, self.start);
    }

    /// Writes a word and a number before the text, or nothing for `None`.
    #[inline(always)]
    pub fn put_present(&mut self, word: &str, number: Option<u64>)
        requires { length word.now + MOST_DIGITS ≤ room_of self.old }
        ensures text { strip_text self.new
            ≡ present (λ n. word.now ++ decimal n) number ++ strip_text self.old }
        ensures room { room_of self.old ≤ room_of self.new + (length word.now + MOST_DIGITS) }
    {
        if let Some(number) = number {
            self.put_number(number);
            self.put(word);
        }
    }

    /// Writes numbers before the text, each after a mark.
    #[inline(always)]
    pub fn put_each(&mut self, mark: &str, numbers: &[u64])
        requires mark { length mark.now ≤ 1 }
        requires room { (MOST_DIGITS + 1) * length numbers.now ≤ room_of self.old }
        ensures text { strip_text self.new
            ≡ flat_map (λ n. mark.now ++ decimal n) numbers.now ++ strip_text self.old }
        ensures room { room_of self.old
            ≤ room_of self.new + (MOST_DIGITS + 1) * length numbers.now }
    {
        let mut left = numbers.len();
        while left > 0 {
            left -= 1;
            self.put_number(numbers[left]);
            self.put(mark);
        }
    }

    /// Writes a number in hexadecimal before the text, with `0x` before its digits.
    #[inline]
    pub fn put_hex(&mut self, number: u64)
        requires { MOST_HEX ≤ room_of self.old }
        ensures text { strip_text self.new ≡ hex number ++ strip_text self.old }
        ensures room { room_of self.old ≤ room_of self.new + MOST_HEX }
    {
        let digits = put_digits(&mut self.bytes, self.start, number);
        put_two(&mut self.bytes, digits, b'0', b'x');
        self.start = digits - 2;
    }

    /// Writes the two hexadecimal digits of a byte before the text.
    #[inline]
    pub fn put_hex_byte(&mut self, byte: u8)
        requires { 2 ≤ room_of self.old }
        ensures text { strip_text self.new ≡ hex_byte byte ++ strip_text self.old }
        ensures room { room_of self.new + 2 ≡ room_of self.old }
    {
        put_pair(&mut self.bytes, self.start, u64::from(byte));
        self.start -= 2;
    }

    /// Writes the two hexadecimal digits of each byte before the text.
    #[inline]
    pub fn put_hex_bytes(&mut self, bytes: &[u8])
        requires { 2 * length bytes.now ≤ room_of self.old }
        ensures text { strip_text self.new ≡ flat_map hex_byte bytes.now ++ strip_text self.old }
        ensures room { room_of self.new + 2 * length bytes.now ≡ room_of self.old }
    {
        let mut left = bytes.len();
        while left > 0 {
            left -= 1;
            self.put_hex_byte(bytes[left]);
        }
    }

    /// The text.
    #[inline(always)]
    pub fn text(&self) -> &str
        ensures { result.now ≡ strip_text self.now }
    {
        unsafe { str::from_utf8_unchecked(&self.bytes[self.start..]) }
    }
}
