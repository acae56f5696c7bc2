// Bit fields of a word.

ghost use Rattle.std.specs.Prelude.{◌≡◌, ◌<◌, ◌^◌};
ghost use Rattle.perf_words.specs.Bits.{bit_field};

// The number in bits `at` to `at + width - 1`, counted from the lowest bit.
#[inline]
pub(crate) fn bit_field(word: u64, at: u32, width: u32) -> u64
    requires inside { at < 64 }
    requires narrow { width < 64 }
    ensures value { result ≡ bit_field word at width }
    ensures small { result < 2 ^ width }
{
    (word >> at) % (1 << width)
}
