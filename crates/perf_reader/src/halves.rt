//! The halves of eight bytes as numbers of four.

ghost use Rattle.std.specs.Prelude.{◌≡◌};
ghost use Rattle.perf_base.specs.Layout.{slice};

use perf_base::Endian;

/// The first four of eight bytes as a number.
#[inline(always)]
pub fn first_half<E: Endian>(order: &E, word: [u8; 8]) -> u32
    ensures { result ≡ (E.order order.now).four (slice word 0 4) }
{
    let [b0, b1, b2, b3, _, _, _, _] = word;
    order.convert_u32([b0, b1, b2, b3])
}

/// The last four of eight bytes as a number.
#[inline(always)]
pub fn second_half<E: Endian>(order: &E, word: [u8; 8]) -> u32
    ensures { result ≡ (E.order order.now).four (slice word 4 4) }
{
    let [_, _, _, _, b4, b5, b6, b7] = word;
    order.convert_u32([b4, b5, b6, b7])
}
