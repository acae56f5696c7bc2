//! Byte orders as numbers.

ghost use Rattle.std.specs.Prelude.{◌≡◌, true, false, MatchOption};
ghost use Rattle.perf_flat.specs.FlatConfigs as flat;
ghost use Rattle.perf_outlines.specs.CallerConfigs.{is_order};

use perf_base::endian::Dynamic;

/// The byte order of a number: 0 for the lowest byte first, 1 for the highest.
#[inline]
pub fn order_by(order: u32) -> Option<Dynamic>
    ensures { MatchOption result (is_order order ≡ false)
        (λ o. (is_order order ≡ true) × (o ≡ flat.order_by order)) }
{
    match order {
        0 => Some(Dynamic::Little),
        1 => Some(Dynamic::Big),
        _ => None,
    }
}
