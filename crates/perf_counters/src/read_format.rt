//! Which read formats are known.

ghost use Rattle.std.specs.Prelude.{◌≡◌};
ghost use Rattle.perf_counters.specs.ReadFormat.{has_known_bits};
ghost use Rattle.perf_words.specs.SetBits.{read_format_bits};

use bitflags::Flags;
use perf_words::ReadFormat;

// Whether a read format has no flags other than the known ones, which are its lowest five bits.
#[inline]
pub(crate) fn is_known(read_format: ReadFormat) -> bool
    ensures { result ≡ has_known_bits (read_format_bits read_format) }
{
    read_format.bits() < 1 << 5
}
