//! What is computed of a sample's layout: which flags a field has, and lengths.

ghost use Rattle.std.specs.Prelude.{◌≡◌, [], ◌∷◌};
ghost use Rattle.perf_sample_types.specs.Registers as registers;
ghost use Rattle.perf_sample_types.specs.Sample as sample;
ghost use Rattle.perf_words.specs.SetBits.{sample_flags_bits};

use bitflags::Flags;
use perf_words::SampleFlags;

/// Whether a sample has a weight, which is present under either of two flags.
#[inline]
pub fn is_weighed(flags: SampleFlags) -> bool
    ensures { result ≡ sample.has_one (sample_flags_bits flags) (14 ∷ 24 ∷ []) }
{
    flags.contains(SampleFlags::WEIGHT) || flags.contains(SampleFlags::WEIGHT_STRUCT)
}

/// How many bytes pad raw bytes, with the four of their length, to a multiple of eight.
#[inline]
pub fn raw_padding(len: usize) -> usize
    ensures { result ≡ sample.raw_padding len }
{
    (12 - len % 8) % 8
}

/// How many registers there are: one for each bit of the mask, but none if the ABI is 0.
#[inline]
pub fn register_count(mask: u64, abi: u64) -> usize
    ensures { result ≡ registers.register_count mask abi }
{
    if abi == 0 {
        0
    } else {
        mask.count_ones() as usize
    }
}
