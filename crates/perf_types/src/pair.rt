//! Two numbers of four bytes.

ghost use Rattle.std.specs.Prelude.{◌≡◌};
ghost use Rattle.perf_base.specs.Layout.{value};
ghost use Rattle.perf_types.specs.Pair.{pair};
ghost use Rattle.perf_types.specs.Prelude.{Call, Reads, NeedsNoMemory, kinds};

use perf_base::{Endian, ReadResult};
use perf_buffers::input::Input;
use perf_reader::reader::Reader;

// The size of both in bytes.
const SIZE: usize = 8;

// The numbers in these bytes.
#[inline]
pub(crate) fn pair_in<E: Endian>(endian: &E, bytes: [u8; SIZE]) -> (u32, u32)
    ensures { result ≡ value (E.order endian.now) bytes 0 pair }
{
    let [b0, b1, b2, b3, b4, b5, b6, b7] = bytes;
    (
        endian.convert_u32([b0, b1, b2, b3]),
        endian.convert_u32([b4, b5, b6, b7]),
    )
}

// The next two numbers, at once if the input reports that it has them.
#[inline]
#[tactic(auto, using(perf_reader::proofs::Calls::chain))]
pub(crate) fn read_pair<'p, I: Input<'p>, E: Endian>(
    reader: &mut Reader<I, E>,
) -> ReadResult<(u32, u32)>
    ensures memory { NeedsNoMemory (kinds result) }
    ensures call { Call I.source E.order (Reads (λ _. pair) (λ p. p))
        reader.old (kinds result) reader.new }
{
    if let Some(bytes) = reader.read_at_once::<SIZE>(2)? {
        return Ok(pair_in(reader.endian(), bytes));
    }
    let first = reader.read_u32()?;
    let second = reader.read_u32()?;
    Ok((first, second))
}
