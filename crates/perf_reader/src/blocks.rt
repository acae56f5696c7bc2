//! Numbers of eight bytes, several at once.

ghost use Rattle.std.specs.Prelude.{◌≡◌, ◌*◌, length};
ghost use Rattle.perf_base.specs.Layout.{words_of};

use perf_base::Endian;

// The most numbers in a block that is read when the input does not show them.
pub(crate) const BLOCK_LEN: usize = 48;

// The size of a number in bytes.
pub(crate) const NUMBER_SIZE: usize = 8;

// The size of such a block in bytes.
pub(crate) const BLOCK_SIZE: usize = 384;

// Converts bytes to numbers.
#[inline]
pub(crate) fn convert<E: Endian>(order: &E, bytes: &[u8], numbers: &mut [u64])
    requires { length bytes.now ≡ 8 * length numbers.old }
    ensures { numbers.new ≡ words_of (E.order order.now) (length numbers.old) bytes.now }
{
    let (chunks, _) = bytes.as_chunks::<8>();
    for i in 0..numbers.len() {
        numbers[i] = order.convert_u64(chunks[i]);
    }
}
