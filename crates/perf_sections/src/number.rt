//! Numbers and bytes at their offsets.

ghost use Rattle.std.specs.Prelude.{◌≡◌, ◌+◌, ◌≤◌, length};
ghost use Rattle.perf_base.specs.Dynamic.{order_of};
ghost use Rattle.perf_base.specs.Layout.{slice};
ghost use Rattle.perf_sections.specs.Numbers as numbers;

use perf_base::Endian;
use perf_base::endian::Dynamic;

/// The number of the eight bytes at an offset.
pub fn number_at(order: Dynamic, bytes: &[u8], at: usize) -> u64
    requires { at + 8 ≤ length bytes.now }
    ensures { result ≡ numbers.number (order_of order) bytes.now at }
{
    match bytes[at..].first_chunk::<8>() {
        Some(eight) => order.convert_u64(*eight),
        None => 0,
    }
}

/// The number of the four bytes at an offset.
pub fn small_number_at(order: Dynamic, bytes: &[u8], at: usize) -> u32
    requires { at + 4 ≤ length bytes.now }
    ensures { result ≡ numbers.small_number (order_of order) bytes.now at }
{
    match bytes[at..].first_chunk::<4>() {
        Some(four) => order.convert_u32(*four),
        None => 0,
    }
}

/// So many bytes from an offset on.
pub fn bytes_at(bytes: &[u8], at: usize, size: usize) -> &[u8]
    requires { at + size ≤ length bytes.now }
    ensures { result.now ≡ slice bytes.now at size }
{
    bytes.split_at(at).1.split_at(size).0
}
