//! Zero bytes at the end of a name.

ghost use Rattle.std.specs.Prelude.{◌≡◌, ◌≤◌, length, take};
ghost use Rattle.perf_base.specs.Zeros.{trim_zeros};

/// The number of bytes before the zero bytes at the end.
#[inline]
pub fn trimmed_len(bytes: &[u8]) -> usize
    ensures within { result ≤ length bytes.now }
    ensures trimmed { take result bytes.now ≡ trim_zeros bytes.now }
{
    let mut len = bytes.len();
    while 0 < len && bytes[len - 1] == 0 {
        len -= 1;
    }
    len
}
