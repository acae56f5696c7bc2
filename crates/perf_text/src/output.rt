//! Writing to the output.

ghost use Rattle.std.specs.Prelude.{ℕ, take, length, ◌≤◌, OnOk};
ghost use Rattle.std.specs.Io.KnownBytes.{Appends};

use std::io::{self, Write};

/// Writes all bytes. The first write that fails or takes no bytes ends it, and then a prefix of the
/// bytes was written; only one that was interrupted is made again, if `retries`.
pub fn write_whole<W: Write>(output: &mut W, bytes: &[u8], retries: bool) -> io::Result<()>
    ensures whole { OnOk result (Appends (W.contents output.old) (W.contents output.new)
        bytes.now) }
    ensures part { (n : ℕ) × Appends (W.contents output.old) (W.contents output.new)
        (take n bytes.now) }
{
    let mut at = 0;
    for _ in 0..u64::MAX {
        if at == bytes.len() {
            return Ok(());
        }
        match output.write(&bytes[at..]) {
            Ok(0) => break,
            Ok(count) => at += count,
            Err(error) if retries && error.kind() == io::ErrorKind::Interrupted => {}
            Err(error) => return Err(error),
        }
    }
    Err(io::Error::new(io::ErrorKind::WriteZero, "failed to write whole buffer"))
}
