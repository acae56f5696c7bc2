//! Writing to the output.

ghost use Rattle.std.specs.Prelude.{ℕ, IsTrue, take};
ghost use Rattle.std.specs.Io.KnownBytes.{Appends};

use perf_text::output::write_whole;
use std::io::Write;

/// Writes bytes, and returns whether all of them were written and flushed. Stops at the first write
/// that fails or takes no bytes.
pub fn write_and_flush<W: Write>(writer: &mut W, bytes: &[u8]) -> bool
    ensures whole { IsTrue result →
        Appends (W.contents writer.old) (W.contents writer.new) bytes.now }
    ensures part { (n : ℕ)
        × Appends (W.contents writer.old) (W.contents writer.new) (take n bytes.now) }
{
    match write_whole(writer, bytes, false) {
        Ok(()) => writer.flush().is_ok(),
        Err(_) => false,
    }
}
