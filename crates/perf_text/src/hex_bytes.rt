//! Byte strings in hexadecimal.

ghost use Rattle.std.specs.Prelude.{◌≡◌, ◌++◌, string_bytes, OnOk};
ghost use Rattle.perf_text.specs.Numbers.{hex_bytes};

use crate::strip::{ROOM, Strip};
use std::alloc::AllocError;

// How many bytes fit a strip, in two digits each.
const BYTES: usize = ROOM / 2;

/// Appends the hexadecimal digits of bytes, two for each. If memory runs out, a part of them may have
/// been appended.
pub fn push_hex_bytes(text: &mut String, bytes: &[u8]) -> Result<(), AllocError>
    ensures { OnOk result (string_bytes text.new ≡ string_bytes text.old ++ hex_bytes bytes.now) }
{
    let mut strip = Strip::new();
    for some in bytes.chunks(BYTES) {
        strip.clear();
        strip.put_hex_bytes(some);
        text.push_str(strip.text())?;
    }
    Ok(())
}
