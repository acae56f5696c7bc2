//! An output that needs no memory.

ghost use Rattle.std.specs.Prelude.{◌≤◌};

use std::io::{self, Write};

/// Keeps a text of at most 512 bytes.
#[derive(Drop)]
pub struct Page {
    bytes: [u8; 512],
    len: usize,
    ghost within: { len ≤ 512 },
}

impl Page {
    /// A page with no text.
    pub fn new() -> Page {
        Page {
            bytes: [0; 512],
            len: 0,
        }
    }

    /// The text.
    pub fn text(&self) -> &[u8] {
        &self.bytes[..self.len]
    }
}

impl Write for Page {
    fn write(&mut self, buf: &[u8]) -> io::Result<usize> {
        let count = buf.len().min(512 - self.len);
        self.bytes[self.len..self.len + count].copy_from_slice(&buf[..count]);
        self.len += count;
        Ok(count)
    }

    fn flush(&mut self) -> io::Result<()> {
        Ok(())
    }
}
