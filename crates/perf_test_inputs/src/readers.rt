//! A reader that fails.

use std::io;
use std::io::Read;

/// Gives some bytes, at most `most` at a time, and then ends, or fails with each read.
#[derive(Copy, Clone)]
pub struct Failing<'a> {
    pub bytes: &'a [u8],
    pub most: usize,
    pub fault: Option<io::ErrorKind>,
}

impl Read for Failing<'_> {
    fn read(&mut self, buf: &mut [u8]) -> io::Result<usize> {
        if self.bytes.is_empty() {
            return match self.fault {
                Some(kind) => Err(io::Error::from(kind)),
                None => Ok(0),
            };
        }
        let count = buf.len().min(self.most);
        self.bytes.read(&mut buf[..count])
    }
}
