//! Frames that several tests read.

use std::alloc::{AllocError, Global};

/// MMAP2 whose file is identified by a build id.
pub const BY_BUILD_ID: &[u8] = b"\x0A\0\0\0\0\x40\x50\0\x01\0\0\0\x02\0\0\0\
    \0\x10\0\0\0\0\0\0\0\x20\0\0\0\0\0\0\0\0\0\0\0\0\0\0\
    \x14\0\0\0\x01\x02\x03\x04\x05\x06\x07\x08\x09\x0A\x0B\x0C\x0D\x0E\x0F\x10\x11\x12\x13\x14\
    \x05\0\0\0\x02\0\0\0\x61\x62\0\0\0\0\0\0";

// A frame of each type and one of an unknown type, with a body of zero bytes: the type and the
// size.
const FRAMES: [(u8, u8); 22] = [
    (1, 40),
    (2, 24),
    (3, 16),
    (4, 32),
    (5, 32),
    (6, 32),
    (7, 32),
    (8, 24),
    (9, 8),
    (10, 72),
    (11, 32),
    (12, 16),
    (13, 16),
    (14, 8),
    (15, 16),
    (16, 24),
    (17, 24),
    (18, 24),
    (19, 16),
    (20, 24),
    (21, 16),
    (22, 8),
];

/// A frame of each type, in their order, and one of an unknown type, all with bodies of zero bytes.
pub fn zero_frames(alloc: Global) -> Result<Vec<u8>, AllocError> {
    let mut bytes = Vec::new(alloc);
    for &(ty, size) in &FRAMES {
        let end = bytes.len().saturating_add(usize::from(size));
        bytes.extend_from_slice(&[ty, 0, 0, 0, 0, 0, size, 0])?;
        bytes.resize(end, 0)?;
    }
    Ok(bytes)
}
