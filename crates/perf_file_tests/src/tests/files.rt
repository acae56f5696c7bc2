//! The files of the tests: numbers of eight bytes.

use std::alloc::{AllocError, Global};

/// The number of such numbers in [`SMALL`].
pub const WORDS: usize = 53;

/// A file of two events with the sample type TIME and IDENTIFIER, whose frames end with a sample id.
/// A header is the type, `misc` from bit 32 on, and the size from bit 48 on.
/// The ids are at 104, the attributes at 120, and the frames at 280.
pub const SMALL: [u64; WORDS] = [
    // the head: magic, its size, that of an entry, attributes, data, event types, features
    0x3245_4c49_4652_4550,
    104,
    80,
    120,
    160,
    280,
    144,
    0,
    0,
    0,
    0,
    0,
    0,
    // the ids
    20,
    21,
    // an attribute: type and size, config, period, sample type, read format, flags, and two more
    1 + (64 << 32),
    0,
    4000,
    0x10004,
    0,
    1 << 18,
    0,
    0,
    // where its ids are
    104,
    8,
    // the second one
    1 + (64 << 32),
    2,
    4000,
    0x10004,
    0,
    1 << 18,
    0,
    0,
    112,
    8,
    // a SAMPLE: its id and its time
    9 + (2 << 32) + (24 << 48),
    21,
    1000,
    // a COMM: process and thread, a name, and the sample id with its time and its id
    3 + (40 << 48),
    7 + (7 << 32),
    0x6873,
    500,
    20,
    // an AUXTRACE with 16 bytes of payload
    71 + (24 << 48),
    16,
    0,
    0x0909_0909_0909_0909,
    0x0909_0909_0909_0909,
    // a FINISHED_ROUND
    68 + (8 << 48),
    // a SAMPLE with an id of no event
    9 + (2 << 32) + (24 << 48),
    99,
    800,
    // a SAMPLE without an id
    9 + (2 << 32) + (8 << 48),
];

/// The number of such numbers in [`BIG`].
pub const BIG_WORDS: usize = 28;

/// One event, without ids, of a big-endian machine: flag 18 of the attribute is bit 45 there. The
/// attribute is at 104, and the frames are at 184.
pub const BIG: [u64; BIG_WORDS] = [
    0x3245_4c49_4652_4550,
    104,
    80,
    104,
    80,
    184,
    40,
    0,
    0,
    0,
    0,
    0,
    0,
    (1 << 32) + 64,
    0,
    4000,
    4,
    0,
    1 << 45,
    0,
    0,
    0,
    0,
    // a COMM: process and thread, a name, and its time
    (3 << 32) + 32,
    (7 << 32) + 7,
    0x7368_0000_0000_0000,
    600,
    // an unfinished frame
    (9 << 32) + 64,
];

// A number at a place, or what the last change there makes of it.
fn changed(place: usize, number: u64, changes: &[(usize, u64)]) -> u64 {
    let mut found = number;
    for (at, other) in changes {
        if *at == place {
            found = *other;
        }
    }
    found
}

// Appends the bytes of numbers, with changes.
fn push_numbers(
    bytes: &mut Vec<u8>,
    words: &[u64],
    changes: &[(usize, u64)],
    is_big: bool,
) -> Result<(), AllocError> {
    for word in words {
        let number = changed(bytes.len() / 8, *word, changes);
        let eight = if is_big {
            number.to_be_bytes()
        } else {
            number.to_le_bytes()
        };
        bytes.extend_from_slice(&eight)?;
    }
    Ok(())
}

// The bytes of numbers and of more, with changes.
fn bytes_of(
    alloc: Global,
    words: &[u64],
    more: &[u64],
    changes: &[(usize, u64)],
    is_big: bool,
) -> Result<Vec<u8>, AllocError> {
    let mut bytes = Vec::new(alloc);
    push_numbers(&mut bytes, words, changes, is_big)?;
    push_numbers(&mut bytes, more, changes, is_big)?;
    Ok(bytes)
}

/// The bytes of numbers and of more, with changes: the places of some, and other numbers. The lowest byte of
/// each is first.
pub fn little(
    alloc: Global,
    words: &[u64],
    more: &[u64],
    changes: &[(usize, u64)],
) -> Result<Vec<u8>, AllocError> {
    bytes_of(alloc, words, more, changes, false)
}

/// The same with the highest byte first.
pub fn big(
    alloc: Global,
    words: &[u64],
    more: &[u64],
    changes: &[(usize, u64)],
) -> Result<Vec<u8>, AllocError> {
    bytes_of(alloc, words, more, changes, true)
}
