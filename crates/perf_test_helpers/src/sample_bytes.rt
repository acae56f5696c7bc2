//! Bodies of samples, written in both byte orders.

use std::alloc::{AllocError, Global};

/// A part of a body.
#[derive(Copy, Clone)]
pub enum Part<'a> {
    /// A 16-bit number.
    U16(u16),
    /// A 32-bit number.
    U32(u32),
    /// A 64-bit number.
    U64(u64),
    /// Bytes that are the same in both orders.
    Bytes(&'a [u8]),
}

/// Appends the bytes of a body.
pub fn put_parts(bytes: &mut Vec<u8>, is_big: bool, parts: &[Part]) -> Result<(), AllocError> {
    for part in parts {
        put_part(bytes, is_big, part)?;
    }
    Ok(())
}

fn put_part(bytes: &mut Vec<u8>, is_big: bool, part: &Part) -> Result<(), AllocError> {
    match part {
        Part::U16(number) => put_number(bytes, is_big, &mut number.to_le_bytes()),
        Part::U32(number) => put_number(bytes, is_big, &mut number.to_le_bytes()),
        Part::U64(number) => put_number(bytes, is_big, &mut number.to_le_bytes()),
        Part::Bytes(some) => bytes.extend_from_slice(some),
    }
}

// Appends the bytes of a number, which are passed with the least significant first.
fn put_number(bytes: &mut Vec<u8>, is_big: bool, number: &mut [u8]) -> Result<(), AllocError> {
    if is_big {
        number.reverse();
    }
    bytes.extend_from_slice(number)
}

/// The frame of a body, and one of LOST_SAMPLES after it.
pub fn frames(alloc: Global, is_big: bool, body: &[u8]) -> Result<Vec<u8>, AllocError> {
    let mut bytes = Vec::new(alloc);
    let size = match u16::try_from(body.len().saturating_add(8)) {
        Ok(size) => size,
        Err(_) => u16::MAX,
    };
    let header = [Part::U32(9), Part::U16(2), Part::U16(size)];
    put_parts(&mut bytes, is_big, &header)?;
    bytes.extend_from_slice(body)?;
    let next = [Part::U32(13), Part::U16(0), Part::U16(16), Part::U64(5)];
    put_parts(&mut bytes, is_big, &next)?;
    Ok(bytes)
}

/// The bytes of such frames, in little endian, whose body is one part and then the rest.
pub fn frames_of(alloc: Global, first: Part, rest: &[Part]) -> Result<Vec<u8>, AllocError> {
    let mut body = Vec::new(alloc);
    put_parts(&mut body, false, &[first])?;
    put_parts(&mut body, false, rest)?;
    frames(alloc, false, &body)
}
