//! Files and pipes of which one byte is another.

use crate::tests::files::{SMALL, little};
use crate::tests::pipes::PIPE;
use perf_file::Recording;
use std::alloc::{AllocError, Global};
use std::process::Abort;

// Whether all frames of what opens are in order of time, and found by their entries.
fn is_in_order(recording: &Recording<'_>, alloc: Global) -> Result<bool, AllocError> {
    let mut before = (0, 0);
    for entry in &recording.in_order(alloc)? {
        let here = (entry.time, entry.at);
        if here < before || recording.frame_at(entry).is_none() {
            return Ok(false);
        }
        before = here;
    }
    Ok(true)
}

// Whether the frames of bytes, of which one is another, are in order, if they open. All calls over features
// return.
fn order_of(
    alloc: Global,
    bytes: &[u8],
    place: usize,
    byte: u8,
) -> Result<Option<bool>, AllocError> {
    let mut changed = bytes.to_vec(alloc)?;
    if place < changed.len() {
        changed[place] = byte;
    }
    match Recording::open(alloc, &changed) {
        Ok(recording) => {
            let is_in_order = is_in_order(&recording, alloc);
            drop(recording);
            Ok(Some(is_in_order?))
        }
        Err(_) => Ok(None),
    }
}

// How many of the files open of which one byte is another, if the frames of each of these are in order.
fn opening(alloc: Global, words: &[u64], byte: u8) -> Result<Option<usize>, AllocError> {
    let bytes = little(alloc, words, &[], &[])?;
    let mut count = 0usize;
    for place in 0..bytes.len() {
        match order_of(alloc, &bytes, place, byte)? {
            Some(true) => count = count.wrapping_add(1),
            Some(false) => return Ok(None),
            None => {}
        }
    }
    Ok(Some(count))
}

// Asserts how many of the files open of which one byte is another: as many as by a reader of the format
// that was written for this in another language.
fn check_changed(rt: &(impl AllocGlobal + Abort), words: &[u64], byte: u8, want: usize) {
    let count = opening(rt.alloc(), words, byte);
    assert!(rt; count == Ok(Some(want)), "{count:?} bytes that are {byte}");
}

#[test]
fn each_byte_of_a_file_is_another(rt: HostRuntime) {
    check_changed(&rt, &SMALL, 0, 402);
    check_changed(&rt, &SMALL, 255, 327);
}

#[test]
fn each_byte_of_a_pipe_is_another(rt: HostRuntime) {
    check_changed(&rt, &PIPE, 0, 423);
    check_changed(&rt, &PIPE, 255, 412);
}
