//! The texts of files, and the assertions of the tests. Each is in one function, because what is written out
//! again is proved again.

use crate::tests::features::{write_builds, write_features};
use crate::tests::files::little;
use crate::tests::opened::{write_lines, write_names};
use crate::tests::pipes::write_pipe;
use perf_file::{OpenError, Recording};
use std::alloc::{AllocError, Global};
use std::process::Abort;

/// What is told of a file.
#[derive(Copy, Clone)]
pub enum Told {
    Lines,
    Names,
    Features,
    Pipe,
    Builds,
}

// Writes what is told of a file that opens.
fn write_told(
    text: &mut String,
    alloc: Global,
    recording: &Recording<'_>,
    told: Told,
) -> Result<(), AllocError> {
    match told {
        Told::Lines => write_lines(text, alloc, recording),
        Told::Names => write_names(text, recording),
        Told::Features => write_features(text, recording),
        Told::Pipe => write_pipe(text, alloc, recording),
        Told::Builds => write_builds(text, recording),
    }
}

// What is told of a file, or why it is refused.
fn text_of(alloc: Global, bytes: &[u8], told: Told) -> Result<String, AllocError> {
    let mut text = String::new(alloc);
    let written = match Recording::open(alloc, bytes) {
        Ok(recording) => {
            let written = write_told(&mut text, alloc, &recording, told);
            drop(recording);
            written
        }
        Err(error) => text.push_str(error.message()),
    };
    written?;
    Ok(text)
}

/// Asserts a text.
pub fn check_str(rt: &impl Abort, text: &str, want: &str) {
    assert_eq!(rt; text, want);
}

/// Asserts bytes.
pub fn check_bytes(rt: &impl Abort, found: &[u8], want: &[u8]) {
    assert_eq!(rt; found, want);
}

/// Asserts what is told of a file.
pub fn check_told(
    rt: &(impl AllocGlobal + Abort),
    bytes: Result<Vec<u8>, AllocError>,
    told: Told,
    want: &str,
) {
    match bytes {
        Ok(bytes) => match text_of(rt.alloc(), &bytes, told) {
            Ok(text) => check_str(rt, &text, want),
            Err(_) => panic!(rt; "no memory"),
        },
        Err(_) => panic!(rt; "no memory"),
    }
}

// Why a file is refused, if it is.
fn refusal(alloc: Global, bytes: &[u8]) -> Option<OpenError> {
    match Recording::open(alloc, bytes) {
        Ok(recording) => {
            drop(recording);
            None
        }
        Err(error) => Some(error),
    }
}

/// Asserts why a file is refused, if it is, of which one number is another, and so many bytes are kept.
pub fn check_refusal(
    rt: &(impl AllocGlobal + Abort),
    words: &[u64],
    change: (usize, u64),
    kept: usize,
    want: Option<OpenError>,
) {
    match little(rt.alloc(), words, &[], &[change]) {
        Ok(bytes) => {
            let found = refusal(rt.alloc(), &bytes[..kept.min(bytes.len())]);
            assert_eq!(rt; found, want, "number {}, {kept} bytes", change.0);
        }
        Err(_) => panic!(rt; "no memory"),
    }
}
