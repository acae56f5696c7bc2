//! The assertions of the tests. Each is in a function of its own, because an assertion that is
//! written out is proved anew, which takes a second.

use std::alloc::AllocError;
use std::process::Abort;

// Asserts that a text is the expected one.
fn check_str(rt: &impl Abort, actual: &str, want: &str) {
    assert_eq!(rt; actual, want);
}

/// Asserts that there was memory for a text, and that it is the expected one.
pub fn check_text(rt: &impl Abort, answer: Result<String, AllocError>, want: &str) {
    match answer {
        Ok(text) => check_str(rt, text.as_str(), want),
        Err(_) => panic!(rt; "no memory"),
    }
}
