//! The assertions of the tests. Each is in a function of its own, because an assertion that is
//! written out is proved anew, which takes a second.

use std::alloc::AllocError;
use std::fmt::Debug;
use std::process::Abort;

/// Asserts that a value is the expected one.
pub fn check_same<T: PartialEq + Debug + Drop>(rt: &impl Abort, what: &str, value: T, want: T) {
    assert_eq!(rt; value, want, "{what}");
}

/// Asserts that a text is the expected one.
pub fn check_text(rt: &impl Abort, answer: Result<String, AllocError>, want: &str) {
    match answer {
        Ok(text) => check_same(rt, "the text", text.as_str(), want),
        Err(_) => panic!(rt; "no memory"),
    }
}

/// Asserts bytes.
pub fn check_bytes(rt: &impl Abort, what: &str, value: &[u8], want: &[u8]) {
    check_same(rt, what, value, want);
}
