//! What the tests write, and the assertions of it. Each is in a function of its own, because what
//! is written out is proved anew, which takes a second.

use std::alloc::AllocError;
use std::fmt::Debug;
use std::process::Abort;

/// Appends the `{:?}` of a value. If memory runs out the text is shorter than the expected one.
pub fn add(text: &mut String, value: &impl Debug) {
    let _ = write!(text, "{value:?} ");
}

/// Appends a line feed.
pub fn end_line(text: &mut String) {
    let _ = text.push_str("\n");
}

/// Asserts a text.
pub fn check_text(rt: &impl Abort, text: String, want: &str) {
    assert_eq!(rt; text.as_str(), want);
}

/// Asserts a text that needs memory.
pub fn check_answer(rt: &impl Abort, answer: Result<String, AllocError>, want: &str) {
    match answer {
        Ok(text) => check_text(rt, text, want),
        Err(_) => panic!(rt; "no memory"),
    }
}

/// Asserts bytes.
pub fn check_bytes(rt: &impl Abort, actual: &[u8], want: &[u8]) {
    assert_eq!(rt; actual, want);
}

/// Asserts numbers.
pub fn check_numbers(rt: &impl Abort, actual: &[u64], want: &[u64]) {
    assert_eq!(rt; actual, want);
}

/// Asserts the `{:?}` of a value: all of its fields, and of each list whether it is borrowed.
pub fn check_debug<T: Debug + Drop>(rt: &(impl AllocGlobal + Abort), value: T, want: &str) {
    check_answer(rt, format!(in rt.alloc(); "{value:?}"), want);
}
