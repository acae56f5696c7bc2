//! The assertions of the tests. Each is in a function of its own, because an assertion that is
//! written out is proved anew, which takes a second.

use perf_event_data::parse::ParseResult;
use perf_lines::outcome::Outcome;
use std::alloc::AllocError;
use std::fmt::Debug;
use std::process::Abort;

/// Asserts that a value is the expected one, and names what it is if not.
pub fn check_same<T: PartialEq + Debug + Drop>(rt: &impl Abort, what: &str, value: T, want: T) {
    assert_eq!(rt; value, want, "{what}");
}

/// Asserts that there was memory for a text, and that it is the expected one.
pub fn check_text(rt: &impl Abort, answer: Result<String, AllocError>, want: &str) {
    match answer {
        Ok(text) => check_same(rt, "the text", text.as_str(), want),
        Err(_) => panic!(rt; "no memory"),
    }
}

/// Asserts that a call returned a text, and that it is the expected one.
pub fn check_answer(rt: &impl Abort, what: &str, answer: ParseResult<String>, want: &str) {
    match answer {
        Ok(text) => check_same(rt, what, text.as_str(), want),
        Err(error) => panic!(rt; "{what}: {error}"),
    }
}

/// Asserts the `{:?}` of a value: all of its fields, and of each list whether it is borrowed.
pub fn check_debug<T: Debug + Drop>(rt: &(impl AllocGlobal + Abort), value: T, want: &str) {
    check_text(rt, format!(in rt.alloc(); "{value:?}"), want);
}

/// Asserts what a run writes, and how it ends.
pub fn check_written(rt: &impl Abort, value: (&[u8], Outcome), want: (&[u8], Outcome)) {
    check_same(rt, "what is written", value, want);
}

/// Asserts what is kept of a text, and whether that is all of it.
pub fn check_kept(rt: &impl Abort, value: (&[u8], bool), want: (&[u8], bool)) {
    check_same(rt, "what is kept", value, want);
}
