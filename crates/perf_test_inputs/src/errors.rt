//! The text of an error.

use perf_base::ParseError;
use std::alloc::{AllocError, Global};

/// The kind of an error, its message, its cause if it has one, and its text.
pub fn text_of_error(alloc: Global, error: &ParseError) -> Result<String, AllocError> {
    let mut text = String::new(alloc);
    write!(text, "{:?}, {:?}, ", error.kind(), error.message())?;
    match error.cause() {
        Some(cause) => write!(text, "{cause}")?,
        None => text.push_str("no cause")?,
    }
    write!(text, ", {error}")?;
    Ok(text)
}
