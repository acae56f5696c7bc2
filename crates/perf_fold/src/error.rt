//! Why texts of folded stacks are refused, and why the stacks of a recording are not written.

ghost use Rattle.std.specs.Prelude.{◌≡◌, Some};
ghost use Rattle.perf_fold.specs.Messages as messages;
ghost use Rattle.perf_fold.specs.declared.error.FoldError.TheVariants as errors;
ghost use Rattle.perf_fold.specs.declared.error.TextError.TheVariants as texts;

use perf_file::OpenError;
use perf_flame::error::{FlameError, FoldedError};
use std::alloc::AllocError;
use std::fmt;

/// Why texts of folded stacks, or a flame graph of them, are refused.
#[derive(Copy, Clone, Debug, PartialEq, Eq)]
pub enum TextError {
    /// A line is no stack, a space and a number below 2^64: which text it is in, from 0, and which of
    /// its lines it is, from 1.
    BadLine { text: usize, line: usize },
    /// The sum of all counts is 2^64 or more, which no flame graph has.
    TooMany,
    /// Out of memory.
    OutOfMemory,
}

impl From<AllocError> for TextError {
    ghost from_gives = { λ _ e. e ≡ texts.OutOfMemory };

    fn from(_error: AllocError) -> TextError {
        TextError::OutOfMemory
    }
}

/// What is wrong, and what to do.
impl fmt::Display for TextError {
    ghost output = { λ e. Some (messages.text_message e) };

    fn fmt<W: fmt::Write>(&self, f: &mut fmt::Formatter<W>) -> fmt::Result {
        match self {
            TextError::BadLine { text: _, line } => write!(f, "{}", FoldedError::BadLine(*line)),
            TextError::TooMany => write!(f, "{}", FlameError::TooMany),
            TextError::OutOfMemory => write!(f, "{}", FlameError::OutOfMemory),
        }
    }
}

impl std::error::Error for TextError {}

/// Why the stacks of a recording are not written.
#[derive(Copy, Clone, Debug, PartialEq, Eq)]
pub enum FoldError {
    /// The file cannot be opened.
    Open(OpenError),
    /// No event has the name that the filter states.
    NoEvent,
    /// There is no such text of the stacks, or memory ran out.
    Text(TextError),
}

impl From<AllocError> for FoldError {
    ghost from_gives = { λ _ e. e ≡ errors.Text texts.OutOfMemory };

    fn from(_error: AllocError) -> FoldError {
        FoldError::Text(TextError::OutOfMemory)
    }
}

impl From<OpenError> for FoldError {
    ghost from_gives = { λ error e. e ≡ errors.Open error };

    fn from(error: OpenError) -> FoldError {
        FoldError::Open(error)
    }
}

/// What is wrong, and what to do.
impl fmt::Display for FoldError {
    ghost output = { λ e. Some (messages.message e) };

    fn fmt<W: fmt::Write>(&self, f: &mut fmt::Formatter<W>) -> fmt::Result {
        match self {
            FoldError::Open(error) => write!(f, "{error}"),
            FoldError::NoEvent => f.write_str(
                "no event has this name: `perf_data events` prints the names",
            ),
            FoldError::Text(error) => write!(f, "{error}"),
        }
    }
}

impl std::error::Error for FoldError {}
