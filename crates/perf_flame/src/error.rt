//! Why a text of folded stacks, or a flame graph, is refused.

ghost use Rattle.std.specs.Prelude.{◌≡◌, Some};
ghost use Rattle.perf_flame.specs.Messages as messages;
ghost use Rattle.perf_flame.specs.declared.error.FlameError.TheVariants as flame;
ghost use Rattle.perf_flame.specs.declared.error.FoldedError.TheVariants.{OutOfMemory};

use std::alloc::AllocError;
use std::fmt;

/// Why a text of folded stacks is refused.
#[derive(Copy, Clone, Debug, PartialEq, Eq)]
pub enum FoldedError {
    /// The line with that number is no stack, a space and a number below 2^64. Lines are numbered from 1.
    BadLine(usize),
    /// Out of memory.
    OutOfMemory,
}

impl From<AllocError> for FoldedError {
    ghost from_gives = { λ _ e. e ≡ OutOfMemory };

    fn from(_error: AllocError) -> FoldedError {
        FoldedError::OutOfMemory
    }
}

/// What is wrong, and what to do.
impl fmt::Display for FoldedError {
    ghost output = { λ e. Some (messages.folded_message e) };

    fn fmt<W: fmt::Write>(&self, f: &mut fmt::Formatter<W>) -> fmt::Result {
        match self {
            FoldedError::BadLine(number) => {
                write!(
                    f,
                    "line {number} is no folded stack: each line is a stack, a space and a count below 2^64"
                )
            }
            FoldedError::OutOfMemory => {
                write!(f, "out of memory: leave more of it to the program")
            }
        }
    }
}

impl std::error::Error for FoldedError {}

/// Why a flame graph is refused.
#[derive(Copy, Clone, Debug, PartialEq, Eq)]
pub enum FlameError {
    /// The sum of all counts is 2^64 or more.
    TooMany,
    /// Out of memory.
    OutOfMemory,
}

impl From<AllocError> for FlameError {
    ghost from_gives = { λ _ e. e ≡ flame.OutOfMemory };

    fn from(_error: AllocError) -> FlameError {
        FlameError::OutOfMemory
    }
}

/// What is wrong, and what to do.
impl fmt::Display for FlameError {
    ghost output = { λ e. Some (messages.flame_message e) };

    fn fmt<W: fmt::Write>(&self, f: &mut fmt::Formatter<W>) -> fmt::Result {
        match self {
            FlameError::TooMany => {
                write!(f, "the counts have a sum of 2^64 or more: leave lines out")
            }
            FlameError::OutOfMemory => {
                write!(f, "out of memory: leave more of it to the program")
            }
        }
    }
}

impl std::error::Error for FlameError {}
