//! Why the text of a recording is not written.

ghost use Rattle.std.specs.Prelude.{◌≡◌, Some};
ghost use Rattle.perf_sections.specs.declared.error.OpenError.TheVariants as opens;
ghost use Rattle.perf_script.specs.Messages as messages;
ghost use Rattle.perf_script.specs.declared.error.ScriptError.TheVariants as errors;

use perf_file::OpenError;
use std::alloc::AllocError;
use std::fmt;

/// Why the text of a recording is not written.
#[derive(Copy, Clone, Debug, PartialEq, Eq)]
pub enum ScriptError {
    /// The file cannot be opened, or memory ran out.
    Open(OpenError),
    /// No event has the name that the filter states.
    NoEvent,
}

impl From<AllocError> for ScriptError {
    ghost from_gives = { λ _ e. e ≡ errors.Open opens.OutOfMemory };

    fn from(_error: AllocError) -> ScriptError {
        ScriptError::Open(OpenError::OutOfMemory)
    }
}

impl From<OpenError> for ScriptError {
    ghost from_gives = { λ error e. e ≡ errors.Open error };

    fn from(error: OpenError) -> ScriptError {
        ScriptError::Open(error)
    }
}

/// What is wrong, and what to do.
impl fmt::Display for ScriptError {
    ghost output = { λ e. Some (messages.message e) };

    fn fmt<W: fmt::Write>(&self, f: &mut fmt::Formatter<W>) -> fmt::Result {
        match self {
            ScriptError::Open(error) => write!(f, "{error}"),
            ScriptError::NoEvent => f.write_str(
                "no event has this name: `perf_data events` prints the names",
            ),
        }
    }
}

impl std::error::Error for ScriptError {}
