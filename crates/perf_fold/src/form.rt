//! The forms in which folded stacks are written.

ghost use Rattle.perf_flame.specs.FoldedLines.{folded_lines};
ghost use Rattle.perf_fold.specs.Forms.{GivesText, GivesGraph};

use crate::error::TextError;
use perf_flame::error::FlameError;
use perf_flame::flame::flame;
use perf_flame::folded::Folded;
use std::alloc::Global;

/// How folded stacks are written.
#[derive(Copy, Clone, Debug, PartialEq, Eq)]
pub enum Form {
    /// A line for each stack.
    Lines,
    /// A flame graph.
    Flame,
    /// A flame graph from the innermost frames on.
    Inverted,
}

/// The text of folded stacks in a form. A flame graph of counts whose sum is 2^64 or more is refused.
pub fn text_of(alloc: Global, folded: &Folded, form: Form) -> Result<Vec<u8>, TextError>
    ensures { GivesText form (folded_lines folded.now) result }
{
    match form {
        Form::Lines => Ok(folded.text()?),
        Form::Flame => graph_of(alloc, folded, false),
        Form::Inverted => graph_of(alloc, folded, true),
    }
}

// The flame graph of folded stacks.
fn graph_of(alloc: Global, folded: &Folded, inverted: bool) -> Result<Vec<u8>, TextError>
    ensures { GivesGraph inverted (folded_lines folded.now) result }
{
    match flame(alloc, folded, inverted) {
        Ok(text) => Ok(text),
        Err(FlameError::TooMany) => Err(TextError::TooMany),
        Err(FlameError::OutOfMemory) => Err(TextError::OutOfMemory),
    }
}
