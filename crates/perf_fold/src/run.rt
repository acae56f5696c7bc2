//! Writes the folded stacks of a recording, and is the engine of the commands over one.

ghost use Rattle.std.specs.Prelude.{◌≡◌};
ghost use Rattle.perf_fold.specs.Written as written;

use crate::error::{FoldError, TextError};
use crate::folding::{Choice, fold_labelled};
use crate::form::Form;
use crate::labels::{any_counts, labels_of};
use crate::writing::write_folded;
use perf_file::{OpenError, Recording};
use perf_lines::outcome::Outcome;
use std::alloc::Global;
use std::io::Write;

/// Writes the folded stacks of the bytes of a file in a form. Nothing is written before all of the
/// text is made, and nothing at all if the file cannot be opened, no event has the name that the
/// filter states, the form is refused, or memory runs out.
///
/// The outcome is `Clean`, or `Stopped` if writing failed.
pub fn write_fold<W: Write>(
    alloc: Global,
    bytes: &[u8],
    how: Choice<'_>,
    form: Form,
    writer: &mut W,
) -> Result<Outcome, FoldError>
    ensures { written.WritesFold how.entry form bytes.now result
        (W.contents writer.old) (W.contents writer.new) }
{
    let recording = Recording::open(alloc, bytes)?;
    let labels = labels_of(alloc, &how.filter, &recording)?;
    if !any_counts(&labels) {
        return Err(FoldError::NoEvent);
    }
    let folded = fold_labelled(alloc, &recording, how, &labels)?;
    match write_folded(alloc, &folded, form, writer) {
        Ok(outcome) => Ok(outcome),
        Err(error) => Err(FoldError::Text(error)),
    }
}

/// The exit status after that: that of its outcome, 2 if the file cannot be opened, no event has the
/// name, or the form is refused, and 3 if memory ran out.
pub fn status_after(ended: &Result<Outcome, FoldError>) -> u8
    ensures { result ≡ written.status_after ended.now }
{
    match ended {
        Ok(outcome) => outcome.status(),
        Err(FoldError::Open(OpenError::OutOfMemory)) => 3,
        Err(FoldError::Text(TextError::OutOfMemory)) => 3,
        Err(_) => 2,
    }
}
