//! Writes folded stacks, and is the engine of the commands over texts of them.

ghost use Rattle.std.specs.Prelude.{◌≡◌, map};
ghost use Rattle.perf_flame.specs.FoldedLines.{folded_lines};
ghost use Rattle.perf_fold.specs.Sums.{bytes_of};
ghost use Rattle.perf_fold.specs.WrittenForms as written;

use crate::error::TextError;
use crate::form::{Form, text_of};
use crate::texts::read_texts;
use perf_flame::folded::Folded;
use perf_lines::outcome::Outcome;
use perf_lines::output::write_and_flush;
use std::alloc::Global;
use std::io::Write;

/// Writes the sums of the lines of texts in a form. Nothing is written before all of the text is made,
/// and nothing at all if a line or the form is refused, or memory runs out.
///
/// The outcome is `Clean`, or `Stopped` if writing failed.
pub fn write_sum<W: Write>(
    alloc: Global,
    texts: &[Vec<u8>],
    form: Form,
    writer: &mut W,
) -> Result<Outcome, TextError>
    ensures { written.WritesSum form (map bytes_of texts.now) result (W.contents writer.old) (W.contents writer.new) }
{
    let folded = read_texts(alloc, texts)?;
    write_folded(alloc, &folded, form, writer)
}

/// Writes folded stacks in a form, as `write_sum` does.
pub fn write_folded<W: Write>(
    alloc: Global,
    folded: &Folded,
    form: Form,
    writer: &mut W,
) -> Result<Outcome, TextError>
    ensures { written.WritesForm form (folded_lines folded.now) result (W.contents writer.old) (W.contents writer.new) }
{
    let text = text_of(alloc, folded, form)?;
    Ok(write_text(writer, &text))
}

// Writes a text, and returns how that ended.
fn write_text<W: Write>(writer: &mut W, text: &[u8]) -> Outcome
    ensures { written.Writes result text.now (W.contents writer.old) (W.contents writer.new) }
{
    if write_and_flush(writer, text) {
        Outcome::Clean
    } else {
        Outcome::Stopped
    }
}

/// The exit status after that: that of its outcome, 2 for a line or a graph that is refused, and 3 if
/// memory ran out.
pub fn status_after_sum(ended: &Result<Outcome, TextError>) -> u8
    ensures { result ≡ written.status_after_sum ended.now }
{
    match ended {
        Ok(outcome) => outcome.status(),
        Err(TextError::OutOfMemory) => 3,
        Err(_) => 2,
    }
}
