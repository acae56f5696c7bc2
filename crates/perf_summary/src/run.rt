//! The engine of the command: opens a file and writes its summary.

ghost use Rattle.std.specs.Prelude.{◌≡◌, ℕ, IfOk, List, string_bytes};
ghost use Rattle.perf_sections.specs.Names.{Name};
ghost use Rattle.perf_sections.specs.Opened.{FileEvent};
ghost use Rattle.perf_file.specs.Views.{view};
ghost use Rattle.perf_data_text.specs.OwnNames.{AreNamedBy};
ghost use Rattle.perf_data_text.specs.Shown.{Writes};
ghost use Rattle.perf_summary.specs.Threads.{AreThreadsOf};
ghost use Rattle.perf_summary.specs.declared.threads.Thread.{Thread};
ghost use Rattle.perf_summary.specs.Shown as shown;
ghost use Rattle.perf_summary.specs.SummaryText.{is_any_refused};

use crate::json::json_of_summary;
use crate::text::text_of_summary;
use crate::threads::threads_of;
use perf_file::{OpenError, Recording};
use perf_lines::outcome::Outcome;
use perf_lines::output::write_and_flush;
use std::alloc::{AllocError, Global};
use std::io::Write;

/// How a summary is written.
#[derive(Copy, Clone, Debug, PartialEq, Eq)]
pub enum Form {
    /// As lines of text.
    Text,
    /// As one line of JSON.
    Json,
}

/// Writes the summary of the bytes of a file in a form. Nothing is written before all of the text is made, and
/// nothing at all if the file cannot be opened or memory runs out.
///
/// The outcome is `Clean` if no frame and no feature was refused, `Refused` if one was, and `Stopped` if
/// writing failed.
pub fn run<W: Write>(
    alloc: Global,
    bytes: &[u8],
    writer: &mut W,
    form: Form,
) -> Result<Outcome, OpenError>
    ensures { shown.Shows form bytes.now result (W.contents writer.old) (W.contents writer.new) }
{
    let recording = Recording::open(alloc, bytes)?;
    let (text, refused) = text_in(alloc, &recording, form)?;
    Ok(write_text(writer, &text, refused))
}

// The summary of a file in a form, and whether a frame or a feature in it is refused.
fn text_in(
    alloc: Global,
    recording: &Recording<'_>,
    form: Form,
) -> Result<(String, bool), AllocError>
    ensures text { (naming : ℕ → FileEvent → Name) → AreNamedBy recording.now naming →
        IfOk result (λ made. (threads : List ((ℕ × ℕ) × Thread))
        × AreThreadsOf (view recording.now) threads
        × (string_bytes made.0
        ≡ shown.text_in form (view recording.now) recording.now.bytes.now naming threads)) }
    ensures refused { IfOk result (λ made. made.1
        ≡ is_any_refused (view recording.now) recording.now.bytes.now) }
{
    let threads = threads_of(alloc, recording)?;
    match form {
        Form::Text => text_of_summary(alloc, recording, &threads),
        Form::Json => json_of_summary(alloc, recording, &threads),
    }
}

// Writes a text, in which something is refused or not, and returns how that ended.
fn write_text<W: Write>(writer: &mut W, text: &String, refused: bool) -> Outcome
    ensures { Writes result refused (string_bytes text.now)
        (W.contents writer.old) (W.contents writer.new) }
{
    if !write_and_flush(writer, text.as_bytes()) {
        Outcome::Stopped
    } else if refused {
        Outcome::Refused
    } else {
        Outcome::Clean
    }
}
