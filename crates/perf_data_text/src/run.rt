//! The engine of the program: opens a file and writes what is inside.

ghost use Rattle.std.specs.Prelude.{◌≡◌, ℕ, IfOk, string_bytes};
ghost use Rattle.perf_sections.specs.Names.{Name};
ghost use Rattle.perf_sections.specs.Opened.{FileEvent};
ghost use Rattle.perf_file.specs.Views.{view};
ghost use Rattle.perf_data_text.specs.OwnNames.{AreNamedBy};
ghost use Rattle.perf_data_text.specs.Shown as shown;

use crate::dump::{text_by_time, text_of_dump};
use crate::events::text_of_events;
use crate::header::text_of_header;
use perf_file::{OpenError, Recording};
use perf_lines::outcome::Outcome;
use perf_lines::output::write_and_flush;
use std::alloc::{AllocError, Global};
use std::io::Write;

/// What is shown of a file.
#[derive(Copy, Clone, Debug, PartialEq, Eq)]
pub enum Show {
    /// Its events.
    Events,
    /// What perf states about the machine and the command, and its events.
    EventsWithHeader,
    /// Its frames, in the order of the file.
    Dump,
    /// Its frames by time, and at equal times in the order of the file.
    DumpByTime,
}

/// Writes what is shown of the bytes of a file. Nothing is written before all of the text is made,
/// and nothing at all if the file cannot be opened or memory runs out.
///
/// The outcome is `Clean` if no frame and no feature was refused, `Refused` if one was, and `Stopped` if
/// writing failed.
pub fn run<W: Write>(
    alloc: Global,
    bytes: &[u8],
    writer: &mut W,
    what: Show,
) -> Result<Outcome, OpenError>
    ensures { shown.Shows what bytes.now result (W.contents writer.old) (W.contents writer.new) }
{
    let recording = Recording::open(alloc, bytes)?;
    let (text, refused) = text_of(alloc, &recording, what)?;
    Ok(write_text(writer, &text, refused))
}

/// The exit status after a run: that of its outcome, 2 if the file could not be opened, and 3 if
/// memory ran out.
pub fn status_after(ended: &Result<Outcome, OpenError>) -> u8
    ensures { result ≡ shown.status_after ended.now }
{
    match ended {
        Ok(outcome) => outcome.status(),
        Err(OpenError::OutOfMemory) => 3,
        Err(_) => 2,
    }
}

// The text of what is shown, and whether a frame or a feature is refused in it.
fn text_of(
    alloc: Global,
    recording: &Recording<'_>,
    what: Show,
) -> Result<(String, bool), AllocError>
    ensures { (naming : ℕ → FileEvent → Name) → AreNamedBy recording.now naming →
        IfOk result (λ made. shown.IsTextOf what (view recording.now) recording.now.bytes.now naming made.1
        (string_bytes made.0)) }
{
    match what {
        Show::Events => {
            let text = text_of_events(alloc, recording)?;
            Ok((text, false))
        }
        Show::EventsWithHeader => {
            let (text, refused) = text_with_header(alloc, recording)?;
            Ok((text, refused))
        }
        Show::Dump => text_of_dump(alloc, recording),
        Show::DumpByTime => text_by_time(alloc, recording),
    }
}

// The text of what perf states about the machine and the command, and that of the events; and whether
// a feature is refused.
fn text_with_header(alloc: Global, recording: &Recording<'_>) -> Result<(String, bool), AllocError>
    ensures { (naming : ℕ → FileEvent → Name) → AreNamedBy recording.now naming →
        IfOk result (λ made. shown.IsTextOf Show.EventsWithHeader (view recording.now)
        recording.now.bytes.now naming made.1 (string_bytes made.0)) }
{
    let (mut text, refused) = text_of_header(alloc, recording)?;
    let events = text_of_events(alloc, recording)?;
    text.push_str(events.as_str())?;
    Ok((text, refused))
}

// Writes a text, in which something is refused or not, and returns how that ended.
fn write_text<W: Write>(writer: &mut W, text: &String, refused: bool) -> Outcome
    ensures { shown.Writes result refused (string_bytes text.now)
        (W.contents writer.old) (W.contents writer.new) }
{
    if !write_and_flush(writer, text.as_bytes()) {
        Outcome::Stopped
    } else if refused {
        Outcome::Refused
    } else {
        Outcome::Clean
    }
}
