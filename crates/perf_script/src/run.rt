//! The text of a recording is written.

ghost use Rattle.std.specs.Prelude.{◌≡◌};
ghost use Rattle.perf_script.specs.Written as written;

use crate::error::ScriptError;
use crate::fields::Style;
use crate::script::Events;
use crate::writing::write_entries;
use perf_file::{OpenError, Recording};
use perf_lines::outcome::Outcome;
use perf_walk::Filter;
use std::alloc::{AllocError, Global};
use std::io::Write;

/// Writes the text of the samples of a file that a filter takes, in order of time, and of its other
/// records, if the style has these. It is written in parts, as it is made. Nothing is written if the file
/// cannot be opened or no event has the name that the filter states, and at most a beginning of the text
/// if memory runs out.
///
/// Of counters that a sample reads, the filter takes those of events with the name that it states.
///
/// The outcome is `Clean` if no frame was refused, `Refused` if one was, and `Stopped` if writing
/// failed.
pub fn write_script<W: Write>(
    alloc: Global,
    bytes: &[u8],
    style: Style,
    filter: Filter<'_>,
    writer: &mut W,
) -> Result<Outcome, ScriptError>
    ensures { written.WritesScript style filter.entry bytes.now result
        (W.contents writer.old) (W.contents writer.new) }
{
    let recording = match Recording::open(alloc, bytes) {
        Ok(recording) => recording,
        Err(error) => return Err(ScriptError::Open(error)),
    };
    let events = Events::of(alloc, style, filter, &recording)?;
    if !events.any_counts() {
        return Err(ScriptError::NoEvent);
    }
    let entries = recording.in_order(alloc)?;
    let ended = write_entries(alloc, &recording, &events, &entries, writer);
    script_result(ended)
}

// What writing the frames returned, as the whole call does.
fn script_result(ended: Result<Outcome, AllocError>) -> Result<Outcome, ScriptError>
    ensures { result ≡ written.script_result ended }
{
    match ended {
        Ok(outcome) => Ok(outcome),
        Err(_) => Err(ScriptError::Open(OpenError::OutOfMemory)),
    }
}

/// The exit status after that: that of its outcome, 2 if the file cannot be opened or no event has
/// the name, and 3 if memory ran out.
pub fn status_after(ended: &Result<Outcome, ScriptError>) -> u8
    ensures { result ≡ written.status_after ended.now }
{
    match ended {
        Ok(outcome) => outcome.status(),
        Err(ScriptError::Open(OpenError::OutOfMemory)) => 3,
        Err(_) => 2,
    }
}
