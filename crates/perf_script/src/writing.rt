//! The text of a recording is written in parts.

ghost use Rattle.std.specs.Prelude.{◌≡◌, ◌∷◌, [], ℕ, Bool, IsTrue, List, Ok, Option};
ghost use Rattle.std.specs.Io.KnownBytes.{Appends};
ghost use Rattle.perf_sections.specs.Opened.{File};
ghost use Rattle.perf_file.specs.Views.{view};
ghost use Rattle.perf_script.specs.ScriptText.{Choice};
ghost use Rattle.perf_script.specs.UnderWay.{AreChosen};
ghost use Rattle.perf_script.specs.Writing as writing;
ghost use Rattle.perf_file.specs.declared.entries.Entry as entries;

use crate::script::{Events, Script};
use perf_file::{Entry, Recording};
use perf_lines::outcome::Outcome;
use perf_lines::output::write_and_flush;
use std::alloc::{AllocError, Global};
use std::io::Write;

// How many bytes of a text are kept until they are written.
const PART: usize = 1 << 16;

// Writes what is kept of a text, and returns whether all of it could be written. Nothing is kept then.
fn write_part<W: Write>(text: &mut Vec<u8>, writer: &mut W) -> bool
    ensures kept { text.new.items ≡ [] }
    ensures whole { IsTrue result →
        Appends (W.contents writer.old) (W.contents writer.new) text.old.items }
    ensures part { writing.WritesFront text.old.items (W.contents writer.old) (W.contents writer.new) }
{
    let whole = write_and_flush(writer, text);
    text.clear();
    whole
}

// Writes what is kept of a text if that is long, and returns whether writing did not fail.
fn write_if_long<W: Write>(made: &mut Script<'_, '_>, writer: &mut W) -> bool
    ensures { (f : File) (c : Choice) (left : List entries.Entry) (any : Bool) (whole : List ℕ)
        (start : Option (List ℕ)) →
        writing.IsWriting f c left any whole start (W.contents writer.old) made.old →
        writing.GoesOn f c left any whole start (Ok result) (W.contents writer.new) made.new }
{
    let is_short = made.text.len() < PART;
    if is_short {
        return true;
    }
    write_part(&mut made.text, writer)
}

// Appends the text of an entry, and writes what is kept if that is long. Returns whether writing did
// not fail.
fn write_step<W: Write>(
    made: &mut Script<'_, '_>,
    events: &Events<'_>,
    entry: &Entry,
    writer: &mut W,
) -> Result<bool, AllocError>
    ensures { (f : File) (c : Choice) (left : List entries.Entry) (any : Bool) (whole : List ℕ)
        (start : Option (List ℕ)) → AreChosen f c events.now →
        writing.IsWriting f c (entry.now ∷ left) any whole start (W.contents writer.old) made.old →
        writing.GoesOn f c left any whole start result (W.contents writer.new) made.new }
{
    match made.step(events, entry) {
        Ok(()) => Ok(write_if_long(made, writer)),
        Err(error) => Err(error),
    }
}

// Writes the last part of a text, and returns how that ended.
fn write_end<W: Write>(made: &mut Script<'_, '_>, writer: &mut W) -> Outcome
    ensures { writing.Writes result made.old.refused made.old.text.items
        (W.contents writer.old) (W.contents writer.new) }
{
    if !write_part(&mut made.text, writer) {
        Outcome::Stopped
    } else if made.refused {
        Outcome::Refused
    } else {
        Outcome::Clean
    }
}

// Writes the text of the frames of entries.
pub(crate) fn write_entries<W: Write>(
    alloc: Global,
    recording: &Recording<'_>,
    events: &Events<'_>,
    entries: &[Entry],
    writer: &mut W,
) -> Result<Outcome, AllocError>
    ensures { (c : Choice) → AreChosen (view recording.now) c events.now →
        writing.WritesEntries (view recording.now) c entries.now result
        (W.contents writer.old) (W.contents writer.new) }
{
    let mut made = Script::new(alloc, recording);
    for entry in entries {
        match write_step(&mut made, events, entry, writer) {
            Ok(goes_on) => if !goes_on {
                return Ok(Outcome::Stopped);
            },
            Err(error) => return Err(error),
        }
    }
    Ok(write_end(&mut made, writer))
}
