//! The frames of a file, a line each.

ghost use Rattle.std.specs.Prelude.{◌≡◌, ◌+◌, ◌<◌, ◌^◌, ◌++◌, ◌||◌, [], false, IfOk, OnOk, is_ok, is_err, length};
ghost use Rattle.std.specs.Prelude.{option_map, string_bytes};
ghost use Rattle.perf_file.specs.Pieces.{piece_of, pieces_of};
ghost use Rattle.perf_file.specs.Views.{view};
ghost use Rattle.perf_lines.specs.FileLines.{read_by};
ghost use Rattle.perf_data_text.specs.DumpText as dumps;

use perf_base::ParseConfig;
use perf_base::endian::Dynamic;
use perf_file::listing::header_of;
use perf_file::{Entry, FileFrame, Owner, Recording};
use perf_lines::line::file::{FrameEvent, FrameLine, push_file_line};
use std::alloc::{AllocError, Global};

// The lines of the first frames, how many these are, and whether one of them was refused.
#[derive(Drop)]
struct Lines {
    text: String,
    count: usize,
    refused: bool,
}

impl Lines {
    // No lines.
    fn new(alloc: Global) -> Lines
        ensures text { string_bytes result.text ≡ [] }
        ensures count { result.count ≡ 0 }
        ensures refused { result.refused ≡ false }
    {
        Lines {
            text: String::new(alloc),
            count: 0,
            refused: false,
        }
    }

    // Appends the line of a frame.
    fn push(
        &mut self,
        alloc: Global,
        recording: &Recording<'_>,
        found: &FileFrame<'_>,
    ) -> Result<(), AllocError>
        ensures text { OnOk result (string_bytes self.new.text ≡ string_bytes self.old.text
            ++ dumps.piece_line (view recording.now) self.old.count (piece_of found.now)) }
        ensures count { self.old.count + 1 < 2 ^ 64 →
            OnOk result (self.new.count ≡ self.old.count + 1) }
        ensures refused { OnOk result (self.new.refused ≡ (self.old.refused
            || is_err (dumps.words_of_piece (view recording.now) (piece_of found.now)))) }
    {
        let read = push_frame(&mut self.text, alloc, recording, self.count, found)?;
        self.count = self.count.saturating_add(1);
        self.refused |= !read;
        Ok(())
    }
}

/// A line for each frame, in the order of the file, and whether one was refused.
///
/// A line has the frame's number, its offset in the file, its event, its header, and its record: what
/// the line of `perfrec` has, and where the frame is. The event is its number, `-` if perf wrote the
/// frame for itself, `?` and an id that no event has, or `?` alone if the frame is too short for one.
pub fn text_of_dump(alloc: Global, recording: &Recording<'_>) -> Result<(String, bool), AllocError>
    ensures { IfOk result (λ made. dumps.IsTextOfPieces (view recording.now)
        (pieces_of (view recording.now)) made.1 (string_bytes made.0)) }
{
    let mut lines = Lines::new(alloc);
    for found in recording.frames() {
        lines.push(alloc, recording, &found)?;
    }
    Ok((lines.text, lines.refused))
}

/// The same by time, and at equal times in the order of the file. The frames are numbered in that
/// order.
pub fn text_by_time(alloc: Global, recording: &Recording<'_>) -> Result<(String, bool), AllocError>
    ensures { IfOk result (λ made. dumps.IsTextByTime (view recording.now)
        made.1 (string_bytes made.0)) }
{
    let entries = recording.in_order(alloc)?;
    text_of_entries(alloc, recording, &entries)
}

// The lines of the frames of entries, in their order.
fn text_of_entries(
    alloc: Global,
    recording: &Recording<'_>,
    entries: &[Entry],
) -> Result<(String, bool), AllocError>
    requires { length entries.now < 2 ^ 64 }
    ensures { IfOk result (λ made. dumps.IsTextOfPieces (view recording.now)
        (dumps.pieces_at (view recording.now) entries.now) made.1 (string_bytes made.0)) }
{
    let mut lines = Lines::new(alloc);
    for entry in entries {
        if let Some(found) = recording.frame_at(entry) {
            lines.push(alloc, recording, &found)?;
        }
    }
    Ok((lines.text, lines.refused))
}

// Appends the line of a frame, and returns whether it was read.
fn push_frame(
    text: &mut String,
    alloc: Global,
    recording: &Recording<'_>,
    index: usize,
    found: &FileFrame<'_>,
) -> Result<bool, AllocError>
    ensures read { IfOk result (λ read. read ≡
        is_ok (dumps.words_of_piece (view recording.now) (piece_of found.now))) }
    ensures text { OnOk result (string_bytes text.new ≡ string_bytes text.old
        ++ dumps.piece_line (view recording.now) index (piece_of found.now)) }
{
    let line = FrameLine {
        at: found.at,
        event: event_of(found.owner),
        config: config_of(recording, found.owner),
        header: header_of(&found.frame),
        frame: found.frame,
        has_payload: recording.has_payload(found),
    };
    push_file_line(text, alloc, index, &line)
}

// How the frames of an owner are read.
fn config_of<'a>(recording: &'a Recording<'_>, owner: Owner) -> Option<&'a ParseConfig<Dynamic>>
    ensures { option_map (λ c. read_by c.now) result ≡ dumps.how_of (view recording.now) owner }
{
    match recording.config(owner) {
        Some(config) => Some(config),
        None => None,
    }
}

// The owner of a frame, as its line names it.
fn event_of(owner: Owner) -> FrameEvent
    ensures { result ≡ dumps.event_of owner }
{
    match owner {
        Owner::Event(number) => FrameEvent::Number(number),
        Owner::Perf => FrameEvent::Perf,
        Owner::Unknown(id) => FrameEvent::Unknown(id),
        Owner::Short => FrameEvent::Short,
    }
}
