//! What is known of a pipe before its events are read into memory, and where their ids are, in memory
//! of the caller's.

ghost use Rattle.std.specs.Prelude.{◌≡◌, ◌≤◌, ◌<◌, ◌+◌, ◌^◌, ◌++◌, ◌∷◌, ◌/◌, [], ℕ, List, Ok, IfOk, OnOk, All, true, min, length, take, drop};
ghost use Rattle.std.specs.List.{filter};
ghost use Rattle.perf_outlines.specs.Filled.{Fills};
ghost use Rattle.perf_file.specs.NoteViews as views;
ghost use Rattle.perf_outlines.specs.Outlines.{id_count};
ghost use Rattle.perf_outlines.specs.PipeOutlines as outlines;
ghost use Rattle.perf_file.specs.Pipes as pipes;
ghost use Rattle.perf_file.specs.Pipes.{FrameNote};
ghost use Rattle.perf_sections.specs.Sections.{IsInside};

use crate::summary::{Outline, outline_of};
use perf_base::endian::Dynamic;
use perf_file::note_frames::{Note, NoteFrames};
use perf_file::noting::{HEADER_ATTR, is_compressed};
use perf_file::piped::{noted_attribute, noted_ids, pipe_order};
use perf_sections::error::OpenError;
use perf_sections::head::Head;
use perf_sections::section::Section;
use std::alloc::Global;

/// The frames of a pipe in that order, each once.
pub fn frames_of<'p>(order: Dynamic, frames: &'p [u8]) -> NoteFrames<'p>
    requires { 16 + length frames.now < 2 ^ 64 }
    ensures { views.notes_left result ≡ pipes.all_frames order frames.now }
{
    NoteFrames {
        order,
        frames,
        left: frames,
    }
}

// Refuses frames that are compressed.
fn check_frames(order: Dynamic, frames: &[u8]) -> Result<(), OpenError>
    requires { 16 + length frames.now < 2 ^ 64 }
    ensures { result ≡ outlines.checked_frames (pipes.all_frames order frames.now) }
{
    for note in frames_of(order, frames) {
        if is_compressed(&note) {
            return Err(OpenError::Compressed);
        }
    }
    Ok(())
}

// How many attributes there are with this note, after so many.
fn count_attribute(
    alloc: Global,
    order: Dynamic,
    index: usize,
    note: &Note<'_>,
) -> Result<usize, OpenError>
    requires { index + 1 < 2 ^ 64 }
    ensures read { (rest : List FrameNote) → outlines.from_notes (pipes.noted_attribute order) index
        (views.note_of note.now ∷ rest) (λ all. Ok (index + length all))
        ≡ outlines.going_on result (λ n. outlines.from_notes (pipes.noted_attribute order) n rest
        (λ all. Ok (n + length all))) }
    ensures more { IfOk result (λ n. n ≤ index + 1) }
{
    if note.header.type_ != HEADER_ATTR {
        return Ok(index);
    }
    noted_attribute(alloc, order, index, note)?;
    Ok(index + 1)
}

// How many attributes there are. Refuses the first that cannot be read.
fn count_attributes(alloc: Global, order: Dynamic, frames: &[u8]) -> Result<usize, OpenError>
    requires { 16 + length frames.now < 2 ^ 64 }
    ensures { result ≡ outlines.counted_attributes order (pipes.all_frames order frames.now) }
{
    let mut count = 0;
    for note in frames_of(order, frames) {
        count = count_attribute(alloc, order, count, &note)?;
    }
    Ok(count)
}

/// Some events of a pipe and their ids.
#[derive(Copy, Clone, Debug)]
pub struct Counted {
    /// How many events.
    pub events: usize,
    /// How many ids: at most one for eight bytes of the file.
    pub ids: u64,
}

// How many events and ids there are with this note, after so many.
fn count_ids(
    order: Dynamic,
    bytes: &[u8],
    before: Counted,
    note: &Note<'_>,
) -> Result<Counted, OpenError>
    requires room { before.events + 1 < 2 ^ 64 }
    requires few { before.ids ≤ length bytes.now / 8 }
    ensures read { (rest : List FrameNote) →
        outlines.from_notes (pipes.noted_ids order bytes.now) before.events
        (views.note_of note.now ∷ rest)
        (λ all. Ok (min (before.ids + id_count all) (length bytes.now / 8)))
        ≡ outlines.going_on result (λ n.
        outlines.from_notes (pipes.noted_ids order bytes.now) n.events rest
        (λ all. Ok (min (n.ids + id_count all) (length bytes.now / 8)))) }
    ensures more { IfOk result (λ n. n.events ≤ before.events + 1) }
    ensures few { IfOk result (λ n. n.ids ≤ length bytes.now / 8) }
{
    if note.header.type_ != HEADER_ATTR {
        return Ok(before);
    }
    let ids = noted_ids(order, bytes, before.events, note)?;
    let total = (before.ids + ids.size / 8).min(bytes.len() as u64 / 8);
    Ok(Counted {
        events: before.events + 1,
        ids: total,
    })
}

// How many ids the events of a pipe have, at most one for eight bytes of the file. Refuses the first
// event whose ids are not whole, or end beyond the file.
fn count_all_ids(order: Dynamic, bytes: &[u8], frames: &[u8]) -> Result<u64, OpenError>
    requires { 16 + length frames.now < 2 ^ 64 }
    ensures { result ≡ outlines.counted_note_ids order bytes.now
        (pipes.all_frames order frames.now) }
{
    let mut count = Counted { events: 0, ids: 0 };
    for note in frames_of(order, frames) {
        count = count_ids(order, bytes, count, &note)?;
    }
    Ok(count.ids)
}

// The outline of a pipe with so many events and ids.
fn outline_with(order: Dynamic, bytes: &[u8], events: u64, ids: u64) -> Outline
    requires { 16 ≤ length bytes.now }
    ensures { result ≡ outlines.pipe_outline_with order bytes.now events ids }
{
    let nothing = Section { start: 0, size: 0 };
    let head = Head {
        order,
        is_closed: true,
        entry_size: 0,
        attributes: nothing,
        frames: Section {
            start: 16,
            size: bytes.len() as u64 - 16,
        },
        features: 0,
    };
    Outline { head, events, ids }
}

/// How many events and ids a pipe in that order has, or its first refusal before two events are
/// compared. No memory is needed.
#[tactic(auto, unfolding(crate::specs::PipeOutlines::pipe_outline))]
pub fn outline_of_pipe(alloc: Global, order: Dynamic, bytes: &[u8]) -> Result<Outline, OpenError>
    requires { 16 ≤ length bytes.now }
    ensures { result ≡ outlines.pipe_outline order bytes.now }
{
    let frames = bytes.split_at(16).1;
    check_frames(order, frames)?;
    let events = count_attributes(alloc, order, frames)?;
    if events == 0 {
        return Err(OpenError::NoAttributes);
    }
    let ids = count_all_ids(order, bytes, frames)?;
    Ok(outline_with(order, bytes, events as u64, ids))
}

/// How many events and ids a file in either form has, or its first refusal before two parts of it or two
/// events are compared. No memory is needed.
#[tactic(auto, unfolding(crate::specs::PipeOutlines::form_outline))]
pub fn outline_of_form(alloc: Global, bytes: &[u8]) -> Result<Outline, OpenError>
    ensures { result ≡ outlines.form_outline bytes.now }
{
    match pipe_order(bytes) {
        Some(order) => outline_of_pipe(alloc, order, bytes),
        None => outline_of(alloc, bytes),
    }
}

// Writes where the ids of the event of this note are, if it is that of an attribute, and returns how
// many events there are with it, after so many.
fn put_section(
    order: Dynamic,
    bytes: &[u8],
    index: usize,
    note: &Note<'_>,
    sections: &mut [Section],
) -> Result<usize, OpenError>
    requires { index + length (filter (pipes.is_of 64) (views.note_of note.now ∷ [])) ≤ length sections.old }
    ensures read { (rest : List FrameNote) →
        outlines.from_notes (pipes.noted_ids order bytes.now) index (views.note_of note.now ∷ rest)
        (λ all. Ok (take index sections.old ++ all))
        ≡ outlines.going_on result (λ n.
        outlines.from_notes (pipes.noted_ids order bytes.now) n rest
        (λ all. Ok (take n sections.new ++ all))) }
    ensures inside { All (IsInside bytes.now) (take index sections.old) →
        IfOk result (λ n. All (IsInside bytes.now) (take n sections.new)) }
    ensures more { IfOk result (λ n. n ≡ index
        + length (filter (pipes.is_of 64) (views.note_of note.now ∷ []))) }
{
    if note.header.type_ != HEADER_ATTR {
        return Ok(index);
    }
    let ids = noted_ids(order, bytes, index, note)?;
    sections[index] = ids;
    Ok(index + 1)
}

/// Writes where the ids of each event of a pipe are. Refuses the first whose ids are not whole, or end
/// beyond the file.
pub fn fill_sections(
    order: Dynamic,
    bytes: &[u8],
    frames: &[u8],
    sections: &mut [Section],
) -> Result<(), OpenError>
    requires few { 16 + length frames.now < 2 ^ 64 }
    requires room { length sections.old
        ≡ length (filter (pipes.is_of 64) (pipes.all_frames order frames.now)) }
    ensures exact { Fills result (outlines.note_sections order bytes.now
        (pipes.all_frames order frames.now)) sections.new }
    ensures inside { OnOk result (All (IsInside bytes.now) sections.new) }
{
    let mut index = 0;
    for note in frames_of(order, frames) {
        index = put_section(order, bytes, index, &note, sections)?;
    }
    Ok(())
}
