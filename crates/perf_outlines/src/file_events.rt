//! The events of a file of `perf record`.

ghost use Rattle.std.specs.Prelude.{◌≡◌, ◌+◌, ◌≤◌, ◌<◌, ◌^◌, ◌++◌, ◌∷◌, [], List, Ok, Err, IfOk, OnOk, true, false, length, map, take, drop};
ghost use Rattle.std.specs.List.{filter, zip};
ghost use Rattle.perf_outlines.specs.Filled.{Fills};
ghost use Rattle.perf_file.specs.Forms.{opened};
ghost use Rattle.perf_sections.specs.Heads.{IsGoodHead};
ghost use Rattle.perf_sections.specs.IdSections.{entry_count};
ghost use Rattle.perf_file.specs.NoteViews.{note_of};
ghost use Rattle.perf_sections.specs.Opened.{File, opened_file, checked_head};
ghost use Rattle.perf_outlines.specs.Outlines as outlines;
ghost use Rattle.perf_outlines.specs.PipeOutlines.{from_notes, going_on, pipe_outline};
ghost use Rattle.perf_file.specs.Pipes.{FrameNote, is_of, all_frames, noted_attribute, opened_pipe};
ghost use Rattle.perf_sections.specs.declared.error.OpenError.{OpenError};
ghost use Rattle.perf_outlines.specs.declared.summary.Outline.{Outline};
ghost use Rattle.perf_outlines.specs.FileEvents as events;
ghost use Rattle.perf_outlines.specs.Files.{open_code};

use crate::file::open_code;
use crate::id_list::{check_ids, fill_ids};
use crate::parts::read_parts;
use crate::pipe_outline::{fill_sections, frames_of, outline_of_pipe};
use crate::summary::{Outline, outline_of};
use perf_base::endian::Dynamic;
use perf_base::sys::perf_event_attr;
use perf_file::OpenError;
use perf_file::attributes::attribute_at;
use perf_file::note_frames::Note;
use perf_file::noting::HEADER_ATTR;
use perf_file::piped::noted_attribute;
use perf_flat::config::FlatConfig;
use perf_sections::head::Head;
use perf_sections::id_place::{IdPlace, id_place, is_same_place};
use perf_sections::ids::IdOfEvent;
use perf_sections::section::Section;
use std::alloc::Global;

/// In place of the number of a refusal: an array does not have as many elements as it needs.
pub const OTHER_COUNT: u32 = 19;

/// An event of a file.
#[repr(C)]
#[derive(Copy, Clone, Debug)]
pub struct FlatEvent {
    /// How its frames are read.
    pub config: FlatConfig,
    /// Its type, `PERF_TYPE_*`.
    pub type_: u32,
    /// What of that type it counts: `config` of its attribute.
    pub event: u64,
    /// The offset in the file at which its ids begin, numbers of eight bytes.
    pub ids_at: u64,
    /// How many ids it has.
    pub ids: u64,
    /// Where its name is in the file: no bytes if it was not found there.
    pub name: Section,
}

// The numbers of an event.
fn flat_event(attr: &perf_event_attr, order: Dynamic, ids: Section) -> FlatEvent
    ensures { result ≡ events.flat_event order (attr.now, ids) }
{
    FlatEvent {
        config: FlatConfig::of(attr, order),
        type_: attr.type_,
        event: attr.config,
        ids_at: ids.start,
        ids: ids.size / 8,
        name: Section { start: 0, size: 0 },
    }
}

// Writes the numbers of all events, of which the ids are in these sections.
fn fill_events(
    alloc: Global,
    bytes: &[u8],
    head: Head,
    sections: &[Section],
    all: &mut [FlatEvent],
) -> Result<(), OpenError>
    requires good { IsGoodHead bytes.now head }
    requires sections { length sections.now ≡ entry_count head }
    requires room { length all.old ≡ entry_count head }
    ensures { Fills result (events.flat_events bytes.now head sections.now) all.new }
{
    let count = head.attributes.size / head.entry_size;
    for index in 0..count {
        let attr = attribute_at(alloc, bytes, head, index)?;
        all[index as usize] = flat_event(&attr, head.order, sections[index as usize]);
    }
    Ok(())
}

/// Where the frames of an event have its id.
pub fn place_of(event: &FlatEvent) -> Option<IdPlace>
    ensures { result ≡ events.place_by event.now }
{
    match event.config.config() {
        Some(config) => id_place(&config),
        None => None,
    }
}

/// Where the frames of the first event have its id.
pub fn first_place(all: &[FlatEvent]) -> Option<IdPlace>
    ensures { result ≡ events.first_place all.now }
{
    match all.first() {
        Some(event) => place_of(event),
        None => None,
    }
}

// Whether the frames of all events have their id at that place.
fn all_at(place: Option<IdPlace>, all: &[FlatEvent]) -> bool
    ensures { result ≡ events.all_at place all.now }
{
    for event in all {
        if !is_same_place(place, place_of(event)) {
            return false;
        }
    }
    true
}

// Refuses several events without a common place of their ids.
fn check_places(all: &[FlatEvent]) -> Result<(), OpenError>
    ensures { result ≡ events.checked_places all.now }
{
    if all.len() < 2 || all_at(first_place(all), all) {
        Ok(())
    } else {
        Err(OpenError::NoIdPlace)
    }
}

// Writes the events, the parts and the ids of a file whose attributes were checked.
fn read_events(
    alloc: Global,
    bytes: &[u8],
    head: Head,
    all: &mut [FlatEvent],
    parts: &mut [Section],
    ids: &mut [IdOfEvent],
) -> Result<(), OpenError>
    requires good { IsGoodHead bytes.now head }
    requires whole { 104 ≤ length bytes.now }
    requires head { checked_head bytes.now ≡ Ok head }
    requires attributes { outlines.checked_attributes bytes.now head ≡ Ok tt }
    requires events_room { length all.old ≡ entry_count head }
    requires parts_room { length parts.old ≡ 3 + entry_count head }
    requires ids_room { outlines.counted_ids bytes.now head ≡ Ok (length ids.old) }
    ensures file { events.ReadsFile bytes.now (opened_file bytes.now) result all.new ids.new }
    ensures inside { OnOk result (events.HaveIds bytes.now all.new) }
{
    read_parts(bytes, head, parts)?;
    fill_events(alloc, bytes, head, &parts[3..], all)?;
    check_places(all)?;
    fill_ids(head.order, bytes, &parts[3..], ids);
    check_ids(ids)
}

// Whether there are as many events, parts and ids as a file needs.
fn has_room(outline: Outline, all: usize, parts: usize, ids: usize) -> bool
    ensures { result ≡ events.has_room outline all parts ids }
{
    all as u64 == outline.events && parts >= 3 && parts - 3 == all && ids as u64 == outline.ids
}

/// Writes the events of a file that is no pipe to `all`, its ids by rising numbers to `ids`, and its
/// parts to `parts`, and returns 0. `all` and `ids` have as many elements as its outline states, and
/// `parts` three more than `all`; else it returns [`OTHER_COUNT`], and nothing is written.
///
/// If the file is refused, it returns the number of the refusal.
pub fn read_file(
    alloc: Global,
    bytes: &[u8],
    all: &mut [FlatEvent],
    parts: &mut [Section],
    ids: &mut [IdOfEvent],
) -> u32
    ensures opened { (o : Outline) → outlines.outline bytes.now ≡ Ok o →
        events.has_room o (length all.old) (length parts.old) (length ids.old) ≡ true →
        events.ReadsEvents bytes.now (opened_file bytes.now) result all.new ids.new }
    ensures inside { (o : Outline) (f : File) → outlines.outline bytes.now ≡ Ok o →
        events.has_room o (length all.old) (length parts.old) (length ids.old) ≡ true →
        opened_file bytes.now ≡ Ok f → events.HaveIds bytes.now all.new }
    ensures other { (o : Outline) → outlines.outline bytes.now ≡ Ok o →
        events.has_room o (length all.old) (length parts.old) (length ids.old) ≡ false →
        (result ≡ OTHER_COUNT) × (all.new ≡ all.old) × (parts.new ≡ parts.old)
        × (ids.new ≡ ids.old) }
    ensures refused { (e : OpenError) → outlines.outline bytes.now ≡ Err e →
        (opened_file bytes.now ≡ Err e) × (result ≡ open_code e) × (all.new ≡ all.old)
        × (parts.new ≡ parts.old) × (ids.new ≡ ids.old) }
{
    let outline = match outline_of(alloc, bytes) {
        Ok(outline) => outline,
        Err(refusal) => return open_code(refusal),
    };
    if !has_room(outline, all.len(), parts.len(), ids.len()) {
        return OTHER_COUNT;
    }
    match read_events(alloc, bytes, outline.head, all, parts, ids) {
        Ok(()) => 0,
        Err(refusal) => open_code(refusal),
    }
}

// Writes the event of a note, if it is that of an attribute, and returns how many events there are with
// it, after so many.
fn put_event(
    alloc: Global,
    order: Dynamic,
    index: usize,
    note: &Note<'_>,
    sections: &[Section],
    all: &mut [FlatEvent],
) -> Result<usize, OpenError>
    requires room { index + length (filter (is_of 64) (note_of note.now ∷ [])) ≤ length all.old }
    requires sections { length all.old ≡ length sections.now }
    ensures read { (rest : List FrameNote) →
        from_notes (noted_attribute order) index (note_of note.now ∷ rest) (λ ats.
        Ok (take index all.old ++ map (events.flat_event order) (zip ats (drop index sections.now))))
        ≡ going_on result (λ n. from_notes (noted_attribute order) n rest (λ ats.
        Ok (take n all.new ++ map (events.flat_event order) (zip ats (drop n sections.now))))) }
    ensures more { IfOk result (λ n.
        n ≡ index + length (filter (is_of 64) (note_of note.now ∷ []))) }
{
    if note.header.type_ != HEADER_ATTR {
        return Ok(index);
    }
    let attr = noted_attribute(alloc, order, index, note)?;
    all[index] = flat_event(&attr, order, sections[index]);
    Ok(index + 1)
}

// Writes the numbers of all events of a pipe, of which the ids are in these sections.
fn fill_note_events(
    alloc: Global,
    order: Dynamic,
    frames: &[u8],
    sections: &[Section],
    all: &mut [FlatEvent],
) -> Result<(), OpenError>
    requires few { 16 + length frames.now < 2 ^ 64 }
    requires room { length all.old ≡ length (filter (is_of 64) (all_frames order frames.now)) }
    requires sections { length all.old ≡ length sections.now }
    ensures { Fills result (events.note_events order (all_frames order frames.now) sections.now)
        all.new }
{
    let mut index = 0;
    for note in frames_of(order, frames) {
        index = put_event(alloc, order, index, &note, sections, all)?;
    }
    Ok(())
}

// Writes the events, the parts and the ids of a pipe whose attributes were checked.
fn read_note_events(
    alloc: Global,
    order: Dynamic,
    bytes: &[u8],
    all: &mut [FlatEvent],
    parts: &mut [Section],
    ids: &mut [IdOfEvent],
) -> Result<(), OpenError>
    requires long { 16 ≤ length bytes.now }
    requires outline { (o : Outline) × (pipe_outline order bytes.now ≡ Ok o)
        × (length all.old ≡ o.events) × (length ids.old ≡ o.ids) }
    requires parts_room { length parts.old ≡ length all.old + 3 }
    ensures file { events.ReadsFile bytes.now (opened_pipe order bytes.now) result all.new ids.new }
    ensures inside { OnOk result (events.HaveIds bytes.now all.new) }
{
    let frames = bytes.split_at(16).1;
    let sections = parts.split_at_mut(3).1;
    fill_sections(order, bytes, frames, sections)?;
    fill_note_events(alloc, order, frames, sections, all)?;
    check_places(all)?;
    fill_ids(order, bytes, sections, ids);
    check_ids(ids)
}

/// Writes the events of a pipe in that order, as [`read_file`] does those of a file.
pub fn read_pipe(
    alloc: Global,
    order: Dynamic,
    bytes: &[u8],
    all: &mut [FlatEvent],
    parts: &mut [Section],
    ids: &mut [IdOfEvent],
) -> u32
    requires { 16 ≤ length bytes.now }
    ensures opened { (o : Outline) → pipe_outline order bytes.now ≡ Ok o →
        events.has_room o (length all.old) (length parts.old) (length ids.old) ≡ true →
        events.ReadsEvents bytes.now (opened_pipe order bytes.now) result all.new ids.new }
    ensures inside { (o : Outline) (f : File) → pipe_outline order bytes.now ≡ Ok o →
        events.has_room o (length all.old) (length parts.old) (length ids.old) ≡ true →
        opened_pipe order bytes.now ≡ Ok f → events.HaveIds bytes.now all.new }
    ensures other { (o : Outline) → pipe_outline order bytes.now ≡ Ok o →
        events.has_room o (length all.old) (length parts.old) (length ids.old) ≡ false →
        (result ≡ OTHER_COUNT) × (all.new ≡ all.old) × (parts.new ≡ parts.old)
        × (ids.new ≡ ids.old) }
    ensures refused { (e : OpenError) → pipe_outline order bytes.now ≡ Err e →
        (opened_pipe order bytes.now ≡ Err e) × (result ≡ open_code e) × (all.new ≡ all.old)
        × (parts.new ≡ parts.old) × (ids.new ≡ ids.old) }
{
    let sketch = match outline_of_pipe(alloc, order, bytes) {
        Ok(sketch) => sketch,
        Err(refusal) => return open_code(refusal),
    };
    if !has_room(sketch, all.len(), parts.len(), ids.len()) {
        return OTHER_COUNT;
    }
    match read_note_events(alloc, order, bytes, all, parts, ids) {
        Ok(()) => 0,
        Err(refusal) => open_code(refusal),
    }
}
