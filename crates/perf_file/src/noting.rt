//! The frames of a pipe by which perf states something: its notes.

ghost use Rattle.std.specs.Bool.{OnTrue};
ghost use Rattle.std.specs.Prelude.{◌≡◌, ◌+◌, ◌≤◌, ◌<◌, ◌^◌, [], true, IfOk, MatchOption, length, map, option_map};
ghost use Rattle.std.specs.List.{filter};
ghost use Rattle.perf_base.specs.Dynamic.{order_of};
ghost use Rattle.perf_file.specs.NoteViews as views;
ghost use Rattle.perf_sections.specs.Opens.{Gives};
ghost use Rattle.perf_file.specs.Pieces as pieces;
ghost use Rattle.perf_file.specs.Pipes as pipes;
ghost use Rattle.perf_records.specs.Sights.{sight_of, sight_in};

use crate::finding::first_in;
use crate::listing::header_of;
use crate::note_frames::{Note, NoteFrames};
use perf_base::endian::Dynamic;
use perf_records::frame::Frame;
use perf_records::frame_handler::BadFrame;
use perf_sections::error::OpenError;
use perf_sections::number::{bytes_at, number_at};
use std::alloc::{AllocError, Global};

/// The types of notes: an attribute, a build id, what is new of an event, and a feature.
pub const HEADER_ATTR: u32 = 64;

pub const HEADER_BUILD_ID: u32 = 67;

pub const EVENT_UPDATE: u32 = 78;

pub const HEADER_FEATURE: u32 = 80;

// The bytes after the header of the first frame of these, which was found.
fn body_of<'p>(order: Dynamic, bytes: &'p [u8], found: &Result<Frame<'_, '_>, BadFrame>) -> &'p [u8]
    requires long { 8 ≤ length bytes.now }
    requires first { sight_of found.now ≡ sight_in (order_of order) bytes.now true }
    ensures value { result.now ≡ pipes.body_seen (sight_of found.now) }
    ensures fits { 8 + length result.now ≤ length bytes.now }
{
    match found {
        Ok(frame) => bytes_at(bytes, 8, frame.rest().len()),
        Err(_) => &[],
    }
}

// The first frame of what is left, and the bytes after it and its payload.
fn first_note<'p>(list: &NoteFrames<'p>) -> Option<(Note<'p>, &'p [u8])>
    ensures { MatchOption result (length list.now.left.now < 8)
        (λ found. (8 ≤ length list.now.left.now)
        × (views.note_of found.0 ≡ pipes.note_in (pieces.piece_in
        (pipes.pipe_with list.now.order list.now.frames.now []) list.now.left.now))
        × (found.1.now ≡ pieces.after_piece (order_of list.now.order) list.now.left.now)) }
{
    let (frame, left) = first_in(list.order, list.left)?;
    let note = Note {
        at: 16 + (list.frames.len() - list.left.len()),
        header: header_of(&frame),
        body: body_of(list.order, list.left, &frame),
    };
    Some((note, left))
}

impl<'p> Iterator for NoteFrames<'p> {
    ghost use Rattle.std.specs.Iterator.{YieldsFirstBy, item_count};

    type Item = Note<'p>;

    ghost next_gives = { YieldsFirstBy views.note_of views.notes_left };

    ghost remaining = { item_count views.notes_left };

    #[tactic(auto, using(crate::proofs::Noted::next_note, crate::proofs::Noted::no_note))]
    fn next(&mut self) -> Option<Note<'p>> {
        let (note, left) = first_note(self)?;
        self.left = left;
        Some(note)
    }
}

// Whether it is a note.
fn is_note(note: &Note<'_>) -> bool
    ensures { result ≡ pipes.is_note (views.note_of note.now) }
{
    matches!(
        note.header.type_,
        HEADER_ATTR | HEADER_BUILD_ID | EVENT_UPDATE | HEADER_FEATURE
    )
}

/// Whether it has frames that are compressed.
pub fn is_compressed(note: &Note<'_>) -> bool
    ensures { result ≡ pipes.is_compressed (views.note_of note.now) }
{
    note.header.type_ == 81 || note.header.type_ == 83
}

/// The notes of a pipe in that order, whose frames these are.
pub fn notes_in<'p>(
    alloc: Global,
    order: Dynamic,
    frames: &'p [u8],
) -> Result<Vec<Note<'p>>, OpenError>
    requires { 16 + length frames.now < 2 ^ 64 }
    ensures { Gives (λ v. map views.note_of v.items) result
        (pipes.checked_notes (pipes.all_frames order frames.now)) }
{
    let all = NoteFrames {
        order,
        frames,
        left: frames,
    };
    let mut found = Vec::new(alloc);
    for note in all {
        if is_compressed(&note) {
            return Err(OpenError::Compressed);
        }
        if is_note(&note) {
            found.push(note)?;
        }
    }
    Ok(found)
}

/// The notes of a type.
pub fn notes_of_type<'p>(
    alloc: Global,
    notes: &[Note<'p>],
    ty: u32,
) -> Result<Vec<Note<'p>>, AllocError>
    ensures { IfOk result (λ v. map views.note_of v.items
        ≡ filter (pipes.is_of ty) (map views.note_of notes.now)) }
{
    let mut found = Vec::new(alloc);
    for note in notes {
        if note.header.type_ == ty {
            found.push(*note)?;
        }
    }
    Ok(found)
}

/// Whether a note is the feature with a number.
pub fn has_number(order: Dynamic, note: &Note<'_>, feature: u64) -> bool
    ensures value { result ≡ pipes.has_number (order_of order) feature (views.note_of note.now) }
    ensures long { OnTrue result (8 ≤ length note.now.body.now) }
{
    if note.body.len() < 8 {
        return false;
    }
    note.header.type_ == HEADER_FEATURE && number_at(order, note.body, 0) == feature
}

// The bytes of the feature with a number, if a note is that.
fn own_feature<'p>(order: Dynamic, note: &Note<'p>, feature: u64) -> Option<&'p [u8]>
    ensures { option_map (λ b. b.now) result
        ≡ pipes.own_feature (order_of order) feature (views.note_of note.now) }
{
    if has_number(order, note, feature) {
        Some(note.body.split_at(8).1)
    } else {
        None
    }
}

// The newer of two, if there is one.
fn newer<'p>(first: Option<&'p [u8]>, other: Option<&'p [u8]>) -> Option<&'p [u8]>
    ensures { option_map (λ b. b.now) result
        ≡ pipes.newer (option_map (λ b. b.now) first.entry) (option_map (λ b. b.now) other.entry) }
{
    match first {
        Some(bytes) => Some(bytes),
        None => other,
    }
}

/// The bytes of a feature: those of its last note.
pub fn noted_feature<'p>(order: Dynamic, notes: &[Note<'p>], feature: u64) -> Option<&'p [u8]>
    ensures { option_map (λ b. b.now) result
        ≡ pipes.noted_feature (order_of order) feature (map views.note_of notes.now) }
{
    let mut found = None;
    for index in 0..notes.len() {
        found = newer(own_feature(order, &notes[index], feature), found);
    }
    found
}
