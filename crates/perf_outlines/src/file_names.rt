//! The names of a file's events.

ghost use Rattle.std.specs.Prelude.{◌≡◌, ◌≢◌, ◌<◌, ◌≤◌, ◌^◌, ◌+◌, ◌∷◌, ℕ, List, Ok, Err, Some, None, map, length, drop, slice_index_or};
ghost use Rattle.std.specs.List.Sorted.{IsNonDecreasingBy};
ghost use Rattle.perf_base.specs.Dynamic.{order_of};
ghost use Rattle.perf_base.specs.Layout.{slice};
ghost use Rattle.perf_sections.specs.Descriptions.{first_name, descriptions_in};
ghost use Rattle.perf_sections.specs.Features.{descriptions_of, or_nothing};
ghost use Rattle.perf_sections.specs.NamePlaces as places;
ghost use Rattle.perf_sections.specs.Names.{described};
ghost use Rattle.perf_outlines.specs.NotePlaces.{IsPlaced, bytes_of};
ghost use Rattle.perf_file.specs.NoteViews.{note_of};
ghost use Rattle.perf_sections.specs.Opened.{checked_head};
ghost use Rattle.perf_file.specs.Pipes as pipes;
ghost use Rattle.perf_file.specs.Pipes.{FrameNote};
ghost use Rattle.perf_sections.specs.Sections.{IsInside};
ghost use Rattle.perf_sections.specs.declared.error.OpenError.{OpenError};
ghost use Rattle.perf_sections.specs.declared.head.Head.{Head};
ghost use Rattle.perf_sections.specs.declared.ids.IdOfEvent.{IdOfEvent};
ghost use Rattle.perf_outlines.specs.Files.{open_code};
ghost use Rattle.perf_outlines.specs.FlatNames as names;
ghost use Rattle.perf_outlines.specs.declared.file_events.FlatEvent.{FlatEvent};

use crate::feature_places::noted_section;
use crate::file::open_code;
use crate::file_events::FlatEvent;
use crate::new_names::new_name_in;
use crate::pipe_outline::frames_of;
use perf_base::endian::Dynamic;
use perf_file::event_list::checked_head;
use perf_file::note_frames::Note;
use perf_sections::descriptions::EventKey;
use perf_sections::features::description_section;
use perf_sections::ids::IdOfEvent;
use perf_sections::name_places::{NamePlace, find_names, key_at, place_of, unnamed};
use perf_sections::number::bytes_at;
use perf_sections::section::Section;

// By what an event is found among descriptions; its ids are in these bytes.
fn key_of(order: Dynamic, bytes: &[u8], event: &FlatEvent) -> EventKey
    ensures value { result ≡ names.flat_key (order_of order) bytes.now event.now }
    ensures fits { places.Fits result }
{
    key_at(
        order,
        bytes,
        event.type_,
        event.event,
        event.ids_at,
        event.ids,
    )
}

// Writes the keys of events, whose names were not found.
fn fill_keys(order: Dynamic, bytes: &[u8], all: &[FlatEvent], found: &mut [NamePlace])
    requires { length found.old ≡ length all.now }
    ensures { found.new ≡
        map (λ e. places.unnamed (names.flat_key (order_of order) bytes.now e)) all.now }
{
    for index in 0..all.len() {
        found[index] = unnamed(key_of(order, bytes, &all[index]));
    }
}

// A place among the descriptions, which are a part of the file, as one of the file.
fn in_file(descriptions: Section, place: Section) -> Section
    requires { descriptions.start + descriptions.size < 2 ^ 64 }
    ensures { (bytes : List ℕ) → IsInside bytes descriptions → places.name_at bytes result ≡
        places.name_at (slice bytes descriptions.start descriptions.size) place }
{
    let nowhere = Section { start: 0, size: 0 };
    if place.start == 0 {
        return nowhere;
    }
    if place.start > descriptions.size {
        return nowhere;
    }
    if descriptions.size - place.start < place.size {
        return nowhere;
    }
    Section {
        start: descriptions.start + place.start,
        size: place.size,
    }
}

// Where the name of an event is in the file.
fn name_of(
    order: Dynamic,
    bytes: &[u8],
    descriptions: Section,
    found: &[NamePlace],
    event: &FlatEvent,
) -> Section
    requires inside { IsInside bytes.now descriptions }
    requires sorted { places.Rises found.now }
    requires named { places.AreNamed (slice bytes.now descriptions.start descriptions.size) found.now
        (λ key. first_name key (descriptions_in (order_of order)
        (slice bytes.now descriptions.start descriptions.size))) }
    requires kept { places.HasRank found.now
        (places.rank_of (names.flat_key (order_of order) bytes.now event.now)) }
    ensures { places.name_at bytes.now result ≡
        first_name (names.flat_key (order_of order) bytes.now event.now) (descriptions_in
        (order_of order) (slice bytes.now descriptions.start descriptions.size)) }
{
    match place_of(found, key_of(order, bytes, event)) {
        Some(place) => in_file(descriptions, place),
        None => Section { start: 0, size: 0 },
    }
}

// Writes to each event where its name is.
fn put_names(
    order: Dynamic,
    bytes: &[u8],
    descriptions: Section,
    found: &[NamePlace],
    all: &mut [FlatEvent],
)
    requires inside { IsInside bytes.now descriptions }
    requires sorted { places.Rises found.now }
    requires named { places.AreNamed (slice bytes.now descriptions.start descriptions.size) found.now
        (λ key. first_name key (descriptions_in (order_of order)
        (slice bytes.now descriptions.start descriptions.size))) }
    requires kept { (index : ℕ) (e : FlatEvent) → index < length all.old → places.HasRank found.now
        (places.rank_of (names.flat_key (order_of order) bytes.now
        (slice_index_or all.old index e))) }
    ensures { names.FindsNames (order_of order) (bytes_of bytes.now descriptions) bytes.now
        all.old all.new }
{
    for index in 0..all.len() {
        let name = name_of(order, bytes, descriptions, found, &all[index]);
        all[index].name = name;
    }
}

// Finds the names of events, by the descriptions in a part of the file.
fn find_all(
    order: Dynamic,
    bytes: &[u8],
    section: Section,
    all: &mut [FlatEvent],
    found: &mut [NamePlace],
)
    requires inside { IsInside bytes.now section }
    requires room { length found.old ≡ length all.old }
    ensures { names.FindsNames (order_of order) (bytes_of bytes.now section) bytes.now
        all.old all.new }
{
    let descriptions = bytes_at(bytes, section.start as usize, section.size as usize);
    fill_keys(order, bytes, all, found);
    find_names(order, descriptions, found);
    put_names(order, bytes, section, found, all);
}

// Gives the event with that number the name at a place.
fn rename_at(all: &mut [FlatEvent], index: usize, name: Section)
    requires { index < length all.old }
    ensures same { map names.nameless all.new ≡ map names.nameless all.old }
    ensures there { (bytes text : List ℕ) (d : FlatEvent) → places.name_at bytes name ≡ Some text →
        0 < length text → names.flat_name bytes (slice_index_or all.new index d) ≡ described text }
    ensures others { (k : ℕ) (d : FlatEvent) → k ≢ index →
        slice_index_or all.new k d ≡ slice_index_or all.old k d }
{
    all[index].name = name;
}

// Gives the event that a note names, if there is one, its new name.
fn rename_by(order: Dynamic, ids: &[IdOfEvent], note: &Note<'_>, all: &mut [FlatEvent])
    ensures same { map names.nameless all.new ≡ map names.nameless all.old }
    ensures named { IsNonDecreasingBy (λ (e : IdOfEvent). e.id) ids.now → (bytes : List ℕ) →
        IsPlaced bytes (note_of note.now) → (k : ℕ) (d : FlatEvent) (rest : List FrameNote) →
        k < length all.old → pipes.named_by (pipes.last_name (order_of order) ids.now k rest)
        (names.flat_name bytes (slice_index_or all.new k d)) ≡ pipes.named_by
        (pipes.last_name (order_of order) ids.now k (note_of note.now ∷ rest))
        (names.flat_name bytes (slice_index_or all.old k d)) }
{
    let Some((event, name)) = new_name_in(order, ids, note) else {
        return;
    };
    if event >= all.len() {
        return;
    }
    rename_at(all, event, name);
}

// Gives events their new names.
fn rename_all(order: Dynamic, bytes: &[u8], ids: &[IdOfEvent], all: &mut [FlatEvent])
    requires { 16 ≤ length bytes.now }
    ensures same { map names.nameless all.new ≡ map names.nameless all.old }
    ensures named { IsNonDecreasingBy (λ (e : IdOfEvent). e.id) ids.now → (k : ℕ) (d : FlatEvent) →
        k < length all.old → names.flat_name bytes.now (slice_index_or all.new k d) ≡ pipes.named_by
        (pipes.last_name (order_of order) ids.now k (pipes.all_frames order (drop 16 bytes.now)))
        (names.flat_name bytes.now (slice_index_or all.old k d)) }
{
    for note in frames_of(order, bytes.split_at(16).1) {
        rename_by(order, ids, &note, all);
    }
}

// Where the descriptions of events are in a pipe; no bytes if there are none.
fn noted_descriptions(order: Dynamic, bytes: &[u8]) -> Section
    requires { 16 ≤ length bytes.now }
    ensures inside { IsInside bytes.now result }
    ensures value { bytes_of bytes.now result ≡ or_nothing (pipes.noted_feature (order_of order) 12
        (pipes.all_frames order (drop 16 bytes.now))) }
{
    match noted_section(order, bytes, 12) {
        Some(section) => section,
        None => Section { start: 0, size: 0 },
    }
}

/// Finds the names of the events of a pipe.
pub fn find_noted(
    order: Dynamic,
    bytes: &[u8],
    all: &mut [FlatEvent],
    ids: &[IdOfEvent],
    found: &mut [NamePlace],
)
    requires long { 16 ≤ length bytes.now }
    requires room { length found.old ≡ length all.old }
    ensures same { map names.nameless all.new ≡ map names.nameless all.old }
    ensures named { IsNonDecreasingBy (λ (e : IdOfEvent). e.id) ids.now → (k : ℕ) (d : FlatEvent) →
        k < length all.old → names.flat_name bytes.now (slice_index_or all.new k d) ≡ pipes.named_by
        (pipes.last_name (order_of order) ids.now k (pipes.all_frames order (drop 16 bytes.now)))
        (names.described_by (order_of order) (or_nothing (pipes.noted_feature (order_of order) 12
        (pipes.all_frames order (drop 16 bytes.now)))) bytes.now (slice_index_or all.old k d)) }
{
    find_all(order, bytes, noted_descriptions(order, bytes), all, found);
    rename_all(order, bytes, ids, all);
}

/// Finds the names of the events of a file that is no pipe, and returns 0. If its head is refused, it
/// returns the number of the refusal, and nothing is written.
pub fn find_in_file(bytes: &[u8], all: &mut [FlatEvent], found: &mut [NamePlace]) -> u32
    requires { length found.old ≡ length all.old }
    ensures named { (h : Head) → checked_head bytes.now ≡ Ok h → (result ≡ 0)
        × names.FindsNames (order_of h.order) (descriptions_of bytes.now h) bytes.now
        all.old all.new }
    ensures refused { (e : OpenError) → checked_head bytes.now ≡ Err e →
        (result ≡ open_code e) × (all.new ≡ all.old) × (found.new ≡ found.old) }
{
    match checked_head(bytes) {
        Ok(head) => {
            find_all(
                head.order,
                bytes,
                description_section(bytes, head),
                all,
                found,
            );
            0
        }
        Err(refusal) => open_code(refusal),
    }
}
