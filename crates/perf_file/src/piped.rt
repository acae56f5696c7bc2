//! The events of a pipe.

ghost use Rattle.std.specs.Prelude.{◌≡◌, ◌≢◌, ◌<◌, ◌≤◌, ◌∷◌, ℕ, List, true, false, Some, None, IfOk, IfSome, MatchOption, All, length, map, slice_index_or};
ghost use Rattle.std.specs.List.{filter};
ghost use Rattle.std.specs.List.Sorted.{IsNonDecreasingBy};
ghost use Rattle.perf_base.specs.Configured.{endian_of};
ghost use Rattle.perf_base.specs.Dynamic.{order_of};
ghost use Rattle.perf_base.specs.declared.endian.Dynamic.{Dynamic};
ghost use Rattle.perf_sections.specs.Features.{or_nothing};
ghost use Rattle.perf_sections.specs.IdTables as tables;
ghost use Rattle.perf_sections.specs.Names as names;
ghost use Rattle.perf_file.specs.NoteViews as views;
ghost use Rattle.perf_sections.specs.Opened as opens;
ghost use Rattle.perf_sections.specs.Opens.{Gives};
ghost use Rattle.perf_file.specs.Pieces as pieces;
ghost use Rattle.perf_file.specs.Pipes as pipes;
ghost use Rattle.perf_file.specs.Pipes.{FrameNote};
ghost use Rattle.perf_sections.specs.Sections.{IsInside};
ghost use Rattle.perf_sections.specs.declared.events.Event.{Event};
ghost use Rattle.perf_sections.specs.declared.ids.IdOfEvent.{IdOfEvent};

use crate::attributes::attribute_in;
use crate::event_list::found_events;
use crate::listing::split_most;
use crate::note_frames::Note;
use crate::noting::{EVENT_UPDATE, HEADER_ATTR, noted_feature, notes_of_type};
use perf_base::endian::Dynamic;
use perf_base::sys::perf_event_attr;
use perf_sections::descriptions::before_zero;
use perf_sections::error::OpenError;
use perf_sections::events::Event;
use perf_sections::head::{PIPE_HEAD_SIZE, order_by};
use perf_sections::id_sections::checked_ids;
use perf_sections::ids::{IdOfEvent, event_of};
use perf_sections::number::{number_at, small_number_at};
use perf_sections::reading::events_with;
use perf_sections::section::Section;
use std::alloc::Global;

/// The order of a pipe; none if it is no pipe.
pub fn pipe_order(bytes: &[u8]) -> Option<Dynamic>
    ensures value { result ≡ pipes.pipe_order bytes.now }
    ensures long { IfSome result (λ _. 16 ≤ length bytes.now) }
{
    if bytes.len() < 16 {
        return None;
    }
    match order_by(number_at(Dynamic::Little, bytes, 0)) {
        Ok(order) => {
            if number_at(order, bytes, 8) == PIPE_HEAD_SIZE {
                Some(order)
            } else {
                None
            }
        }
        Err(_) => None,
    }
}

// How many bytes the attribute of a note takes, as it states.
fn attribute_size(order: Dynamic, body: &[u8]) -> u64
    ensures { result ≡ pipes.attribute_size (order_of order) body.now }
{
    if body.len() < 8 {
        0
    } else {
        u64::from(small_number_at(order, body, 4))
    }
}

/// The attribute of the event with that number.
pub fn noted_attribute(
    alloc: Global,
    order: Dynamic,
    index: usize,
    note: &Note<'_>,
) -> Result<perf_event_attr, OpenError>
    ensures { result ≡ pipes.noted_attribute order index (views.note_of note.now) }
{
    let (entry, _) = split_most(note.body, attribute_size(order, note.body));
    match attribute_in(alloc, entry, order) {
        Ok(attr) => Ok(attr),
        Err(kind) => Err(OpenError::BadAttribute(index, kind)),
    }
}

/// Where the ids of that event are.
pub fn noted_ids(
    order: Dynamic,
    bytes: &[u8],
    index: usize,
    note: &Note<'_>,
) -> Result<Section, OpenError>
    ensures value { result ≡ pipes.noted_ids order bytes.now index (views.note_of note.now) }
    ensures inside { IfOk result (IsInside bytes.now) }
{
    let (entry, ids) = split_most(note.body, attribute_size(order, note.body));
    checked_ids(
        bytes,
        index,
        Section {
            start: (note.at + 8 + entry.len()) as u64,
            size: ids.len() as u64,
        },
    )
}

// The attribute of each event.
fn noted_attributes(
    alloc: Global,
    order: Dynamic,
    notes: &[Note<'_>],
) -> Result<Vec<perf_event_attr>, OpenError>
    ensures { Gives (λ v. v.items) result
        (pipes.each_of (pipes.noted_attribute order) 0 (map views.note_of notes.now)) }
{
    let mut found = Vec::new(alloc);
    for index in 0..notes.len() {
        let attr = noted_attribute(alloc, order, index, &notes[index])?;
        found.push(attr)?;
    }
    Ok(found)
}

// Where the ids of each event are.
fn noted_sections(
    alloc: Global,
    order: Dynamic,
    bytes: &[u8],
    notes: &[Note<'_>],
) -> Result<Vec<Section>, OpenError>
    ensures exact { Gives (λ v. v.items) result
        (pipes.each_of (pipes.noted_ids order bytes.now) 0 (map views.note_of notes.now)) }
    ensures inside { IfOk result (λ v. All (IsInside bytes.now) v.items) }
{
    let mut found = Vec::new(alloc);
    for index in 0..notes.len() {
        let ids = noted_ids(order, bytes, index, &notes[index])?;
        found.push(ids)?;
    }
    Ok(found)
}

// Refuses no event.
fn checked_count(entries: &[Note<'_>]) -> Result<(), OpenError>
    ensures { result ≡ pipes.checked_count (map views.note_of entries.now) }
{
    if entries.is_empty() {
        Err(OpenError::NoAttributes)
    } else {
        Ok(())
    }
}

// The events of these notes of attributes, named by these descriptions.
fn noted_events<'p>(
    alloc: Global,
    order: Dynamic,
    bytes: &'p [u8],
    descriptions: &'p [u8],
    entries: &[Note<'p>],
) -> Result<Vec<Event<'p>>, OpenError>
    ensures exact { Gives (λ v. map opens.event_view v.items) result
        (pipes.noted_events order bytes.now (map views.note_of entries.now)) }
    ensures order { IfOk result (λ v. All (λ (e : Event). endian_of e.config ≡ order) v.items) }
    ensures named { IfOk result (λ v. All (λ (e : Event). names.name_view e.name ≡
        names.name_of order descriptions.now (opens.event_view e)) v.items) }
{
    checked_count(entries)?;
    let attributes = noted_attributes(alloc, order, entries)?;
    let sections = noted_sections(alloc, order, bytes, entries)?;
    Ok(events_with(alloc, order, bytes, descriptions, &attributes, &sections)?)
}

// The descriptions of events; none if there are none.
fn noted_descriptions<'p>(order: Dynamic, notes: &[Note<'p>]) -> &'p [u8]
    ensures { result.now ≡ or_nothing
        (pipes.noted_feature (order_of order) 12 (map views.note_of notes.now)) }
{
    match noted_feature(order, notes, 12) {
        Some(bytes) => bytes,
        None => &[],
    }
}

/// The new name that a note has, of at least one byte.
pub fn name_in<'p>(order: Dynamic, note: &Note<'p>) -> Option<&'p [u8]>
    ensures value { MatchOption result
        (pipes.has_name (order_of order) (views.note_of note.now) ≡ false)
        (λ name. (pipes.has_name (order_of order) (views.note_of note.now) ≡ true)
        × (name.now ≡ pipes.new_name (views.note_of note.now))) }
{
    if note.body.len() < 16 || note.header.type_ != EVENT_UPDATE {
        return None;
    }
    if number_at(order, note.body, 0) != 2 {
        return None;
    }
    let name = before_zero(note.body.split_at(16).1);
    if name.is_empty() { None } else { Some(name) }
}

// The event that a note names, by ids that rise, and its name.
fn named_event<'p>(
    order: Dynamic,
    table: &[IdOfEvent],
    note: &Note<'p>,
) -> Option<(usize, &'p [u8])>
    requires { IsNonDecreasingBy (λ (e : IdOfEvent). e.id) table.now }
    ensures { MatchOption result
        (pipes.named_event (order_of order) table.now (views.note_of note.now) ≡ None)
        (λ found. (pipes.named_event (order_of order) table.now (views.note_of note.now) ≡ Some found.0)
        × (found.1.now ≡ pipes.new_name (views.note_of note.now))) }
{
    let name = name_in(order, note)?;
    let event = event_of(table, number_at(order, note.body, 8))?;
    Some((event, name))
}

// Gives the event with that number a new name.
fn rename_at<'p>(events: &mut [Event<'p>], index: usize, name: &'p [u8])
    requires { index < length events.old }
    ensures same { map opens.event_view events.new ≡ map opens.event_view events.old }
    ensures order { (o : Dynamic) → All (λ (e : Event). endian_of e.config ≡ o) events.old →
        All (λ (e : Event). endian_of e.config ≡ o) events.new }
    ensures there { (d : Event) → names.name_view (slice_index_or events.new index d).name
        ≡ names.described name.now }
    ensures others { (k : ℕ) (d : Event) → k ≢ index →
        slice_index_or events.new k d ≡ slice_index_or events.old k d }
{
    events[index].rename(name);
}

// Gives the event that a note names, if there is one, its new name.
fn rename_by<'p>(order: Dynamic, table: &[IdOfEvent], note: &Note<'p>, events: &mut [Event<'p>])
    requires { IsNonDecreasingBy (λ (e : IdOfEvent). e.id) table.now }
    ensures same { map opens.event_view events.new ≡ map opens.event_view events.old }
    ensures order { (o : Dynamic) → All (λ (e : Event). endian_of e.config ≡ o) events.old →
        All (λ (e : Event). endian_of e.config ≡ o) events.new }
    ensures named { (k : ℕ) (d : Event) (rest : List FrameNote) → k < length events.old →
        pipes.named_by (pipes.last_name (order_of order) table.now k rest)
        (names.name_view (slice_index_or events.new k d).name) ≡
        pipes.named_by (pipes.last_name (order_of order) table.now k (views.note_of note.now ∷ rest))
        (names.name_view (slice_index_or events.old k d).name) }
{
    let Some((event, name)) = named_event(order, table, note) else {
        return;
    };
    if event >= events.len() {
        return;
    }
    rename_at(events, event, name);
}

/// Gives events their new names, by their ids, which rise.
pub(crate) fn rename_all<'p>(
    order: Dynamic,
    table: &[IdOfEvent],
    notes: &[Note<'p>],
    events: &mut [Event<'p>],
)
    requires { IsNonDecreasingBy (λ (e : IdOfEvent). e.id) table.now }
    ensures same { map opens.event_view events.new ≡ map opens.event_view events.old }
    ensures order { (o : Dynamic) → All (λ (e : Event). endian_of e.config ≡ o) events.old →
        All (λ (e : Event). endian_of e.config ≡ o) events.new }
    ensures named { (k : ℕ) (d : Event) → k < length events.old →
        names.name_view (slice_index_or events.new k d).name ≡ pipes.named_by
        (pipes.last_name (order_of order) table.now k (map views.note_of notes.now))
        (names.name_view (slice_index_or events.old k d).name) }
{
    for index in 0..notes.len() {
        rename_by(order, table, &notes[index], events);
    }
}

/// The events of a pipe with these notes, each with the name by its description.
pub(crate) fn pipe_events<'p>(
    alloc: Global,
    order: Dynamic,
    bytes: &'p [u8],
    notes: &[Note<'p>],
) -> Result<Vec<Event<'p>>, OpenError>
    ensures exact { Gives (λ v. map opens.event_view v.items) result (pipes.noted_events order bytes.now
        (filter (pipes.is_of 64) (map views.note_of notes.now))) }
    ensures order { IfOk result (λ v. All (λ (e : Event). endian_of e.config ≡ order) v.items) }
    ensures named { IfOk result (λ v. All (λ (e : Event). names.name_view e.name ≡
        names.name_of order (or_nothing (pipes.noted_feature (order_of order) 12
        (map views.note_of notes.now))) (opens.event_view e)) v.items) }
{
    let entries = notes_of_type(alloc, notes, HEADER_ATTR)?;
    noted_events(
        alloc,
        order,
        bytes,
        noted_descriptions(order, notes),
        &entries,
    )
}

/// The events of a pipe with these notes, each with its name, and their ids by rising ids.
pub(crate) fn found_pipe_events<'p>(
    alloc: Global,
    order: Dynamic,
    bytes: &'p [u8],
    notes: &[Note<'p>],
) -> Result<(Vec<Event<'p>>, Vec<IdOfEvent>), OpenError>
    ensures exact { Gives (λ both. map opens.event_view both.0.items) result
        (pipes.found_events order bytes.now (map views.note_of notes.now)) }
    ensures order { IfOk result (λ both.
        All (λ (e : Event). endian_of e.config ≡ order) both.0.items) }
    ensures sorted { IfOk result (λ both. IsNonDecreasingBy (λ (e : IdOfEvent). e.id) both.1.items) }
    ensures found { IfOk result (λ both. (id : ℕ) → tables.event_of both.1.items id ≡
        tables.event_of (opens.table_of (map opens.event_view both.0.items)) id) }
    ensures named { IfOk result (λ both. (n : ℕ) (d : Event) → n < length both.0.items →
        names.name_view (slice_index_or both.0.items n d).name ≡
        pipes.noted_name order (map views.note_of notes.now)
        (opens.table_of (map opens.event_view both.0.items)) n
        (opens.event_view (slice_index_or both.0.items n d))) }
{
    let mut events = pipe_events(alloc, order, bytes, notes)?;
    let ids = found_events(alloc, &events)?;
    rename_all(order, &ids, notes, &mut events);
    Ok((events, ids))
}
