//! The events of a file are read.

ghost use Rattle.std.specs.Prelude.{◌≡◌, ◌≤◌, ◌<◌, ◌/◌, ℕ, IfOk, OnOk, All, length, map, drop, slice_index_or};
ghost use Rattle.std.specs.List.{zip};
ghost use Rattle.perf_base.specs.Configured.{endian_of};
ghost use Rattle.perf_base.specs.Dynamic.{order_of};
ghost use Rattle.perf_base.specs.Layout.{words_of};
ghost use Rattle.perf_base.specs.declared.sys.perf_event_attr.{perf_event_attr};
ghost use Rattle.perf_sections.specs.IdPlaces as places;
ghost use Rattle.perf_sections.specs.Opened as opens;
ghost use Rattle.perf_sections.specs.Sections.{IsInside};
ghost use Rattle.perf_sections.specs.Names as names;
ghost use Rattle.perf_sections.specs.declared.events.Event.{Event};
ghost use Rattle.perf_sections.specs.declared.section.Section.{Section};

use crate::error::OpenError;
use crate::events::Event;
use crate::id_place::{IdPlace, id_place, is_same_place};
use crate::ids::{IdOfEvent, push_ids};
use crate::name_places::NamePlace;
use crate::naming::EventName;
use crate::naming_events::{name_with, names_of};
use crate::number::number_at;
use crate::section::Section;
use perf_base::endian::Dynamic;
use perf_base::sys::perf_event_attr;
use std::alloc::{AllocError, Global};

// The ids in a section: numbers of eight bytes.
fn ids_in(
    alloc: Global,
    order: Dynamic,
    bytes: &[u8],
    section: Section,
) -> Result<Vec<u64>, AllocError>
    requires { IsInside bytes.now section }
    ensures { IfOk result (λ v. v.items ≡
        words_of (order_of order) (section.size / 8) (drop section.start bytes.now)) }
{
    let mut ids = Vec::new(alloc);
    let count = section.size / 8;
    for index in 0..count {
        let at = section.start + 8 * index;
        ids.push(number_at(order, bytes, at as usize))?;
    }
    Ok(ids)
}

// The event of an attribute and of the section of its ids, with that name.
fn event_in<'p>(
    alloc: Global,
    order: Dynamic,
    bytes: &[u8],
    attr: perf_event_attr,
    section: Section,
    name: EventName<'p>,
) -> Result<Event<'p>, AllocError>
    requires { IsInside bytes.now section }
    ensures value { IfOk result (λ e. opens.event_view e ≡
        opens.event_in (order_of order) bytes.now (attr, section)) }
    ensures order { IfOk result (λ e. endian_of e.config ≡ order) }
    ensures name { IfOk result (λ e. names.name_view e.name ≡ names.name_view name.entry) }
{
    let ids = ids_in(alloc, order, bytes, section)?;
    Ok(Event::new(attr, order, ids, name))
}

/// The events of attributes and of the sections of their ids, named by these descriptions.
pub fn events_with<'p>(
    alloc: Global,
    order: Dynamic,
    bytes: &[u8],
    descriptions: &'p [u8],
    attributes: &[perf_event_attr],
    sections: &[Section],
) -> Result<Vec<Event<'p>>, AllocError>
    requires inside { All (IsInside bytes.now) sections.now }
    requires same { length attributes.now ≡ length sections.now }
    ensures value { IfOk result (λ v. map opens.event_view v.items ≡
        map (opens.event_in (order_of order) bytes.now) (zip attributes.now sections.now)) }
    ensures order { IfOk result (λ v. All (λ (e : Event). endian_of e.config ≡ order) v.items) }
    ensures named { IfOk result (λ v. All (λ (e : Event). names.name_view e.name ≡
        names.name_of order descriptions.now (opens.event_view e)) v.items) }
{
    let places = names_of(alloc, order, bytes, descriptions, attributes, sections)?;
    let mut events = Vec::new(alloc);
    for index in 0..sections.len() {
        let (attr, section) = (attributes[index], sections[index]);
        let name = name_with(order, bytes, descriptions, &places, &attr, section);
        let event = event_in(alloc, order, bytes, attr, section, name)?;
        events.push(event)?;
    }
    Ok(events)
}

/// Where the frames of the first event have its id.
pub fn first_place(events: &[Event<'_>]) -> Option<IdPlace>
    ensures { result ≡ places.first_place (opens.attributes_of (map opens.event_view events.now)) }
{
    match events.first() {
        Some(event) => id_place(event.config()),
        None => None,
    }
}

// Whether the frames of all events have their id at that place.
fn all_at(place: Option<IdPlace>, events: &[Event<'_>]) -> bool
    ensures { result ≡
        places.all_at place (opens.attributes_of (map opens.event_view events.now)) }
{
    for event in events {
        if !is_same_place(place, id_place(event.config())) {
            return false;
        }
    }
    true
}

/// Refuses several events without a common place of their ids.
pub fn check_places(events: &[Event<'_>]) -> Result<(), OpenError>
    ensures { result ≡
        places.checked_places (opens.attributes_of (map opens.event_view events.now)) }
{
    if events.len() < 2 || all_at(first_place(events), events) {
        Ok(())
    } else {
        Err(OpenError::NoIdPlace)
    }
}

/// The ids of all events, in the order of the file.
pub fn table_of(alloc: Global, events: &[Event<'_>]) -> Result<Vec<IdOfEvent>, AllocError>
    ensures { IfOk result (λ v. v.items ≡ opens.table_of (map opens.event_view events.now)) }
{
    let mut table = Vec::new(alloc);
    for index in 0..events.len() {
        push_ids(&mut table, index, events[index].ids())?;
    }
    Ok(table)
}
