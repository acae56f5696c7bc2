//! The events of a file are read, and checked together.

ghost use Rattle.std.specs.Prelude.{◌≡◌, ◌≤◌, ℕ, List, Ok, IfOk, OnOk, All, length, map};
ghost use Rattle.std.specs.List.Sorted.{IsNonDecreasingBy};
ghost use Rattle.perf_base.specs.Configured.{endian_of};
ghost use Rattle.perf_sections.specs.Features.{descriptions_of};
ghost use Rattle.perf_sections.specs.Heads.{IsGoodHead, head_in};
ghost use Rattle.perf_sections.specs.IdTables as tables;
ghost use Rattle.perf_sections.specs.Names as names;
ghost use Rattle.perf_sections.specs.Opened as opens;
ghost use Rattle.perf_sections.specs.Opens.{Gives};
ghost use Rattle.perf_sections.specs.declared.events.Event.{Event};
ghost use Rattle.perf_sections.specs.declared.ids.IdOfEvent.{IdOfEvent};
ghost use Rattle.perf_sections.specs.declared.section.Section.{Section};

use crate::attributes::attributes_of;
use perf_sections::error::OpenError;
use perf_sections::events::Event;
use perf_sections::features::find_descriptions;
use perf_sections::head::{Head, check_features, check_parts, head_of};
use perf_sections::id_sections::{check_apart, id_sections_of, sections_of};
use perf_sections::ids::{IdOfEvent, least_shared};
use perf_sections::reading::{check_places, events_with, table_of};
use std::alloc::Global;

/// The head, if it is good.
pub fn checked_head(bytes: &[u8]) -> Result<Head, OpenError>
    ensures value { result ≡ opens.checked_head bytes.now }
    ensures good { IfOk result (λ h. IsGoodHead bytes.now h) }
    ensures whole { OnOk result (104 ≤ length bytes.now) }
    ensures head { IfOk result (λ h. head_in bytes.now ≡ Ok h) }
{
    let head = head_of(bytes)?;
    check_features(head)?;
    check_parts(bytes, head)?;
    Ok(head)
}

/// The events, if their parts of the file are apart.
pub(crate) fn events_in<'p>(
    alloc: Global,
    bytes: &'p [u8],
    head: Head,
) -> Result<Vec<Event<'p>>, OpenError>
    requires good { IsGoodHead bytes.now head }
    requires whole { 104 ≤ length bytes.now }
    ensures exact { Gives (λ v. map opens.event_view v.items) result (opens.events_in bytes.now head) }
    ensures order { IfOk result (λ v.
        All (λ (e : Event). endian_of e.config ≡ head.order) v.items) }
    ensures named { IfOk result (λ v. All (λ (e : Event). names.name_view e.name ≡
        names.name_of head.order (descriptions_of bytes.now head) (opens.event_view e)) v.items) }
    ensures sound { IfOk result (λ _.
        (ids : List Section) × opens.HasParts bytes.now head ids) }
{
    let attributes = attributes_of(alloc, bytes, head)?;
    let sections = id_sections_of(alloc, bytes, head)?;
    check_apart(sections_of(alloc, head, &sections)?)?;
    let descriptions = find_descriptions(bytes, head);
    let order = head.order;
    Ok(events_with(alloc, order, bytes, descriptions, &attributes, &sections)?)
}

// The ids of all events by rising ids. Refused if two events have one.
fn sorted_table(alloc: Global, events: &[Event<'_>]) -> Result<Vec<IdOfEvent>, OpenError>
    ensures exact { Gives {Y = Unit {0}} (λ _. tt) result
        (tables.checked_table (opens.table_of (map opens.event_view events.now))) }
    ensures sorted { IfOk result (λ v. IsNonDecreasingBy (λ (e : IdOfEvent). e.id) v.items) }
    ensures found { IfOk result (λ v. (id : ℕ) → tables.event_of v.items id ≡
        tables.event_of (opens.table_of (map opens.event_view events.now)) id) }
{
    let mut table = table_of(alloc, events)?;
    table.sort_unstable_by_key(|entry| entry.id);
    match least_shared(&table) {
        Some(id) => {
            drop(table);
            Err(OpenError::SharedId(id))
        }
        None => Ok(table),
    }
}

/// The ids of all events by rising ids, if the event of each frame can be found by them.
pub(crate) fn found_events(alloc: Global, events: &[Event<'_>]) -> Result<Vec<IdOfEvent>, OpenError>
    ensures exact { Gives {Y = Unit {0}} (λ _. tt) result
        (opens.checked_events (map opens.event_view events.now)) }
    ensures sorted { IfOk result (λ v. IsNonDecreasingBy (λ (e : IdOfEvent). e.id) v.items) }
    ensures found { IfOk result (λ v. (id : ℕ) → tables.event_of v.items id ≡
        tables.event_of (opens.table_of (map opens.event_view events.now)) id) }
{
    check_places(events)?;
    sorted_table(alloc, events)
}
