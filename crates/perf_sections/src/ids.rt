//! Which event has an id.

ghost use Rattle.std.specs.Prelude.{◌≡◌, ◌≤◌, ◌<◌, ◌++◌, ℕ, Some, IfSome, IfNone, OnOk, true, length, slice_index_or};
ghost use Rattle.std.specs.List.Sorted.{IsNonDecreasingBy};
ghost use Rattle.perf_sections.specs.IdTables as tables;
ghost use Rattle.perf_sections.specs.declared.ids.IdOfEvent.{IdOfEvent};

use std::alloc::AllocError;

/// An id, and the number of an event that has it.
#[repr(C)]
#[derive(Copy, Clone, Debug)]
pub struct IdOfEvent {
    /// The kernel's number.
    pub id: u64,
    /// The number of the event, in the order of the file.
    pub event: usize,
}

/// Appends the ids of an event.
pub fn push_ids(table: &mut Vec<IdOfEvent>, event: usize, ids: &[u64]) -> Result<(), AllocError>
    ensures { OnOk result (table.new.items ≡ table.old.items ++ tables.ids_of event ids.now) }
{
    for id in ids {
        table.push(IdOfEvent { id: *id, event })?;
    }
    Ok(())
}

// Whether all ids before an index are less than one, in a table that is by rising ids.
#[inline]
fn are_less_before(table: &[IdOfEvent], at: usize, id: u64) -> bool
    requires { at ≤ length table.now }
    ensures { IsNonDecreasingBy (λ (e : IdOfEvent). e.id) table.now → result ≡ true →
        (k : ℕ) (d : IdOfEvent) → k < at → (slice_index_or table.now k d).id < id }
{
    at == 0 || table[at - 1].id < id
}

// The event that has an id, if the ids of the table follow one another up to it, as those of one
// recording mostly do.
#[inline]
fn event_in_row(table: &[IdOfEvent], id: u64) -> Option<usize>
    ensures { IsNonDecreasingBy (λ (e : IdOfEvent). e.id) table.now →
        IfSome result (λ event. tables.event_of table.now id ≡ Some event) }
{
    let first = table.first()?;
    let place = id.wrapping_sub(first.id);
    if place >= table.len() as u64 {
        return None;
    }
    let at = place as usize;
    let entry = table[at];
    if entry.id == id && are_less_before(table, at, id) {
        Some(entry.event)
    } else {
        None
    }
}

// The event that has an id, which is searched for.
fn event_by_search(table: &[IdOfEvent], id: u64) -> Option<usize>
    ensures { IsNonDecreasingBy (λ (e : IdOfEvent). e.id) table.now →
        result ≡ tables.event_of table.now id }
{
    let at = table.partition_point(|entry| entry.id < id);
    if at == table.len() {
        return None;
    }
    let entry = table[at];
    if entry.id == id {
        Some(entry.event)
    } else {
        None
    }
}

/// The number of the event that has an id, in a table that is by rising ids.
#[inline]
pub fn event_of(table: &[IdOfEvent], id: u64) -> Option<usize>
    ensures { IsNonDecreasingBy (λ (e : IdOfEvent). e.id) table.now →
        result ≡ tables.event_of table.now id }
{
    match event_in_row(table, id) {
        Some(event) => Some(event),
        None => event_by_search(table, id),
    }
}

/// The least id that two events have, in a table by rising ids.
pub fn least_shared(table: &[IdOfEvent]) -> Option<u64>
    requires { IsNonDecreasingBy (λ (e : IdOfEvent). e.id) table.now }
    ensures shared { IfSome result (tables.SharesAnId table.now) }
    ensures least { IfSome result (λ least. (id : ℕ) → tables.SharesAnId table.now id → least ≤ id) }
    ensures none { IfNone result (tables.IsFunction table.now) }
{
    let mut index = 1;
    while index < table.len() {
        let (before, here) = (table[index - 1], table[index]);
        if before.id == here.id && before.event != here.event {
            return Some(here.id);
        }
        index += 1;
    }
    None
}
