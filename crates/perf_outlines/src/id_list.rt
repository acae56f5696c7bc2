//! The ids of all events in memory of the caller's.

ghost use Rattle.std.specs.Prelude.{◌≡◌, ◌+◌, ◌++◌, ◌≤◌, ◌/◌, ℕ, All, OnOk, length, take};
ghost use Rattle.std.specs.List.Sorted.{IsPermutation, IsNonDecreasingBy};
ghost use Rattle.perf_base.specs.Dynamic.{order_of};
ghost use Rattle.perf_sections.specs.IdTables as tables;
ghost use Rattle.perf_outlines.specs.Outlines as outlines;
ghost use Rattle.perf_sections.specs.Sections.{IsInside};
ghost use Rattle.perf_sections.specs.declared.ids.IdOfEvent.{IdOfEvent};

use perf_base::endian::Dynamic;
use perf_sections::error::OpenError;
use perf_sections::ids::{IdOfEvent, least_shared};
use perf_sections::number::number_at;
use perf_sections::section::Section;

// Writes the ids of an event, which are in a section, from an index of the list on.
fn put_ids(
    order: Dynamic,
    bytes: &[u8],
    section: Section,
    event: usize,
    start: usize,
    ids: &mut [IdOfEvent],
)
    requires inside { IsInside bytes.now section }
    requires room { start + section.size / 8 ≤ length ids.old }
    ensures { take (start + section.size / 8) ids.new ≡ take start ids.old
        ++ tables.ids_of event (outlines.words_in (order_of order) bytes.now section) }
{
    let count = section.size / 8;
    for index in 0..count {
        let at = section.start + 8 * index;
        let id = number_at(order, bytes, at as usize);
        ids[start + index as usize] = IdOfEvent { id, event };
    }
}

/// Writes the ids of all events, in the order of the file, by the sections where they are.
pub fn fill_ids(order: Dynamic, bytes: &[u8], sections: &[Section], ids: &mut [IdOfEvent])
    requires inside { All (IsInside bytes.now) sections.now }
    requires room { length ids.old ≡ outlines.id_count sections.now }
    ensures { ids.new ≡ outlines.table_in (order_of order) bytes.now sections.now }
{
    let mut start = 0;
    for event in 0..sections.len() {
        let section = sections[event];
        put_ids(order, bytes, section, event, start, ids);
        start += (section.size / 8) as usize;
    }
}

/// Sorts ids by their numbers, and refuses the least one that two events have.
pub fn check_ids(ids: &mut [IdOfEvent]) -> Result<(), OpenError>
    ensures value { result ≡ tables.checked_table ids.old }
    ensures same { IsPermutation ids.old ids.new }
    ensures sorted { IsNonDecreasingBy (λ (e : IdOfEvent). e.id) ids.new }
    ensures found { OnOk result ((id : ℕ) →
        tables.event_of ids.new id ≡ tables.event_of ids.old id) }
{
    ids.sort_unstable_by_key(|entry| entry.id);
    match least_shared(ids) {
        Some(id) => Err(OpenError::SharedId(id)),
        None => Ok(()),
    }
}
