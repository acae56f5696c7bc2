//! The events of entries.

ghost use Rattle.std.specs.Prelude.{◌≡◌, Some, None, MatchOption};
ghost use Rattle.perf_outlines.specs.EntryReads as reads;

use crate::file_entries::{FlatEntry, event_at};
use crate::file_events::FlatEvent;

/// The event of an entry, if it belongs to one of these.
pub fn event_of<'a>(all: &'a [FlatEvent], entry: &FlatEntry) -> Option<&'a FlatEvent>
    ensures { MatchOption result (reads.event_of all.now entry.now ≡ None)
        (λ e. reads.event_of all.now entry.now ≡ Some e.now) }
{
    if entry.owner > 0 {
        return None;
    }
    match event_at(all, entry.number as usize) {
        Some(event) => Some(event),
        None => None,
    }
}
