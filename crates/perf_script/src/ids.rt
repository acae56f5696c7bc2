//! The events that ids belong to.

ghost use Rattle.std.specs.Prelude.{◌≡◌, ◌==◌, ℕ, Some, IfOk, OnOk, if◌then◌else◌};
ghost use Rattle.std.specs.BTreeMap.{get};
ghost use Rattle.std.specs.Ordering.{nat_cmp};
ghost use Rattle.perf_sections.specs.IdTables.{event_of, ids_of};
ghost use Rattle.perf_sections.specs.Opened.{table_of};
ghost use Rattle.perf_file.specs.Views.{view};
ghost use Rattle.perf_script.specs.Ids.{Adds, finds};

use perf_file::{Event, Recording};
use std::alloc::{AllocError, Global};
use std::collections::BTreeMap;

/// The number of the event that each id belongs to.
#[derive(Debug, Drop)]
pub struct Ids {
    events: BTreeMap<u64, usize>,
}

// Adds the id of an event.
fn add_id(events: &mut BTreeMap<u64, usize>, event: usize, id: u64) -> Result<(), AllocError>
    ensures { OnOk result ((other : ℕ) → get nat_cmp events.new other
        ≡ (if id == other then Some event else get nat_cmp events.old other)) }
{
    events.insert(id, event)?;
    Ok(())
}

// Adds the ids of an event.
fn add_ids(events: &mut BTreeMap<u64, usize>, event: usize, ids: &[u64]) -> Result<(), AllocError>
    ensures { OnOk result (Adds (ids_of event ids.now) events.old events.new) }
{
    let mut left = ids.len();
    while left > 0 {
        left -= 1;
        add_id(events, event, ids[left])?;
    }
    Ok(())
}

impl Ids {
    /// The ids of the events of a recording.
    pub fn of(alloc: Global, recording: &Recording<'_>) -> Result<Ids, AllocError>
        ensures { IfOk result (λ ids. (id : ℕ) → finds ids id
            ≡ event_of (table_of (view recording.now).events) id) }
    {
        let list = recording.events();
        let mut events = BTreeMap::new(alloc);
        let mut left = list.len();
        while left > 0 {
            left -= 1;
            add_ids(&mut events, left, list[left].ids())?;
        }
        Ok(Ids { events })
    }

    /// The event that an id belongs to.
    pub fn event(&self, id: u64) -> Option<usize>
        ensures { result ≡ finds self.now id }
    {
        match self.events.get(&id) {
            Some(event) => Some(*event),
            None => None,
        }
    }
}
