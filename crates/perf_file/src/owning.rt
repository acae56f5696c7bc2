//! Which event a frame belongs to.

ghost use Rattle.std.specs.Prelude.{◌≡◌, map};
ghost use Rattle.perf_sections.specs.Opened.{attributes_of, event_view};
ghost use Rattle.perf_file.specs.Owners as owners;

use crate::finding::Finder;
use crate::opening::Recording;
use perf_sections::events::Event;

/// Which event a frame belongs to.
#[derive(Copy, Clone, Debug, PartialEq, Eq)]
pub enum Owner {
    /// The event with that number, in the order of the file. The first one also has the records
    /// that perf made in the kernel's place, such as those of mappings that were there before.
    Event(usize),
    /// None: perf wrote it for itself.
    Perf,
    /// An event that the file does not have, by its id.
    Unknown(u64),
    /// The frame is too short for an id.
    Short,
}

// Whether records of the first event other than SAMPLE end with a sample id.
#[inline]
fn first_has_ids(events: &[Event<'_>]) -> bool
    ensures { result ≡ owners.first_has_ids (attributes_of (map event_view events.now)) }
{
    match events.first() {
        Some(event) => event.config().sample_id_all(),
        None => false,
    }
}

impl Recording<'_> {
    ghost use Rattle.perf_file.specs.Finders.{Finds};
    ghost use Rattle.perf_file.specs.Views.{view};

    // What the event of a frame depends on.
    #[inline]
    pub(crate) fn finder(&self) -> Finder<'_>
        ensures { Finds (view self.now) result }
    {
        Finder {
            order: self.order,
            is_single: self.events.len() < 2,
            first_has_ids: first_has_ids(&self.events),
            place: self.place,
            ids: &self.ids,
        }
    }
}
