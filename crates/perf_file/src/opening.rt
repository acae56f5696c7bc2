//! A file is opened.

ghost use Rattle.std.specs.Prelude.{◌≡◌, ◌+◌, ◌<◌, ◌^◌, ℕ, List, None, IfOk, All, length, map, slice_index_or};
ghost use Rattle.std.specs.List.Sorted.{IsNonDecreasingBy};
ghost use Rattle.perf_base.specs.Configured.{endian_of};
ghost use Rattle.perf_file.specs.Forms as forms;
ghost use Rattle.perf_sections.specs.IdPlaces as places;
ghost use Rattle.perf_sections.specs.IdTables as tables;
ghost use Rattle.perf_file.specs.NoteViews.{note_of};
ghost use Rattle.perf_sections.specs.Opened as opens;
ghost use Rattle.perf_sections.specs.declared.events.Event.{Event};
ghost use Rattle.perf_sections.specs.declared.ids.IdOfEvent.{IdOfEvent};

use crate::form_opening::{open_file, open_pipe};
use crate::note_frames::Note;
use crate::piped::pipe_order;
use perf_base::endian::Dynamic;
use perf_sections::error::OpenError;
use perf_sections::events::Event;
use perf_sections::id_place::IdPlace;
use perf_sections::ids::IdOfEvent;
use std::alloc::Global;

/// A `perf.data` file that was opened. Its bytes stay borrowed.
#[derive(Debug, Drop)]
pub struct Recording<'p> {
    pub(crate) bytes: &'p [u8],
    pub(crate) order: Dynamic,
    pub(crate) is_closed: bool,
    pub(crate) start: usize,
    pub(crate) frames: &'p [u8],
    pub(crate) events: Vec<Event<'p>>,
    pub(crate) ids: Vec<IdOfEvent>,
    pub(crate) place: Option<IdPlace>,
    pub(crate) notes: Vec<Note<'p>>,
    ghost inside: { start + length frames.now < 2 ^ 64 },
    ghost rising: { IsNonDecreasingBy (λ (e : IdOfEvent). e.id) ids.items },
    ghost found: { (id : ℕ) → tables.event_of ids.items id ≡
        tables.event_of (opens.table_of (map opens.event_view events.items)) id },
    ghost place_is: { place ≡
        places.first_place (opens.attributes_of (map opens.event_view events.items)) },
    ghost ordered: { All (λ (e : Event). endian_of e.config ≡ order) events.items },
    ghost noted: { map note_of notes.items ≡ forms.notes_of bytes.now },
}

impl<'p> Recording<'p> {
    ghost use Rattle.perf_sections.specs.Names as names;
    ghost use Rattle.perf_sections.specs.Opens.{Gives};
    ghost use Rattle.perf_file.specs.Pipes.{pipe_order};
    ghost use Rattle.perf_file.specs.Views.{view};
    ghost use Rattle.perf_sections.specs.declared.head.Head.{Head};
    ghost use Rattle.perf_sections.specs.declared.section.Section.{Section};

    /// Opens a file that is all in memory, as `perf record` writes it into a file or to a pipe.
    ///
    /// Memory is needed for the events and their ids, and in a pipe for the frames by which perf states
    /// something. The names of all events are found in one reading of their descriptions. The refusal is
    /// the first check that fails, in the order of [`OpenError`].
    #[tactic(auto, unfolding(crate::specs::Forms::opened, crate::specs::Forms::event_name))]
    pub fn open(alloc: Global, bytes: &'p [u8]) -> Result<Recording<'p>, OpenError>
        ensures exact { Gives view result (forms.opened bytes.now) }
        ensures sound { pipe_order bytes.now ≡ None → IfOk result (λ _.
            (h : Head) × (ids : List Section) × opens.IsSound bytes.now h ids) }
        ensures bytes { IfOk result (λ r. r.bytes.now ≡ bytes.now) }
        ensures named { IfOk result (λ r. (n : ℕ) (d : Event) → n < length r.events.items →
            names.name_view (slice_index_or r.events.items n d).name ≡ forms.event_name bytes.now
            (view r) n (opens.event_view (slice_index_or r.events.items n d))) }
    {
        match pipe_order(bytes) {
            Some(order) => open_pipe(alloc, order, bytes),
            None => open_file(alloc, bytes),
        }
    }

    /// The order of its numbers: that of the machine on which it was recorded.
    pub fn order(&self) -> Dynamic
        ensures { result ≡ (view self.now).order }
    {
        self.order
    }

    /// Whether perf ended regularly. If it was killed, the frames extend to the end of the file,
    /// and the last one may be unfinished.
    pub fn is_closed(&self) -> bool
        ensures { result ≡ (view self.now).is_closed }
    {
        self.is_closed
    }

    /// Its events, in the order of the file: at least one.
    pub fn events(&self) -> &[Event<'p>]
        ensures are { result.now ≡ self.now.events.items }
        ensures value { map opens.event_view result.now ≡ (view self.now).events }
    {
        &self.events
    }
}
