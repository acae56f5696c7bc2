//! Where the new names of events are in a pipe.

ghost use Rattle.std.specs.Prelude.{◌≡◌, ◌<◌, ℕ, List, Some, None, MatchOption, length};
ghost use Rattle.std.specs.List.Sorted.{IsNonDecreasingBy};
ghost use Rattle.perf_base.specs.Dynamic.{order_of};
ghost use Rattle.perf_sections.specs.NamePlaces.{name_at};
ghost use Rattle.perf_outlines.specs.NotePlaces.{IsPlaced};
ghost use Rattle.perf_file.specs.NoteViews.{note_of};
ghost use Rattle.perf_file.specs.Pipes as pipes;
ghost use Rattle.perf_sections.specs.declared.ids.IdOfEvent.{IdOfEvent};

use perf_base::endian::Dynamic;
use perf_file::note_frames::Note;
use perf_file::piped::name_in;
use perf_sections::ids::{IdOfEvent, event_of};
use perf_sections::number::number_at;
use perf_sections::section::Section;

/// The event that a note names, by ids that rise, and where in the file that name is.
pub fn new_name_in(order: Dynamic, table: &[IdOfEvent], note: &Note<'_>) -> Option<(usize, Section)>
    ensures { IsNonDecreasingBy (λ (e : IdOfEvent). e.id) table.now → (bytes : List ℕ) →
        IsPlaced bytes (note_of note.now) → MatchOption result
        (pipes.named_event (order_of order) table.now (note_of note.now) ≡ None)
        (λ found. (pipes.named_event (order_of order) table.now (note_of note.now) ≡ Some found.0)
        × (name_at bytes found.1 ≡ Some (pipes.new_name (note_of note.now)))
        × (0 < length (pipes.new_name (note_of note.now)))) }
{
    let name = name_in(order, note)?;
    let event = event_of(table, number_at(order, note.body, 8))?;
    Some((
        event,
        Section {
            start: note.at as u64 + 24,
            size: name.len() as u64,
        },
    ))
}
