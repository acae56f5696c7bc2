//! A file is opened in one of its two forms.

ghost use Rattle.std.specs.Prelude.{◌≡◌, ◌<◌, ◌≤◌, ℕ, List, Some, None, IfOk, All, length, map, slice_index_or};
ghost use Rattle.perf_sections.specs.Features.{file_descriptions};
ghost use Rattle.perf_file.specs.Forms as forms;
ghost use Rattle.perf_sections.specs.Names as names;
ghost use Rattle.perf_sections.specs.Opened as opens;
ghost use Rattle.perf_sections.specs.Opens.{Gives};
ghost use Rattle.perf_file.specs.Pipes as pipes;
ghost use Rattle.perf_file.specs.Views.{view};
ghost use Rattle.perf_sections.specs.declared.events.Event.{Event};
ghost use Rattle.perf_sections.specs.declared.head.Head.{Head};
ghost use Rattle.perf_sections.specs.declared.section.Section.{Section};

use crate::event_list::{checked_head, events_in, found_events};
use crate::noting::notes_in;
use crate::opening::Recording;
use crate::piped::found_pipe_events;
use perf_base::endian::Dynamic;
use perf_sections::error::OpenError;
use perf_sections::number::bytes_at;
use perf_sections::reading::first_place;
use std::alloc::Global;

/// Opens a file that is no pipe.
#[tactic(auto, unfolding(crate::specs::Forms::notes_of, perf_sections::specs::Opened::opened_file))]
pub(crate) fn open_file<'p>(alloc: Global, bytes: &'p [u8]) -> Result<Recording<'p>, OpenError>
    requires { pipes.pipe_order bytes.now ≡ None }
    ensures exact { Gives view result (opens.opened_file bytes.now) }
    ensures sound { IfOk result (λ _.
        (h : Head) × (ids : List Section) × opens.IsSound bytes.now h ids) }
    ensures bytes { IfOk result (λ r. r.bytes.now ≡ bytes.now) }
    ensures named { IfOk result (λ r. All (λ (e : Event). names.name_view e.name ≡
        names.name_of r.order (file_descriptions bytes.now) (opens.event_view e)) r.events.items) }
{
    let head = checked_head(bytes)?;
    let events = events_in(alloc, bytes, head)?;
    let ids = found_events(alloc, &events)?;
    let place = first_place(&events);
    let start = head.frames.start as usize;
    Ok(Recording {
        bytes,
        order: head.order,
        is_closed: head.is_closed,
        start,
        frames: bytes_at(bytes, start, head.frames.size as usize),
        events,
        ids,
        place,
        notes: Vec::new(alloc),
    })
}

/// Opens a pipe in that order.
#[tactic(auto, unfolding(crate::specs::Forms::notes_of, crate::specs::Pipes::opened_pipe))]
pub(crate) fn open_pipe<'p>(
    alloc: Global,
    order: Dynamic,
    bytes: &'p [u8],
) -> Result<Recording<'p>, OpenError>
    requires order { pipes.pipe_order bytes.now ≡ Some order }
    requires long { 16 ≤ length bytes.now }
    ensures exact { Gives view result (pipes.opened_pipe order bytes.now) }
    ensures bytes { IfOk result (λ r. r.bytes.now ≡ bytes.now) }
    ensures named { IfOk result (λ r. (n : ℕ) (d : Event) → n < length r.events.items →
        names.name_view (slice_index_or r.events.items n d).name ≡ pipes.noted_name order
        (forms.notes_of bytes.now) (opens.table_of (map opens.event_view r.events.items)) n
        (opens.event_view (slice_index_or r.events.items n d))) }
{
    let frames = bytes.split_at(16).1;
    let notes = notes_in(alloc, order, frames)?;
    let (events, ids) = found_pipe_events(alloc, order, bytes, &notes)?;
    let place = first_place(&events);
    Ok(Recording {
        bytes,
        order,
        is_closed: true,
        start: 16,
        frames,
        events,
        ids,
        place,
        notes,
    })
}
