//! Which event a frame belongs to, by ids in memory of the caller's.

ghost use Rattle.std.specs.Prelude.{◌≡◌, ◌<◌, ◌≤◌, true, length, MatchOption};
ghost use Rattle.std.specs.List.Sorted.{IsNonDecreasingBy};
ghost use Rattle.perf_base.specs.Dynamic.{order_of};
ghost use Rattle.perf_records.specs.Sights.{sight_of, sight_in};
ghost use Rattle.perf_file.specs.Finders.{Finds};
ghost use Rattle.perf_sections.specs.IdTables as tables;
ghost use Rattle.perf_sections.specs.Opened.{File, table_of};
ghost use Rattle.perf_file.specs.Owners as owners;
ghost use Rattle.perf_file.specs.Pieces as pieces;
ghost use Rattle.perf_sections.specs.declared.ids.IdOfEvent.{IdOfEvent};

use crate::listing::{header_of, payload_length, size_of, split_most};
use crate::owning::Owner;
use perf_base::endian::Dynamic;
use perf_base::sys::PERF_RECORD_SAMPLE;
use perf_records::frame::Frame;
use perf_records::frame_handler::BadFrame;
use perf_records::frame_list::frames;
use perf_sections::id_place::{IdPlace, id_at};
use perf_sections::ids::{IdOfEvent, event_of};

/// What the event of a frame depends on.
#[derive(Copy, Clone, Debug)]
pub struct Finder<'a> {
    /// The order of numbers.
    pub order: Dynamic,
    /// Whether there are fewer than two events.
    pub is_single: bool,
    /// Whether records of the first event other than SAMPLE end with a sample id.
    pub first_has_ids: bool,
    /// Where frames have their id.
    pub place: Option<IdPlace>,
    /// The ids of all events, by rising ids.
    pub ids: &'a [IdOfEvent],
}

impl Finder<'_> {
    // The owner of a frame by its id.
    #[inline]
    fn owner_by(&self, id: Option<u64>) -> Owner
        ensures { (f : File) → Finds f self.now →
            result ≡ owners.owner_by (table_of f.events) id }
    {
        let Some(id) = id else {
            return Owner::Short;
        };
        if id == 0 {
            return Owner::Event(0);
        }
        match event_of(self.ids, id) {
            Some(event) => Owner::Event(event),
            None => Owner::Unknown(id),
        }
    }

    // The id of a frame of that type with these bytes after its header.
    #[inline]
    fn id_in(&self, ty: u32, body: &[u8]) -> Option<u64>
        ensures { (f : File) → Finds f self.now → result ≡ owners.id_in f ty body.now }
    {
        match self.place {
            Some(place) => id_at(self.order, place, ty, body),
            None => None,
        }
    }

    // Whether a frame of that type belongs to the first event whatever it contains.
    #[inline]
    fn is_of_first(&self, ty: u32) -> bool
        ensures { (f : File) → Finds f self.now → result ≡ owners.is_of_first f ty }
    {
        self.is_single || (ty != PERF_RECORD_SAMPLE && !self.first_has_ids)
    }

    // The owner of a frame of that type with these bytes after its header.
    #[inline(always)]
    fn owner_of(&self, ty: u32, body: &[u8]) -> Owner
        ensures { (f : File) → Finds f self.now → result ≡ owners.owner_of f ty body.now }
    {
        if ty >= 64 {
            return Owner::Perf;
        }
        if self.is_of_first(ty) {
            return Owner::Event(0);
        }
        self.owner_by(self.id_in(ty, body))
    }

    /// The owner of what is found where a frame begins.
    #[inline(always)]
    pub fn owner_of_found(&self, frame: &Result<Frame<'_, '_>, BadFrame>) -> Owner
        ensures { (f : File) → Finds f self.now →
            result ≡ owners.owner_of_sight f (sight_of frame.now) }
    {
        match frame {
            Ok(frame) => self.owner_of(frame.header().type_, frame.rest()),
            Err(bad) => self.owner_of(bad.header().type_, &[]),
        }
    }
}

/// The first frame of bytes, and the bytes after it and its payload.
#[inline]
pub fn first_in<'p>(
    order: Dynamic,
    bytes: &'p [u8],
) -> Option<(Result<Frame<'p, 'p>, BadFrame>, &'p [u8])>
    ensures { MatchOption result (length bytes.now < 8) (λ found. (8 ≤ length bytes.now)
        × (sight_of found.0 ≡ sight_in (order_of order) bytes.now true)
        × (found.1.now ≡ pieces.after_piece (order_of order) bytes.now)) }
{
    let mut all = frames(bytes, order);
    let frame = all.next()?;
    let (_, after) = split_most(bytes, size_of(header_of(&frame)) as u64);
    let (_, left) = split_most(after, payload_length(order, &frame));
    Some((frame, left))
}
