//! Frames of a file, by their offsets and times.

ghost use Rattle.std.specs.Prelude.{◌≡◌, ◌-◌, ◌<◌, ◌≤◌, Ok, Some, MatchOption, option_map, slice_index_or, drop, length};
ghost use Rattle.perf_file.specs.Forms.{opened};
ghost use Rattle.perf_sections.specs.Opened.{File};
ghost use Rattle.perf_outlines.specs.PipeOutlines.{form_outline};
ghost use Rattle.perf_outlines.specs.declared.summary.Outline.{Outline};
ghost use Rattle.perf_records.specs.Sights.{sight_of};
ghost use Rattle.perf_outlines.specs.Entries as entries;
ghost use Rattle.perf_outlines.specs.FileEvents.{AreRead};
ghost use Rattle.perf_outlines.specs.Files.{flat_file};

use crate::ends::{CUT_HEADER, DONE, LIMIT, NOT_READ};
use crate::file::FlatFile;
use crate::file_events::{FlatEvent, first_place};
use crate::order::order_by;
use perf_file::Owner;
use perf_file::entries::{Timed, time_in};
use perf_file::finding::{Finder, first_in};
use perf_records::frame::Frame;
use perf_records::frame_handler::BadFrame;
use perf_sections::ids::IdOfEvent;

/// When a frame happened, where it is, and which event it belongs to.
#[repr(C)]
#[derive(Copy, Clone, Debug)]
pub struct FlatEntry {
    /// In nanoseconds of the clock of the recording, 0 for a frame without a time.
    pub time: u64,
    /// The offset in the file at which its header begins.
    pub at: u64,
    /// The number of its event, or the id of an event that the file does not have, else 0.
    pub number: u64,
    /// What `number` is: 0 for that of its event, 1 if perf wrote the frame for itself, 2 for an
    /// unknown id, 3 if the frame is too short for an id.
    pub owner: u32,
}

impl Timed for FlatEntry {
    ghost time_and_place = { entries.time_and_place };

    #[inline]
    fn time_and_place(&self) -> (u64, u64) {
        (self.time, self.at)
    }
}

// The owner of a frame, and its number, as numbers.
fn owner_code(owner: Owner) -> (u32, u64)
    ensures kind { result.0 ≡ entries.owner_kind owner }
    ensures number { result.1 ≡ entries.owner_number owner }
{
    match owner {
        Owner::Event(number) => (0, number as u64),
        Owner::Perf => (1, 0),
        Owner::Unknown(id) => (2, id),
        Owner::Short => (3, 0),
    }
}

// Whether records of an event other than SAMPLE end with a sample id.
fn has_ids(event: &FlatEvent) -> bool
    ensures { result ≡ entries.has_ids event.now }
{
    match event.config.config() {
        Some(config) => config.sample_id_all(),
        None => false,
    }
}

// Whether those of the first event do.
fn first_has_ids(all: &[FlatEvent]) -> bool
    ensures { result ≡ entries.first_has_ids all.now }
{
    match all.first() {
        Some(event) => has_ids(event),
        None => false,
    }
}

// When what was found happened, as a frame of an event.
fn time_by(event: &FlatEvent, frame: &Result<Frame<'_, '_>, BadFrame>) -> u64
    ensures { result ≡ entries.time_by (Some event.now) (sight_of frame.now) }
{
    match event.config.config() {
        Some(config) => time_in(&config, frame),
        None => 0,
    }
}

// The event with a number, if there is one.
pub(crate) fn event_at(all: &[FlatEvent], number: usize) -> Option<&FlatEvent>
    ensures { MatchOption result (length all.now ≤ number) (λ e. (number < length all.now)
        × (e.now ≡ slice_index_or all.now number e.now)) }
{
    all.get(number)
}

// When what was found happened, as a frame of the event with a number.
fn time_at(all: &[FlatEvent], number: usize, frame: &Result<Frame<'_, '_>, BadFrame>) -> u64
    ensures { result ≡ entries.time_by (entries.event_at all.now number) (sight_of frame.now) }
{
    match event_at(all, number) {
        Some(event) => time_by(event, frame),
        None => 0,
    }
}

// When what was found happened, by its owner.
fn time_of(all: &[FlatEvent], owner: Owner, frame: &Result<Frame<'_, '_>, BadFrame>) -> u64
    ensures { result ≡ entries.time_of all.now owner (sight_of frame.now) }
{
    match owner {
        Owner::Event(number) => time_at(all, number, frame),
        Owner::Perf | Owner::Unknown(_) | Owner::Short => 0,
    }
}

/// The frames of a file, if they are in it.
pub fn frames_of<'p>(file: &FlatFile, bytes: &'p [u8]) -> Option<&'p [u8]>
    ensures { option_map (λ b. b.now) result ≡ entries.frames_of file.now bytes.now }
{
    let left = (bytes.len() as u64).checked_sub(file.frames.start)?;
    if left < file.frames.size {
        return None;
    }
    let (start, size) = (file.frames.start as usize, file.frames.size as usize);
    Some(bytes.split_at(start).1.split_at(size).0)
}

/// What is left of frames from an offset of the file on, where they begin at `start`.
pub fn left_from(frames: &[u8], start: u64, at: u64) -> &[u8]
    ensures { result.now ≡ drop (at - start) frames.now }
{
    let offset = at.saturating_sub(start);
    if offset < frames.len() as u64 {
        frames.split_at(offset as usize).1
    } else {
        &[]
    }
}

// How a call ends before these bytes, which are fewer than a header has.
fn end_before(left: &[u8]) -> u32
    ensures { length left.now < 8 → result ≡ entries.next_end left.now }
{
    if left.is_empty() { DONE } else { CUT_HEADER }
}

/// Writes when the frame at the offset `at` of a file happened, where it is, and which event it
/// belongs to, to `entry`, moves `at` beyond it and its payload, and returns [`LIMIT`]. With `at` 0
/// it begins at the first frame.
///
/// At the end of the frames it returns [`DONE`], or [`CUT_HEADER`] if fewer bytes are left there
/// than a header has, and if `file` is not of these bytes [`NOT_READ`]; nothing is written then.
pub fn next_entry(
    file: &FlatFile,
    bytes: &[u8],
    all: &[FlatEvent],
    ids: &[IdOfEvent],
    at: &mut u64,
    entry: &mut FlatEntry,
) -> u32
    ensures { (o : Outline) (f : File) → form_outline bytes.now ≡ Ok o → opened bytes.now ≡ Ok f →
        file.now ≡ flat_file o → AreRead bytes.now f all.now ids.now →
        entries.ReadsNext f at.old result at.new entry.old entry.new }
{
    let Some(order) = order_by(file.order) else {
        return NOT_READ;
    };
    let Some(frames) = frames_of(file, bytes) else {
        return NOT_READ;
    };
    let left = left_from(frames, file.frames.start, *at);
    let finder = Finder {
        order,
        is_single: all.len() < 2,
        first_has_ids: first_has_ids(all),
        place: first_place(all),
        ids,
    };
    match first_in(order, left) {
        Some((frame, after)) => {
            let owner = finder.owner_of_found(&frame);
            let (kind, number) = owner_code(owner);
            *entry = FlatEntry {
                time: time_of(all, owner, &frame),
                at: file.frames.start + (frames.len() - left.len()) as u64,
                number,
                owner: kind,
            };
            *at = file.frames.start + (frames.len() - after.len()) as u64;
            LIMIT
        }
        None => end_before(left),
    }
}
