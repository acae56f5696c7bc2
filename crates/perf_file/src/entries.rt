//! When frames happened, and their order.

ghost use Rattle.std.specs.Prelude.{◌≡◌, ◌<◌, ◌≤◌, ℕ, Some, IfOk, IfSome, MatchOption, length, option_map, slice_index_or};
ghost use Rattle.std.specs.List.Sorted.{IsPermutation, IsSortedByKey};
ghost use Rattle.perf_base.specs.Configured.{configuration_of, endian_of};
ghost use Rattle.perf_base.specs.Dynamic.{order_of};
ghost use Rattle.perf_buffers.specs.Prelude.{chunk_bytes};
ghost use Rattle.perf_records.specs.FrameNumbers.{time_in};
ghost use Rattle.perf_records.specs.Sights.{sight_of};
ghost use Rattle.perf_file.specs.Entries as entries;
ghost use Rattle.perf_file.specs.Pieces.{piece_of};
ghost use Rattle.perf_file.specs.Views.{view};

use crate::listing::FileFrame;
use crate::opening::Recording;
use crate::owning::Owner;
use perf_base::endian::Dynamic;
use perf_base::{Endian, ParseConfig};
use perf_records::frame::Frame;
use perf_records::frame_handler::BadFrame;
use perf_sections::events::Event;
use std::alloc::{AllocError, Global};
use std::cmp::Ordering;

/// When a frame happened, where it is, and which event it belongs to.
#[derive(Copy, Clone, Debug)]
pub struct Entry {
    /// In nanoseconds of the clock of the recording, 0 for a frame without a time.
    pub time: u64,
    /// The offset in the file at which its header begins.
    pub at: usize,
    /// Which event it belongs to.
    pub owner: Owner,
}

/// What happened at a time, and has a place in a file.
pub trait Timed {
    ghost time_and_place: { Self → ℕ × ℕ };

    /// Its time, and the offset of its place.
    fn time_and_place(&self) -> (u64, u64)
        ensures { result ≡ time_and_place self.now };
}

// When a frame happened, under a configuration: 0 if it does not contain a time, or all ones.
#[inline]
fn time_under<E: Endian>(frame: &Frame<'_, '_>, config: &ParseConfig<E>) -> u64
    ensures { result ≡ entries.known_time (time_in (configuration_of config.now)
        (E.order (endian_of config.now)) frame.now.header (chunk_bytes frame.now.rest)) }
{
    match frame.time(config) {
        Some(u64::MAX) => 0,
        Some(time) => time,
        None => 0,
    }
}

/// When what was found happened, under a configuration: 0 if no whole frame is there.
#[inline]
pub fn time_in(config: &ParseConfig<Dynamic>, frame: &Result<Frame<'_, '_>, BadFrame>) -> u64
    ensures { result ≡ entries.time_under (Some (configuration_of config.now))
        (order_of (endian_of config.now)) (sight_of frame.now) }
{
    match frame {
        Ok(frame) => time_under(frame, config),
        Err(_) => 0,
    }
}

// When a frame of a file happened.
#[inline]
fn time_of(recording: &Recording<'_>, found: &FileFrame<'_>) -> u64
    ensures { result ≡ entries.time_of (view recording.now) (piece_of found.now) }
{
    match recording.config(found.owner) {
        Some(config) => time_in(config, &found.frame),
        None => 0,
    }
}

// The event with a number, if there is one.
#[inline]
fn event_at<'a, 'p>(events: &'a [Event<'p>], number: usize) -> Option<&'a Event<'p>>
    ensures { MatchOption result (length events.now ≤ number) (λ e. (number < length events.now)
        × (e.now ≡ slice_index_or events.now number e.now)) }
{
    events.get(number)
}

// How the frames of the event with a number are read, if there is one.
#[inline]
fn config_at<'a>(recording: &'a Recording<'_>, number: usize) -> Option<&'a ParseConfig<Dynamic>>
    ensures value { option_map (λ c. configuration_of c.now) result ≡
        entries.config_at (view recording.now) number }
    ensures order { IfSome result (λ c. endian_of c.now ≡ (view recording.now).order) }
{
    match event_at(&recording.events, number) {
        Some(event) => Some(event.config()),
        None => None,
    }
}

// The entries of all frames, in the order of the file.
fn entries_of(recording: &Recording<'_>, alloc: Global) -> Result<Vec<Entry>, AllocError>
    ensures { IfOk result (λ v. v.items ≡ entries.entries_of (view recording.now)) }
{
    let mut entries = Vec::new(alloc);
    for found in recording.frames() {
        entries.push(Entry {
            time: time_of(recording, &found),
            at: found.at,
            owner: found.owner,
        })?;
    }
    Ok(entries)
}

impl Timed for Entry {
    ghost time_and_place = { entries.time_and_place };

    #[inline]
    fn time_and_place(&self) -> (u64, u64) {
        (self.time, self.at as u64)
    }
}

// A time and a place as one number, which has the time in its upper half.
#[inline]
fn number_of(moment: (u64, u64)) -> u128
    ensures { result ≡ entries.number_of moment }
{
    u128::from(moment.0) * 0x1_0000_0000_0000_0000 + u128::from(moment.1)
}

// How two frames compare: by time, and at equal times by place. One number is compared for both.
#[inline]
fn compare(first: (u64, u64), other: (u64, u64)) -> Ordering
    ensures { result ≡ entries.by_time_then_place first other }
{
    number_of(first).cmp(&number_of(other))
}

/// Sorts by time, and at equal times by place, in place.
pub fn sort_by_time<T: Timed>(list: &mut [T])
    ensures same { IsPermutation list.old list.new }
    ensures sorted { IsSortedByKey T.time_and_place entries.by_time_then_place list.new }
{
    list.sort_unstable_by(|first, other| compare(first.time_and_place(), other.time_and_place()));
}

// The same entries by time, and at equal times by place.
fn sorted(mut list: Vec<Entry>) -> Vec<Entry>
    ensures { entries.IsInOrder list.items result.items }
{
    sort_by_time(list.as_mut_slice());
    list
}

impl Recording<'_> {
    /// How the frames of an owner are read, if it is an event of this file. Pass it to
    /// [`Frame::record`] and its other calls.
    pub fn config(&self, owner: Owner) -> Option<&ParseConfig<Dynamic>>
        ensures value { option_map (λ c. configuration_of c.now) result ≡
            entries.config_of (view self.now) owner }
        ensures order { IfSome result (λ c. endian_of c.now ≡ (view self.now).order) }
    {
        match owner {
            Owner::Event(number) => config_at(self, number),
            Owner::Perf | Owner::Unknown(_) | Owner::Short => None,
        }
    }

    /// An entry for each frame, by time, and at equal times in the order of the file.
    /// [`Recording::frame_at`] returns the frame of an entry.
    ///
    /// The time is that of [`Frame::time`] under the configuration of its event. A frame without
    /// one, or with one of all ones, comes first, as at time 0: so do perf's own frames.
    pub fn in_order(&self, alloc: Global) -> Result<Vec<Entry>, AllocError>
        ensures { IfOk result (λ v.
            entries.IsInOrder (entries.entries_of (view self.now)) v.items) }
    {
        let entries = entries_of(self, alloc)?;
        Ok(sorted(entries))
    }
}
