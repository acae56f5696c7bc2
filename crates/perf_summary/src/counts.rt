//! What is counted of the frames of a file.

ghost use Rattle.std.specs.Prelude.{◌≡◌, IfOk, Some, min, max};
ghost use Rattle.perf_summary.specs.CountSteps as steps;

use crate::contents::Contents;
use std::alloc::{AllocError, Global};

/// What is counted of the frames of an event.
#[derive(Copy, Clone, Debug, PartialEq, Eq)]
pub struct EventCount {
    /// How many samples were read.
    pub samples: u64,
    /// The sum of their periods, modulo 2^64.
    pub period: u64,
    /// The least of their times, in nanoseconds of the clock of the recording. `None` if none of them
    /// has a time.
    pub first: Option<u64>,
    /// The greatest of their times.
    pub last: Option<u64>,
    /// How many records and samples were lost, as LOST and LOST_SAMPLES tell, modulo 2^64.
    pub lost: u64,
    /// How many frames were refused.
    pub refused: u64,
}

/// How many types have a count of their own: those below. perf's own end before it.
pub const TYPES: usize = 128;

/// What is counted of the frames of a file.
#[derive(Debug, Drop)]
pub struct Counts {
    /// How many frames there are.
    pub frames: u64,
    /// How many of them were refused.
    pub refused: u64,
    /// What is counted of each event, by its number.
    pub events: Vec<EventCount>,
    /// How many frames there are of each type, by its number.
    pub types: Vec<u64>,
    /// How many frames there are of other types.
    pub other_types: u64,
}

impl EventCount {
    /// The counts of no frames.
    pub const NONE: EventCount = EventCount {
        samples: 0,
        period: 0,
        first: None,
        last: None,
        lost: 0,
        refused: 0,
    };

    // Counts one more frame.
    fn add(&mut self, found: &Contents)
        ensures { self.new ≡ steps.with_frame self.old found.now }
    {
        self.add_sample(found.period, found.time);
        self.add_others(found.lost, found.is_refused);
    }

    // Counts one more sample, if there is a period.
    fn add_sample(&mut self, period: Option<u64>, time: u64)
        ensures { self.new ≡ steps.with_sample self.old period time }
    {
        match period {
            Some(period) => {
                self.samples = self.samples.wrapping_add(1);
                self.period = self.period.wrapping_add(period);
                self.first = least_of(self.first, time);
                self.last = greatest_of(self.last, time);
            }
            None => {}
        }
    }

    // Counts what was lost, and a refused frame.
    fn add_others(&mut self, lost: u64, is_refused: bool)
        ensures { self.new ≡ steps.with_others self.old lost is_refused }
    {
        self.lost = self.lost.wrapping_add(lost);
        self.refused = self.refused.wrapping_add(one_if(is_refused));
    }
}

// 1 if so.
fn one_if(is_so: bool) -> u64
    ensures { result ≡ steps.one_if is_so }
{
    if is_so { 1 } else { 0 }
}

// The lesser of a time and that before it, of those that are known.
fn least_of(before: Option<u64>, time: u64) -> Option<u64>
    ensures { result ≡ steps.joined min before time }
{
    if time == 0 {
        return before;
    }
    match before {
        Some(first) => Some(first.min(time)),
        None => Some(time),
    }
}

// The greater of a time and that before it, of those that are known.
fn greatest_of(before: Option<u64>, time: u64) -> Option<u64>
    ensures { result ≡ steps.joined max before time }
{
    if time == 0 {
        return before;
    }
    match before {
        Some(last) => Some(last.max(time)),
        None => Some(time),
    }
}

impl Counts {
    /// The counts of no frames of a file with so many events.
    pub(crate) fn new(alloc: Global, events: usize) -> Result<Counts, AllocError>
        ensures { IfOk result (steps.IsNew events) }
    {
        Ok(Counts {
            frames: 0,
            refused: 0,
            events: vec![in alloc; EventCount::NONE; events]?,
            types: vec![in alloc; 0; TYPES]?,
            other_types: 0,
        })
    }

    /// Counts one more frame.
    pub(crate) fn add(&mut self, found: &Contents)
        ensures { steps.AddsFrame found.now self.old self.new }
    {
        self.frames = self.frames.wrapping_add(1);
        self.refused = self.refused.wrapping_add(one_if(found.is_refused));
        add_to_event(&mut self.events, found);
        add_to_type(&mut self.types, found.type_);
        self.other_types = self.other_types.wrapping_add(one_if(found.type_ >= 128));
    }
}

// Counts one more frame of its event, if there is one.
fn add_to_event(events: &mut [EventCount], found: &Contents)
    ensures { steps.ChangesAt found.now.event (λ c. steps.with_frame c found.now) events.old events.new }
{
    match found.event {
        Some(number) if number < events.len() => events[number].add(found),
        _ => {}
    }
}

// Counts one more frame of a type, if that has a count of its own.
fn add_to_type(types: &mut [u64], ty: u32)
    ensures { steps.ChangesAt (Some ty) (λ n. steps.plus n 1) types.old types.new }
{
    let index = ty as usize;
    if index < types.len() {
        types[index] = types[index].wrapping_add(1);
    }
}
