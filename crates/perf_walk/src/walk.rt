//! A walk through the frames of a recording.

ghost use Rattle.std.specs.Prelude.{◌≡◌, List, [], OnErr, OnOk, option_map};
ghost use Rattle.std.specs.List.{cons_option};
ghost use Rattle.perf_history.specs.declared.changes.Change as changes;
ghost use Rattle.perf_walk.specs.Moments.{event_of};
ghost use Rattle.perf_walk.specs.Plain.{IsPast, plain};

use crate::changing::change_in;
use crate::filtering::Filter;
use crate::parts::first_frame;
use crate::sampling::Sample;
use perf_file::listing::left_at;
use perf_file::{Entry, Owner, Recording};
use perf_flat::frame::FlatFrame;
use perf_flat::read::read_into;
use perf_flat::refusals::blank_frame;
use perf_history::{Change, History, Mode, Name, Place};
use std::alloc::{AllocError, Global};

/// A walk through the frames of a recording, in any order: what is known of threads and memory is
/// known by the frames so far. In the order of time, which [`Recording::in_order`] returns, it is
/// what was so at each moment.
#[derive(Drop)]
pub struct Walk<'a, 'p> {
    recording: &'a Recording<'p>,
    history: History<'p>,
    frame: FlatFrame,
}

/// The frame that was found in a step.
#[derive(Clone, Copy, Debug)]
pub struct Found<'p> {
    /// Its bytes, from its header on: as many as the header states, or all that are left of the
    /// frames. The spans of the flat frame are places in them.
    pub bytes: &'p [u8],
    /// The number of its event, in the order of the file.
    pub event: usize,
}

// The number of an owner's event.
fn event_of(owner: Owner) -> usize
    ensures { result ≡ event_of owner }
{
    match owner {
        Owner::Event(number) => number,
        Owner::Perf | Owner::Unknown(_) | Owner::Short => 0,
    }
}

// Applies what a frame states, if it does. Out of memory what is known is as before.
fn apply<'p>(history: &mut History<'p>, change: Option<Change<'p>>) -> Result<(), AllocError>
    ensures ok { OnOk result ((older : List changes.Change) → IsPast history.old older →
        IsPast history.new (cons_option (option_map plain change.entry) older)) }
    ensures err { OnErr result ((older : List changes.Change) → IsPast history.old older →
        IsPast history.new older) }
{
    match change {
        Some(change) => history.apply(change),
        None => Ok(()),
    }
}

impl<'a, 'p> Walk<'a, 'p> {
    ghost use Rattle.perf_sections.specs.Opened.{File};
    ghost use Rattle.perf_file.specs.Views.{view};
    ghost use Rattle.perf_history.specs.Histories.{name_of, place_of};
    ghost use Rattle.perf_history.specs.declared.changes.Change.{Change};
    ghost use Rattle.perf_base.specs.Dynamic.{order_of};
    ghost use Rattle.perf_sample_types.specs.Sample.{SampleValue};
    ghost use Rattle.perf_walk.specs.Filters.{takes_at};
    ghost use Rattle.perf_walk.specs.Moments.{Moment};
    ghost use Rattle.perf_walk.specs.Plain.{plain_name, plain_place};
    ghost use Rattle.perf_walk.specs.Samples.{sample_of, sample_view};
    ghost use Rattle.perf_walk.specs.Steps.{IsFrameOf, Reads, Steps};
    ghost use Rattle.std.specs.Prelude.{Some};

    /// A walk before its first step. Nothing is known then.
    pub fn new(alloc: Global, recording: &'a Recording<'p>) -> Walk<'a, 'p>
        ensures recording { result.recording.now ≡ recording.now }
        ensures known { IsPast result.history [] }
    {
        Walk {
            recording,
            history: History::new(alloc),
            frame: blank_frame(),
        }
    }

    /// Goes on to the frame of an entry, and returns it. [`Walk::frame`] is the flat frame then, and
    /// [`Walk::history`] knows what the frame states. `None` if the frame belongs to no event of the
    /// file, as perf's own do, or if the entry is of another file.
    ///
    /// Out of memory what is known is as before.
    pub fn step(&mut self, entry: &Entry) -> Result<Option<Found<'p>>, AllocError>
        ensures steps { (older : List Change) → IsPast self.old.history older →
            Steps (view self.old.recording.now) entry.now older result self.new }
        ensures recording { self.new.recording.now ≡ self.old.recording.now }
    {
        let Some(bytes) = self.read(entry) else {
            return Ok(None);
        };
        let change = change_in(bytes, &self.frame);
        apply(&mut self.history, change)?;
        Ok(Some(Found {
            bytes,
            event: event_of(entry.owner),
        }))
    }

    // Reads the frame of an entry.
    fn read(&mut self, entry: &Entry) -> Option<&'p [u8]>
        ensures found { Reads (view self.old.recording.now) entry.now result self.new.frame }
        ensures history { self.new.history ≡ self.old.history }
        ensures recording { self.new.recording.now ≡ self.old.recording.now }
    {
        let recording = self.recording;
        let config = recording.config(entry.owner)?;
        let bytes = left_at(recording, entry.at)?;
        read_into(config, bytes, &mut self.frame);
        Some(first_frame(bytes, self.frame.size))
    }

    /// The recording.
    pub fn recording(&self) -> &'a Recording<'p>
        ensures { result.now ≡ self.now.recording.now }
    {
        self.recording
    }

    /// The frame of the last step that found one, as plain numbers.
    pub fn frame(&self) -> &FlatFrame
        ensures { result.now ≡ self.now.frame }
    {
        &self.frame
    }

    /// What is known by then.
    pub fn history(&self) -> &History<'p>
        ensures { result.now ≡ self.now.history }
    {
        &self.history
    }

    /// The name of a thread by then.
    #[tactic(auto, using(crate::proofs::PlainNames::name_plain))]
    pub fn comm(&self, tid: u32) -> Name<'p>
        ensures { (known : List Change) → IsPast self.now.history known →
            plain_name result ≡ name_of known tid }
    {
        self.history.comm(tid)
    }

    /// What is mapped by then at an address at which a process runs code in this mode.
    #[tactic(auto, using(crate::proofs::PlainNames::place_plain))]
    pub fn place(&self, pid: u32, mode: Mode, address: u64) -> Option<Place<'p>>
        ensures { (known : List Change) → IsPast self.now.history known →
            option_map plain_place result ≡ place_of known pid mode address }
    {
        self.history.place(pid, mode, address)
    }
    /// Whether a filter takes the sample of the frame that was found last, by what is known then,
    /// whatever the event of the frame is.
    pub fn takes(&self, filter: &Filter<'_>, sample: &Sample) -> bool
        ensures { (f : File) (m : Moment) (s : SampleValue) (found : Found) →
            IsFrameOf f m found self.now.frame → IsPast self.now.history m.known →
            sample_of m.config (order_of f.order) m.frame ≡ Some s →
            sample.now ≡ sample_view self.now.frame.misc s →
            result ≡ takes_at filter.now m self.now.frame.misc s }
    {
        let fields = self.frame.present;
        if filter.comms.is_empty() {
            filter.takes_numbers(fields, sample)
        } else {
            filter.takes_sample(fields, sample, self.comm(sample.tid))
        }
    }
}
