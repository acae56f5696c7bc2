//! What each thread of a recording did.

ghost use Rattle.std.specs.Prelude.{◌≡◌, [], IfOk, List, OnOk, cond, map};
ghost use Rattle.std.specs.BTreeMap.{get, IsOrdered};
ghost use Rattle.perf_file.specs.Views.{view};
ghost use Rattle.perf_history.specs.declared.changes.Change.{Change};
ghost use Rattle.perf_walk.specs.Moments.{Moment, known_after};
ghost use Rattle.perf_walk.specs.Plain.{IsPast};
ghost use Rattle.perf_walk.specs.Steps.{IsFrameOf};
ghost use Rattle.perf_walk.specs.declared.walk.Found as founds;
ghost use Rattle.perf_summary.specs.Facts.{fact_of, fact_at, facts};
ghost use Rattle.perf_summary.specs.ThreadSteps as steps;
ghost use Rattle.perf_summary.specs.Threads as spec;

use crate::facts::{Fact, fact_of};
use crate::subjects::Kind;
use perf_file::{Entry, Recording};
use perf_history::Name;
use perf_walk::Walk;
use std::alloc::{AllocError, Global};
use std::collections::BTreeMap;

/// The ids of a thread: of its process, and its own.
pub type ThreadId = (u32, u32);

/// What a thread did in a recording, by the frames about it: its samples, and its COMM, FORK and EXIT.
#[derive(Clone, Copy, Debug)]
pub struct Thread<'p> {
    /// Its name by the last of these frames.
    pub name: Name<'p>,
    /// The time of the first of these frames that has one, in nanoseconds: that of its FORK, if it began
    /// while it was recorded.
    pub start: Option<u64>,
    /// The time of its EXIT, in nanoseconds. `None` if it did not end while it was recorded.
    pub end: Option<u64>,
    /// How many samples were taken in it.
    pub samples: u64,
}

// A thread before its first frame.
const NO_THREAD: Thread<'static> = Thread {
    name: Name::Swapper,
    start: None,
    end: None,
    samples: 0,
};

// A time, if it is known.
fn known(time: u64) -> Option<u64>
    ensures { result ≡ steps.known time }
{
    if time == 0 { None } else { Some(time) }
}

// The time of the end of a thread after a frame.
fn end_after(before: Option<u64>, fact: &Fact<'_>) -> Option<u64>
    ensures { result ≡ cond (spec.is_exit fact.now) (steps.or_last before fact.now.time) before }
{
    match fact.kind {
        Kind::Exit => known(fact.time).or(before),
        Kind::Sample | Kind::Other => before,
    }
}

// How many samples a frame is.
fn samples_in(kind: Kind) -> u64
    ensures { result ≡ cond (spec.is_sample_kind kind) 1 0 }
{
    match kind {
        Kind::Sample => 1,
        Kind::Exit | Kind::Other => 0,
    }
}

// A thread with one more frame.
fn grown<'p>(thread: &Thread<'_>, fact: &Fact<'p>) -> Thread<'p>
    ensures { result ≡ steps.grown thread.now fact.now }
{
    Thread {
        name: fact.name,
        start: thread.start.or(known(fact.time)),
        end: end_after(thread.end, fact),
        samples: thread.samples.wrapping_add(samples_in(fact.kind)),
    }
}

// A thread, or one before its first frame.
fn thread_or_none<'p>(threads: &BTreeMap<ThreadId, Thread<'p>>, who: ThreadId) -> Thread<'p>
    ensures { result ≡ steps.or_none (get spec.id_cmp threads.now who) }
{
    match threads.get(&who) {
        Some(thread) => *thread,
        None => NO_THREAD,
    }
}

// Adds a frame to threads.
fn add<'p>(threads: &mut BTreeMap<ThreadId, Thread<'p>>, fact: &Fact<'p>) -> Result<(), AllocError>
    ensures adds { OnOk result (steps.Adds fact.now threads.old threads.new) }
    ensures ordered { OnOk result (IsOrdered spec.id_cmp threads.new) }
{
    let before = thread_or_none(threads, fact.who);
    threads.insert(fact.who, grown(&before, fact))?;
    Ok(())
}

// Goes on to the frame of an entry, and adds it, if it is about a thread.
fn go_on<'p>(
    threads: &mut BTreeMap<ThreadId, Thread<'p>>,
    walk: &mut Walk<'_, 'p>,
    entry: &Entry,
) -> Result<(), AllocError>
    ensures gone { (known : List Change) → IsPast walk.old.history known →
        OnOk result (IsPast walk.new.history (known_after (view walk.old.recording.now) entry.now known)
        × steps.AddsPlain (fact_at (view walk.old.recording.now) entry.now known) threads.old threads.new) }
    ensures ordered { IsOrdered spec.id_cmp threads.old → OnOk result (IsOrdered spec.id_cmp threads.new) }
    ensures recording { walk.new.recording.now ≡ walk.old.recording.now }
{
    let found = walk.step(entry)?;
    match found {
        Some(_found) => add_found(threads, walk, entry),
        None => Ok(()),
    }
}

// Adds the frame of an entry that a walk has found, if it is about a thread.
fn add_found<'p>(
    threads: &mut BTreeMap<ThreadId, Thread<'p>>,
    walk: &Walk<'_, 'p>,
    entry: &Entry,
) -> Result<(), AllocError>
    ensures added { (m : Moment) (found : founds.Found) →
        IsFrameOf (view walk.now.recording.now) m found walk.now.frame →
        IsPast walk.now.history m.known →
        OnOk result (steps.AddsPlain (fact_of (view walk.now.recording.now) entry.now m)
        threads.old threads.new) }
    ensures ordered { IsOrdered spec.id_cmp threads.old → OnOk result (IsOrdered spec.id_cmp threads.new) }
{
    match fact_of(walk, entry) {
        Some(fact) => add(threads, &fact),
        None => Ok(()),
    }
}

/// What each thread of a recording did, by process and then by thread: each that a sample, COMM, FORK or
/// EXIT is about. A sample without ids counts for thread 0 of process 0.
pub fn threads_of<'p>(
    alloc: Global,
    recording: &Recording<'p>,
) -> Result<BTreeMap<ThreadId, Thread<'p>>, AllocError>
    ensures { IfOk result (λ threads. spec.AreThreadsOf (view recording.now)
        (spec.plain_threads threads.entries)) }
{
    let entries = recording.in_order(alloc)?;
    threads_in(alloc, recording, &entries)
}

// Those of which the frames of entries in turn state something.
fn threads_in<'p>(
    alloc: Global,
    recording: &Recording<'p>,
    entries: &[Entry],
) -> Result<BTreeMap<ThreadId, Thread<'p>>, AllocError>
    ensures { IfOk result (λ threads. spec.AreThreadsBy
        (facts (view recording.now) entries.now []) (spec.plain_threads threads.entries)) }
{
    let mut walk = Walk::new(alloc, recording);
    let mut threads = BTreeMap::new(alloc);
    for index in 0..entries.len() {
        go_on(&mut threads, &mut walk, &entries[index])?;
    }
    Ok(threads)
}
