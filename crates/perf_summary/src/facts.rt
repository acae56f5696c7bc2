//! What a frame states about a thread.

ghost use Rattle.std.specs.Prelude.{◌≡◌, option_map};
ghost use Rattle.perf_file.specs.Views.{view};
ghost use Rattle.perf_walk.specs.Moments.{Moment};
ghost use Rattle.perf_walk.specs.Plain.{IsPast};
ghost use Rattle.perf_walk.specs.Steps.{IsFrameOf};
ghost use Rattle.perf_walk.specs.declared.walk.Found as founds;
ghost use Rattle.perf_summary.specs.Facts as facts;

use crate::subjects::{Kind, subject_in};
use crate::threads::ThreadId;
use perf_file::Entry;
use perf_history::Name;
use perf_walk::Walk;

/// What a frame states about a thread.
#[derive(Clone, Copy, Debug)]
pub struct Fact<'p> {
    /// Which thread.
    pub who: ThreadId,
    /// What the frame is.
    pub kind: Kind,
    /// When, 0 if that is not known.
    pub time: u64,
    /// The name of the thread by then.
    pub name: Name<'p>,
}

/// What the frame of an entry, which a walk has found, states about a thread, if it is about one.
pub(crate) fn fact_of<'p>(walk: &Walk<'_, 'p>, entry: &Entry) -> Option<Fact<'p>>
    ensures { (m : Moment) (found : founds.Found) →
        IsFrameOf (view walk.now.recording.now) m found walk.now.frame →
        IsPast walk.now.history m.known →
        option_map facts.plain_fact result ≡ facts.fact_of (view walk.now.recording.now) entry.now m }
{
    let frame = walk.frame();
    match subject_in(frame) {
        Some(subject) => Some(Fact {
            who: (subject.pid, subject.tid),
            kind: subject.kind,
            time: entry.time,
            name: walk.comm(subject.tid),
        }),
        None => None,
    }
}
