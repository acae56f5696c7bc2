//! Which thread a frame is about.

ghost use Rattle.std.specs.Prelude.{◌≡◌, ◌<◌, List, ℕ, get_or};
ghost use Rattle.perf_base.specs.Configuration.{Configuration};
ghost use Rattle.perf_base.specs.Order.{Order};
ghost use Rattle.perf_flat.specs.Arrays.{low_u32};
ghost use Rattle.perf_flat.specs.Flat.{IsFlat};
ghost use Rattle.perf_summary.specs.Subjects as subjects;

use perf_base::sys::{PERF_RECORD_COMM, PERF_RECORD_EXIT, PERF_RECORD_FORK, PERF_RECORD_SAMPLE};
use perf_flat::frame::FlatFrame;

/// What a frame about a thread is.
#[derive(Clone, Copy, Debug, PartialEq, Eq)]
pub enum Kind {
    /// A sample, taken in it.
    Sample,
    /// The end of it.
    Exit,
    /// Its beginning, or a name of it.
    Other,
}

/// Which thread a frame is about.
#[derive(Clone, Copy, Debug, PartialEq, Eq)]
pub struct Subject {
    /// The process.
    pub pid: u32,
    /// The thread.
    pub tid: u32,
    /// What the frame is.
    pub kind: Kind,
}

/// Which thread a frame is about, by the flat frame that was read of its bytes: the one in which a sample
/// was taken, that of a COMM or EXIT, and the new one of a FORK. None if the frame is of another type, or
/// refused.
pub(crate) fn subject_in(frame: &FlatFrame) -> Option<Subject>
    ensures { (c : Configuration) (o : Order) (bytes : List ℕ) → IsFlat c o bytes frame.now →
        result ≡ subjects.subject_of c o bytes }
{
    if frame.read == PERF_RECORD_SAMPLE {
        return Some(Subject {
            pid: frame.pid,
            tid: frame.tid,
            kind: Kind::Sample,
        });
    }
    if frame.read == PERF_RECORD_COMM {
        return Some(subject_at(frame, 1, Kind::Other));
    }
    if frame.read == PERF_RECORD_EXIT {
        return Some(subject_at(frame, 2, Kind::Exit));
    }
    if frame.read == PERF_RECORD_FORK {
        return Some(subject_at(frame, 2, Kind::Other));
    }
    None
}

// The thread whose process is the first number of a frame, and whose id is at an index.
fn subject_at(frame: &FlatFrame, index: usize, kind: Kind) -> Subject
    requires { index < 24 }
    ensures { result ≡ subjects.subject_at frame.now.numbers index kind }
{
    Subject {
        pid: short_number(frame, 0),
        tid: short_number(frame, index),
        kind,
    }
}

// A number of a frame, of 32 bits.
fn short_number(frame: &FlatFrame, index: usize) -> u32
    requires { index < 24 }
    ensures { result ≡ low_u32 (get_or frame.now.numbers index 0) }
{
    (frame.numbers[index] % (1 << 32)) as u32
}
