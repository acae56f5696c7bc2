//! The sample that a frame contains.

ghost use Rattle.std.specs.Prelude.{◌≡◌, List, ℕ, option_map};
ghost use Rattle.perf_base.specs.Configuration.{Configuration};
ghost use Rattle.perf_base.specs.Order.{Order};
ghost use Rattle.perf_flat.specs.Flat.{IsFlat};
ghost use Rattle.perf_walk.specs.Samples as samples;

use crate::parts::number;
use perf_base::sys::PERF_RECORD_SAMPLE;
use perf_flat::frame::FlatFrame;
use perf_history::Mode;

/// A sample. What it does not have is 0; which fields it has, [`FlatFrame`] states as `present`.
#[derive(Clone, Copy, Debug, PartialEq, Eq)]
pub struct Sample {
    /// The process in which it was taken.
    pub pid: u32,
    /// The thread.
    pub tid: u32,
    /// When, in nanoseconds of the event's clock.
    pub time: u64,
    /// The processor.
    pub cpu: u32,
    /// How many events it counts for.
    pub period: u64,
    /// The address of the instruction.
    pub ip: u64,
    /// The mode in which that is.
    pub mode: Mode,
}

/// The sample that a frame contains, by the flat frame that was read of its bytes. None if the frame
/// is of another type, or refused.
pub fn sample_in(frame: &FlatFrame) -> Option<Sample>
    ensures { (c : Configuration) (o : Order) (bytes : List ℕ) → IsFlat c o bytes frame.now →
        result ≡ option_map (samples.sample_view frame.now.misc) (samples.sample_of c o bytes) }
{
    if frame.read != PERF_RECORD_SAMPLE {
        return None;
    }
    Some(Sample {
        pid: frame.pid,
        tid: frame.tid,
        time: frame.time,
        cpu: frame.cpu,
        period: number(frame, 2),
        ip: number(frame, 0),
        mode: Mode::of_misc(frame.misc),
    })
}
