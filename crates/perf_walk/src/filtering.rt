//! Which samples count.

ghost use Rattle.std.specs.Prelude.{◌≡◌, ◌<◌};
ghost use Rattle.perf_walk.specs.Filters as filters;

use crate::parts::has_bit;
use crate::sampling::Sample;
use perf_history::Name;
use perf_text::strip::Strip;

/// Which samples count: those for which all that it states holds. The default states nothing, so
/// all samples count.
#[derive(Clone, Copy, Debug)]
pub struct Filter<'a> {
    /// The name of the event, as it is printed. `None` for any.
    pub event: Option<&'a [u8]>,
    /// The processes. Empty for any.
    pub pids: &'a [u32],
    /// The names that threads have at the moment of the sample; `:TID` of one without a name, and
    /// `swapper` of thread 0. Empty for any.
    pub comms: &'a [&'a [u8]],
    /// The first time, in nanoseconds of the event's clock. As for perf, a sample of time 0 counts
    /// whatever the times are.
    pub first: u64,
    /// The last time, `None` for any. A sample without a time counts only if this is `None`.
    pub last: Option<u64>,
}

// The flags of fields, as bits of a sample type.
const TID: u32 = 1;

const TIME: u32 = 2;

impl Default for Filter<'_> {
    ghost is_default = { λ filter. filters.TakesAll filter };

    fn default() -> Self {
        Filter {
            event: None,
            pids: &[],
            comms: &[],
            first: 0,
            last: None,
        }
    }
}

impl<'a> Filter<'a> {
    /// Whether samples of an event with this name count, as far as it states an event.
    pub fn takes_event(&self, name: &[u8]) -> bool
        ensures { result ≡ filters.takes_event self.now name.now }
    {
        match self.event {
            Some(event) => event == name,
            None => true,
        }
    }

    /// Whether a sample counts, by its fields, `PERF_SAMPLE_*`, and the name of its thread at its
    /// moment. A sample without a thread counts only if neither processes nor names are stated.
    pub fn takes_sample(&self, fields: u64, sample: &Sample, name: Name<'_>) -> bool
        ensures { result ≡ filters.takes_sample self.now fields sample.now name.entry }
    {
        self.takes_numbers(fields, sample) && self.takes_comm(fields, name)
    }

    // Whether the process and the time of a sample count.
    pub(crate) fn takes_numbers(&self, fields: u64, sample: &Sample) -> bool
        ensures { result ≡ filters.takes_numbers self.now fields sample.now }
    {
        self.takes_pid(fields, sample) && self.takes_time(time_of(fields, sample))
    }

    // Whether the process of a sample counts.
    fn takes_pid(&self, fields: u64, sample: &Sample) -> bool
        ensures { result ≡ filters.takes_pid self.now fields sample.now }
    {
        self.pids.is_empty() || (has_bit(fields, TID) && self.pids.contains(&sample.pid))
    }

    // Whether a time counts.
    fn takes_time(&self, time: u64) -> bool
        ensures { result ≡ filters.takes_time self.now time }
    {
        time == 0 || (self.first <= time && is_by(self.last, time))
    }

    // Whether the name of a thread counts.
    fn takes_comm(&self, fields: u64, name: Name<'_>) -> bool
        ensures { result ≡ filters.takes_comm self.now fields name.entry }
    {
        self.comms.is_empty() || (has_bit(fields, TID) && has_name(self.comms, name))
    }
}

// The time of a sample; without one it is after all others.
fn time_of(fields: u64, sample: &Sample) -> u64
    ensures { result ≡ filters.time_of fields sample.now }
{
    if has_bit(fields, TIME) {
        sample.time
    } else {
        u64::MAX
    }
}

// Whether a time is not after the last one, if there is one.
fn is_by(last: Option<u64>, time: u64) -> bool
    ensures { result ≡ filters.is_by last time }
{
    match last {
        Some(last) => time <= last,
        None => true,
    }
}

// Whether the name of a thread is among some.
fn has_name(names: &[&[u8]], name: Name<'_>) -> bool
    ensures { result ≡ filters.is_among names.now (filters.thread_name name.entry) }
{
    match name {
        Name::Given(name) => is_among(names, name),
        Name::Number(tid) => has_number(names, tid),
        Name::Swapper => is_among(names, b"swapper"),
    }
}

// Whether a text is among some.
fn is_among(names: &[&[u8]], name: &[u8]) -> bool
    ensures { result ≡ filters.is_among names.now name.now }
{
    names.contains(&name)
}

// Whether the name of a thread that was given none is among some.
fn has_number(names: &[&[u8]], tid: u32) -> bool
    ensures { result ≡ filters.is_among names.now (filters.number_name tid) }
{
    let mut strip = Strip::new();
    strip.put_number(u64::from(tid));
    strip.put(":");
    is_among(names, strip.text().as_bytes())
}
