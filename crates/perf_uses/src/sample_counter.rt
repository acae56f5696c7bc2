//! A buffered reader, whose frames are handed to a handler.

ghost use Rattle.std.specs.Prelude.{◌≡◌, ◌+◌, ◌%◌, ◌^◌, true};
ghost use Rattle.perf_records.specs.Sights.{sight_of};
ghost use Rattle.perf_uses.specs.Sampling.{one_if_sample};

use crate::with_attribute::open_recording;
use perf_event_data::endian::Endian;
use perf_event_data::parse::ParseConfig;
use perf_event_data::sys::PERF_RECORD_SAMPLE;
use perf_event_data::{BadFrame, Frame, FrameHandler, RunEnd, each_frame};
use std::alloc::Global;
use std::io::{BufReader, Read};

/// Counts the samples of a run.
#[derive(Copy, Clone, Default)]
pub struct SampleCounter {
    /// How many samples it was handed, modulo 2^64.
    pub count: u64,
}

// 1 for a sample, and 0 for another frame or a header that no whole frame follows.
fn count_of(frame: &Result<Frame<'_, '_>, BadFrame>) -> u64
    ensures { result ≡ one_if_sample (sight_of frame.now) }
{
    match frame {
        Ok(frame) if frame.header().type_ == PERF_RECORD_SAMPLE => 1,
        _ => 0,
    }
}

impl<'p, E: Endian> FrameHandler<'p, E> for SampleCounter {
    // what it becomes by each frame, and that the run goes on
    ghost gets = { λ old _ _ sight go new.
        (new.count ≡ (old.count + one_if_sample sight) % 2 ^ 64) × (go ≡ true) };

    fn frame(&mut self, _config: &ParseConfig<E>, frame: Result<Frame<'_, 'p>, BadFrame>) -> bool {
        self.count = self.count.wrapping_add(count_of(&frame));
        true
    }
}

/// How many frames a recording has, and how many of them are samples.
pub fn count_samples<R: Read + Drop>(alloc: Global, recording: R) -> anyhow::Result<(usize, u64)> {
    let input = BufReader::new(alloc, recording)?;
    let mut parser = open_recording(alloc, input)?;
    let mut samples = SampleCounter::default();
    let run = each_frame(&mut parser, usize::MAX, &mut samples);
    match run.end {
        Some(RunEnd::Fault(error)) => Err(error.into()),
        _ => Ok((run.count, samples.count)),
    }
}
