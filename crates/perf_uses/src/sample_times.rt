//! The times of samples, from a slice.

ghost use Rattle.std.specs.Prelude.{◌≡◌, IfSome, Some};
ghost use Rattle.perf_base.specs.Order.{little};
ghost use Rattle.perf_buffers.specs.Prelude.{chunk_bytes};
ghost use Rattle.perf_records.specs.FrameNumbers.{time_in};
ghost use Rattle.perf_records.specs.Prelude.{configuration_of};

use perf_event_data::endian::Little;
use perf_event_data::parse::ParseConfig;
use perf_event_data::{Frame, RecordType, frames};
use std::alloc::{AllocError, Global};

// When a sample was taken, or `None` for another frame.
fn time_of_sample(config: &ParseConfig<Little>, frame: &Frame<'_, '_>) -> Option<u64>
    ensures { IfSome result (λ time. (frame.now.header.type_ ≡ 9)
        × (time_in (configuration_of config.now) little frame.now.header
        (chunk_bytes frame.now.rest) ≡ Some time)) }
{
    if frame.kind() != Some(RecordType::Sample) {
        return None;
    }
    frame.time(config)
}

/// When each sample of these records was taken, in the order of the records.
pub fn sample_times(
    alloc: Global,
    config: &ParseConfig<Little>,
    records: &[u8],
) -> Result<Vec<u64>, AllocError> {
    let mut times = Vec::new(alloc);
    for frame in frames(records, Little) {
        let Ok(frame) = frame else { continue };
        if let Some(time) = time_of_sample(config, &frame) {
            times.push(time)?;
        }
    }
    Ok(times)
}
