//! Several frames at once.

ghost use Rattle.std.specs.Prelude.{◌≡◌, true, false};
ghost use Rattle.perf_flat.specs.FlatConfigs.{is_valid};
ghost use Rattle.perf_outlines.specs.CallerConfigs as configs;
ghost use Rattle.perf_event_c.specs.Ends.{ReadsMany};

use crate::ends::NOT_READ;
use perf_flat::config::FlatConfig;
use perf_flat::frame::FlatFrame;
use perf_flat::read::{Ended, read_many};
use std::alloc::Global;

/// Writes the first frames of bytes to `frames`, as many as there is room for, and returns how many
/// they are, how many bytes they have, and how that ended.
///
/// For a configuration that is not of this version it ends by [`NOT_READ`], and nothing is written.
#[unsafe(no_mangle)]
pub extern "C" fn ped_read_many(
    alloc: Global,
    config: &FlatConfig,
    bytes: &[u8],
    frames: &mut [FlatFrame],
) -> Ended
    ensures other { is_valid config.now ≡ false →
        (result ≡ record { count = 0; taken = 0; how = NOT_READ }) × (frames.new ≡ frames.old) }
    ensures frames { is_valid config.now ≡ true →
        ReadsMany (configs.configuration_by config.now) (configs.order_of_config config.now) bytes.now
        frames.old frames.new result }
{
    let Some(settings) = config.config() else {
        return Ended {
            count: 0,
            taken: 0,
            how: NOT_READ,
        };
    };
    read_many(alloc, &settings, bytes, frames)
}
