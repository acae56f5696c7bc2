//! A frame in two pieces.

ghost use Rattle.std.specs.Prelude.{◌≡◌, true, false};
ghost use Rattle.perf_flat.specs.FlatConfigs.{is_valid};
ghost use Rattle.perf_outlines.specs.CallerConfigs as configs;
ghost use Rattle.perf_event_c.specs.Ends.{ReadsSplit};

use crate::ends::NOT_READ;
use perf_flat::config::FlatConfig;
use perf_flat::frame::FlatFrame;
use perf_flat::read::{SplitEnd, read_split};
use std::alloc::Global;

/// Writes the frame at the front of two pieces to `frame`, as if the second followed the first in
/// memory, and returns how that ended and in which bytes its spans count: 1 for `scratch`, to which a
/// frame is copied that has bytes of both pieces, 0 for the first piece that is not empty.
///
/// For a configuration that is not of this version it ends by [`NOT_READ`], and nothing is written.
#[unsafe(no_mangle)]
pub extern "C" fn ped_read_split(
    alloc: Global,
    config: &FlatConfig,
    first: &[u8],
    second: &[u8],
    scratch: &mut [u8],
    frame: &mut FlatFrame,
) -> SplitEnd
    ensures other { is_valid config.now ≡ false →
        (result ≡ record { how = NOT_READ; at = 0 }) × (frame.new ≡ frame.old)
        × (scratch.new ≡ scratch.old) }
    ensures frame { is_valid config.now ≡ true →
        ReadsSplit (configs.configuration_by config.now) (configs.order_of_config config.now)
        first.now second.now scratch.old scratch.new frame.old frame.new result }
{
    let Some(settings) = config.config() else {
        return SplitEnd {
            how: NOT_READ,
            at: 0,
        };
    };
    read_split(alloc, &settings, first, second, scratch, frame)
}
