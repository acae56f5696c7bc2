//! The frame at the front of bytes.

ghost use Rattle.std.specs.Prelude.{◌≡◌, ◌<◌, ◌≤◌, true, false, length};
ghost use Rattle.perf_flat.specs.FlatConfigs.{is_valid};
ghost use Rattle.perf_event_c.specs.Ends.{StatesFirst};

use crate::ends::{CUT_HEADER, DONE, LIMIT, NOT_READ};
use perf_flat::config::FlatConfig;
use perf_flat::frame::FlatFrame;
use perf_flat::read::read_into;
use std::alloc::Global;

/// Writes the frame at the front of bytes to `frame` and returns [`LIMIT`]. A refused frame has its
/// header and the reason.
///
/// If there is no whole header, it returns [`DONE`] or [`CUT_HEADER`], and for a configuration that is
/// not of this version [`NOT_READ`]; nothing is written then.
#[unsafe(no_mangle)]
pub extern "C" fn ped_read(
    _alloc: Global,
    config: &FlatConfig,
    bytes: &[u8],
    frame: &mut FlatFrame,
) -> u32
    ensures other { is_valid config.now ≡ false →
        (result ≡ NOT_READ) × (frame.new ≡ frame.old) }
    ensures done { is_valid config.now ≡ true → length bytes.now ≡ 0 →
        (result ≡ DONE) × (frame.new ≡ frame.old) }
    ensures cut { is_valid config.now ≡ true → 0 < length bytes.now → length bytes.now < 8 →
        (result ≡ CUT_HEADER) × (frame.new ≡ frame.old) }
    ensures frame { is_valid config.now ≡ true → 8 ≤ length bytes.now →
        (result ≡ LIMIT) × StatesFirst config.now bytes.now frame.new }
{
    let Some(settings) = config.config() else {
        return NOT_READ;
    };
    if read_into(&settings, bytes, frame) {
        LIMIT
    } else if bytes.is_empty() {
        DONE
    } else {
        CUT_HEADER
    }
}
