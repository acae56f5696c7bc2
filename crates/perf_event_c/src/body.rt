//! The record of a body alone.

ghost use Rattle.std.specs.Prelude.{◌≡◌, ◌<◌, ◌≤◌, true, false, length};
ghost use Rattle.perf_flat.specs.FlatBodies.{IsFlatBody, header_before};
ghost use Rattle.perf_flat.specs.FlatConfigs.{is_valid};
ghost use Rattle.perf_outlines.specs.CallerConfigs as configs;

use crate::ends::{LIMIT, LONG_BODY, NOT_READ};
use perf_flat::config::FlatConfig;
use perf_flat::frame::FlatFrame;
use perf_flat::read::read_body;
use std::alloc::Global;

/// Reads the record of a type from its body, after its header and its sample id were taken off,
/// writes it to `frame` and returns [`LIMIT`]. Spans count from eight bytes before the body.
///
/// For a body of more than 65,527 bytes it returns [`LONG_BODY`], and for a configuration that is not
/// of this version [`NOT_READ`]; nothing is written then.
#[unsafe(no_mangle)]
pub extern "C" fn ped_read_body(
    alloc: Global,
    config: &FlatConfig,
    type_: u32,
    misc: u16,
    body: &[u8],
    frame: &mut FlatFrame,
) -> u32
    ensures other { is_valid config.now ≡ false →
        (result ≡ NOT_READ) × (frame.new ≡ frame.old) }
    ensures long { is_valid config.now ≡ true → 65528 ≤ length body.now →
        (result ≡ LONG_BODY) × (frame.new ≡ frame.old) }
    ensures frame { is_valid config.now ≡ true → length body.now < 65528 →
        (result ≡ LIMIT) × IsFlatBody (configs.configuration_by config.now)
        (configs.order_of_config config.now) (header_before type_ misc body.now) body.now frame.new }
{
    let Some(settings) = config.config() else {
        return NOT_READ;
    };
    if read_body(alloc, &settings, type_, misc, body, frame) {
        LIMIT
    } else {
        LONG_BODY
    }
}
