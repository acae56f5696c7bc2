//! The event of a frame, before its configuration is known.

ghost use Rattle.std.specs.Prelude.{◌≡◌, ◌<◌, true, false};
ghost use Rattle.perf_base.specs.Header.{header_of};
ghost use Rattle.perf_records.specs.FrameNumbers.{IsIdentifierRead};
ghost use Rattle.perf_flat.specs.Identifiers as place;
ghost use Rattle.perf_outlines.specs.CallerConfigs as configs;
ghost use Rattle.perf_event_c.specs.Ends as ends;

use perf_flat::read::identifier;
use perf_outlines::order::order_by;

/// Writes the kernel's own number of the event that wrote the frame at the front of bytes to `id`,
/// and returns 1. It is for use before the configuration of the frame is known, if all events have
/// `PERF_SAMPLE_IDENTIFIER`; `sample_id_all` is not 0 if they have that too.
///
/// If the frame has no such number, or `order` is none, it returns 0 and nothing is written.
#[unsafe(no_mangle)]
pub extern "C" fn ped_identifier(bytes: &[u8], order: u32, sample_id_all: u32, id: &mut u64) -> u32
    ensures flag { result < 2 }
    ensures same { result ≡ 0 → id.new ≡ id.old }
    ensures other { configs.is_order order ≡ false → result ≡ 0 }
    ensures place { configs.is_order order ≡ true → ends.written result id.new ≡
        place.first_identifier (configs.order_numbered order) (ends.is_yes sample_id_all) bytes.now }
    ensures read { let o = configs.order_numbered order in configs.is_order order ≡ true →
        place.has_whole o bytes.now ≡ true →
        place.carries_identifier (ends.is_yes sample_id_all) (header_of o bytes.now).type_ ≡ true →
        IsIdentifierRead o (header_of o bytes.now) (place.first_rest o bytes.now)
        (ends.written result id.new) }
{
    let Some(order) = order_by(order) else {
        return 0;
    };
    match identifier(bytes, &order, sample_id_all > 0) {
        Some(number) => {
            *id = number;
            1
        }
        None => 0,
    }
}
