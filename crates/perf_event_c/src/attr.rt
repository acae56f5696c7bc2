//! The attribute of an event.

ghost use Rattle.std.specs.Prelude.{◌≡◌, ◌≤◌, true, false, length};
ghost use Rattle.perf_base.specs.Attribute.{attribute};
ghost use Rattle.perf_base.specs.Layout.{layout};
ghost use Rattle.perf_flat.specs.FlatConfigs as plain;
ghost use Rattle.perf_outlines.specs.CallerConfigs as configs;
ghost use Rattle.perf_event_c.specs.Ends.{ReadsAttribute};

use perf_flat::attr::read_attr;
use perf_flat::config::FlatConfig;
use perf_flat::refusals::kind_code;
use perf_outlines::order::order_by;
use std::alloc::Global;

/// In place of the kind of a refusal: `order` is no byte order.
pub const NO_ORDER: u32 = 3;

/// Reads the attribute at the front of bytes, `struct perf_event_attr`: writes the configuration that
/// it gives to `config` and its size in bytes to `taken`, and returns 0.
///
/// If it is refused, it returns the kind of the refusal, and if `order` is no byte order
/// [`NO_ORDER`]; nothing is written then.
#[unsafe(no_mangle)]
pub extern "C" fn ped_read_attr(
    alloc: Global,
    bytes: &[u8],
    order: u32,
    config: &mut FlatConfig,
    taken: &mut usize,
) -> u32
    ensures other { configs.is_order order ≡ false →
        (result ≡ NO_ORDER) × (config.new ≡ config.old) × (taken.new ≡ taken.old) }
    ensures attribute { configs.is_order order ≡ true →
        ReadsAttribute (plain.order_by order) (layout (configs.order_numbered order) attribute bytes.now)
        result config.old config.new taken.old taken.new }
    ensures inside { result ≡ 0 → taken.new ≤ length bytes.now }
{
    let Some(order) = order_by(order) else {
        return NO_ORDER;
    };
    match read_attr(alloc, bytes, order) {
        Ok((read, size)) => {
            *config = read;
            *taken = size;
            0
        }
        Err(refusal) => u32::from(kind_code(refusal.kind())),
    }
}
