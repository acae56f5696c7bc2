//! The attribute of an event, and the configuration that it gives.

ghost use Rattle.std.specs.Prelude.{◌≡◌, ◌≤◌, Ok, Err, IfOk, IfErr, length};
ghost use Rattle.perf_base.specs.Attribute.{attribute};
ghost use Rattle.perf_base.specs.Dynamic.{order_of};
ghost use Rattle.perf_base.specs.Layout.{layout};
ghost use Rattle.perf_base.specs.Refusals.{refusal_kind};
ghost use Rattle.perf_base.specs.declared.sys.perf_event_attr.{perf_event_attr};
ghost use Rattle.perf_flat.specs.FlatConfigs.{flat_config_of};

use crate::config::FlatConfig;
use perf_base::endian::{Dynamic, Native};
use perf_base::sys::perf_event_attr;
use perf_base::{ParseConfig, Refusal};
use perf_reader::read::ReadFrom;
use perf_reader::reader::Reader;
use std::alloc::Global;

/// The configuration that the attribute at the front of bytes gives, `struct perf_event_attr`, and
/// how many bytes the attribute takes: its size. No memory is needed.
///
/// The refusal is [`Refusal::AttributeSize`] for a size that no attribute has,
/// [`Refusal::AttributeTail`] if a byte after the known fields is not zero, and [`Refusal::Eof`] if
/// bytes are lacking.
pub fn read_attr(
    alloc: Global,
    bytes: &[u8],
    order: Dynamic,
) -> Result<(FlatConfig, usize), Refusal>
    ensures read { IfOk result (λ read. (a : perf_event_attr)
        × (layout (order_of order) attribute bytes.now ≡ Ok a)
        × (read.0 ≡ flat_config_of a order) × (read.1 ≡ a.size)
        × (read.1 ≤ length bytes.now)) }
    ensures refused { IfErr result (λ e.
        layout (order_of order) attribute bytes.now ≡ Err (refusal_kind e)) }
{
    let plain = ParseConfig::<Native>::default().with_endian(order);
    let mut reader = Reader::new(alloc, bytes, plain);
    match perf_event_attr::read(&mut reader) {
        Ok(attr) => Ok((FlatConfig::of(&attr, order), attr.size as usize)),
        Err(refusal) => Err(refusal),
    }
}
