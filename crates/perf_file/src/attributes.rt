//! The attribute of each event.

ghost use Rattle.std.specs.Prelude.{◌≡◌, ◌<◌, Ok, Err, MatchResult};
ghost use Rattle.perf_base.specs.Attribute.{attribute};
ghost use Rattle.perf_base.specs.Dynamic.{order_of};
ghost use Rattle.perf_base.specs.Layout.{layout};
ghost use Rattle.perf_base.specs.Refusals.{refusal_kind};
ghost use Rattle.perf_sections.specs.Attributes as attributes;
ghost use Rattle.perf_sections.specs.Heads.{IsGoodHead};
ghost use Rattle.perf_sections.specs.IdSections.{entry_count};
ghost use Rattle.perf_sections.specs.Opens.{Gives};

use perf_base::endian::{Dynamic, Native};
use perf_base::sys::perf_event_attr;
use perf_base::{ErrorKind, ParseConfig, Refusal};
use perf_reader::read::ReadFrom;
use perf_reader::reader::Reader;
use perf_sections::error::OpenError;
use perf_sections::head::Head;
use perf_sections::number::bytes_at;
use std::alloc::Global;

// The attribute at the front of bytes.
fn read_attribute(alloc: Global, bytes: &[u8], order: Dynamic) -> Result<perf_event_attr, Refusal>
    ensures { MatchResult result
        (λ a. layout (order_of order) attribute bytes.now ≡ Ok a)
        (λ e. layout (order_of order) attribute bytes.now ≡ Err (refusal_kind e)) }
{
    let plain = ParseConfig::<Native>::default().with_endian(order);
    let mut reader = Reader::new(alloc, bytes, plain);
    match perf_event_attr::read(&mut reader) {
        Ok(attr) => Ok(attr),
        Err(refusal) => Err(refusal),
    }
}

// The attribute with its single bits counted from the lowest.
fn turned(order: Dynamic, mut attr: perf_event_attr) -> perf_event_attr
    ensures { result ≡ attributes.turned order attr }
{
    if order == Dynamic::Big {
        attr.flags = attr.flags.reverse_bits();
    }
    attr
}

// The attribute that takes exactly these bytes.
pub(crate) fn attribute_in(
    alloc: Global,
    bytes: &[u8],
    order: Dynamic,
) -> Result<perf_event_attr, ErrorKind>
    ensures { result ≡ attributes.attribute_in order bytes.now }
{
    match read_attribute(alloc, bytes, order) {
        Ok(attr) => {
            if attr.size as usize == bytes.len() {
                Ok(turned(order, attr))
            } else {
                Err(ErrorKind::InvalidRecord)
            }
        }
        Err(refusal) => Err(refusal.kind()),
    }
}

// The attribute of the event with that number.
pub fn attribute_at(
    alloc: Global,
    bytes: &[u8],
    head: Head,
    index: u64,
) -> Result<perf_event_attr, OpenError>
    requires good { IsGoodHead bytes.now head }
    requires inside { index < entry_count head }
    ensures { result ≡ attributes.attribute_at bytes.now head index }
{
    let at = head.attributes.start + index * head.entry_size;
    let entry = bytes_at(bytes, at as usize, head.entry_size as usize - 16);
    match attribute_in(alloc, entry, head.order) {
        Ok(attr) => Ok(attr),
        Err(kind) => Err(OpenError::BadAttribute(index as usize, kind)),
    }
}

/// The attribute of each event.
pub fn attributes_of(
    alloc: Global,
    bytes: &[u8],
    head: Head,
) -> Result<Vec<perf_event_attr>, OpenError>
    requires { IsGoodHead bytes.now head }
    ensures { Gives (λ v. v.items) result (attributes.attributes_in bytes.now head) }
{
    let mut found = Vec::new(alloc);
    let count = head.attributes.size / head.entry_size;
    for index in 0..count {
        let attr = attribute_at(alloc, bytes, head, index)?;
        found.push(attr)?;
    }
    Ok(found)
}
