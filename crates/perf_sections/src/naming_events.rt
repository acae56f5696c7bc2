//! The names of a file's events are found.

ghost use Rattle.std.specs.Prelude.{◌≡◌, ◌<◌, ℕ, IfOk, All, Contains, length, slice_index_or};
ghost use Rattle.perf_base.specs.Dynamic.{order_of};
ghost use Rattle.perf_base.specs.declared.sys.perf_event_attr.{perf_event_attr};
ghost use Rattle.perf_sections.specs.Descriptions.{first_name, descriptions_in};
ghost use Rattle.perf_sections.specs.NamePlaces as places;
ghost use Rattle.perf_sections.specs.Names as names;
ghost use Rattle.perf_sections.specs.Opened as opens;
ghost use Rattle.perf_sections.specs.Sections.{IsInside};
ghost use Rattle.perf_sections.specs.declared.section.Section.{Section};

use crate::descriptions::EventKey;
use crate::name_places::{NamePlace, find_names, key_at, place_of, unnamed};
use crate::naming::{EventName, name_or};
use crate::section::Section;
use perf_base::endian::Dynamic;
use perf_base::sys::perf_event_attr;
use std::alloc::{AllocError, Global};

// The key of the event of an attribute and of the section of its ids.
fn key_of(order: Dynamic, bytes: &[u8], attr: &perf_event_attr, section: Section) -> EventKey
    requires { IsInside bytes.now section }
    ensures value { result ≡ names.key_of
        (opens.event_in (order_of order) bytes.now (attr.now, section)) }
    ensures fits { places.Fits result }
{
    let count = section.size / 8;
    key_at(order, bytes, attr.type_, attr.config, section.start, count)
}

// The keys of all events, whose names were not found.
fn keys_of(
    alloc: Global,
    order: Dynamic,
    bytes: &[u8],
    attributes: &[perf_event_attr],
    sections: &[Section],
) -> Result<Vec<NamePlace>, AllocError>
    requires inside { All (IsInside bytes.now) sections.now }
    requires same { length attributes.now ≡ length sections.now }
    ensures none { IfOk result (λ v. All places.IsUnnamed v.items) }
    ensures keys { IfOk result (λ v. (index : ℕ) (a : perf_event_attr) (s : Section) →
        index < length sections.now → Contains v.items (places.unnamed (names.key_of
        (opens.event_in (order_of order) bytes.now (
          slice_index_or attributes.now index a,
          slice_index_or sections.now index s,
        ))))) }
{
    let mut found = Vec::new(alloc);
    for index in 0..sections.len() {
        found.push(unnamed(key_of(order, bytes, &attributes[index], sections[index])))?;
    }
    Ok(found)
}

/// Where the names of all events are among the descriptions.
pub fn names_of(
    alloc: Global,
    order: Dynamic,
    bytes: &[u8],
    descriptions: &[u8],
    attributes: &[perf_event_attr],
    sections: &[Section],
) -> Result<Vec<NamePlace>, AllocError>
    requires inside { All (IsInside bytes.now) sections.now }
    requires same { length attributes.now ≡ length sections.now }
    ensures sorted { IfOk result (λ v. places.Rises v.items) }
    ensures named { IfOk result (λ v. places.AreNamed descriptions.now v.items
        (λ key. first_name key (descriptions_in (order_of order) descriptions.now))) }
    ensures kept { IfOk result (λ v. (index : ℕ) (a : perf_event_attr) (s : Section) →
        index < length sections.now → places.HasRank v.items (places.rank_of (names.key_of
        (opens.event_in (order_of order) bytes.now (
          slice_index_or attributes.now index a,
          slice_index_or sections.now index s,
        ))))) }
{
    let mut found = keys_of(alloc, order, bytes, attributes, sections)?;
    find_names(order, descriptions, &mut found);
    Ok(found)
}

/// The name of the event of an attribute and of the section of its ids, by where the names are among
/// the descriptions.
pub fn name_with<'p>(
    order: Dynamic,
    bytes: &[u8],
    descriptions: &'p [u8],
    found: &[NamePlace],
    attr: &perf_event_attr,
    section: Section,
) -> EventName<'p>
    requires inside { IsInside bytes.now section }
    requires sorted { places.Rises found.now }
    requires named { places.AreNamed descriptions.now found.now
        (λ key. first_name key (descriptions_in (order_of order) descriptions.now)) }
    requires kept { places.HasRank found.now (places.rank_of (names.key_of
        (opens.event_in (order_of order) bytes.now (attr.now, section)))) }
    ensures { names.name_view result ≡ names.name_of order descriptions.now
        (opens.event_in (order_of order) bytes.now (attr.now, section)) }
{
    let key = key_of(order, bytes, attr, section);
    let place = match place_of(found, key) {
        Some(place) => place,
        None => unnamed(key).name,
    };
    name_or(descriptions, place, key.type_, key.config)
}
