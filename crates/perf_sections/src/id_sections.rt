//! Where the ids of each event are.

ghost use Rattle.std.specs.Prelude.{◌≡◌, ◌<◌, ◌≤◌, length, IfOk, All, OnOk};
ghost use Rattle.perf_sections.specs.Sections.{IsInside, IsSmall, ShareNothing};
ghost use Rattle.perf_sections.specs.Heads.{IsGoodHead};
ghost use Rattle.perf_sections.specs.IdSections as places;
ghost use Rattle.perf_sections.specs.Opens.{Gives};

use crate::apart::sections_are_apart;
use crate::error::{OpenError, Part};
use crate::head::{HEAD_SIZE, Head};
use crate::section::{Section, is_inside, section_at};
use std::alloc::{AllocError, Global};

// Refuses ids that are not whole numbers, or end beyond the file.
pub fn checked_ids(bytes: &[u8], index: usize, ids: Section) -> Result<Section, OpenError>
    ensures value { result ≡ places.checked_ids bytes.now index ids }
    ensures inside { IfOk result (IsInside bytes.now) }
{
    if ids.size % 8 != 0 {
        return Err(OpenError::BadIds(index));
    }
    if !is_inside(bytes, ids) {
        return Err(OpenError::PastEnd(Part::Ids(index)));
    }
    Ok(ids)
}

// Where the ids of an event are, by its number.
pub fn id_section_at(bytes: &[u8], head: Head, index: u64) -> Result<Section, OpenError>
    requires good { IsGoodHead bytes.now head }
    requires inside { index < places.entry_count head }
    ensures value { result ≡ places.id_section_at bytes.now head index }
    ensures inside { IfOk result (IsInside bytes.now) }
{
    let end = head.attributes.start + index * head.entry_size + head.entry_size;
    checked_ids(
        bytes,
        index as usize,
        section_at(head.order, bytes, end as usize - 16),
    )
}

/// Where the ids of each event are.
pub fn id_sections_of(alloc: Global, bytes: &[u8], head: Head) -> Result<Vec<Section>, OpenError>
    requires { IsGoodHead bytes.now head }
    ensures exact { Gives (λ v. v.items) result (places.id_sections_in bytes.now head) }
    ensures inside { IfOk result (λ v. All (IsInside bytes.now) v.items) }
{
    let mut found = Vec::new(alloc);
    let count = head.attributes.size / head.entry_size;
    for index in 0..count {
        let ids = id_section_at(bytes, head, index)?;
        found.push(ids)?;
    }
    Ok(found)
}

/// All parts of the file: the head, the attributes, the frames, and the ids of each event.
pub fn sections_of(alloc: Global, head: Head, ids: &[Section]) -> Result<Vec<Section>, AllocError>
    ensures { IfOk result (λ v. v.items ≡ places.sections_of head ids.now) }
{
    let mut sections = Vec::new(alloc);
    sections.push(Section {
        start: 0,
        size: HEAD_SIZE,
    })?;
    sections.push(head.attributes)?;
    sections.push(head.frames)?;
    for section in ids {
        sections.push(*section)?;
    }
    Ok(sections)
}

/// Refuses parts that share a byte.
pub fn check_apart(sections: Vec<Section>) -> Result<(), OpenError>
    requires { All IsSmall sections.items }
    ensures value { result ≡ places.checked_apart sections.items }
    ensures nothing { OnOk result (ShareNothing sections.items) }
{
    if sections_are_apart(sections) {
        Ok(())
    } else {
        Err(OpenError::Overlap)
    }
}
