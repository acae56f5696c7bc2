//! The parts of a file in memory of the caller's.

ghost use Rattle.std.specs.Prelude.{◌≡◌, ◌+◌, ◌≤◌, All, OnOk, length};
ghost use Rattle.std.specs.Bool.{OnTrue};
ghost use Rattle.std.specs.List.Sorted.{IsPermutation, IsNonDecreasingBy};
ghost use Rattle.perf_outlines.specs.Filled.{Fills};
ghost use Rattle.perf_sections.specs.Heads.{IsGoodHead};
ghost use Rattle.perf_sections.specs.IdSections.{entry_count};
ghost use Rattle.perf_outlines.specs.Outlines as outlines;
ghost use Rattle.perf_sections.specs.Sections.{are_apart, ShareNothing, IsInside, IsSmall};

use perf_sections::apart::sorted_are_apart;
use perf_sections::error::OpenError;
use perf_sections::head::{HEAD_SIZE, Head};
use perf_sections::id_sections::id_section_at;
use perf_sections::section::Section;

// Writes all parts of a file: the head, the attributes, the frames, and the ids of each event.
/// Refuses the first event whose ids are not whole, or end beyond the file.
fn fill_parts(bytes: &[u8], head: Head, parts: &mut [Section]) -> Result<(), OpenError>
    requires good { IsGoodHead bytes.now head }
    requires whole { 104 ≤ length bytes.now }
    requires room { length parts.old ≡ 3 + entry_count head }
    ensures exact { Fills result (outlines.parts_in bytes.now head) parts.new }
    ensures inside { OnOk result (All (IsInside bytes.now) parts.new) }
{
    parts[0] = Section {
        start: 0,
        size: HEAD_SIZE,
    };
    parts[1] = head.attributes;
    parts[2] = head.frames;
    let count = head.attributes.size / head.entry_size;
    for index in 0..count {
        let ids = id_section_at(bytes, head, index)?;
        parts[3 + index as usize] = ids;
    }
    Ok(())
}

// Whether none of these parts shares a byte with another. They are left by rising offsets.
fn parts_are_apart(parts: &mut [Section]) -> bool
    requires { All IsSmall parts.old }
    ensures value { result ≡ are_apart parts.old }
    ensures nothing { OnTrue result (ShareNothing parts.old) }
    ensures same { IsPermutation parts.old parts.new }
    ensures sorted { IsNonDecreasingBy (λ (s : Section). s.start) parts.new }
{
    parts.sort_unstable_by_key(|part| part.start);
    sorted_are_apart(parts)
}

/// Writes all parts of a file: the head, the attributes, the frames, and the ids of each event.
/// Refuses the first event whose ids are not whole, or end beyond the file, and then parts that
/// share a byte.
pub fn read_parts(bytes: &[u8], head: Head, parts: &mut [Section]) -> Result<(), OpenError>
    requires good { IsGoodHead bytes.now head }
    requires whole { 104 ≤ length bytes.now }
    requires room { length parts.old ≡ 3 + entry_count head }
    ensures exact { Fills result (outlines.apart_parts bytes.now head) parts.new }
    ensures inside { OnOk result (All (IsInside bytes.now) parts.new) }
    ensures nothing { OnOk result (ShareNothing parts.new) }
{
    fill_parts(bytes, head, parts)?;
    if !parts_are_apart(parts) {
        return Err(OpenError::Overlap);
    }
    // in the order of the file once more
    fill_parts(bytes, head, parts)
}
