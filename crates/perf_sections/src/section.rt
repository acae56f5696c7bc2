//! A part of the file, by its offset and its size.

ghost use Rattle.std.specs.Prelude.{◌≡◌, ◌+◌, ◌≤◌, length};
ghost use Rattle.perf_base.specs.Dynamic.{order_of};
ghost use Rattle.perf_sections.specs.Sections as sections;

use crate::number::number_at;
use perf_base::endian::Dynamic;

/// Where a part of the file is.
#[repr(C)]
#[derive(Copy, Clone, Debug)]
pub struct Section {
    /// Its offset in the file.
    pub start: u64,
    /// Its number of bytes.
    pub size: u64,
}

/// The section whose offset and size are the two numbers at an offset.
pub fn section_at(order: Dynamic, bytes: &[u8], at: usize) -> Section
    requires { at + 16 ≤ length bytes.now }
    ensures { result ≡ sections.section_at (order_of order) bytes.now at }
{
    Section {
        start: number_at(order, bytes, at),
        size: number_at(order, bytes, at + 8),
    }
}

/// Whether a section ends inside the file.
pub fn is_inside(bytes: &[u8], section: Section) -> bool
    ensures { result ≡ sections.is_inside bytes.now section }
{
    match section.start.checked_add(section.size) {
        Some(end) => end <= bytes.len() as u64,
        None => false,
    }
}
