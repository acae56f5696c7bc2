//! A file of `perf record`, before its events are read.

ghost use Rattle.std.specs.Prelude.{◌≡◌};
ghost use Rattle.perf_outlines.specs.Files as files;

use crate::summary::Outline;
use perf_base::ErrorKind;
use perf_file::{OpenError, Part};
use perf_flat::config::order_code;
use perf_sections::section::Section;

/// What is known of a file before its events are read.
#[repr(C)]
#[derive(Copy, Clone, Debug)]
pub struct FlatFile {
    /// The byte order of its numbers: 0 for the lowest byte first, 1 for the highest.
    pub order: u32,
    /// 1 if perf ended regularly, else 0: the frames extend to the end of the file then.
    pub is_closed: u32,
    /// Where its frames are.
    pub frames: Section,
    /// How many events it has.
    pub events: u64,
    /// How many ids they have together.
    pub ids: u64,
}

// A part that ends beyond the file, as a number.
fn part_code(part: Part) -> u32
    ensures { result ≡ files.part_code part }
{
    match part {
        Part::Attributes => 7,
        Part::Data => 8,
        Part::Ids(_) => 9,
    }
}

// The kind of an attribute's refusal, as a number.
fn attribute_code(kind: ErrorKind) -> u32
    ensures { result ≡ files.attribute_code kind }
{
    match kind {
        ErrorKind::UnsupportedData => 13,
        _ => 12,
    }
}

/// Why a file cannot be opened, as a number.
pub fn open_code(refusal: OpenError) -> u32
    ensures { result ≡ files.open_code refusal }
{
    match refusal {
        OpenError::NotPerfData => 1,
        OpenError::OldFormat => 2,
        OpenError::BadHead => 3,
        OpenError::Pipe => 4,
        OpenError::Directory => 5,
        OpenError::Compressed => 6,
        OpenError::PastEnd(part) => part_code(part),
        OpenError::BadEntry => 10,
        OpenError::NoAttributes => 11,
        OpenError::BadAttribute(_, kind) => attribute_code(kind),
        OpenError::BadIds(_) => 14,
        OpenError::Overlap => 15,
        OpenError::NoIdPlace => 16,
        OpenError::SharedId(_) => 17,
        OpenError::OutOfMemory => 18,
    }
}

/// The numbers of an outline.
pub fn flat_file(outline: Outline) -> FlatFile
    ensures { result ≡ files.flat_file outline }
{
    FlatFile {
        order: order_code(outline.head.order),
        is_closed: if outline.head.is_closed { 1 } else { 0 },
        frames: outline.head.frames,
        events: outline.events,
        ids: outline.ids,
    }
}
