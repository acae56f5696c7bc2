//! The head of a file.

ghost use Rattle.std.specs.Prelude.{◌≡◌, ◌≤◌, length, OnOk};
ghost use Rattle.perf_sections.specs.Heads as heads;

use crate::error::{OpenError, Part};
use crate::number::number_at;
use crate::section::{Section, is_inside, section_at};
use perf_base::endian::Dynamic;

/// `PERFILE2`, as a number of which the first byte is the lowest.
pub const MAGIC: u64 = 0x3245_4c49_4652_4550;

/// The same, written by a big-endian machine.
pub const BIG_MAGIC: u64 = 0x5045_5246_494c_4532;

/// `PERFFILE`, the format before.
pub const OLD_MAGIC: u64 = 0x454c_4946_4652_4550;

/// How many bytes the head of a file has.
pub const HEAD_SIZE: u64 = 104;

/// How many bytes the head of a pipe has.
pub const PIPE_HEAD_SIZE: u64 = 16;

/// The head of a file.
#[derive(Copy, Clone, Debug)]
pub struct Head {
    /// The order of its numbers.
    pub order: Dynamic,
    /// Whether perf ended regularly, so that the size of the data is known.
    pub is_closed: bool,
    /// How many bytes an entry of the attributes has.
    pub entry_size: u64,
    /// The attributes.
    pub attributes: Section,
    /// The frames.
    pub frames: Section,
    /// The first 64 feature bits; none if the file was not closed.
    pub features: u64,
}

// Where the frames are: to the end of the file if perf was killed before it wrote their size.
fn frames_in(bytes: &[u8], frames: Section) -> Section
    ensures { result ≡ heads.frames_in bytes.now frames }
{
    if frames.size == 0 {
        Section {
            start: frames.start,
            size: (bytes.len() as u64).saturating_sub(frames.start),
        }
    } else {
        frames
    }
}

// The numbers of a whole head.
fn head_with(order: Dynamic, bytes: &[u8]) -> Head
    requires { 104 ≤ length bytes.now }
    ensures { result ≡ heads.head_with order bytes.now }
{
    let frames = section_at(order, bytes, 40);
    let is_closed = frames.size != 0;
    let features = number_at(order, bytes, 72);
    Head {
        order,
        is_closed,
        entry_size: number_at(order, bytes, 16),
        attributes: section_at(order, bytes, 24),
        frames: frames_in(bytes, frames),
        features: if frames.size == 0 { 0 } else { features },
    }
}

// The head in an order, of a file of at least 16 bytes.
fn head_by(order: Dynamic, bytes: &[u8]) -> Result<Head, OpenError>
    requires { 16 ≤ length bytes.now }
    ensures value { result ≡ heads.head_by order bytes.now }
    ensures whole { OnOk result (104 ≤ length bytes.now) }
{
    let size = number_at(order, bytes, 8);
    if size == PIPE_HEAD_SIZE {
        return Err(OpenError::Pipe);
    }
    if size != HEAD_SIZE {
        return Err(OpenError::BadHead);
    }
    if (bytes.len() as u64) < HEAD_SIZE {
        return Err(OpenError::BadHead);
    }
    Ok(head_with(order, bytes))
}

// The order of a file, by its first eight bytes.
pub fn order_by(magic: u64) -> Result<Dynamic, OpenError>
    ensures { result ≡ heads.order_by magic }
{
    match magic {
        MAGIC => Ok(Dynamic::Little),
        BIG_MAGIC => Ok(Dynamic::Big),
        OLD_MAGIC => Err(OpenError::OldFormat),
        _ => Err(OpenError::NotPerfData),
    }
}

/// The head of a file.
pub fn head_of(bytes: &[u8]) -> Result<Head, OpenError>
    ensures value { result ≡ heads.head_in bytes.now }
    ensures whole { OnOk result (104 ≤ length bytes.now) }
{
    if bytes.len() < 16 {
        return Err(OpenError::NotPerfData);
    }
    let order = order_by(number_at(Dynamic::Little, bytes, 0))?;
    head_by(order, bytes)
}

/// Refuses features that change what the data are.
pub fn check_features(head: Head) -> Result<(), OpenError>
    ensures { result ≡ heads.checked_features head }
{
    if (head.features >> 24) % 2 == 1 {
        return Err(OpenError::Directory);
    }
    if (head.features >> 27) % 2 == 1 {
        return Err(OpenError::Compressed);
    }
    Ok(())
}

/// Refuses parts that end beyond the file, and attributes that are not whole entries.
pub fn check_parts(bytes: &[u8], head: Head) -> Result<(), OpenError>
    ensures value { result ≡ heads.checked_parts bytes.now head }
    ensures good { OnOk result (heads.IsGoodHead bytes.now head) }
{
    if !is_inside(bytes, head.attributes) {
        return Err(OpenError::PastEnd(Part::Attributes));
    }
    if !is_inside(bytes, head.frames) {
        return Err(OpenError::PastEnd(Part::Data));
    }
    if head.entry_size < 80 {
        return Err(OpenError::BadEntry);
    }
    if head.attributes.size % head.entry_size != 0 {
        return Err(OpenError::BadEntry);
    }
    if head.attributes.size == 0 {
        return Err(OpenError::NoAttributes);
    }
    Ok(())
}
