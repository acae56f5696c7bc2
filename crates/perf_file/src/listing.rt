//! The frames of a file, in the order of the file.

ghost use Rattle.std.specs.Prelude.{◌≡◌, ◌<◌, ◌≤◌, [], length, IfSome, MatchOption, option_map};
ghost use Rattle.perf_base.specs.Dynamic.{order_of};
ghost use Rattle.perf_records.specs.Sights.{sight_of};
ghost use Rattle.perf_file.specs.Owners.{owner_of_sight};
ghost use Rattle.perf_file.specs.Pieces as pieces;
ghost use Rattle.perf_file.specs.Views.{view};
ghost use Rattle.perf_file.specs.declared.listing.FileFrames.{FileFrames};

use crate::entries::Entry;
use crate::opening::Recording;
use crate::owning::Owner;
use perf_base::Endian;
use perf_base::endian::Dynamic;
use perf_base::sys::perf_event_header;
use perf_records::frame::Frame;
use perf_records::frame_handler::BadFrame;
use perf_records::frame_list::frames;

/// A frame of a file.
#[derive(Copy, Clone, Debug)]
pub struct FileFrame<'p> {
    /// The offset in the file at which its header begins.
    pub at: usize,
    /// The frame, or a header that no whole frame follows.
    pub frame: Result<Frame<'p, 'p>, BadFrame>,
    /// The bytes after it that are no frames: what a frame of the types 71 (`AUXTRACE`) and 66
    /// (`TRACING_DATA`) announces, or the beginning of it if the file ends first.
    pub payload: &'p [u8],
    /// Which event it belongs to.
    pub owner: Owner,
}

/// The frames of a file, each once, in the order of the file. Made by [`Recording::frames`].
#[derive(Drop)]
pub struct FileFrames<'a, 'p> {
    pub(crate) recording: &'a Recording<'p>,
    pub(crate) left: &'p [u8],
}

// The number of the first eight bytes, 0 if there are fewer.
#[inline]
fn first_u64(order: Dynamic, bytes: &[u8]) -> u64
    ensures { result ≡ pieces.first_u64 (order_of order) bytes.now }
{
    match bytes.first_chunk::<8>() {
        Some(eight) => order.convert_u64(*eight),
        None => 0,
    }
}

// The number of the first four bytes, 0 if there are fewer.
#[inline]
fn first_u32(order: Dynamic, bytes: &[u8]) -> u32
    ensures { result ≡ pieces.first_u32 (order_of order) bytes.now }
{
    match bytes.first_chunk::<4>() {
        Some(four) => order.convert_u32(*four),
        None => 0,
    }
}

// How many bytes after a frame are no frames.
#[inline]
pub(crate) fn payload_length(order: Dynamic, frame: &Result<Frame<'_, '_>, BadFrame>) -> u64
    ensures { result ≡ pieces.payload_length (order_of order) (sight_of frame.now) }
{
    match frame {
        Ok(frame) => match frame.header().type_ {
            71 => first_u64(order, frame.rest()),
            66 => u64::from(first_u32(order, frame.rest())).div_ceil(8) * 8,
            _ => 0,
        },
        Err(_) => 0,
    }
}

// The first bytes, at most so many, and those after them.
#[inline]
pub(crate) fn split_most(bytes: &[u8], count: u64) -> (&[u8], &[u8])
    ensures front { result.0.now ≡ pieces.take_most count bytes.now }
    ensures back { result.1.now ≡ pieces.drop_most count bytes.now }
{
    if count < bytes.len() as u64 {
        bytes.split_at(count as usize)
    } else {
        (bytes, &[])
    }
}

// How many bytes a frame with that header takes.
#[inline]
pub(crate) fn size_of(header: perf_event_header) -> usize
    ensures { result ≡ pieces.size_of header }
{
    if header.size < 8 {
        8
    } else {
        header.size as usize
    }
}

// The header of what was found.
#[inline]
pub fn header_of(frame: &Result<Frame<'_, '_>, BadFrame>) -> perf_event_header
    ensures { result ≡ pieces.header_seen (sight_of frame.now) }
{
    match frame {
        Ok(frame) => frame.header(),
        Err(bad) => bad.header(),
    }
}

// The owner of what was found.
#[inline(always)]
fn owner_of_found(recording: &Recording<'_>, frame: &Result<Frame<'_, '_>, BadFrame>) -> Owner
    ensures { result ≡ owner_of_sight (view recording.now) (sight_of frame.now) }
{
    recording.finder().owner_of_found(frame)
}

// The offset in the file at which these bytes of its frames are left.
#[inline]
fn place_in(recording: &Recording<'_>, bytes: &[u8]) -> usize
    ensures { result ≡ pieces.place_in (view recording.now) bytes.now }
{
    recording.start + recording.frames.len().saturating_sub(bytes.len())
}

// The first frame of what is left of the frames of a file, and the bytes after it.
#[inline(always)]
fn cut_first<'p>(recording: &Recording<'_>, bytes: &'p [u8]) -> Option<(FileFrame<'p>, &'p [u8])>
    ensures { MatchOption result (length bytes.now < 8) (λ found. (8 ≤ length bytes.now)
        × (pieces.piece_of found.0 ≡ pieces.piece_in (view recording.now) bytes.now)
        × (found.1.now ≡ pieces.after_piece (order_of (view recording.now).order) bytes.now)) }
{
    let order = recording.order;
    let mut all = frames(bytes, order);
    let frame = all.next()?;
    let (_, after) = split_most(bytes, size_of(header_of(&frame)) as u64);
    let (payload, left) = split_most(after, payload_length(order, &frame));
    let found = FileFrame {
        at: place_in(recording, bytes),
        frame,
        payload,
        owner: owner_of_found(recording, &frame),
    };
    Some((found, left))
}

// The first frame of what is left, which is at least a header.
#[inline]
fn first_of<'p>(recording: &Recording<'_>, bytes: &'p [u8]) -> FileFrame<'p>
    requires { 8 ≤ length bytes.now }
    ensures { pieces.piece_of result ≡ pieces.piece_in (view recording.now) bytes.now }
{
    match cut_first(recording, bytes) {
        Some((found, _)) => found,
        None => unreachable!(),
    }
}

/// What is left of the frames of a file at an offset of the file, if that is at least a header.
#[inline]
pub fn left_at<'p>(recording: &Recording<'p>, at: usize) -> Option<&'p [u8]>
    ensures value { option_map (λ b. b.now) result ≡ pieces.left_at (view recording.now) at }
    ensures long { IfSome result (λ b. 8 ≤ length b.now) }
{
    if at < recording.start {
        return None;
    }
    let offset = at - recording.start;
    if recording.frames.len() < 8 || recording.frames.len() - 8 < offset {
        return None;
    }
    Some(recording.frames.split_at(offset).1)
}

impl<'p> Iterator for FileFrames<'_, 'p> {
    ghost use Rattle.std.specs.Iterator.{YieldsFirstBy, item_count};

    type Item = FileFrame<'p>;

    ghost next_gives = { YieldsFirstBy pieces.piece_of
        (λ (s : FileFrames). pieces.pieces (view s.recording.now) s.left.now) };

    ghost remaining = { item_count (λ (s : FileFrames).
        pieces.pieces (view s.recording.now) s.left.now) };

    #[tactic(auto, using(crate::proofs::Laws::next_piece, crate::proofs::Laws::no_piece))]
    #[inline]
    fn next(&mut self) -> Option<FileFrame<'p>> {
        let (found, after) = cut_first(self.recording, self.left)?;
        self.left = after;
        Some(found)
    }
}

impl<'p> Recording<'p> {
    /// Its frames, each once, in the order of the file. What is left at their end is fewer bytes
    /// than a header has.
    #[inline]
    pub fn frames(&self) -> FileFrames<'_, 'p>
        ensures recording { result.recording.now ≡ self.now }
        ensures left { result.left.now ≡ (view self.now).frames }
        ensures joined { pieces.AreTheData (view self.now) (pieces.pieces_of (view self.now)) }
    {
        FileFrames {
            recording: self,
            left: self.frames,
        }
    }

    /// The frame that begins at the offset of an entry, or what is there if the entry is of
    /// another file. None outside the frames of this file.
    #[inline]
    pub fn frame_at(&self, entry: &Entry) -> Option<FileFrame<'p>>
        ensures { option_map pieces.piece_of result ≡ pieces.piece_at (view self.now) entry.now.at }
    {
        match left_at(self, entry.at) {
            Some(bytes) => Some(first_of(self, bytes)),
            None => None,
        }
    }
}
