//! The frames of bytes that are all in memory.

ghost use Rattle.std.specs.Prelude.{◌≡◌, ◌≢◌, ◌<◌, ◌≤◌, [], true, length, drop, MatchOption};
ghost use Rattle.perf_records.specs.FrameList.{sights, end_before};
ghost use Rattle.perf_records.specs.Frames.{frame_length};
ghost use Rattle.perf_records.specs.Sights.{sight_of, sight_in};
ghost use Rattle.perf_records.specs.declared.frame_list.FrameIter.{FrameIter};

use crate::frame::Frame;
use crate::frame_handler::BadFrame;
use crate::parts::is_small;
use perf_base::{Endian, Refusal};
use perf_buffers::parsebuf::ParseBufChunk;
use perf_reader::header::header_in;

/// The frames of a slice of bytes, each once, in order. Made by [`frames`].
#[derive(Drop)]
pub struct FrameIter<'p, E> {
    order: E,
    left: &'p [u8],
}

/// The frames of these bytes, each once, in order: an iterator over whole frames, and over headers
/// without one. Nothing is copied and no memory is allocated.
///
/// If the size in a header does not count the header, the next frame begins right after the header.
/// An unfinished frame is the last. The iterator ends when fewer bytes are left than a header has.
#[inline]
pub fn frames<'p, E: Endian>(bytes: &'p [u8], order: E) -> FrameIter<'p, E>
    ensures left { result.left.now ≡ bytes.now }
    ensures order { result.order ≡ order }
{
    FrameIter { order, left: bytes }
}

/// How a list of frames ends.
#[derive(Copy, Clone, Debug, PartialEq, Eq)]
pub enum FramesEnd {
    /// No byte is left.
    Done,
    /// Fewer bytes are left than a header has.
    CutHeader,
}

impl<'p, E> FrameIter<'p, E> {
    /// The bytes after the frames returned so far. At the end of the iterator there are none, or
    /// they are the beginning of a header that is cut off.
    #[inline]
    pub fn left(&self) -> &'p [u8]
        ensures { result.now ≡ self.now.left.now }
    {
        self.left
    }
}

impl<'p, E: Endian> FrameIter<'p, E> {
    /// How the list ends, once all frames were returned, and `None` before that.
    #[inline]
    #[tactic(auto, using(crate::proofs::FrameList::some_sight, crate::proofs::FrameList::no_sight))]
    pub fn end(&self) -> Option<FramesEnd>
        ensures end { result ≡ end_before self.now.left.now }
        ensures all { MatchOption result (sights (E.order self.now.order) self.now.left.now ≢ [])
            (λ _. sights (E.order self.now.order) self.now.left.now ≡ []) }
    {
        match self.left.len() {
            0 => Some(FramesEnd::Done),
            1..=7 => Some(FramesEnd::CutHeader),
            _ => None,
        }
    }
}

// The frame or bad frame at the front of bytes, and the bytes after it, if there is a header.
#[inline]
fn cut_first<'p, E: Endian>(
    order: &E,
    bytes: &'p [u8],
) -> Option<(Result<Frame<'p, 'p>, BadFrame>, &'p [u8])>
    ensures { MatchOption result (length bytes.now < 8) (λ parts. (8 ≤ length bytes.now)
        × (sight_of parts.0 ≡ sight_in (E.order order.now) bytes.now true)
        × (parts.1.now ≡ drop (frame_length (E.order order.now) bytes.now) bytes.now)) }
{
    let header = match bytes.first_chunk::<8>() {
        Some(front) => header_in(order, *front),
        None => return None,
    };
    let rest = &bytes[8..];
    if is_small(header) {
        return Some((Err(BadFrame::new(header, Refusal::SmallHeader)), rest));
    }
    let len = header.size as usize - 8;
    if rest.len() < len {
        return Some((Err(BadFrame::new(header, Refusal::Eof)), &[]));
    }
    let (body, after) = rest.split_at(len);
    Some((Ok(Frame::new(header, ParseBufChunk::External(body))), after))
}

impl<'p, E: Endian + Drop> Iterator for FrameIter<'p, E> {
    ghost use Rattle.std.specs.Iterator.{YieldsFirstBy, item_count};

    type Item = Result<Frame<'p, 'p>, BadFrame>;

    ghost next_gives = { YieldsFirstBy sight_of
        (λ (s : FrameIter E). sights (E.order s.order) s.left.now) };

    ghost remaining = { item_count (λ (s : FrameIter E). sights (E.order s.order) s.left.now) };

    #[inline]
    #[tactic(auto, using(crate::proofs::FrameList::next_sight, crate::proofs::FrameList::no_sight))]
    fn next(&mut self) -> Option<Result<Frame<'p, 'p>, BadFrame>> {
        let (frame, after) = cut_first(&self.order, self.left)?;
        self.left = after;
        Some(frame)
    }
}
