//! How the header of a record is read.
//!
//! There is one way for each place where its bytes may be. A slice has all eight of them at hand
//! (`header_in`). In a run it matters whether the buffer ends before the first byte of a header or
//! inside it, so the header is read in two steps (`Reader::read_header_in_two`), or in place if the
//! buffer shows all of it (`Reader::read_shown_header`); either way that is two reads. A header
//! that is parsed on its own is three reads, one for each of its numbers: the bytes are taken at
//! once if the input reports that it has eight (`Reader::read_header`), and number by number only
//! if it has fewer or reports nothing (`Reader::read_header_by_number`), so that each number that
//! is present counts.
#![tactic(auto, using(crate::proofs::Calls::chain))]

ghost use Rattle.std.specs.Prelude.{◌≡◌, ◌≤◌, ◌*◌, ◌++◌, length};
ghost use Rattle.perf_base.specs.Header.{header, header_of};
ghost use Rattle.perf_reader.specs.Headers.{stop_kind};
ghost use Rattle.perf_reader.specs.Prelude.{ReadsPlain, refusal_kind};

use crate::read::{HasTransition, ReadFrom};
use crate::reader::Reader;
use perf_base::sys::perf_event_header;
use perf_base::{Endian, ErrorKind, ReadResult, Refusal};
use perf_buffers::frame_reader::FrameCount;
use perf_buffers::input::Input;

// The size of a small frame in bytes.
const SMALL_FRAME: usize = 16;

/// Why a run stops where its next frame would begin.
#[derive(Copy, Clone)]
pub enum Stop {
    /// Nothing is left.
    Done,
    /// Fewer bytes are left than a header has.
    CutHeader,
    /// The buffer failed, or an allocation did.
    Refused(Refusal),
}

/// The header that these eight bytes contain.
#[inline]
#[tactic(auto)]
pub fn header_in<E: Endian>(endian: &E, bytes: [u8; 8]) -> perf_event_header
    ensures { result ≡ header_of (E.order endian.now) bytes }
{
    let [b0, b1, b2, b3, b4, b5, b6, b7] = bytes;
    perf_event_header {
        type_: endian.convert_u32([b0, b1, b2, b3]),
        misc: endian.convert_u16([b4, b5]),
        size: endian.convert_u16([b6, b7]),
    }
}

// The header with this first byte and these other seven.
#[inline]
#[tactic(auto)]
pub(crate) fn header_from<E: Endian>(
    endian: &E,
    first: [u8; 1],
    others: [u8; 7],
) -> perf_event_header
    ensures { result ≡ header_of (E.order endian.now) (first ++ others) }
{
    let [b0] = first;
    let [b1, b2, b3, b4, b5, b6, b7] = others;
    header_in(endian, [b0, b1, b2, b3, b4, b5, b6, b7])
}

/// Why a run stops when a header, or its first byte, cannot be read: `at_end` if bytes are missing,
/// and otherwise the refusal.
#[inline]
#[tactic(auto)]
pub fn stop_at(refusal: Refusal, at_end: Stop) -> Stop
    ensures eof { refusal_kind refusal ≡ ErrorKind.Eof → result ≡ at_end }
    ensures other { (refusal_kind refusal ≡ ErrorKind.Eof → ⊥) → result ≡ Stop.Refused refusal }
    ensures kind { stop_kind at_end ≡ ErrorKind.Eof → stop_kind result ≡ refusal_kind refusal }
{
    if refusal.kind() == ErrorKind::Eof {
        at_end
    } else {
        Stop::Refused(refusal)
    }
}

impl HasTransition for perf_event_header {
    ghost transition = { ReadsPlain (λ _. header) (λ h. h) };
}

impl<'p, I: Input<'p>> ReadFrom<'p, I> for perf_event_header {
    #[inline]
    fn read<E: Endian>(reader: &mut Reader<I, E>) -> ReadResult<Self> {
        if reader.has_bytes(8) == Some(true) {
            return reader.read_header();
        }
        reader.read_header_by_number()
    }
}

// How many frames begin in these bytes, each with a complete header, at most `most`.
#[tactic(auto)]
fn frames_in<E: Endian>(endian: &E, bytes: &[u8], most: usize) -> usize
    ensures most { result ≤ most }
    ensures shown { 8 * result ≤ length bytes.now }
{
    let mut rest = bytes;
    for count in 0..most {
        let size = match rest.first_chunk::<8>() {
            Some(header) => header_in(endian, *header).size as usize,
            None => return count,
        };
        rest = &rest[size.max(8).min(rest.len())..];
    }
    most
}

// The frames that begin in a chunk, at most `limit`: estimated as if all frames were small, or
// counted, if that is wanted and the estimate is less than the limit.
#[derive(Drop)]
pub(crate) struct ShownFrames<'c, E> {
    pub(crate) endian: &'c E,
    pub(crate) limit: usize,
    pub(crate) is_exact: bool,
}

impl<E: Endian> FrameCount for ShownFrames<'_, E> {
    ghost most = { λ frames. frames.limit };

    #[inline]
    #[tactic(auto)]
    fn count(&self, bytes: &[u8]) -> usize {
        let small = bytes.len() / SMALL_FRAME;
        if self.is_exact && small < self.limit {
            return frames_in(self.endian, bytes, self.limit);
        }
        self.limit.min(small)
    }
}
