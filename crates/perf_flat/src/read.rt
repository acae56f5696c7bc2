//! Frames as plain numbers: the one at the front of bytes, several, one in two pieces, a body alone; and the
//! event of a frame, before its configuration is known.

ghost use Rattle.std.specs.Prelude.{◌≡◌, ◌<◌, ◌≤◌, true, false, nat_le, length, List, ℕ, MatchOption};
ghost use Rattle.std.specs.Prelude.{◌==◌, take, drop, min, max, if◌then◌else◌, ◌+◌, ◌++◌, nat_lt};
ghost use Rattle.perf_base.specs.Configuration.{Configuration};
ghost use Rattle.perf_base.specs.Header.{header_of};
ghost use Rattle.perf_base.specs.Order.{Order};
ghost use Rattle.perf_base.specs.declared.refusal.Refusal.TheVariants.{Eof, SmallHeader};
ghost use Rattle.perf_buffers.specs.Prelude.{chunk_bytes};
ghost use Rattle.perf_flat.specs.Flat.{IsFlat, IsFlatAfter, IsBad, first_frame};
ghost use Rattle.perf_flat.specs.FlatBodies.{IsFlatBody, header_before};
ghost use Rattle.perf_flat.specs.Identifiers as place;
ghost use Rattle.perf_flat.specs.Many.{AreFlat, first_bytes, many_end};
ghost use Rattle.perf_flat.specs.Split as split;
ghost use Rattle.perf_records.specs.FrameNumbers.{IsIdentifierRead};
ghost use Rattle.perf_records.specs.Frames as stream;
ghost use Rattle.perf_records.specs.Prelude.{configuration_of, endian_of};
ghost use Rattle.perf_records.specs.Sights.{sight_in, sight_of};

use crate::bodies::put_record;
use crate::frame::{FlatFrame, put_head};
use crate::refusals::{blank_frame, refuse_frame};
use perf_base::sys::{PERF_RECORD_SAMPLE, perf_event_header};
use perf_base::{Endian, ParseConfig, Refusal};
use perf_reader::header::header_in;
use perf_records::frame::Frame;
use perf_records::frame_end::frame_end;
use perf_records::frame_handler::BadFrame;
use perf_records::frame_list::frames;
use perf_sample_types::sample_id::SampleId;
use std::alloc::Global;

// Why no whole frame follows a header.
#[inline]
fn why_bad(header: perf_event_header) -> Refusal
    ensures small { header.size < 8 → result ≡ SmallHeader }
    ensures short { 8 ≤ header.size → result ≡ Eof }
{
    if header.size < 8 {
        Refusal::SmallHeader
    } else {
        Refusal::Eof
    }
}

// Writes the flat frame of a header without a whole frame.
#[inline]
fn bad_frame(header: perf_event_header, frame: &mut FlatFrame)
    ensures { (c : Configuration) (o : Order) (bytes : List ℕ) → IsBad header bytes →
        IsFlatAfter c o header bytes frame.new }
{
    refuse_frame(header, why_bad(header), frame);
}

// Writes the flat frame of a whole frame.
fn flat_frame<E: Endian>(config: &ParseConfig<E>, whole: Frame<'_, '_>, frame: &mut FlatFrame)
    ensures { IsFlatAfter (configuration_of config.now) (E.order (endian_of config.now))
        whole.entry.header (chunk_bytes whole.entry.rest) frame.new }
{
    let header = whole.header();
    let end = match frame_end(config, header.type_, whole.rest()) {
        Some(end) => end,
        None => return refuse_frame(header, Refusal::NoRoomForId, frame),
    };
    put_head(config, header, &end.id, frame);
    match put_record(config, header, end.body, frame) {
        None => {}
        Some(refusal) => refuse_frame(header, refusal, frame),
    }
}

// Writes the flat frame of what is at the front of bytes.
#[inline]
fn flat_first<'p, E: Endian>(
    config: &ParseConfig<E>,
    first: Result<Frame<'p, 'p>, BadFrame>,
    frame: &mut FlatFrame,
)
    ensures { (bytes : List ℕ) → 8 ≤ length bytes →
        sight_in (E.order (endian_of config.now)) bytes true ≡ sight_of first.entry →
        IsFlat (configuration_of config.now) (E.order (endian_of config.now))
        (first_frame (E.order (endian_of config.now)) bytes) frame.new }
{
    match first {
        Ok(whole) => flat_frame(config, whole, frame),
        Err(bad) => bad_frame(bad.header(), frame),
    }
}

// How many bytes a header has.
const HEADER: usize = 8;

// Writes the flat frame at the front of bytes.
#[inline]
fn read_first<E: Endian>(config: &ParseConfig<E>, bytes: &[u8], frame: &mut FlatFrame)
    requires { 8 ≤ length bytes.now }
    ensures { IsFlat (configuration_of config.now) (E.order (endian_of config.now))
        (first_frame (E.order (endian_of config.now)) bytes.now) frame.new }
{
    let mut all = frames(bytes, config.endian());
    match all.next() {
        Some(first) => flat_first(config, first, frame),
        None => {}
    }
}

/// Writes the frame at the front of bytes to `frame` as plain numbers, and returns whether there is
/// one: not if there are fewer bytes than a header has, and then `frame` is left as it was. A refused
/// frame has its header and the reason. No memory is needed, as lists are passed over: of each the
/// flat frame has the place.
pub fn read_into<E: Endian>(config: &ParseConfig<E>, bytes: &[u8], frame: &mut FlatFrame) -> bool
    ensures header { result ≡ nat_le 8 (length bytes.now) }
    ensures read { result ≡ true →
        IsFlat (configuration_of config.now) (E.order (endian_of config.now))
        (first_frame (E.order (endian_of config.now)) bytes.now) frame.new }
    ensures unread { result ≡ false → frame.new ≡ frame.old }
{
    if bytes.len() < HEADER {
        return false;
    }
    read_first(config, bytes, frame);
    true
}

/// The frame at the front of bytes as plain numbers, or `None` if there are fewer bytes than a header
/// has. A refused frame has its header and the reason. No memory is needed. [`read_into`] writes the
/// same to a place of the caller's, where it is not moved.
pub fn read<E: Endian>(_alloc: Global, config: &ParseConfig<E>, bytes: &[u8]) -> Option<FlatFrame>
    ensures { MatchOption result (length bytes.now < 8) (λ f. (8 ≤ length bytes.now)
        × IsFlat (configuration_of config.now) (E.order (endian_of config.now))
        (first_frame (E.order (endian_of config.now)) bytes.now) f) }
{
    let mut frame = blank_frame();
    if read_into(config, bytes, &mut frame) {
        Some(frame)
    } else {
        None
    }
}

/// How far several frames were read.
#[repr(C)]
#[derive(Copy, Clone, Debug)]
pub struct Ended {
    /// How many frames were read.
    pub count: usize,
    /// How many bytes they have.
    pub taken: usize,
    /// How it ended: 0 if all of the room was used, 1 if all bytes were read, 2 if fewer bytes are
    /// left than a header has.
    pub how: u32,
}

// How many bytes the frame at the front has, by the size in its header: all that are left, if these
// are fewer.
#[inline]
fn frame_len(size: u16, left: usize) -> usize
    ensures { result ≡ min (max 8 size) left }
{
    usize::from(size).max(8).min(left)
}

// Writes the flat frame at the front of bytes, and returns the bytes after that frame.
#[inline]
fn read_next<'p, E: Endian>(
    config: &ParseConfig<E>,
    bytes: &'p [u8],
    frame: &mut FlatFrame,
) -> &'p [u8]
    requires { 8 ≤ length bytes.now }
    ensures flat { IsFlat (configuration_of config.now) (E.order (endian_of config.now))
        (first_frame (E.order (endian_of config.now)) bytes.now) frame.new }
    ensures after { result.now ≡
        drop (stream.frame_length (E.order (endian_of config.now)) bytes.now) bytes.now }
{
    read_first(config, bytes, frame);
    let len = frame_len(frame.size, bytes.len());
    &bytes[len..]
}

// How reading ended before these bytes, with room left.
#[inline]
fn end_before(left: &[u8]) -> u32
    ensures { result ≡ (if length left.now == 0 then 1 else 2) }
{
    if left.is_empty() { 1 } else { 2 }
}

/// The first frames of bytes as plain numbers, as many as there is room for. What is after them in
/// `frames` is left as it was. No memory is needed.
pub fn read_many<E: Endian>(
    _alloc: Global,
    config: &ParseConfig<E>,
    bytes: &[u8],
    frames: &mut [FlatFrame],
) -> Ended
    ensures count { result.count ≡ min (length frames.old)
        (length (stream.frames (E.order (endian_of config.now)) bytes.now)) }
    ensures flat { AreFlat (configuration_of config.now) (E.order (endian_of config.now))
        (stream.first_frames (E.order (endian_of config.now)) result.count bytes.now)
        (take result.count frames.new) }
    ensures after { drop result.count frames.new ≡ drop result.count frames.old }
    ensures taken { result.taken ≡
        first_bytes (E.order (endian_of config.now)) result.count bytes.now }
    ensures left { drop result.taken bytes.now ≡
        stream.drop_frames (E.order (endian_of config.now)) result.count bytes.now }
    ensures how { result.how ≡
        many_end (E.order (endian_of config.now)) (length frames.old) bytes.now }
{
    let room = frames.len();
    let mut left = bytes;
    for count in 0..room {
        if left.len() < HEADER {
            return Ended {
                count,
                taken: bytes.len() - left.len(),
                how: end_before(left),
            };
        }
        left = read_next(config, left, &mut frames[count]);
    }
    Ended {
        count: room,
        taken: bytes.len() - left.len(),
        how: 0,
    }
}

/// Whether a frame in two pieces was read.
#[repr(C)]
#[derive(Copy, Clone, Debug)]
pub struct SplitEnd {
    /// 0 if it was read, 1 if there are no bytes, 2 if there are fewer than a header has, and 3 if
    /// there is too little room to copy it.
    pub how: u32,
    /// Where its spans count from: 1 for the copy, 0 for the first piece that is not empty.
    pub at: u32,
}

// Copies the bytes at the front of two pieces.
#[inline]
fn copy_front(first: &[u8], second: &[u8], to: &mut [u8])
    requires { length to.old ≤ length first.now + length second.now }
    ensures { to.new ≡ take (length to.old) (first.now ++ second.now) }
{
    let len = first.len().min(to.len());
    let (front, back) = to.split_at_mut(len);
    front.copy_from_slice(&first[..len]);
    back.copy_from_slice(&second[..back.len()]);
}

// The length of the frame at the front of two pieces, if they have a header.
#[inline]
fn split_len<E: Endian>(order: &E, first: &[u8], second: &[u8]) -> Option<usize>
    ensures { MatchOption result (length (first.now ++ second.now) < 8)
        (λ len. (8 ≤ length (first.now ++ second.now))
        × (len ≡ length (split.split_frame (E.order order.now) first.now second.now))) }
{
    let all = first.len() + second.len();
    if all < 8 {
        return None;
    }
    let mut front = [0; 8];
    copy_front(first, second, &mut front);
    let size = header_in(order, front).size;
    Some(frame_len(size, all))
}

/// The frame at the front of two pieces as plain numbers, as if the second followed the first in
/// memory: in a ring buffer that wraps, the bytes up to its end and those from its beginning.
///
/// Only a frame that has bytes of both is copied, to the front of `scratch`, for which 65,535 bytes
/// are always enough. If `scratch` is too small for it, or no frame begins there, `frame` and
/// `scratch` are left as they were. No memory is needed.
pub fn read_split<E: Endian>(
    _alloc: Global,
    config: &ParseConfig<E>,
    first: &[u8],
    second: &[u8],
    scratch: &mut [u8],
    frame: &mut FlatFrame,
) -> SplitEnd
    ensures how { result.how ≡ split.split_how (E.order (endian_of config.now))
        first.now second.now (length scratch.old) }
    ensures at { result.at ≡ split.split_at (E.order (endian_of config.now))
        first.now second.now result.how }
    ensures read { result.how ≡ 0 →
        IsFlat (configuration_of config.now) (E.order (endian_of config.now))
        (split.split_frame (E.order (endian_of config.now)) first.now second.now) frame.new }
    ensures unread { (result.how ≡ 0 → ⊥) → frame.new ≡ frame.old }
    ensures place { result.how ≡ 0 →
        let bytes = split.split_frame (E.order (endian_of config.now)) first.now second.now in
        take (length bytes) (split.span_bytes result.at first.now second.now scratch.new) ≡ bytes }
    ensures scratch { scratch.new ≡ split.copied_to result.at
        (split.split_frame (E.order (endian_of config.now)) first.now second.now) scratch.old }
{
    let len = match split_len(config.endian(), first, second) {
        Some(len) => len,
        None if first.is_empty() && second.is_empty() => return SplitEnd { how: 1, at: 0 },
        None => return SplitEnd { how: 2, at: 0 },
    };
    if first.is_empty() {
        read_first(config, second, frame);
        return SplitEnd { how: 0, at: 0 };
    }
    if len <= first.len() {
        read_first(config, first, frame);
        return SplitEnd { how: 0, at: 0 };
    }
    if scratch.len() < len {
        return SplitEnd { how: 3, at: 0 };
    }
    copy_front(first, second, &mut scratch[..len]);
    read_first(config, &scratch[..len], frame);
    SplitEnd { how: 0, at: 1 }
}

// The longest body, in bytes: a size has 16 bits, and counts the eight bytes of the header.
const LONGEST_BODY: usize = (1 << 16) - 1 - 8;

// Which fields a record has without a sample id: those of a sample alone.
#[inline]
fn present_alone(ty: u32, present: u64) -> u64
    ensures { result ≡ (if ty == 9 then present else 0) }
{
    if ty == PERF_RECORD_SAMPLE { present } else { 0 }
}

// Writes the flat frame of a body.
fn flat_body<E: Endian>(
    config: &ParseConfig<E>,
    header: perf_event_header,
    body: &[u8],
    frame: &mut FlatFrame,
)
    requires { header.size ≡ 8 + length body.now }
    ensures { IsFlatBody (configuration_of config.now) (E.order (endian_of config.now)) header
        body.now frame.new }
{
    put_head(config, header, &SampleId::default(), frame);
    match put_record(config, header, body, frame) {
        None => frame.present = present_alone(header.type_, frame.present),
        Some(refusal) => refuse_frame(header, refusal, frame),
    }
}

/// Reads the record of a type from its body, after its header and its sample id were taken off, and
/// returns whether it did so: not if the body has more than 65,527 bytes, for which a frame has no
/// size. Then `frame` is left as it was.
///
/// The spans count from eight bytes before the body, where its header would be, and the size is that
/// of the header and the body. No field of a sample id is present. No memory is needed.
pub fn read_body<E: Endian>(
    _alloc: Global,
    config: &ParseConfig<E>,
    type_: u32,
    misc: u16,
    body: &[u8],
    frame: &mut FlatFrame,
) -> bool
    ensures fits { result ≡ nat_lt (length body.now) 65528 }
    ensures read { result ≡ true →
        IsFlatBody (configuration_of config.now) (E.order (endian_of config.now))
        (header_before type_ misc body.now) body.now frame.new }
    ensures unread { result ≡ false → frame.new ≡ frame.old }
{
    if LONGEST_BODY < body.len() {
        return false;
    }
    let header = perf_event_header {
        type_,
        misc,
        size: (8 + body.len()) as u16,
    };
    flat_body(config, header, body, frame);
    true
}

// The whole frame at the front of bytes.
#[inline]
fn first_whole<'p, E: Endian>(bytes: &'p [u8], order: &E) -> Option<Frame<'p, 'p>>
    ensures { MatchOption result (place.has_whole (E.order order.now) bytes.now ≡ false)
        (λ frame. (place.has_whole (E.order order.now) bytes.now ≡ true)
        × (frame.header ≡ header_of (E.order order.now) bytes.now)
        × (chunk_bytes frame.rest ≡ place.first_rest (E.order order.now) bytes.now)) }
{
    match frames(bytes, order).next()? {
        Ok(frame) => Some(frame),
        Err(_) => None,
    }
}

/// The kernel's own number of the event that wrote the frame at the front of bytes, for use before
/// its configuration is known, if all events have `PERF_SAMPLE_IDENTIFIER`: the first 8 bytes of a
/// SAMPLE's body, and the last 8 of another frame if the events have `sample_id_all`. `None` if no
/// whole frame is there, if it has fewer bytes, and for another frame written by a program, whose
/// type is 64 or more, or without `sample_id_all`.
pub fn identifier<E: Endian>(bytes: &[u8], order: &E, sample_id_all: bool) -> Option<u64>
    ensures place { result ≡ place.first_identifier (E.order order.now) sample_id_all bytes.now }
    ensures read { place.has_whole (E.order order.now) bytes.now ≡ true →
        place.carries_identifier sample_id_all (header_of (E.order order.now) bytes.now).type_ ≡ true →
        IsIdentifierRead (E.order order.now) (header_of (E.order order.now) bytes.now)
        (place.first_rest (E.order order.now) bytes.now) result }
{
    let frame = first_whole(bytes, order)?;
    if sample_id_all || frame.header().type_ == PERF_RECORD_SAMPLE {
        frame.identifier(order)
    } else {
        None
    }
}
