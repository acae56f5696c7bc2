//! Calls that read several frames, a frame in two pieces, and what is known of a frame.

use crate::tests::checks::check_debug;
use perf_event_data::endian::{Dynamic, Little};
use perf_event_data::parse::ParseConfig;
use perf_flat::attr::read_attr;
use perf_flat::config::FlatConfig;
use perf_flat::frame::FlatFrame;
use perf_flat::read::{SplitEnd, identifier, read, read_body, read_many, read_split};
use std::alloc::Global;
use std::process::Abort;

// The thread 7 of the process 5 is called `sh`, a header whose size is below its own, and the
// beginning of a header.
const STREAM: &[u8] =
    b"\x03\0\0\0\0\x20\x18\0\x05\0\0\0\x07\0\0\0sh\0\0\0\0\0\0\x03\0\0\0\0\0\x07\0\x03\0\0\0\0";

// The flat frame of a header alone.
fn blank(rt: &(impl AllocGlobal + Abort)) -> FlatFrame {
    match read(rt.alloc(), &ParseConfig::<Little>::default(), &STREAM[24..]) {
        Some(frame) => frame,
        None => panic!(rt; "no frame"),
    }
}

#[test]
fn many_frames_end_by_room_by_bytes_or_in_a_header(rt: HostRuntime) {
    let config = ParseConfig::<Little>::default();
    let mut frames = [blank(&rt); 3];
    let mut one = [blank(&rt)];
    let cut = read_many(rt.alloc(), &config, STREAM, &mut frames);
    let (number, reason) = (frames[0].numbers[1], frames[1].reason);
    let full = read_many(rt.alloc(), &config, STREAM, &mut one);
    let done = read_many(rt.alloc(), &config, &STREAM[..20], &mut frames);
    check_debug(
        &rt,
        (number, reason, [cut, full, done]),
        "(7, 1, [Ended { count: 2, taken: 32, how: 2 }, Ended { count: 1, taken: 24, how: 0 }, \
            Ended { count: 1, taken: 20, how: 1 }])",
    );
}

// Reads the frame at the front of two pieces.
fn split(
    alloc: Global,
    first: &[u8],
    second: &[u8],
    room: &mut [u8],
    frame: &mut FlatFrame,
) -> SplitEnd {
    let config = ParseConfig::<Little>::default();
    read_split(alloc, &config, first, second, room, frame)
}

#[test]
fn a_frame_in_two_pieces_is_copied_if_it_is_in_both(rt: HostRuntime) {
    let (mut frame, mut room) = (blank(&rt), [1; 24]);
    let (front, back) = STREAM.split_at(10);
    let small = split(rt.alloc(), front, back, &mut room[..23], &mut frame);
    let read = split(rt.alloc(), front, back, &mut room, &mut frame);
    check_debug(
        &rt,
        (small, read, frame.spans[0], [room[16], room[17], room[18]]),
        "(SplitEnd { how: 3, at: 0 }, SplitEnd { how: 0, at: 1 }, Span { at: 16, len: 2 }, [115, 104, 0])",
    );
}

// Pieces without a frame in both, and how a read of them ends.
const APART: [(&[u8], &[u8], &str); 3] = [
    (&[], STREAM, "SplitEnd { how: 0, at: 0 }"),
    (&[], &[], "SplitEnd { how: 1, at: 0 }"),
    (&[3, 0, 0], &[0, 0, 32, 24], "SplitEnd { how: 2, at: 0 }"),
];

#[test]
fn a_frame_in_one_piece_is_read_there(rt: HostRuntime) {
    let mut frame = blank(&rt);
    let whole = split(
        rt.alloc(),
        &STREAM[..24],
        &STREAM[24..],
        &mut [],
        &mut frame,
    );
    check_debug(&rt, whole, "SplitEnd { how: 0, at: 0 }");
    for &(first, second, want) in &APART {
        let end = split(rt.alloc(), first, second, &mut [], &mut frame);
        check_debug(&rt, end, want);
    }
}

// A SAMPLE whose first eight bytes are 5, and a COMM of the thread 2, called `a`, which ends with
// the number 6.
const SAMPLE: &[u8] = b"\x09\0\0\0\0\0\x18\0\x05\0\0\0\0\0\0\0\x07\0\0\0\0\0\0\0";

const COMM: &[u8] = b"\x03\0\0\0\0\0\x20\0\x02\0\0\0\x02\0\0\0a\0\0\0\0\0\0\0\x06\0\0\0\0\0\0\0";

#[test]
fn an_identifier_is_first_in_a_sample_and_last_in_another_frame(rt: HostRuntime) {
    let found = (
        identifier(SAMPLE, &Little, false),
        identifier(COMM, &Little, true),
        identifier(COMM, &Little, false),
        identifier(&COMM[..31], &Little, true),
    );
    check_debug(&rt, found, "(Some(5), Some(6), None, None)");
}

// An attribute of 64 bytes: IP, TID and TIME of a sample, and `sample_id_all`.
const ATTR: &[u8] = b"\0\0\0\0\x40\0\0\0\0\0\0\0\0\0\0\0\0\0\0\0\0\0\0\0\x07\0\0\0\0\0\0\0\
    \0\0\0\0\0\0\0\0\0\0\x04\0\0\0\0\0\0\0\0\0\0\0\0\0\0\0\0\0\0\0\0\0";

#[test]
fn an_attribute_gives_a_configuration(rt: HostRuntime) {
    match read_attr(rt.alloc(), ATTR, Dynamic::Little) {
        Ok((flat, taken)) => {
            let numbers = numbers_of(&flat);
            check_debug(&rt, (taken, numbers), "(64, (1, 0, [7, 0, 262144, 0]))");
            check_debug(&rt, configs_of(&flat), "[Some(true), None]");
        }
        Err(_) => panic!(rt; "refused"),
    }
}

fn numbers_of(flat: &FlatConfig) -> (u32, u32, [u64; 4]) {
    let numbers = [
        flat.sample_type,
        flat.read_format,
        flat.flags,
        flat.branch_sample_type,
    ];
    (flat.version, flat.order, numbers)
}

// Whether each frame ends with a sample id, under a flat configuration, and under the same one of another
// version, if they are one.
fn configs_of(flat: &FlatConfig) -> [Option<bool>; 2] {
    let other = FlatConfig {
        version: 2,
        ..*flat
    };
    [has_ids(flat), has_ids(&other)]
}

fn has_ids(flat: &FlatConfig) -> Option<bool> {
    match flat.config() {
        Some(config) => Some(config.sample_id_all()),
        None => None,
    }
}

#[test]
fn a_body_is_read_without_its_header(rt: HostRuntime) {
    let config = ParseConfig::<Little>::default();
    let mut frame = blank(&rt);
    let read = read_body(rt.alloc(), &config, 3, 0x2000, &STREAM[8..24], &mut frame);
    let numbers = [frame.numbers[0], frame.numbers[1]];
    check_debug(
        &rt,
        (read, frame.size, numbers, frame.spans[0]),
        "(true, 24, [5, 7], Span { at: 16, len: 2 })",
    );
}
