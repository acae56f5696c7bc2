//! Flat frames.

use crate::tests::checks::check_debug;
use bitflags::Flags;
use perf_event_data::endian::Little;
use perf_event_data::parse::ParseConfig;
use perf_flat::frame::{FlatFrame, Span};
use perf_flat::read::{read, read_into};
use perf_words::SampleFlags;
use std::alloc::Global;
use std::mem::size_of;
use std::process::Abort;

// The thread 7 of the process 5 is called `sh`, as it executed that.
const COMM: &[u8] = b"\x03\0\0\0\0\x20\x18\0\x05\0\0\0\x07\0\0\0sh\0\0\0\0\0\0";

// The thread 7 of the process 5 has two namespaces, of the device 4 and the inodes 21 and 22.
const NAMESPACES: &[u8] = b"\x10\0\0\0\0\0\x38\0\x05\0\0\0\x07\0\0\0\x02\0\0\0\0\0\0\0\
\x04\0\0\0\0\0\0\0\x15\0\0\0\0\0\0\0\x04\0\0\0\0\0\0\0\x16\0\0\0\0\0\0\0";

// In the thread 7 of the process 5, at the address 4096 and the time 9: a call chain of 4096 and 8192, and
// the raw bytes `abcd`.
const SAMPLE: &[u8] =
    b"\x09\0\0\0\0\0\x40\0\0\x10\0\0\0\0\0\0\x05\0\0\0\x07\0\0\0\x09\0\0\0\0\0\0\0\
\x02\0\0\0\0\0\0\0\0\x10\0\0\0\0\0\0\0\x20\0\0\0\0\0\0\x04\0\0\0abcd";

// The thread 7 of the process 5 has no name.
const UNNAMED: &[u8] = b"\x03\0\0\0\0\0\x18\0\x05\0\0\0\x07\0\0\0\0\0\0\0\0\0\0\0";

// It mapped what has no name, and a build id of no bytes.
const UNNAMED_MAPPING: &[u8] = b"\x0A\0\0\0\0\x40\x50\0\x05\0\0\0\x07\0\0\0\
\0\x10\0\0\0\0\0\0\0\x20\0\0\0\0\0\0\0\0\0\0\0\0\0\0\0\0\0\0\0\0\0\0\0\0\0\0\0\0\0\0\0\0\0\0\0\0\0\0\
\x05\0\0\0\x02\0\0\0\0\0\0\0\0\0\0\0";

// A header whose size is below its own.
const SMALL: &[u8] = b"\x03\0\0\0\0\0\x07\0";

// The header, what was read or why nothing was, the first three numbers and the first span.
fn parts_of(frame: &FlatFrame) -> ([u32; 3], [u32; 3], [u64; 3], [u32; 2]) {
    let header = [frame.type_, u32::from(frame.misc), u32::from(frame.size)];
    let answer = [
        frame.read,
        u32::from(frame.refusal),
        u32::from(frame.reason),
    ];
    let numbers = [frame.numbers[0], frame.numbers[1], frame.numbers[2]];
    let span = frame.spans[0];
    (header, answer, numbers, [span.at, span.len])
}

// The parts of the flat frame at the front of bytes.
fn flat_parts(alloc: Global, bytes: &[u8]) -> Option<([u32; 3], [u32; 3], [u64; 3], [u32; 2])> {
    let config = ParseConfig::<Little>::default();
    match read(alloc, &config, bytes) {
        Some(frame) => Some(parts_of(&frame)),
        None => None,
    }
}

// Frames, also one that is cut, and half a header, and their parts.
const PARTS: [(&[u8], &str); 5] = [
    (COMM, "Some(([3, 8192, 24], [3, 0, 0], [5, 7, 0], [16, 2]))"),
    (
        NAMESPACES,
        "Some(([16, 0, 56], [16, 0, 0], [5, 7, 2], [24, 32]))",
    ),
    (
        b"\x03\0\0\0\0\x20\x18\0\x05\0\0\0\x07\0\0\0sh\0\0",
        "Some(([3, 8192, 24], [0, 1, 0], [0, 0, 0], [0, 0]))",
    ),
    (SMALL, "Some(([3, 0, 7], [0, 2, 1], [0, 0, 0], [0, 0]))"),
    (b"\x03\0\0\0\0\0\x07", "None"),
];

#[test]
fn a_flat_frame_has_numbers_and_spans(rt: HostRuntime) {
    for &(bytes, want) in &PARTS {
        check_debug(&rt, flat_parts(rt.alloc(), bytes), want);
    }
}

// Where the first two byte strings of a record are.
fn string_places(alloc: Global, bytes: &[u8]) -> Option<[Span; 2]> {
    match read(alloc, &ParseConfig::<Little>::default(), bytes) {
        Some(frame) => Some([frame.spans[0], frame.spans[1]]),
        None => None,
    }
}

// Records with strings of no bytes, and their places.
const STRINGS: [(&[u8], &str); 2] = [
    (
        UNNAMED,
        "Some([Span { at: 16, len: 0 }, Span { at: 0, len: 0 }])",
    ),
    (
        UNNAMED_MAPPING,
        "Some([Span { at: 72, len: 0 }, Span { at: 44, len: 0 }])",
    ),
];

#[test]
fn a_string_of_no_bytes_has_its_place(rt: HostRuntime) {
    for &(bytes, want) in &STRINGS {
        check_debug(&rt, string_places(rt.alloc(), bytes), want);
    }
}

// Which fields a sample has, its task and its time, its address, and where its lists and raw bytes are.
fn sample_parts(alloc: Global, bytes: &[u8]) -> Option<([u64; 5], [u32; 4])> {
    // IP, TID, TIME, CALLCHAIN and RAW.
    let sample_type = SampleFlags::from_bits_retain(0x427);
    let config = ParseConfig::<Little>::default().with_sample_type(sample_type);
    match read(alloc, &config, bytes) {
        Some(frame) => Some(parts_of_sample(&frame)),
        None => None,
    }
}

fn parts_of_sample(frame: &FlatFrame) -> ([u64; 5], [u32; 4]) {
    let (pid, tid) = (u64::from(frame.pid), u64::from(frame.tid));
    let (chain, raw) = (frame.spans[0], frame.spans[5]);
    (
        [frame.present, pid, tid, frame.time, frame.numbers[0]],
        [chain.at, chain.len, raw.at, raw.len],
    )
}

#[test]
fn a_sample_has_its_lists_in_place(rt: HostRuntime) {
    let parts = sample_parts(rt.alloc(), SAMPLE);
    check_debug(&rt, parts, "Some(([1063, 5, 7, 9, 4096], [40, 16, 60, 4]))");
}

#[test]
fn a_frame_is_written_in_place_or_left_as_it_was(rt: HostRuntime) {
    let config = ParseConfig::<Little>::default();
    let Some(mut frame) = read(rt.alloc(), &config, NAMESPACES) else {
        panic!(rt; "no header");
    };
    let absent = read_into(&config, &COMM[..7], &mut frame);
    let same = parts_of(&frame);
    let comm = read_into(&config, COMM, &mut frame);
    let record = parts_of(&frame);
    let small = read_into(&config, SMALL, &mut frame);
    check_debug(
        &rt,
        ((absent, same), (comm, record), (small, parts_of(&frame))),
        "((false, ([16, 0, 56], [16, 0, 0], [5, 7, 2], [24, 32])), \
         (true, ([3, 8192, 24], [3, 0, 0], [5, 7, 0], [16, 2])), \
         (true, ([3, 0, 7], [0, 2, 1], [0, 0, 0], [0, 0])))",
    );
}

#[test]
fn a_flat_frame_has_320_bytes(rt: HostRuntime) {
    check_debug(&rt, size_of::<FlatFrame>(), "320");
}
