//! What `perf record` writes to a pipe.

use crate::tests::checks::{Told, check_refusal, check_told};
use crate::tests::files::little;
use crate::tests::opened::write_frames;
use perf_base::ErrorKind;
use perf_file::{EscapedBytes, OpenError, Recording};
use std::alloc::{AllocError, Global};

pub const WORDS: usize = 55;

// A pipe of two events with the sample type TIME and IDENTIFIER. A header is the type, `misc` from bit
// 32 on, and the size from bit 48 on.
pub const PIPE: [u64; WORDS] = [
    // the head: magic and its size
    0x3245_4c49_4652_4550,
    16,
    // a HEADER_ATTR: type and size, config, period, sample type, read format, flags, two more, and an id
    64 + (80 << 48),
    1 + (64 << 32),
    0,
    4000,
    0x10004,
    0,
    1 << 18,
    0,
    0,
    20,
    // the second one
    64 + (80 << 48),
    1 + (64 << 32),
    2,
    4000,
    0x10004,
    0,
    1 << 18,
    0,
    0,
    21,
    // two EVENT_UPDATE of kind 2: `one` and `two` for the second event
    78 + (32 << 48),
    2,
    21,
    0x0065_6e6f,
    78 + (32 << 48),
    2,
    21,
    0x006f_7774,
    // one of kind 0, a unit
    78 + (32 << 48),
    0,
    21,
    0x0063_6573,
    // two HEADER_FEATURE: the name of the machine, `host` and then `new`
    80 + (32 << 48),
    3,
    4 + (0x7473_6f68 << 32),
    0,
    80 + (32 << 48),
    3,
    3 + (0x0077_656e << 32),
    0,
    // a SAMPLE: its id and its time
    9 + (2 << 32) + (24 << 48),
    21,
    1000,
    // an AUXTRACE with 16 bytes of payload
    71 + (24 << 48),
    16,
    0,
    0x0909_0909_0909_0909,
    0x0909_0909_0909_0909,
    // a COMM: process and thread, a name, and the sample id with its time and its id
    3 + (40 << 48),
    7 + (7 << 32),
    0x6873,
    500,
    20,
];

// Writes the events by their names, and how many ids each has.
fn write_events(text: &mut String, recording: &Recording<'_>) -> Result<(), AllocError> {
    for event in recording.events() {
        write!(text, "{} {}\n", event.name(), event.ids().len())?;
    }
    Ok(())
}

// Writes the times of the entries by time that have one, and where they are.
fn write_times(
    text: &mut String,
    alloc: Global,
    recording: &Recording<'_>,
) -> Result<(), AllocError> {
    for entry in &recording.in_order(alloc)? {
        if entry.time > 0 {
            write!(text, "{} {}\n", entry.time, entry.at)?;
        }
    }
    Ok(())
}

/// Writes the name of the machine, the events, the frames, and the times.
pub fn write_pipe(
    text: &mut String,
    alloc: Global,
    recording: &Recording<'_>,
) -> Result<(), AllocError> {
    match recording.hostname() {
        Ok(Some(name)) => write!(text, "{}\n", EscapedBytes(name))?,
        _ => text.push_str("-\n")?,
    }
    write_events(text, recording)?;
    write_frames(text, recording)?;
    write_times(text, alloc, recording)
}

const LINES: &str = "new
cpu-clock 1
two 1
16 64 0 Perf
96 64 0 Perf
176 78 0 Perf
208 78 0 Perf
240 78 0 Perf
272 80 0 Perf
304 80 0 Perf
336 9 0 Event(1)
360 71 16 Perf
400 3 0 Event(0)
500 400
1000 336
";

#[test]
fn events_and_frames_of_a_pipe(rt: HostRuntime) {
    check_told(&rt, little(rt.alloc(), &PIPE, &[], &[]), Told::Pipe, LINES);
}

// Which number is another, and how many bytes are kept.
const REFUSED: [(usize, u64, usize, OpenError); 9] = [
    (0, 0x3345_4c49_4652_4550, ALL, OpenError::NotPerfData),
    (1, 24, ALL, OpenError::BadHead),
    // compressed frames come last, and count first
    (50, 81 + (40 << 48), ALL, OpenError::Compressed),
    (50, 83 + (40 << 48), ALL, OpenError::Compressed),
    (WORDS, 0, 16, OpenError::NoAttributes),
    (
        3,
        1 + (60 << 32),
        ALL,
        OpenError::BadAttribute(0, ErrorKind::InvalidRecord),
    ),
    (
        13,
        1 + (96 << 32),
        ALL,
        OpenError::BadAttribute(1, ErrorKind::Eof),
    ),
    (6, 4, ALL, OpenError::NoIdPlace),
    (21, 20, ALL, OpenError::SharedId(20)),
];

const ALL: usize = 8 * WORDS;

#[test]
fn each_refusal_of_a_pipe(rt: HostRuntime) {
    for &(place, number, kept, want) in &REFUSED {
        check_refusal(&rt, &PIPE, (place, number), kept, Some(want));
    }
}

// An attribute that is cut off is refused, also the second one; an event or a frame is not.
#[test]
fn each_cut_of_a_pipe(rt: HostRuntime) {
    for kept in 0..ALL {
        let want = match kept {
            0..=15 => Some(OpenError::NotPerfData),
            16..=23 => Some(OpenError::NoAttributes),
            24..=95 => Some(OpenError::BadAttribute(0, ErrorKind::Eof)),
            104..=175 => Some(OpenError::BadAttribute(1, ErrorKind::Eof)),
            _ => None,
        };
        check_refusal(&rt, &PIPE, (WORDS, 0), kept, want);
    }
}

// Two frames of build ids: a program's of process 7, of which 18 bytes count, `/bin/ls`, and the
// kernel's, `[k]`.
const BUILDS: [u64; 11] = [
    67 + (0x8002 << 32) + (48 << 48),
    7 + (0x0403_0201 << 32),
    0x0c0b_0a09_0807_0605,
    0x1413_1211_100f_0e0d,
    18 + (0x6e69_622f << 32),
    0x0073_6c2f,
    67 + (1 << 32) + (40 << 48),
    0xffff_ffff + (0xaaaa_aaaa << 32),
    0xaaaa_aaaa_aaaa_aaaa,
    0xaaaa_aaaa_aaaa_aaaa,
    3 + (0x005d_6b5b << 32),
];

// Which number of these frames is another, and the build ids then.
const BUILD_ROWS: [(usize, u64, &str); 6] = [
    (
        11,
        0,
        "32770 7 18 0102030405060708090a0b0c0d0e0f101112 /bin/ls;1 4294967295 20 aaaaaaaaaaaaaaaaaaaaaaaaaaaaaaaaaaaaaaaa [k];\n",
    ),
    // another type
    (
        0,
        68 + (48 << 48),
        "1 4294967295 20 aaaaaaaaaaaaaaaaaaaaaaaaaaaaaaaaaaaaaaaa [k];\n",
    ),
    // no path
    (
        6,
        67 + (1 << 32) + (36 << 48),
        "32770 7 18 0102030405060708090a0b0c0d0e0f101112 /bin/ls;1 4294967295 20 aaaaaaaaaaaaaaaaaaaaaaaaaaaaaaaaaaaaaaaa ;\n",
    ),
    // too few bytes, and a frame that is not whole
    (6, 67 + (1 << 32) + (35 << 48), "short\n"),
    (6, 67 + (1 << 32) + (48 << 48), "short\n"),
    // neither frame
    (0, 68 + (88 << 48), "-\n"),
];

#[test]
fn build_ids_of_a_pipe(rt: HostRuntime) {
    for &(place, number, want) in &BUILD_ROWS {
        let change = [(WORDS.saturating_add(place), number)];
        let bytes = little(rt.alloc(), &PIPE, &BUILDS, &change);
        check_told(&rt, bytes, Told::Builds, want);
    }
}
