//! What is found in files that open.

use crate::tests::checks::{Told, check_told};
use crate::tests::files::{BIG, SMALL, big, little};
use perf_file::Recording;
use perf_file::listing::header_of;
use std::alloc::{AllocError, Global};

/// Writes a line for each frame: the offset, the type, the length of the payload, the owner.
pub fn write_frames(text: &mut String, recording: &Recording<'_>) -> Result<(), AllocError> {
    for found in recording.frames() {
        let ty = header_of(&found.frame).type_;
        let len = found.payload.len();
        write!(text, "{} {ty} {len} {:?}\n", found.at, found.owner)?;
    }
    Ok(())
}

// Writes a line for each entry by time.
fn write_entries(
    text: &mut String,
    alloc: Global,
    recording: &Recording<'_>,
) -> Result<(), AllocError> {
    for entry in &recording.in_order(alloc)? {
        write!(text, "{} {} {:?}\n", entry.time, entry.at, entry.owner)?;
    }
    Ok(())
}

// Writes a line for each event: its flags, and whether `sample_id_all` is one.
fn write_flags(text: &mut String, recording: &Recording<'_>) -> Result<(), AllocError> {
    for event in recording.events() {
        let flags = event.attr().flags;
        write!(text, "flags {flags} {}\n", event.config().sample_id_all())?;
    }
    Ok(())
}

/// Writes the order of bytes, whether perf closed the file, and the lines of its events, its frames, and its
/// entries by time.
pub fn write_lines(
    text: &mut String,
    alloc: Global,
    recording: &Recording<'_>,
) -> Result<(), AllocError> {
    write!(text, "{:?}\n", (recording.order(), recording.is_closed()))?;
    write_flags(text, recording)?;
    write_frames(text, recording)?;
    write_entries(text, alloc, recording)
}

/// Writes the names of the events, a line for each.
pub fn write_names(text: &mut String, recording: &Recording<'_>) -> Result<(), AllocError> {
    for event in recording.events() {
        write!(text, "{}\n", event.name())?;
    }
    Ok(())
}

// What is found in the small file, after the order of bytes. `sample_id_all` is the flag 18, and is set for
// both events.
macro_rules! found {
    ($first:literal) => {
        concat!(
            $first,
            "flags 262144 true
flags 262144 true
280 9 0 Event(1)
304 3 0 Event(0)
344 71 16 Perf
384 68 0 Perf
392 9 0 Unknown(99)
416 9 0 Short
0 344 Perf
0 384 Perf
0 392 Unknown(99)
0 416 Short
500 304 Event(0)
1000 280 Event(1)
"
        )
    };
}

#[test]
fn frames_and_their_order(rt: HostRuntime) {
    let bytes = little(rt.alloc(), &SMALL, &[], &[]);
    check_told(&rt, bytes, Told::Lines, found!("(Little, true)\n"));
}

// perf was killed: the size of the data is 0, and the features do not count.
#[test]
fn data_extend_to_the_end_if_perf_was_killed(rt: HostRuntime) {
    let bytes = little(rt.alloc(), &SMALL, &[], &[(6, 0), (9, 1 << 27)]);
    check_told(&rt, bytes, Told::Lines, found!("(Little, false)\n"));
}

// The event has `sample_id_all`, whose bit is the 18th from the lowest.
const BIG_LINES: &str = "(Big, true)
flags 262144 true
184 3 0 Event(0)
216 9 0 Event(0)
0 216 Event(0)
600 184 Event(0)
";

#[test]
fn a_big_endian_file(rt: HostRuntime) {
    let bytes = big(rt.alloc(), &BIG, &[], &[]);
    check_told(&rt, bytes, Told::Lines, BIG_LINES);
}
