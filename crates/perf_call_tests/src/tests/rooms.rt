//! The capacity of the list of a run's frames.

use crate::tests::checks::check_same;
use perf_event_data::endian::Little;
use perf_event_data::parse::{ParseBuf, ParseConfig, ParseResult, Parser};
use perf_event_data::sys::perf_event_header;
use perf_event_data::{PieceBuf, Record, read_records};
use perf_test_helpers::drops::drop_run;
use perf_test_inputs::bytes::{FIVE_LOST, TWO};
use std::alloc::Global;
use std::io::BufReader;
use std::mem::size_of;
use std::process::Abort;
use std::test::Fail;

// How many frames a run over a buffer lists, and the capacity of its list.
fn room<'p, B: ParseBuf<'p> + Drop>(alloc: Global, buf: B, limit: usize) -> (usize, usize) {
    let mut parser = Parser::new(alloc, buf, ParseConfig::<Little>::default());
    let run = read_records(&mut parser, limit);
    let room = (run.frames.len(), run.frames.capacity());
    drop_run(run);
    room
}

// The same over a slice, a buffered reader and pieces.
fn rooms(alloc: Global, bytes: &[u8], limit: usize) -> Result<[(usize, usize); 3], Fail> {
    let reader = BufReader::with_capacity(alloc, 8192, bytes)?;
    let over_reader = room(alloc, reader, limit);
    let over_pieces = room(alloc, PieceBuf::new(bytes, 7, false), limit);
    Ok([room(alloc, bytes, limit), over_reader, over_pieces])
}

// Bytes and a limit with which nothing is listed: no bytes, and two frames with a limit of none.
const OF_NOTHING: [(&[u8], usize); 5] = [
    (&[], 0),
    (&[], 1),
    (&[], 256),
    (&[], usize::MAX),
    (&TWO, 0),
];

#[test]
fn a_list_of_nothing_has_no_room(rt: HostRuntime) -> Result<(), Fail> {
    for &(bytes, limit) in &OF_NOTHING {
        let actual = rooms(rt.alloc(), bytes, limit)?;
        check_same(&rt, "the rooms", actual, [(0, 0); 3]);
    }
    Ok(())
}

// Capacity for a result is reserved before anything of its frame is taken, and so before it is seen
// that the header is cut.
#[test]
fn a_part_of_a_header_has_room_for_one(rt: HostRuntime) -> Result<(), Fail> {
    let actual = rooms(rt.alloc(), &[13, 0, 0], 10)?;
    check_same(&rt, "the rooms", actual, [(0, 1); 3]);
    Ok(())
}

// The size in bytes of a list of four frames, each with its header and its record: the least
// capacity that a list grows to.
const MOST: usize = 1248;

fn check_one(rt: &impl Abort, (count, room): (usize, usize)) {
    let size = size_of::<(perf_event_header, ParseResult<Record<'_>>)>();
    let actual = (count, room.saturating_mul(size) <= MOST);
    check_same(
        rt,
        "how many are listed, in at most that many bytes",
        actual,
        (1, true),
    );
}

#[test]
fn a_list_of_one_frame_has_little_room(rt: HostRuntime) -> Result<(), Fail> {
    for &limit in &[1, 10, 256, usize::MAX] {
        for actual in rooms(rt.alloc(), &FIVE_LOST, limit)? {
            check_one(&rt, actual);
        }
    }
    Ok(())
}
