//! Counts that are worked out by hand.

use crate::tests::checks::check_same;
use perf_event_data::RunEnd;
use perf_event_data::endian::{Big, Little};
use perf_event_data::parse::ParseResult;
use perf_reports::counts::Counts;
use perf_reports::streams::count_stream;
use std::process::Abort;

// A stream, its byte order, whether it begins with an attribute, and what is counted. Each ends
// after a frame.
#[derive(Copy, Clone)]
struct Counted<'a> {
    name: &'a str,
    is_big: bool,
    with_attr: bool,
    input: &'a [u8],
    want: Counts,
}

const COUNTED: [Counted; 4] = [
    // The sum of the largest number and 3 is 2, modulo 2^64; the type is 2 and the size 24. So the
    // checksum is 2 + 2 + 24.
    Counted {
        name: "a checksum begins again at zero",
        is_big: false,
        with_attr: false,
        input: &[
            2, 0, 0, 0, 0, 0, 24, 0, 255, 255, 255, 255, 255, 255, 255, 255, 3, 0, 0, 0, 0, 0, 0, 0,
        ],
        want: Counts {
            records: 1,
            refused: 0,
            checksum: 28,
        },
    },
    // A LOST of 8 bytes has no space for its fields and is refused. A COMM (3 and 24) of process 5,
    // thread 6 and the name `sh` adds 3 + 24 + 5 + 6 + 2 = 40, an EXIT (4 and 32) of 1, 2, 3, 4 at
    // 100 adds 4 + 32 + 10 + 100 = 146, and four bytes of the unknown type 71 add 71 + 12 = 83.
    // Together they are 269.
    Counted {
        name: "a refused frame adds nothing",
        is_big: true,
        with_attr: false,
        input: &[
            0, 0, 0, 2, 0, 0, 0, 8, 0, 0, 0, 3, 0, 0, 0, 24, 0, 0, 0, 5, 0, 0, 0, 6, b's', b'h', 0,
            0, 0, 0, 0, 0, 0, 0, 0, 4, 0, 0, 0, 32, 0, 0, 0, 1, 0, 0, 0, 2, 0, 0, 0, 3, 0, 0, 0, 4,
            0, 0, 0, 0, 0, 0, 0, 100, 0, 0, 0, 71, 0, 0, 0, 12, 1, 2, 3, 4,
        ],
        want: Counts {
            records: 4,
            refused: 1,
            checksum: 269,
        },
    },
    // An attribute of 64 bytes: `sample_type` is IP and CALLCHAIN (33). The sample was at 7, and its
    // call chain has 10 and 20: it adds 9 + 40 + 7 + 10 + 20 = 86.
    Counted {
        name: "a sample adds its numbers",
        is_big: false,
        with_attr: true,
        input: &[
            0, 0, 0, 0, 64, 0, 0, 0, 0, 0, 0, 0, 0, 0, 0, 0, 0, 0, 0, 0, 0, 0, 0, 0, 33, 0, 0, 0,
            0, 0, 0, 0, 0, 0, 0, 0, 0, 0, 0, 0, 0, 0, 0, 0, 0, 0, 0, 0, 0, 0, 0, 0, 0, 0, 0, 0, 0,
            0, 0, 0, 0, 0, 0, 0, 9, 0, 0, 0, 0, 0, 40, 0, 7, 0, 0, 0, 0, 0, 0, 0, 2, 0, 0, 0, 0, 0,
            0, 0, 10, 0, 0, 0, 0, 0, 0, 0, 20, 0, 0, 0, 0, 0, 0, 0,
        ],
        want: Counts {
            records: 1,
            refused: 0,
            checksum: 86,
        },
    },
    // An attribute of 64 bytes: `sample_type` is TIME (4) and `sample_id_all` is set (bit 18 of the
    // flags). So the last eight bytes of the COMM are its sample id, and its name is `sh`: it adds 3
    // + 32 + 5 + 6 + 2 = 48.
    Counted {
        name: "a sample id adds nothing",
        is_big: false,
        with_attr: true,
        input: &[
            0, 0, 0, 0, 64, 0, 0, 0, 0, 0, 0, 0, 0, 0, 0, 0, 0, 0, 0, 0, 0, 0, 0, 0, 4, 0, 0, 0, 0,
            0, 0, 0, 0, 0, 0, 0, 0, 0, 0, 0, 0, 0, 4, 0, 0, 0, 0, 0, 0, 0, 0, 0, 0, 0, 0, 0, 0, 0,
            0, 0, 0, 0, 0, 0, 3, 0, 0, 0, 0, 0, 32, 0, 5, 0, 0, 0, 6, 0, 0, 0, b's', b'h', 0, 0, 0,
            0, 0, 0, 9, 9, 9, 9, 9, 9, 9, 9,
        ],
        want: Counts {
            records: 1,
            refused: 0,
            checksum: 48,
        },
    },
];

// The counts of a stream that ends after a frame.
fn whole(answer: ParseResult<(Counts, RunEnd)>) -> Option<Counts> {
    match answer {
        Ok((counts, RunEnd::Done)) => Some(counts),
        _ => None,
    }
}

// Asserts what is counted of a stream.
fn check_counted(rt: &(impl AllocGlobal + Abort), case: &Counted<'_>) {
    let answer = if case.is_big {
        count_stream(rt.alloc(), case.input, Big, case.with_attr)
    } else {
        count_stream(rt.alloc(), case.input, Little, case.with_attr)
    };
    check_same(rt, case.name, whole(answer), Some(case.want));
}

#[test]
fn streams_are_counted(rt: HostRuntime) {
    for case in &COUNTED {
        check_counted(&rt, case);
    }
}

// Each byte is 1, so that each frame has the type 0x01010101, which is unknown, and the size
// 0x0101: it adds 16,843,009 and 257, that is 16,843,266.
#[test]
fn many_frames_add_up(rt: HostRuntime) {
    let case = Counted {
        name: "300 frames",
        is_big: false,
        with_attr: false,
        input: &[1; 300 * 257],
        want: Counts {
            records: 300,
            refused: 0,
            checksum: 300 * 16_843_266,
        },
    };
    check_counted(&rt, &case);
}
