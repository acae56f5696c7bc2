//! A file for each refusal.

use crate::tests::checks::check_refusal;
use crate::tests::files::{SMALL, WORDS};
use perf_base::ErrorKind;
use perf_file::{OpenError, Part};

// How many bytes the small file has.
const ALL: usize = 8 * WORDS;

const REFUSED: [(usize, u64, usize, OpenError); 22] = [
    (WORDS, 0, 15, OpenError::NotPerfData),
    (0, 0x3345_4c49_4652_4550, ALL, OpenError::NotPerfData),
    (0, 0x454c_4946_4652_4550, ALL, OpenError::OldFormat),
    (1, 96, ALL, OpenError::BadHead),
    (WORDS, 0, 103, OpenError::BadHead),
    (1, 16, ALL, OpenError::NoAttributes),
    (9, 1 << 24, ALL, OpenError::Directory),
    (9, 1 << 27, ALL, OpenError::Compressed),
    (3, 1 << 20, ALL, OpenError::PastEnd(Part::Attributes)),
    (4, u64::MAX - 7, ALL, OpenError::PastEnd(Part::Attributes)),
    (5, 1 << 20, ALL, OpenError::PastEnd(Part::Data)),
    (6, u64::MAX, ALL, OpenError::PastEnd(Part::Data)),
    (2, 79, ALL, OpenError::BadEntry),
    (2, 100, ALL, OpenError::BadEntry),
    (4, 0, ALL, OpenError::NoAttributes),
    (
        15,
        1 + (60 << 32),
        ALL,
        OpenError::BadAttribute(0, ErrorKind::InvalidRecord),
    ),
    (
        25,
        1 + (72 << 32),
        ALL,
        OpenError::BadAttribute(1, ErrorKind::Eof),
    ),
    (24, 7, ALL, OpenError::BadIds(0)),
    (33, 1 << 20, ALL, OpenError::PastEnd(Part::Ids(1))),
    (33, 104, ALL, OpenError::Overlap),
    (28, 4, ALL, OpenError::NoIdPlace),
    (14, 20, ALL, OpenError::SharedId(20)),
];

#[test]
fn each_refusal(rt: HostRuntime) {
    for &(place, number, kept, want) in &REFUSED {
        check_refusal(&rt, &SMALL, (place, number), kept, Some(want));
    }
}

// An entry of 160 bytes, whose attribute states 64.
#[test]
fn an_attribute_takes_its_whole_entry(rt: HostRuntime) {
    let want = OpenError::BadAttribute(0, ErrorKind::InvalidRecord);
    check_refusal(&rt, &SMALL, (2, 160), ALL, Some(want));
}

// The first 104 bytes are the head; all ids and attributes end at 280, and the data end with the
// file.
#[test]
fn each_cut_is_refused(rt: HostRuntime) {
    for kept in 0..ALL {
        let want = match kept {
            0..=15 => OpenError::NotPerfData,
            16..=103 => OpenError::BadHead,
            104..=279 => OpenError::PastEnd(Part::Attributes),
            _ => OpenError::PastEnd(Part::Data),
        };
        check_refusal(&rt, &SMALL, (WORDS, 0), kept, Some(want));
    }
}
