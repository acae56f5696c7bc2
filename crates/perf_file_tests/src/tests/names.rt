//! The names of events: by the descriptions of a file, and by the numbers of their attributes.

use crate::tests::checks::{Told, check_told};
use crate::tests::files::{BIG, BIG_WORDS, SMALL, WORDS, big, little};
use std::alloc::{AllocError, Global};
use std::process::Abort;

fn check_names(rt: &(impl AllocGlobal + Abort), bytes: Result<Vec<u8>, AllocError>, want: &str) {
    check_told(rt, bytes, Told::Names, want);
}

// The table of the features 3 and 12, and the descriptions: of the second event and of the first one,
// each with an attribute, how many ids it has, the length of its name, the name, and an id.
const DESCRIPTIONS: [u64; 29] = [
    // where the feature 3 is, and how many bytes it has
    0,
    0,
    // the feature 12
    456,
    200,
    // two descriptions, with attributes of 64 bytes
    2 + (64 << 32),
    1 + (64 << 32),
    2,
    0,
    0,
    0,
    0,
    0,
    0,
    1 + (16 << 32),
    // `-faults`, and zeros
    0x0073_746c_7561_662d,
    0,
    21,
    1 + (64 << 32),
    0,
    0,
    0,
    0,
    0,
    0,
    0,
    1 + (8 << 32),
    // `cpu`, an escape, a backslash, two bytes that are no UTF-8, and `u`
    0x75ff_c35c_1b75_7063,
    20,
    0,
];

// How many numbers the small file has with these.
const ALL: usize = WORDS + 29;

// The small file with the descriptions, of which one number is another.
fn described(alloc: Global, place: usize, number: u64) -> Result<Vec<u8>, AllocError> {
    let changes = [(9, (1 << 3) + (1 << 12)), (place, number)];
    little(alloc, &SMALL, &DESCRIPTIONS, &changes)
}

const DESCRIBED: &str = "cpu\\x1b\\x5c\\xc3\\xffu\n-faults\n";

const ONLY_THE_SECOND: &str = "cpu-clock\n-faults\n";

const NOT_DESCRIBED: &str = "cpu-clock\npage-faults\n";

#[test]
fn described_by_the_first_id(rt: HostRuntime) {
    check_names(&rt, described(rt.alloc(), ALL, 0), DESCRIBED);
}

// What the descriptions state, and which names are left.
const LIES: [(usize, u64, &str); 13] = [
    // the file has only another feature
    (9, 1 << 3, NOT_DESCRIBED),
    // the table states the feature 12 first, and no bytes of it
    (9, 1 << 12, NOT_DESCRIBED),
    // perf was killed
    (6, 0, NOT_DESCRIBED),
    // the feature ends beyond the file
    (WORDS + 2, 1 << 20, NOT_DESCRIBED),
    (WORDS + 3, 201, NOT_DESCRIBED),
    // it ends one byte before the second description does
    (WORDS + 3, 191, ONLY_THE_SECOND),
    // the number of descriptions
    (WORDS + 4, 1 + (64 << 32), ONLY_THE_SECOND),
    (WORDS + 4, 0xffff_ffff + (64 << 32), DESCRIBED),
    // the size of their attributes
    (WORDS + 4, 2 + (63 << 32), NOT_DESCRIBED),
    // the length of a name, and the number of its ids
    (WORDS + 13, 1 + (0xffff_ffff << 32), NOT_DESCRIBED),
    (WORDS + 13, 0xffff_ffff + (16 << 32), NOT_DESCRIBED),
    // a name without bytes
    (WORDS + 14, 0, "cpu\\x1b\\x5c\\xc3\\xffu\npage-faults\n"),
    // two descriptions of the first event
    (WORDS + 16, 20, "-faults\npage-faults\n"),
];

#[test]
fn a_description_that_lies(rt: HostRuntime) {
    for &(place, number, want) in &LIES {
        check_names(&rt, described(rt.alloc(), place, number), want);
    }
}

// The type and the config of the first event, and the names.
const NUMBERS: [(u64, u64, &str); 8] = [
    (0, 9, "ref-cycles\npage-faults\n"),
    (0, 10, "type 0 config 0xa\npage-faults\n"),
    (1, 11, "cgroup-switches\npage-faults\n"),
    (3, 0x1_0000, "L1-dcache-load-misses\npage-faults\n"),
    (3, 0x1_0202, "LLC-prefetch-misses\npage-faults\n"),
    (3, 5, "branch-loads\npage-faults\n"),
    (3, 0x101, "type 3 config 0x101\npage-faults\n"),
    (4, 0x1a8, "type 4 config 0x1a8\npage-faults\n"),
];

// The small file with that type and config of its first event.
fn with_numbers(alloc: Global, ty: u64, config: u64) -> Result<Vec<u8>, AllocError> {
    little(alloc, &SMALL, &[], &[(15, ty | 64 << 32), (16, config)])
}

#[test]
fn names_by_numbers(rt: HostRuntime) {
    for &(ty, config, want) in &NUMBERS {
        check_names(&rt, with_numbers(rt.alloc(), ty, config), want);
    }
}

// Of a big-endian file the feature 12, and the description of an event without ids.
const TICK: [u64; 13] = [
    240,
    88,
    (1 << 32) + 64,
    (1 << 32) + 64,
    0,
    0,
    0,
    0,
    0,
    0,
    0,
    8,
    // `tick`, and zeros
    0x7469_636b_0000_0000,
];

// The big-endian file with that description, of the event with that config.
fn with_tick(alloc: Global, config: u64) -> Result<Vec<u8>, AllocError> {
    big(alloc, &BIG, &TICK, &[(9, 1 << 12), (BIG_WORDS + 4, config)])
}

#[test]
fn described_without_ids(rt: HostRuntime) {
    check_names(&rt, with_tick(rt.alloc(), 0), "tick\n");
    check_names(&rt, with_tick(rt.alloc(), 7), "cpu-clock\n");
}
