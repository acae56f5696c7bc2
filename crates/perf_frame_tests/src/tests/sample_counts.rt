//! Samples that claim more than there is.

use crate::tests::checks::check_text;
use bitflags::Flags;
use perf_event_data::parse::ParseBuf;
use perf_event_data::sys::perf_event_attr;
use perf_event_data::{PieceBuf, SampleFlags};
use perf_test_helpers::attributes::attribute;
use perf_test_helpers::sample_bytes::Part::{self, Bytes, U32, U64};
use perf_test_helpers::sample_bytes::frames_of;
use perf_test_inputs::orders::Counting;
use perf_test_runs::perfrec::Perfrec;
use perf_test_runs::text_of_runs_under;
use std::alloc::{AllocError, Global};
use std::cell::Cell;
use std::io::BufReader;
use std::process::Abort;
use std::test::Fail;

// Branch stacks have the hardware's index.
const HW_INDEX: u64 = 1 << 17;

// Among them are counts whose product with 8 or with 24 is small modulo 2^64.
const HOSTILE: [u64; 13] = [
    4,
    1 << 31,
    1 << 32,
    (1 << 61) - 1,
    1 << 61,
    (1 << 61) + 1,
    u64::MAX / 3,
    u64::MAX / 3 + 1,
    u64::MAX / 24 + 1,
    1 << 62,
    1 << 63,
    u64::MAX - 1,
    u64::MAX,
];

// Whether a run's first frame is refused, whether at least one 64-bit number is made from it, if there
// may be any, and whether at most `most` are.
fn text_of_conversions<'p, B: ParseBuf<'p> + Drop>(
    alloc: Global,
    buf: B,
    attr: &perf_event_attr,
    most: u64,
) -> Result<String, AllocError> {
    let calls = Cell::new(0);
    let text = text_of_runs_under(alloc, &Perfrec, buf, Counting::new(&calls), attr, &[1])?;
    let is_refused = text.ends_with(" refused Eof; limit");
    let (are_any, are_within) = (calls.get() >= most.min(1), calls.get() <= most);
    format!(in alloc; "{is_refused} {are_any} {are_within}")
}

// Asserts that at most `most` numbers are made from a frame of this body, and at least one if there
// may be any.
fn check_most(
    rt: &(impl AllocGlobal + Abort),
    attr: &perf_event_attr,
    first: Part,
    rest: &[Part],
    most: u64,
) -> Result<(), Fail> {
    let alloc = rt.alloc();
    let bytes = frames_of(alloc, first, rest)?;
    let reader = BufReader::with_capacity(alloc, 1, bytes.as_slice())?;
    let pieces = PieceBuf::new(&bytes, 1, false);
    check_text(
        rt,
        text_of_conversions(alloc, bytes.as_slice(), attr, most),
        ALL,
    );
    check_text(rt, text_of_conversions(alloc, reader, attr, most), ALL);
    check_text(rt, text_of_conversions(alloc, pieces, attr, most), ALL);
    Ok(())
}

const ALL: &str = "true true true";

const THREE_BYTES: &[Part] = &[Bytes(b"\x01\x02\x03")];

const FOUR_NUMBERS: &[Part] = &[U64(1), U64(2), U64(3), U32(4)];

// A sample type, a read format, which branches are asked for, what comes after a count, and how
// many 64-bit numbers there may be with it. Bytes are no numbers.
const BODIES: [(SampleFlags, u64, u64, &[Part], u64); 8] = [
    (SampleFlags::CALLCHAIN, 0, 0, &[U64(1)], 2),
    (SampleFlags::BRANCH_STACK, 0, 0, &[U64(1)], 2),
    (SampleFlags::BRANCH_STACK, 0, HW_INDEX, &[U64(1)], 2),
    (SampleFlags::READ, 0x08, 0, &[U64(1)], 2),
    (SampleFlags::STACK_USER, 0, 0, THREE_BYTES, 1),
    (SampleFlags::AUX, 0, 0, THREE_BYTES, 1),
    (SampleFlags::CALLCHAIN, 0, 0, FOUR_NUMBERS, 4),
    (SampleFlags::BRANCH_STACK, 0, 0, FOUR_NUMBERS, 4),
];

fn check_count(rt: &(impl AllocGlobal + Abort), count: u64) -> Result<(), Fail> {
    for &(sample_type, read_format, branch_sample_type, rest, most) in &BODIES {
        let mut attr = attribute(sample_type.bits(), read_format);
        attr.branch_sample_type = branch_sample_type;
        check_most(rt, &attr, U64(count), rest, most)?;
    }
    Ok(())
}

#[test]
fn a_hostile_count_converts_no_more_than_the_numbers_of_its_body(
    rt: HostRuntime,
) -> Result<(), Fail> {
    for &count in &HOSTILE {
        check_count(&rt, count)?;
    }
    let attr = attribute(SampleFlags::RAW.bits(), 0);
    check_most(&rt, &attr, U32(u32::MAX), &[U64(1), U64(2)], 0)
}
