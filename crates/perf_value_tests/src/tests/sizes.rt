//! The sizes of values that are made for each read.

use crate::tests::checks::check_debug;
use perf_base::{ReadCounter, Refusal};
use std::mem::size_of;

#[test]
fn a_count_of_reads_takes_no_bytes_and_a_refusal_two(rt: HostRuntime) {
    let sizes = (size_of::<ReadCounter>(), size_of::<Refusal>());
    check_debug(&rt, sizes, "(0, 2)");
}
