//! Whole streams.

use crate::tests::checks::check_text;
use perf_event_data::endian::{Big, Dynamic, Endian, Little, Native};
use perf_event_data::sys::perf_event_attr;
use perf_test_runs::perfrec::Perfrec;
use perf_test_runs::runs_everywhere;
use std::alloc::{AllocError, Global};
use std::process::Abort;
use std::test::Fail;

// Asserts the runs over these bytes, over a slice, buffered readers and pieces.
fn check_everywhere<E: Endian + Copy>(
    rt: &(impl AllocGlobal + Abort),
    bytes: &[u8],
    endian: E,
    want: &str,
) {
    let attr = perf_event_attr::default();
    let actual = runs_everywhere(rt.alloc(), &Perfrec, bytes, endian, &attr, &[10]);
    check_text(rt, actual, want);
}

#[test]
fn every_order_reads_its_own_bytes(rt: HostRuntime) {
    let want = "0 13 0 16 LostSamples lost=5; done";
    let little = b"\x0D\0\0\0\0\0\x10\0\x05\0\0\0\0\0\0\0";
    check_everywhere(&rt, little, Little, want);
    check_everywhere(&rt, little, Native, want);
    check_everywhere(&rt, little, Dynamic::Little, want);
    let big = b"\0\0\0\x0D\0\0\0\x10\0\0\0\0\0\0\0\x05";
    check_everywhere(&rt, big, Big, want);
    check_everywhere(&rt, big, Dynamic::Big, want);
}

// The text of a frame of type 22 of the greatest size, whose body is all `AB`.
fn large_text(alloc: Global) -> Result<String, AllocError> {
    let mut text = String::new(alloc);
    text.push_str("0 22 0 65535 Unknown data=")?;
    for _ in 8..65535 {
        text.push_str("ab")?;
    }
    text.push_str(" ty=22; done")?;
    Ok(text)
}

#[test]
fn a_frame_of_the_greatest_size_is_read_whole(rt: HostRuntime) -> Result<(), Fail> {
    let mut bytes = b"\x16\0\0\0\0\0\xFF\xFF".to_vec(rt.alloc())?;
    bytes.resize(65535, 0xAB)?;
    let want = large_text(rt.alloc())?;
    check_everywhere(&rt, &bytes, Little, want.as_str());
    Ok(())
}
