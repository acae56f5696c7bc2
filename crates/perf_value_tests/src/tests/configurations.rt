//! What a configuration keeps if one part of it changes.

use crate::tests::checks::{check_answer, check_debug};
use bitflags::Flags;
use perf_base::ParseConfig;
use perf_base::endian::{Dynamic, Little};
use perf_test_inputs::configurations::{full, write_config};
use perf_words::{ReadFormat, SampleFlags};
use std::alloc::{AllocError, Global};
use std::process::Abort;

fn text_of<E>(alloc: Global, config: &ParseConfig<E>) -> Result<String, AllocError> {
    let mut text = String::new(alloc);
    write_config(&mut text, config)?;
    Ok(text)
}

fn check_config<E>(rt: &(impl AllocGlobal + Abort), config: &ParseConfig<E>, want: &str) {
    check_answer(rt, text_of(rt.alloc(), config), want);
}

#[test]
fn another_order_keeps_all_flags_and_masks(rt: HostRuntime) {
    let config = full().with_misc(3).with_endian(Dynamic::Big);
    check_config(&rt, &config, "([65543, 13], [true, true], [17, 34], 3)");
    check_debug(&rt, *config.endian(), "Big");
}

// A part of a configuration that changes.
#[derive(Copy, Clone)]
enum Part {
    Misc(u16),
    SampleType(u64),
    ReadFormat(u64),
}

// A configuration of which that part changed.
fn with_part(part: Part) -> ParseConfig<Little> {
    let config = full().with_misc(7);
    match part {
        Part::Misc(misc) => config.with_misc(0x5555).with_misc(misc),
        Part::SampleType(bits) => config.with_sample_type(SampleFlags::from_bits_retain(bits)),
        Part::ReadFormat(bits) => config.with_read_format(ReadFormat::from_bits_retain(bits)),
    }
}

// Parts, and the texts of the configurations. Of a sample type 40 bits are kept; of a read format
// five are, and the next is set for all others.
const PARTS: [(Part, &str); 10] = [
    (Part::Misc(1), "([65543, 13], [true, true], [17, 34], 1)"),
    (
        Part::Misc(0x8000),
        "([65543, 13], [true, true], [17, 34], 32768)",
    ),
    (
        Part::Misc(0xFFFF),
        "([65543, 13], [true, true], [17, 34], 65535)",
    ),
    (
        Part::SampleType(0x2),
        "([2, 13], [true, true], [17, 34], 7)",
    ),
    (
        Part::SampleType(0xFF_FFFF_FFFF),
        "([1099511627775, 13], [true, true], [17, 34], 7)",
    ),
    (
        Part::SampleType(0x100_0000_0004),
        "([4, 13], [true, true], [17, 34], 7)",
    ),
    (
        Part::ReadFormat(0x2),
        "([65543, 2], [true, true], [17, 34], 7)",
    ),
    (
        Part::ReadFormat(0x1F),
        "([65543, 31], [true, true], [17, 34], 7)",
    ),
    (
        Part::ReadFormat(0x41),
        "([65543, 33], [true, true], [17, 34], 7)",
    ),
    (
        Part::ReadFormat(1 << 63),
        "([65543, 32], [true, true], [17, 34], 7)",
    ),
];

#[test]
fn another_part_keeps_the_rest(rt: HostRuntime) {
    for &(part, want) in &PARTS {
        check_config(&rt, &with_part(part), want);
    }
}
