//! Sample ids, and what is known of a frame besides its record.

use crate::tests::checks::check_text;
use bitflags::Flags;
use perf_event_data::endian::Little;
use perf_event_data::parse::ParseConfig;
use perf_event_data::sys::perf_event_attr;
use perf_event_data::{SampleFlags, SampleId};
use perf_test_helpers::attributes::{attribute, bits_of, ids_attribute};
use std::alloc::{AllocError, Global};

// The fields that a sample id may have.
const FIELDS: [SampleFlags; 6] = [
    SampleFlags::TID,
    SampleFlags::TIME,
    SampleFlags::ID,
    SampleFlags::STREAM_ID,
    SampleFlags::CPU,
    SampleFlags::IDENTIFIER,
];

fn length(attr: perf_event_attr) -> usize {
    SampleId::estimate_len(&ParseConfig::<Little>::from(attr))
}

// The lengths with all fields but without sample ids, with sample ids but without fields, and with
// all fields; and then with each field alone and with all others.
fn text_of_lengths(alloc: Global) -> Result<String, AllocError> {
    let all = bits_of(&FIELDS);
    let whole = [
        length(attribute(all, 0)),
        length(ids_attribute(0)),
        length(ids_attribute(all)),
    ];
    let mut text = format!(in alloc; "{whole:?}")?;
    for &field in &FIELDS {
        let (alone, others) = (field.bits(), all & !field.bits());
        let parts = [length(ids_attribute(alone)), length(ids_attribute(others))];
        write!(text, " {parts:?}")?;
    }
    Ok(text)
}

#[test]
fn a_sample_id_has_eight_bytes_for_each_flag(rt: HostRuntime) {
    let want = "[0, 0, 48] [8, 40] [8, 40] [8, 40] [8, 40] [8, 40] [8, 40]";
    check_text(&rt, text_of_lengths(rt.alloc()), want);
}
