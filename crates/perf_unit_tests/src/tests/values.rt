//! Single values.

use crate::tests::checks::check_text;
use perf_event_data::sys::{
    PERF_RECORD_EXIT, PERF_RECORD_FORK, PERF_RECORD_LOST, PERF_RECORD_LOST_SAMPLES,
};
use perf_event_data::{Lost, LostSamples, Record, Sample, SampleFields};
use perf_test_runs::perfrec::Perfrec;
use perf_test_runs::write_debug_record;
use perf_test_texts::texts::write_last_record;
use std::alloc::{AllocError, Global};

fn text_of_records(alloc: Global) -> Result<String, AllocError> {
    let mut text = String::new(alloc);
    write_debug_record(&mut text, Ok(Record::from(Lost { id: 1, lost: 2 })))?;
    write_debug_record(&mut text, Ok(Record::from(LostSamples { lost: 3 })))?;
    Ok(text)
}

#[test]
fn a_record_is_made_from_what_it_holds(rt: HostRuntime) {
    let want = "Lost(Lost { id: 1, lost: 2 }); LostSamples(LostSamples { lost: 3 }); ";
    check_text(&rt, text_of_records(rt.alloc()), want);
}

// A sample of a process and a CPU.
fn text_of_sample(alloc: Global) -> Result<String, AllocError> {
    let mut fields = SampleFields::default();
    fields.pid = Some(5);
    fields.cpu = Some(6);
    let mut text = String::new(alloc);
    let answer = Record::from_sample(alloc, Sample::from_fields(fields));
    write_last_record(&mut text, &Perfrec, answer)?;
    Ok(text)
}

#[test]
fn a_sample_that_is_made_is_a_record(rt: HostRuntime) {
    check_text(&rt, text_of_sample(rt.alloc()), "Sample pid=5 cpu=6");
}

#[test]
fn types_have_the_numbers_of_the_kernel(rt: HostRuntime) {
    let numbers = [
        PERF_RECORD_LOST,
        PERF_RECORD_EXIT,
        PERF_RECORD_FORK,
        PERF_RECORD_LOST_SAMPLES,
    ];
    check_text(&rt, format!(in rt.alloc(); "{numbers:?}"), "[2, 4, 7, 13]");
}
