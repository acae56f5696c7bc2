//! Drops of values that contain a record or a sample. How one is dropped is proved anew in each
//! crate that drops one, so the tests pass such values to these functions.

use perf_parser::parse::ParseResult;
use perf_parser::{Run, RunEnd};
use perf_records::record::Record;
use perf_sample_types::sample::Sample;

/// Drops a record, or why there is none.
pub fn drop_record(answer: ParseResult<Record<'_>>) {
    drop(answer);
}

/// Drops a sample.
pub fn drop_sample(sample: Sample<'_>) {
    drop(sample);
}

/// Drops a run.
pub fn drop_run(run: Run<'_>) {
    drop(run);
}

/// The end of a run, whose frames are dropped.
pub fn end_of(run: Run<'_>) -> RunEnd {
    let Run { frames, end } = run;
    drop(frames);
    end
}
