//! The lines of frames.

use crate::drops::drop_record;
use perf_base::sys::perf_event_header;
use perf_counters::ReadGroup;
use perf_parser::parse::{ParseError, ParseResult};
use perf_records::record::Record;
use perf_sample_types::registers::Registers;
use perf_sample_types::sample::Sample;
use std::alloc::AllocError;

/// Writes the lines of frames. (`perf_test_runs` implements it by `perf_run`, so that this crate is
/// proved beside that one.)
pub trait WriteLine {
    /// Appends the line of a frame in `perfrec`, without a line feed.
    fn write_line(
        &self,
        text: &mut String,
        index: usize,
        header: &perf_event_header,
        answer: &ParseResult<Record<'_>>,
    ) -> Result<(), AllocError>;
}

/// Writes the line of a frame in `perfrec`, and what that leaves out.
pub fn write_frame<L: WriteLine>(
    text: &mut String,
    lines: &L,
    index: usize,
    header: &perf_event_header,
    answer: &ParseResult<Record<'_>>,
) -> Result<(), AllocError> {
    lines.write_line(text, index, header, answer)?;
    write_left_out(text, answer)
}

/// Writes the frame of a record, and drops it.
pub fn write_last_frame<L: WriteLine>(
    text: &mut String,
    lines: &L,
    index: usize,
    header: &perf_event_header,
    answer: ParseResult<Record<'_>>,
) -> Result<(), AllocError> {
    let written = write_frame(text, lines, index, header, &answer);
    drop_record(answer);
    written
}

/// Writes the kind of an error.
pub fn write_error(text: &mut String, error: &ParseError) -> Result<(), AllocError> {
    write!(text, "{:?}", error.kind())
}

// Writes what a line leaves out: the type of an unknown record, and some fields of a sample.
fn write_left_out(text: &mut String, answer: &ParseResult<Record<'_>>) -> Result<(), AllocError> {
    match answer {
        Ok(Record::Unknown { ty, .. }) => write!(text, " ty={ty}"),
        Ok(Record::Sample(sample)) => write_counts(text, sample),
        _ => Ok(()),
    }
}

// Writes the number of counters in a sample's group, and which registers it has.
fn write_counts(text: &mut String, sample: &Sample<'_>) -> Result<(), AllocError> {
    write_count(text, sample.values())?;
    write_mask(text, " user_mask=", sample.regs_user())?;
    write_mask(text, " intr_mask=", sample.regs_intr())
}

fn write_count(text: &mut String, group: Option<&ReadGroup<'_>>) -> Result<(), AllocError> {
    match group {
        Some(group) => write!(text, " counters={}", group.len()),
        None => Ok(()),
    }
}

fn write_mask(
    text: &mut String,
    before: &str,
    registers: Option<&Registers<'_>>,
) -> Result<(), AllocError> {
    match registers {
        Some(registers) => write!(text, "{before}{:#x}", registers.mask),
        None => Ok(()),
    }
}
