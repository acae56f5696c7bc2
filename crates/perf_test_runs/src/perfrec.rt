//! The lines of `perfrec`, as the tests and `perf_replay` write them.

use perf_base::sys::perf_event_header;
use perf_parser::parse::ParseResult;
use perf_records::record::Record;
use perf_run::line_of;
use perf_test_helpers::lines::WriteLine;
use std::alloc::AllocError;

/// Writes the lines of `perfrec`.
#[derive(Copy, Clone)]
pub struct Perfrec;

impl WriteLine for Perfrec {
    fn write_line(
        &self,
        text: &mut String,
        index: usize,
        header: &perf_event_header,
        answer: &ParseResult<Record<'_>>,
    ) -> Result<(), AllocError> {
        match line_of(*text.allocator(), index, header, answer) {
            Ok(line) => text.push_str(line.as_str()),
            Err(_) => Err(AllocError),
        }
    }
}
