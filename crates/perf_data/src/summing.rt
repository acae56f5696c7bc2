//! The command `summary`.

use clap::ArgMatches;
use perf_file::OpenError;
use perf_lines::outcome::Outcome;
use perf_summary::run::{Form, run};
use std::alloc::Global;
use std::io::Write;

/// Writes the summary of the bytes of a file in the form that the words of `summary` name.
pub fn sum<W: Write>(
    alloc: Global,
    bytes: &[u8],
    words: &ArgMatches<'_>,
    writer: &mut W,
) -> Result<Outcome, OpenError> {
    let form = if words.get_flag("json") {
        Form::Json
    } else {
        Form::Text
    };
    run(alloc, bytes, writer, form)
}
