//! Prints the records of a recording about tasks: their names, what they mapped, when they began and
//! ended, their namespaces.
//!
//! `perf_tasks` reads an attribute and the records after it from standard input, in little endian,
//! and prints a line for each COMM, MMAP, MMAP2, FORK, EXIT and NAMESPACES record. Lines keep the
//! order of the input, which need not be that of time. Why a record was refused is printed on standard
//! error, and the exit status is then 1, as it is if the attribute is refused, the input cannot be
//! read, or it ends inside a header. The only argument is `--help`, which prints the usage; others
//! have the status 2.
#![tactic(auto)]

use anyhow::Result;
use perf_reports::printing::{Report, print_recording};
use perf_text::usage::print_usage;
use std::env;
use std::process::ExitCode;

// What is printed for `--help` and for other arguments.
const USAGE: &str = "usage: perf_tasks < STREAM
Prints a line for each COMM, MMAP, MMAP2, FORK, EXIT and NAMESPACES record, in the stream's order.
STREAM is an attribute and the records after it, as examples/perf-data-to-stream.sh writes them.
Status: 0 if no record was refused, 1 if one was or on an error, 2 for arguments.";

fn main(rt: HostRuntime) -> Result<ExitCode> {
    let words: Vec<String> = env::args(&rt)?.skip(1).collect(rt.alloc())?;
    if !words.is_empty() {
        return Ok(ExitCode::from(print_usage(&rt, &words, USAGE)?));
    }
    let (mut output, mut errors) = (rt.stdout(), rt.stderr());
    let input = rt.stdin();
    if print_recording(rt.alloc(), input, &mut output, &mut errors, Report::Tasks)? {
        Ok(ExitCode::SUCCESS)
    } else {
        Ok(ExitCode::FAILURE)
    }
}
