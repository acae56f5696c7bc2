//! Prints the samples of a recording: when, where, and by which calls each was taken.
//!
//! `perf_samples` reads an attribute and the records after it from standard input, in little
//! endian, and prints a line for each SAMPLE record: `TIME CPU PID/TID PERIOD ADDR IP: CHAIN`. ADDR,
//! IP and the addresses of CHAIN are hexadecimal, with `kernel` or `user` before them for whose they
//! are. A field that is absent is `-`. Lines keep the order of the input, which need not be that of
//! time. Why a record was refused is printed on standard error, and the exit status is then 1, as it
//! is if the attribute is refused, the input cannot be read, or it ends inside a header. The only
//! argument is `--help`, which prints the usage; others have the status 2.
#![tactic(auto)]

use anyhow::Result;
use perf_reports::printing::{Report, print_recording};
use perf_text::usage::print_usage;
use std::env;
use std::process::ExitCode;

// What is printed for `--help` and for other arguments.
const USAGE: &str = "usage: perf_samples < STREAM
Prints a line for each SAMPLE record, in the order of the stream:
TIME CPU PID/TID PERIOD ADDR IP: CHAIN
STREAM is an attribute and the records after it, as examples/perf-data-to-stream.sh writes them.
Status: 0 if no record was refused, 1 if one was or on an error, 2 for arguments.";

fn main(rt: HostRuntime) -> Result<ExitCode> {
    let words: Vec<String> = env::args(&rt)?.skip(1).collect(rt.alloc())?;
    if !words.is_empty() {
        return Ok(ExitCode::from(print_usage(&rt, &words, USAGE)?));
    }
    let (mut output, mut errors) = (rt.stdout(), rt.stderr());
    let input = rt.stdin();
    if print_recording(rt.alloc(), input, &mut output, &mut errors, Report::Samples)? {
        Ok(ExitCode::SUCCESS)
    } else {
        Ok(ExitCode::FAILURE)
    }
}
