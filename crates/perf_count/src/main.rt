//! Counts the records that Linux wrote for performance events.
//!
//! `perf_count little|big|native [attr]` reads records from standard input, in the byte order that
//! is named, and prints one line of three numbers: how many frames there are, how many of them were
//! refused, and a checksum of the others. With `attr` the input begins with an attribute, which
//! determines how the records after it are read. No record is printed, so its run time measures
//! parsing alone; and none is kept, so its memory is 1 MB of the input and one frame, however long
//! the input is.
//!
//! The checksum is the sum, modulo 2^64, of the type and the size in the header of each frame that
//! was not refused, and of what its record has: of MMAP and MMAP2 `pid`, `tid`, `addr`, `len`,
//! `pgoff` and the length of the file's name; of COMM `pid`, `tid` and the length of the name; of
//! EXIT and FORK `pid`, `ppid`, `tid`, `ptid` and `time`; of LOST `id` and `lost`; of LOST_SAMPLES
//! `lost`; of SAMPLE, as far as they are present, `ip`, `pid`, `tid`, `time`, `period`, the numbers of
//! the call chain and the length of the raw bytes. Other records add nothing of their own.
//!
//! The exit status is 0 if no frame was refused and the input ended after one, 2 for other arguments,
//! and 1 otherwise. Why the attribute was refused, or why the input was not read to its end, is
//! printed on standard error, and without `attr` what to try if a frame was refused. `--help` alone
//! prints the usage, with the status 0.
#![tactic(auto)]

use anyhow::{Result, bail};
use perf_event_data::RunEnd;
use perf_event_data::endian::{Big, Little, Native};
use perf_event_data::parse::{ErrorKind, ParseError, ParseResult};
use perf_reports::counts::Counts;
use perf_reports::printing::no_attribute;
use perf_reports::streams::count_stream;
use perf_text::args::unlimited_command;
use perf_text::command::Command;
use perf_text::order::OrderName;
use perf_text::usage::print_usage;
use std::alloc::Global;
use std::env;
use std::io::{BufReader, Read};
use std::process::ExitCode;

// What is printed for `--help` and for arguments that are not known.
const USAGE: &str = "usage: perf_count little|big|native [attr] < STREAM
Prints how many frames there are, how many of them were refused, and a checksum of the others.
With attr the stream begins with an attribute, as examples/perf-data-to-stream.sh writes it.
Status: 0 if no frame was refused, 1 if one was or on an error, 2 for other arguments.";

// What to try if what is read without an attribute may be no records.
const NO_RECORDS: &str = "perf_count: if the input begins with an attribute, add the word attr; if \
    it is a file of `perf record`, use perf_data";

// How many bytes are read at a time. A frame has fewer than 65,536, so that few frames lie across two
// reads and have to be assembled.
const INPUT_ROOM: usize = 1 << 20;

fn main(rt: HostRuntime) -> Result<ExitCode> {
    let words: Vec<String> = env::args(&rt)?.skip(1).collect(rt.alloc())?;
    let Some(command) = unlimited_command(&words) else {
        return Ok(ExitCode::from(print_usage(&rt, &words, USAGE)?));
    };
    let input = BufReader::with_capacity(rt.alloc(), INPUT_ROOM, rt.stdin())?;
    let with_attr = command.with_attr;
    let (counts, end) = match count_command(rt.alloc(), input, command) {
        Ok((_, RunEnd::Fault(error))) if error.kind() == ErrorKind::External => bail_with(error)?,
        Ok(result) => result,
        Err(error) => bail_with(error)?,
    };
    let Counts {
        records,
        refused,
        checksum,
    } = counts;
    println!(rt; "{records} {refused} {checksum}")?;
    if !with_attr && (refused > 0 || matches!(end, RunEnd::CutHeader)) {
        // If standard error fails, the status alone reports it.
        let _ = rt.eprintln(NO_RECORDS);
    }
    match end {
        RunEnd::Limit | RunEnd::Done if refused == 0 => Ok(ExitCode::SUCCESS),
        RunEnd::Limit | RunEnd::Done => Ok(ExitCode::FAILURE),
        RunEnd::CutHeader => bail!("the input ends inside a header"),
        RunEnd::Fault(error) => Err(error.into()),
    }
}

// Counts an input in the order that is named.
fn count_command<R: Read + Drop>(
    alloc: Global,
    input: BufReader<R>,
    command: Command,
) -> ParseResult<(Counts, RunEnd)> {
    match command.order {
        OrderName::Little => count_stream(alloc, input, Little, command.with_attr),
        OrderName::Big => count_stream(alloc, input, Big, command.with_attr),
        OrderName::Native => count_stream(alloc, input, Native, command.with_attr),
    }
}

// Fails with an error, or with its cause if the reader returned one.
fn bail_with(error: ParseError) -> Result<(Counts, RunEnd)> {
    match error.cause() {
        Some(cause) => bail!("{cause}"),
        None => Err(no_attribute(error)),
    }
}
