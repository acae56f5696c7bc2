//! Prints what is inside a file of `perf record`.
//!
//! `perf_data events FILE` prints a line for each event, with `--header` after lines of what perf states
//! about the machine and the command. `perf_data dump FILE` prints a line for each
//! frame in the order of the file, with `--order time` by time: what the line of `perfrec` has, and
//! after its number the offset of the frame in the file and its event. `perf_data summary FILE` prints
//! what is counted: a line of all frames, one for each event, each thread and each type of record, after
//! lines of what perf states about the machine and the command; with `--json` as one line of JSON.
//! `perf_data script FILE` prints the samples by time, as `perf script` does, with `-F` only some fields,
//! and with `--side-band` also lines of the other records.
//!
//! `perf_data fold FILE` prints the stacks of samples, and how many there are of each, with
//! `--weight period` the sum of their periods, and with `--frames file` without offsets.
//! `perf_data flame FILE` draws a flame graph of them, with `--inverted` from the innermost frames on.
//! `fold --merge FILE ..` adds up such lines, and `flame --folded FILE` draws them. For `script`, `fold` and
//! `flame`, `--event`, `--pid`, `--comm` and `--time` choose samples.
//!
//! A FILE of `-` is standard input. The whole file is read into memory, and all of its text is made
//! before any is written, but that of `script` is written in parts; of a large file a line on standard
//! error says so, if that is a terminal.
//!
//! The exit status is 0 if every frame and feature could be read, 1 if one was refused, 2 if the file is none of
//! `perf record` or damaged, and for other words, and 3 if reading, writing or an allocation failed.
//! With 2 and 3 the reason is printed on standard error. `--help` prints the words.
#![tactic(auto)]

mod ending;
mod filters;
mod folding;
mod scripting;
mod summing;

use crate::ending::report;
use clap::ArgMatches;
use perf_data_cli::program;
use perf_data_text::run::{Show, run, status_after};
use std::io::{IsTerminal, Read};
use std::process::ExitCode;
use std::{env, fs, io};

fn main(rt: HostRuntime) -> ExitCode {
    match try_main(&rt) {
        Ok(status) => ExitCode::from(status),
        Err(error) => {
            // If standard error fails, the status alone reports it.
            let _ = eprintln!(rt; "perf_data: {error}");
            ExitCode::from(3)
        }
    }
}

// Does what the words ask for, and returns the exit status.
fn try_main(rt: &HostRuntime) -> io::Result<u8> {
    let words: Vec<String> = env::args(rt)?.collect(rt.alloc())?;
    match program(rt.alloc())?.try_get_matches_from(words.as_slice()) {
        Ok(matches) => run_command(rt, &matches),
        Err(error) => {
            error.print(rt)?;
            Ok(if error.use_stderr() { 2 } else { 0 })
        }
    }
}

// What is shown for a command and its words.
fn shown(command: &str, words: &ArgMatches<'_>) -> Show {
    if command == "events" {
        return if words.get_flag("header") {
            Show::EventsWithHeader
        } else {
            Show::Events
        };
    }
    match words.get_str("order") {
        Some(order) => if order == "time" {
            Show::DumpByTime
        } else {
            Show::Dump
        },
        None => Show::Dump,
    }
}

// Runs the command that the words name, and returns the exit status.
fn run_command(rt: &HostRuntime, matches: &ArgMatches<'_>) -> io::Result<u8> {
    let Some((command, words)) = matches.subcommand() else {
        return Ok(2);
    };
    if command == "fold" {
        folding::fold(rt, words)
    } else if command == "flame" {
        folding::flame(rt, words)
    } else if command == "script" {
        scripting::script(rt, words)
    } else {
        show_file(rt, command, words)
    }
}

// Prints the file that the words name, and returns the exit status.
fn show_file(rt: &HostRuntime, command: &str, words: &ArgMatches<'_>) -> io::Result<u8> {
    let Some(path) = words.get_str("FILE") else {
        return Ok(2);
    };
    let bytes = bytes_of(rt, path)?;
    note_progress(rt, path, bytes.len())?;
    let mut output = rt.stdout();
    let ended = if command == "summary" {
        summing::sum(rt.alloc(), &bytes, words, &mut output)
    } else {
        run(rt.alloc(), &bytes, &mut output, shown(command, words))
    };
    report(rt, path, &ended)?;
    Ok(status_after(&ended))
}

// The bytes of a file, or of standard input.
pub(crate) fn bytes_of(rt: &HostRuntime, path: &str) -> io::Result<Vec<u8>> {
    if path != "-" {
        return fs::read(rt, path);
    }
    let mut bytes = Vec::new(rt.alloc());
    rt.stdin().read_to_end(&mut bytes)?;
    Ok(bytes)
}

// The size of a file whose text takes seconds to make.
const LARGE: usize = 1 << 28;

// Prints on standard error what a large file is waited for, if somebody looks.
pub(crate) fn note_progress(rt: &HostRuntime, path: &str, len: usize) -> io::Result<()> {
    if len < LARGE || !rt.stderr().is_terminal() {
        return Ok(());
    }
    let megabytes = len >> 20;
    eprintln!(rt; "perf_data: {path}: {megabytes} MiB are read, and their text is made")
}
