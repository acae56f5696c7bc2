//! The words of `script`, and those that choose samples.

use crate::words::{file, flag, option};
use clap::{Arg, Command, value_parser};
use std::alloc::{AllocError, Global};

/// The words of `script`.
pub fn script<'a>(alloc: Global) -> Result<Command<'a>, AllocError> {
    let side_band = flag(
        alloc,
        "side-band",
        "Also a line for each record of tasks, mappings, losses, switches and symbols",
    );
    let command = Command::new(alloc, "script")
        .about("Prints the samples by time, as `perf script` does")
        .arg(fields(alloc))?
        .arg(side_band)?;
    add_filters(alloc, command)?.arg(file(alloc))
}

// Which fields are printed.
fn fields<'a>(alloc: Global) -> Arg<'a> {
    option(
        alloc,
        "fields",
        "FIELD,..",
        "Only these fields: comm, pid, tid, cpu, time, period, event, ip and dso",
    )
    .short('F')
    .value_delimiter(',')
}

/// Adds the words that choose samples.
pub fn add_filters<'a>(alloc: Global, command: Command<'a>) -> Result<Command<'a>, AllocError> {
    let command = add_filter(command, event(alloc))?;
    let command = add_filter(command, pid(alloc))?;
    let command = add_filter(command, comm(alloc)?)?;
    add_filter(command, time(alloc))
}

// Adds a word that makes no sense of lines of stacks, which no longer have what it chooses by.
fn add_filter<'a>(command: Command<'a>, word: Arg<'a>) -> Result<Command<'a>, AllocError> {
    let word = word.conflicts_with("merge")?;
    command.arg(word.conflicts_with("folded")?)
}

fn event<'a>(alloc: Global) -> Arg<'a> {
    option(
        alloc,
        "event",
        "NAME",
        "Only samples of events with this name",
    )
}

fn pid<'a>(alloc: Global) -> Arg<'a> {
    option(alloc, "pid", "PID,..", "Only samples of these processes")
        .value_parser(value_parser!(u32))
        .value_delimiter(',')
}

fn comm<'a>(alloc: Global) -> Result<Arg<'a>, AllocError> {
    option(
        alloc,
        "comm",
        "NAME,..",
        "Only samples of threads that have one of these names then",
    )
    .value_delimiter(',')
    .alias("comms")
}

fn time<'a>(alloc: Global) -> Arg<'a> {
    option(
        alloc,
        "time",
        "FROM,TO",
        "Only samples from one time to another, in seconds; either may be absent",
    )
}
