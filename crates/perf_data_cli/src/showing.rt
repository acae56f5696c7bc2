//! The words of `events`, `dump` and `summary`.

use crate::words::{choice, file, flag, option};
use clap::{Arg, Command};
use std::alloc::{AllocError, Global};

/// The words of `events`.
pub fn events<'a>(alloc: Global) -> Result<Command<'a>, AllocError> {
    let header = flag(
        alloc,
        "header",
        "Also prints the machine, its kernel, the command, build ids, and sample times",
    );
    Command::new(alloc, "events")
        .about("Prints a line for each event")
        .arg(header)?
        .arg(file(alloc))
}

/// The words of `dump`.
pub fn dump<'a>(alloc: Global) -> Result<Command<'a>, AllocError> {
    Command::new(alloc, "dump")
        .about("Prints a line for each frame")
        .arg(order(alloc))?
        .arg(file(alloc))
}

/// The words of `summary`.
pub fn summary<'a>(alloc: Global) -> Result<Command<'a>, AllocError> {
    Command::new(alloc, "summary")
        .about("Prints what is counted of each event and of each type of record")
        .arg(flag(alloc, "json", "As one line of JSON"))?
        .arg(file(alloc))
}

fn order<'a>(alloc: Global) -> Arg<'a> {
    choice(
        option(alloc, "order", "ORDER", "In which order"),
        &["file", "time"],
        "file",
    )
}
