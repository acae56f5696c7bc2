//! The command line of `perf_data`: its commands, and the words of each.
#![tactic(auto)]

mod filters;
mod folding;
mod showing;
mod words;

use crate::filters::script;
use crate::folding::{flame, fold};
use crate::showing::{dump, events, summary};
use clap::Command;
use std::alloc::{AllocError, Global};

// What is printed after the words.
const STATUSES: &str = "FILE is what `perf record` writes; `-` is standard input.
Status: 0 if no frame or feature is refused, 1 if one is, 2 if the file cannot be opened
or the words are wrong, 3 if reading, writing or an allocation fails.";

/// The words of the program: those of a command are after its name.
pub fn program<'a>(alloc: Global) -> Result<Command<'a>, AllocError> {
    let program = add_views(alloc, named(alloc))?;
    let program = program.subcommand(script(alloc)?)?;
    let program = program.subcommand(fold(alloc)?)?;
    program.subcommand(flame(alloc)?)
}

// The program without its commands.
fn named<'a>(alloc: Global) -> Command<'a> {
    Command::new(alloc, "perf_data")
        .about("Prints what is inside a file of `perf record`.")
        .after_help(STATUSES)
        .subcommand_required(true)
        .disable_help_subcommand(true)
}

// Adds the commands that print a whole file.
fn add_views<'a>(alloc: Global, program: Command<'a>) -> Result<Command<'a>, AllocError> {
    let program = program.subcommand(events(alloc)?)?;
    let program = program.subcommand(dump(alloc)?)?;
    program.subcommand(summary(alloc)?)
}
