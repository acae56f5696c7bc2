//! The words of `fold` and `flame`.

use crate::filters::add_filters;
use crate::words::{choice, file, flag, option};
use clap::{Arg, Command};
use std::alloc::{AllocError, Global};

/// The words of `fold`.
pub fn fold<'a>(alloc: Global) -> Result<Command<'a>, AllocError> {
    let merge = flag(
        alloc,
        "merge",
        "Adds up files of such lines, in place of a file of `perf record`",
    );
    let command = Command::new(alloc, "fold")
        .about("Prints a line for each stack: its frames from the outermost on, and its count")
        .arg(merge)?;
    add_stack_words(alloc, command)?.arg(file(alloc).num_args(1..))
}

/// The words of `flame`.
pub fn flame<'a>(alloc: Global) -> Result<Command<'a>, AllocError> {
    let folded = flag(
        alloc,
        "folded",
        "FILE has lines of stacks, as `fold` prints them",
    );
    let inverted = flag(alloc, "inverted", "Draws from the innermost frames on");
    let command = Command::new(alloc, "flame")
        .about("Prints a flame graph, an SVG")
        .arg(folded)?
        .arg(inverted)?;
    add_stack_words(alloc, command)?.arg(file(alloc))
}

// Adds the words that choose what is folded of a file of `perf record`.
fn add_stack_words<'a>(alloc: Global, command: Command<'a>) -> Result<Command<'a>, AllocError> {
    let command = command.arg(frames(alloc))?.arg(weight(alloc))?;
    add_filters(alloc, command)
}

fn frames<'a>(alloc: Global) -> Arg<'a> {
    choice(
        option(
            alloc,
            "frames",
            "NAMES",
            "What frames are named by: files and offsets in them, or files alone",
        ),
        &["offsets", "file"],
        "offsets",
    )
}

fn weight<'a>(alloc: Global) -> Arg<'a> {
    choice(
        option(
            alloc,
            "weight",
            "WEIGHT",
            "What is counted: samples, or their periods",
        ),
        &["samples", "period"],
        "samples",
    )
}
