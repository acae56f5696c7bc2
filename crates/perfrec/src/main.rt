//! Prints the records that Linux wrote for performance events, a line each.
//!
//! `perfrec little|big|native LIMIT [attr]` reads records from standard input, in the byte order
//! that is named, and writes at most LIMIT lines to standard output, and a last one that states how
//! reading ended. LIMIT is one or more of the digits 0 to 9, with a value of at most 2^64 - 1. With
//! `attr` the input begins with an attribute, which determines how the records after it are read.
//! For any other arguments, `--help` too, it reads nothing, and prints one line with the usage on
//! standard error and nothing on standard output.
//!
//! The exit status is 0 if every record could be read, 1 if one was refused or the input ends inside
//! a header, 2 if the attribute was refused and for other arguments, and 3 if reading, writing or
//! an allocation failed. With 2 and 3 the reason is printed on standard error, and with 1 what to try
//! if there is no `attr`. If the arguments themselves cannot be read, nothing is printed, and the
//! status is 3.
#![tactic(auto)]

ghost use Rattle.std.specs.Prelude.{◌≡◌};

use perf_event_data::endian::{Big, Endian, Little, Native};
use perf_lines::outcome::Outcome;
use perf_run::run;
use perf_text::args::command;
use perf_text::command::Command;
use perf_text::order::OrderName;
use std::process::ExitCode;
use std::{env, io};

// The line that is printed for arguments that are no command.
const USAGE: &str = "usage: perfrec little|big|native LIMIT [attr]";

// How many bytes are read at a time.
const PIECE: usize = 8192;

fn main(rt: HostRuntime) -> ExitCode {
    let Ok(words) = words_of(&rt) else {
        return ExitCode::from(Outcome::Faulted.status());
    };
    let Some(command) = command(&words) else {
        return ExitCode::from(print_usage(&rt));
    };
    let outcome = match command.order {
        OrderName::Little => run_command(&rt, Little, command),
        OrderName::Big => run_command(&rt, Big, command),
        OrderName::Native => run_command(&rt, Native, command),
    };
    if let Some(why) = reason(outcome, command.with_attr) {
        // If standard error fails, the status alone reports it.
        let _ = rt.eprintln(why);
    }
    ExitCode::from(outcome.status())
}

// Prints the usage on standard error, and returns the exit status for arguments that are no command.
// If standard error fails, the status alone reports it.
fn print_usage(rt: &impl Eprint) -> u8
    ensures { result ≡ 2 }
{
    let _ = rt.eprintln(USAGE);
    2
}

// Why there may be fewer lines than records. What is refused without an attribute may be no records.
fn reason(outcome: Outcome, with_attr: bool) -> Option<&'static str> {
    match outcome {
        Outcome::Refused if !with_attr => Some(
            "perfrec: if the input begins with an attribute, add the word attr; if it is a file of \
             `perf record`, use perf_data",
        ),
        Outcome::Clean | Outcome::Refused => None,
        Outcome::BadAttr => Some(
            "perfrec: the input does not begin with an attribute; if it is a file of `perf record`, \
             use perf_data",
        ),
        Outcome::Faulted => Some(
            "perfrec: the input cannot be read to its end, as the last line says",
        ),
        Outcome::Stopped => Some("perfrec: the output cannot be written, or an allocation failed"),
    }
}

// The arguments after the program's name.
fn words_of(rt: &HostRuntime) -> io::Result<Vec<String>> {
    let words = env::args(rt)?.skip(1).collect(rt.alloc())?;
    Ok(words)
}

// Runs on the standard streams. The input is not buffered twice, and the text is written as it is.
fn run_command<E: Endian>(rt: &HostRuntime, order: E, command: Command) -> Outcome {
    let mut output = rt.stdout();
    let Command {
        limit,
        with_attr,
        ..
    } = command;
    run(
        rt.alloc(),
        rt.stdin(),
        &mut output,
        order,
        limit,
        with_attr,
        PIECE,
    )
}
