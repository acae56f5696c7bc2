//! How a run ended.

use perf_lines::outcome::Outcome;
use std::fmt::Display;
use std::io;

/// Prints on standard error why nothing, or not all, was printed of a file: it was refused, or the output
/// could not be written.
pub fn report<E: Display>(
    rt: &HostRuntime,
    path: &str,
    ended: &Result<Outcome, E>,
) -> io::Result<()> {
    match ended {
        Err(error) => eprintln!(rt; "perf_data: {path}: {error}"),
        Ok(Outcome::Stopped) => eprintln!(rt; "perf_data: the output cannot be written"),
        Ok(_) => Ok(()),
    }
}
