//! Words of each kind.

use clap::{Arg, ArgAction};
use std::alloc::Global;

/// The word for the file.
pub fn file<'a>(alloc: Global) -> Arg<'a> {
    Arg::new(alloc, "FILE")
        .required(true)
        .help("A file, or - for standard input")
}

/// An option without a value.
pub fn flag<'a>(alloc: Global, name: &'a str, help: &'a str) -> Arg<'a> {
    Arg::new(alloc, name)
        .long(name)
        .action(ArgAction::SetTrue)
        .help(help)
}

/// An option with a value, for which help has `value`.
pub fn option<'a>(alloc: Global, name: &'a str, value: &'a str, help: &'a str) -> Arg<'a> {
    Arg::new(alloc, name)
        .long(name)
        .value_name(value)
        .help(help)
}

/// An option with one of `values`.
pub fn choice<'a>(option: Arg<'a>, values: &'a [&'a str], default: &'a str) -> Arg<'a> {
    option.value_parser(values).default_value(default)
}
