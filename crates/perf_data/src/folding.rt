//! The commands over folded stacks.

use crate::ending::report;
use crate::filters::{Chosen, refuse_times};
use crate::{bytes_of, note_progress};
use clap::ArgMatches;
use perf_flame::names::Frames;
use perf_fold::{
    Choice, Form, TextError, Weight, status_after, status_after_sum, write_fold, write_sum,
};
use perf_lines::outcome::Outcome;
use perf_walk::Filter;
use std::io;

/// Prints the folded stacks of the file that the words of `fold` name, or the sums of files of such,
/// and returns the exit status.
pub fn fold(rt: &HostRuntime, words: &ArgMatches<'_>) -> io::Result<u8> {
    if words.get_flag("merge") {
        print_sum(rt, words, Form::Lines)
    } else {
        print_fold(rt, words, Form::Lines)
    }
}

/// Prints the flame graph of the file that the words of `flame` name, and returns the exit status.
pub fn flame(rt: &HostRuntime, words: &ArgMatches<'_>) -> io::Result<u8> {
    let form = if words.get_flag("inverted") {
        Form::Inverted
    } else {
        Form::Flame
    };
    if words.get_flag("folded") {
        print_sum(rt, words, form)
    } else {
        print_fold(rt, words, form)
    }
}

// How a recording is folded, by the words.
fn choice<'a>(words: &ArgMatches<'_>, filter: Filter<'a>) -> Choice<'a> {
    Choice {
        frames: match words.get_str("frames") {
            Some("file") => Frames::Files,
            _ => Frames::Offsets,
        },
        weight: match words.get_str("weight") {
            Some("period") => Weight::Period,
            _ => Weight::Samples,
        },
        filter,
    }
}

// Prints the folded stacks of a file of `perf record` in a form.
fn print_fold(rt: &HostRuntime, words: &ArgMatches<'_>, form: Form) -> io::Result<u8> {
    let Some([path]) = words.get_strs("FILE") else {
        eprintln!(rt; "perf_data: more than one file, which only `--merge` adds up")?;
        return Ok(2);
    };
    let Some(chosen) = Chosen::of(rt.alloc(), words)? else {
        return refuse_times(rt);
    };
    let bytes = bytes_of(rt, path)?;
    note_progress(rt, path, bytes.len())?;
    let how = choice(words, chosen.filter());
    let mut output = rt.stdout();
    let ended = write_fold(rt.alloc(), &bytes, how, form, &mut output);
    report(rt, path, &ended)?;
    Ok(status_after(&ended))
}

// Prints the sums of files in a form.
fn print_sum(rt: &HostRuntime, words: &ArgMatches<'_>, form: Form) -> io::Result<u8> {
    let Some(paths) = words.get_strs("FILE") else {
        return Ok(2);
    };
    let texts = texts_of(rt, paths)?;
    let mut output = rt.stdout();
    let ended = write_sum(rt.alloc(), &texts, form, &mut output);
    report(rt, path_of(paths, &ended), &ended)?;
    Ok(status_after_sum(&ended))
}

// The bytes of files.
fn texts_of(rt: &HostRuntime, paths: &[&str]) -> io::Result<Vec<Vec<u8>>> {
    let mut texts = Vec::new(rt.alloc());
    for path in paths {
        texts.push(bytes_of(rt, path)?)?;
    }
    Ok(texts)
}

// The file that is refused: the first, if it is all of them.
fn path_of<'a>(paths: &[&'a str], ended: &Result<Outcome, TextError>) -> &'a str {
    let index = match ended {
        Err(TextError::BadLine { text, line: _ }) => *text,
        _ => 0,
    };
    match paths.get(index) {
        Some(path) => path,
        None => "-",
    }
}
