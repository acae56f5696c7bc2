//! The command `script`.

use crate::ending::report;
use crate::filters::{Chosen, refuse_times};
use crate::{bytes_of, note_progress};
use clap::ArgMatches;
use perf_script::{Fields, Style, is_field_name, status_after, write_script};
use std::io;

// Which fields the words choose: all without any. The first word that is none is refused.
fn fields_of<'a>(words: &ArgMatches<'a>) -> Result<Fields, &'a str> {
    let Some(names) = words.get_strs("fields") else {
        return Ok(Fields::default());
    };
    match Fields::named(names) {
        Some(fields) => Ok(fields),
        None => Err(first_bad(names)),
    }
}

// The first word that names no field.
fn first_bad<'a>(names: &[&'a str]) -> &'a str {
    for name in names {
        if !is_field_name(name) {
            return name;
        }
    }
    ""
}

// Prints on standard error that a word names no field, and returns the exit status.
fn refuse_field(rt: &HostRuntime, name: &str) -> io::Result<u8> {
    eprintln!(rt;
        "perf_data: `{name}` is no field: these are comm,pid,tid,cpu,time,period,event,ip,dso"
    )?;
    Ok(2)
}

/// Prints the samples, and if they are chosen the other records, of the file that the words of `script`
/// name, and returns the exit status.
pub fn script(rt: &HostRuntime, words: &ArgMatches<'_>) -> io::Result<u8> {
    let Some(path) = words.get_str("FILE") else {
        return Ok(2);
    };
    let Some(chosen) = Chosen::of(rt.alloc(), words)? else {
        return refuse_times(rt);
    };
    let fields = match fields_of(words) {
        Ok(fields) => fields,
        Err(name) => return refuse_field(rt, name),
    };
    let style = Style {
        fields,
        side_band: words.get_flag("side-band"),
    };
    let bytes = bytes_of(rt, path)?;
    note_progress(rt, path, bytes.len())?;
    let mut output = rt.stdout();
    let ended = write_script(rt.alloc(), &bytes, style, chosen.filter(), &mut output);
    report(rt, path, &ended)?;
    Ok(status_after(&ended))
}
