//! Which samples the words choose.

use clap::ArgMatches;
use perf_walk::{Filter, nanoseconds};
use std::alloc::{AllocError, Global};
use std::io;

/// What the words choose.
#[derive(Drop)]
pub struct Chosen<'a> {
    event: Option<&'a [u8]>,
    pids: Vec<u32>,
    comms: Vec<&'a [u8]>,
    times: (u64, Option<u64>),
}

impl<'a> Chosen<'a> {
    /// What the words choose. `None` if the times are none.
    pub fn of(alloc: Global, words: &ArgMatches<'a>) -> Result<Option<Chosen<'a>>, AllocError> {
        let Some(times) = times_of(words.get_str("time")) else {
            return Ok(None);
        };
        Ok(Some(Chosen {
            event: words.get_str("event").map(|name| name.as_bytes()),
            pids: pids_of(alloc, words)?,
            comms: comms_of(alloc, words)?,
            times,
        }))
    }

    /// The filter.
    pub fn filter(&self) -> Filter<'_> {
        Filter {
            event: self.event,
            pids: &self.pids,
            comms: &self.comms,
            first: self.times.0,
            last: self.times.1,
        }
    }
}

/// Prints on standard error that the times are none, and returns the exit status.
pub fn refuse_times(rt: &HostRuntime) -> io::Result<u8> {
    eprintln!(rt;
        "perf_data: `--time` needs FROM,TO in seconds, with at most nine digits after the point"
    )?;
    Ok(2)
}

// The processes that the words name.
fn pids_of(alloc: Global, words: &ArgMatches<'_>) -> Result<Vec<u32>, AllocError> {
    let mut pids = Vec::new(alloc);
    if let Some(values) = words.get_many::<u32>("pid") {
        for pid in values {
            if let Ok(pid) = pid {
                pids.push(pid)?;
            }
        }
    }
    Ok(pids)
}

// The names of threads that the words name.
fn comms_of<'a>(alloc: Global, words: &ArgMatches<'a>) -> Result<Vec<&'a [u8]>, AllocError> {
    let mut comms = Vec::new(alloc);
    if let Some(names) = words.get_strs("comm") {
        for name in names {
            comms.push(name.as_bytes())?;
        }
    }
    Ok(comms)
}

// The first and the last time that a word states. `None` if it states none: it needs a comma, and the
// last time is not before the first. As for perf, a last time of 0 is absent.
fn times_of(word: Option<&str>) -> Option<(u64, Option<u64>)> {
    let Some(word) = word else {
        return Some((0, None));
    };
    let (from, to) = word.split_once(',')?;
    let (first, last) = (nanoseconds(from)?, nanoseconds(to)?);
    if last == 0 {
        Some((first, None))
    } else if first <= last {
        Some((first, Some(last)))
    } else {
        None
    }
}
