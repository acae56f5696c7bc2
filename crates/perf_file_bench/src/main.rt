//! Measures nothing itself: it does what readers of a file of `perf record` spend time on, so that it can be timed.
//!
//! `perf_file_bench order FILE` opens a file, brings its frames in order of time, goes over them without
//! reading one, and prints how many there are, and how many bytes they have. `perf_file_bench flat FILE`
//! then also reads each frame into one flat struct, under its own event, and prints for each event how
//! many of its samples were read, and the sum of their periods, and last how many frames were refused.
#![tactic(auto)]

use anyhow::{Result, bail};
use perf_file::listing::header_of;
use perf_file::{Entry, Owner, Recording};
use perf_flat::frame::FlatFrame;
use perf_flat::read::{read, read_into};
use std::alloc::{AllocError, Global};
use std::{env, fs};

const USAGE: &str = "usage: perf_file_bench order|flat FILE";

// The number of a sample's period among the numbers of a flat frame.
const PERIOD: usize = 2;

// The type of a SAMPLE.
const SAMPLE: u32 = 9;

fn main(rt: HostRuntime) -> Result<()> {
    let words: Vec<String> = env::args(&rt)?.skip(1).collect(rt.alloc())?;
    let [way, path] = words.as_slice() else {
        bail!("{USAGE}");
    };
    let bytes = fs::read(&rt, path.as_str())?;
    open_and_print(&rt, way.as_str(), &bytes)
}

// Opens a file, and prints what a way of reading finds.
fn open_and_print(rt: &HostRuntime, way: &str, bytes: &[u8]) -> Result<()> {
    let recording = match Recording::open(rt.alloc(), bytes) {
        Ok(recording) => recording,
        Err(error) => bail!("{error}"),
    };
    let printed = print_way(rt, way, bytes, &recording);
    drop(recording);
    printed
}

// Prints what a way of reading finds.
fn print_way(rt: &HostRuntime, way: &str, bytes: &[u8], recording: &Recording<'_>) -> Result<()> {
    let entries = recording.in_order(rt.alloc())?;
    match way {
        "order" => print_order(rt, recording, &entries),
        "flat" => print_counts(rt, bytes, recording, &entries),
        _ => bail!("{USAGE}"),
    }
}

// Prints how many frames there are, and how many bytes they have.
fn print_order(rt: &HostRuntime, recording: &Recording<'_>, entries: &[Entry]) -> Result<()> {
    let (frames, len) = go_over(recording, entries);
    println!(rt; "{frames} frames of {len} bytes")?;
    Ok(())
}

// Prints what is counted of each event, and how many frames were refused.
fn print_counts(
    rt: &HostRuntime,
    bytes: &[u8],
    recording: &Recording<'_>,
    entries: &[Entry],
) -> Result<()> {
    let counts = count_frames(rt.alloc(), bytes, recording, entries)?;
    for Count { samples, period } in &counts.events {
        println!(rt; "{samples} samples of {period}")?;
    }
    let refused = counts.refused;
    println!(rt; "{refused} refused")?;
    Ok(())
}

// How many frames there are, and how many bytes they have, in the order of their entries.
fn go_over(recording: &Recording<'_>, entries: &[Entry]) -> (u64, u64) {
    let (mut frames, mut len) = (0u64, 0u64);
    for entry in entries {
        if let Some(found) = recording.frame_at(entry) {
            frames = frames.wrapping_add(1);
            len = len.wrapping_add(u64::from(header_of(&found.frame).size));
        }
    }
    (frames, len)
}

// How many samples of an event were read, and the sum of their periods.
#[derive(Copy, Clone)]
struct Count {
    samples: u64,
    period: u64,
}

// What was counted of each event, and how many frames were refused.
#[derive(Drop)]
struct Counts {
    events: Vec<Count>,
    refused: u64,
}

impl Counts {
    // Nothing, of so many events.
    fn new(alloc: Global, events: usize) -> Result<Counts, AllocError> {
        let nothing = Count {
            samples: 0,
            period: 0,
        };
        let mut counts = Vec::new(alloc);
        counts.resize(events, nothing)?;
        Ok(Counts {
            events: counts,
            refused: 0,
        })
    }

    // Adds a frame of an event.
    fn add(&mut self, event: usize, frame: &FlatFrame) {
        if frame.refusal != 0 {
            self.refused = self.refused.wrapping_add(1);
        } else if frame.read == SAMPLE
            && let Some(count) = self.events.get_mut(event)
        {
            count.samples = count.samples.wrapping_add(1);
            count.period = count.period.wrapping_add(frame.numbers[PERIOD]);
        }
    }
}

// Reads each frame that has an event.
fn count_frames(
    alloc: Global,
    bytes: &[u8],
    recording: &Recording<'_>,
    entries: &[Entry],
) -> Result<Counts, AllocError> {
    let mut counts = Counts::new(alloc, recording.events().len())?;
    let mut place = None;
    for entry in entries {
        let Owner::Event(number) = entry.owner else {
            continue;
        };
        if read_entry(alloc, bytes, recording, entry, &mut place)
            && let Some(frame) = &place
        {
            counts.add(number, frame);
        }
    }
    Ok(counts)
}

// Reads the frame of an entry to the place of the one before it, if there was one, and returns whether
// the entry has a frame.
fn read_entry(
    alloc: Global,
    bytes: &[u8],
    recording: &Recording<'_>,
    entry: &Entry,
    place: &mut Option<FlatFrame>,
) -> bool {
    let (Some(config), Some(front)) = (recording.config(entry.owner), bytes.get(entry.at..)) else {
        return false;
    };
    match place {
        Some(frame) => {
            read_into(config, front, frame);
        }
        None => *place = read(alloc, config, front),
    }
    true
}
