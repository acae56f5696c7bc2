//! A file of many events with as many descriptions, of which each is looked up once.

ghost use Rattle.std.specs.Prelude.{◌<◌};

use crate::tests::files::little;
use perf_file::{Event, EventName, OpenError, Recording};
use std::alloc::{AllocError, Global};

// How many events there are. For each event its description comes after those of all later events, so
// a search from the first description on for each event would take minutes.
const MANY: u64 = 100_000;

const ATTRIBUTES: u64 = 104;

const IDS: u64 = ATTRIBUTES + 80 * MANY;

const FRAMES: u64 = IDS + 8 * MANY;

const DESCRIPTIONS: u64 = FRAMES + 8 + 16;

// Its descriptions have eight bytes for a name, and every second one has an id.
const DESCRIPTIONS_SIZE: u64 = 8 + 80 * MANY + 4 * MANY;

const HEAD: [u64; 13] = [
    0x3245_4c49_4652_4550,
    104,
    80,
    ATTRIBUTES,
    80 * MANY,
    FRAMES,
    8,
    0,
    0,
    1 << 12,
    0,
    0,
    0,
];

// An attribute of 64 bytes. Every second event has an id, the others have none.
fn push_attribute(words: &mut Vec<u64>, index: u64) -> Result<(), AllocError> {
    let ty = if index % 2 == 0 { 1 } else { 4 };
    words.extend_from_slice(&[ty + (64 << 32), index, 0, 0x10000, 0, 0, 0, 0])
}

// Where the ids of an event are.
fn push_place(words: &mut Vec<u64>, index: u64) -> Result<(), AllocError>
    requires { index < MANY }
{
    let size = if index % 2 == 0 { 8 } else { 0 };
    words.extend_from_slice(&[IDS + 8 * index, size])
}

// The letter of an event, as its name.
fn letter(index: u64) -> u64 {
    97 + index % 26
}

fn push_description(words: &mut Vec<u64>, index: u64) -> Result<(), AllocError>
    requires { index < MANY }
{
    push_attribute(words, index)?;
    if index % 2 == 0 {
        words.extend_from_slice(&[1 + (8 << 32), letter(index), index + 1])
    } else {
        words.extend_from_slice(&[8 << 32, letter(index)])
    }
}

fn events(words: &mut Vec<u64>) -> Result<(), AllocError> {
    for index in 0..MANY {
        push_attribute(words, index)?;
        push_place(words, index)?;
    }
    for index in 0..MANY {
        words.push(index + 1)?;
    }
    Ok(())
}

fn descriptions(words: &mut Vec<u64>) -> Result<(), AllocError> {
    // a frame, where the descriptions are, and how many there are
    let table = [
        68 + (8 << 48),
        DESCRIPTIONS,
        DESCRIPTIONS_SIZE,
        MANY + (64 << 32),
    ];
    words.extend_from_slice(&table)?;
    for back in 0..MANY {
        push_description(words, MANY - 1 - back)?;
    }
    Ok(())
}

fn file(alloc: Global) -> Result<Vec<u8>, AllocError> {
    let mut words = Vec::from_slice(alloc, &HEAD)?;
    events(&mut words)?;
    descriptions(&mut words)?;
    little(alloc, &words, &[], &[])
}

// Whether an event is described by its letter.
fn is_described(event: &Event<'_>, index: u64) -> bool {
    match event.name() {
        EventName::Described([name]) => u64::from(*name) == letter(index),
        _ => false,
    }
}

// How many events are described by their letters.
fn described(events: &[Event<'_>]) -> u64 {
    let (mut index, mut count) = (0u64, 0u64);
    for event in events {
        count = count.saturating_add(u64::from(is_described(event, index)));
        index = index.saturating_add(1);
    }
    count
}

// How many events a file has, and how many of them are described by their letters.
fn counts(alloc: Global, bytes: &[u8]) -> Result<(u64, u64), OpenError> {
    match Recording::open(alloc, bytes) {
        Ok(recording) => {
            let events = recording.events();
            let counts = (events.len() as u64, described(events));
            drop(recording);
            Ok(counts)
        }
        Err(error) => Err(error),
    }
}

#[test]
fn each_description_is_read_once(rt: HostRuntime) {
    match file(rt.alloc()) {
        Ok(bytes) => assert_eq!(rt; counts(rt.alloc(), &bytes), Ok((MANY, MANY))),
        Err(_) => panic!(rt; "no memory"),
    }
}
