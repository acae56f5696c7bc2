//! Generated streams, each from its own seed: every way through the frames of one has the same
//! result.

use crate::tests::checks::check_text;
use perf_event_data::endian::{Dynamic, Native};
use perf_event_data::parse::{ErrorKind, ParseConfig, ParseResult};
use perf_event_data::sys::perf_event_attr;
use perf_event_data::{BadFrame, Frame, Partial, frames};
use perf_test_helpers::everywhere::OTHERS;
use perf_test_helpers::sample_bytes::{Part, put_parts};
use perf_test_runs::differences;
use perf_test_runs::perfrec::Perfrec;
use perf_test_texts::reasons::Nothing;
use std::alloc::{AllocError, Global};
use std::process::Abort;

// How many streams there are of each byte order, with sample ids and without.
const STREAMS: u64 = 2_500;

// How many of each kind there are at least.
const LEAST: u32 = 50;

// Bit 18 of an attribute's flags: every record but SAMPLE has a sample id.
const SAMPLE_ID_ALL: u64 = 1 << 18;

// How far the numbers of a body are shifted: most are small, so that counts and lengths fit.
const SHIFTS: [u32; 16] = [
    0, 40, 56, 60, 61, 62, 62, 62, 62, 63, 63, 63, 63, 63, 63, 63,
];

// Types of frames, and how many 64-bit numbers a record of that type needs. Samples are more
// frequent than others; 0, 22, 64 and the last one are not the kernel's.
const FRAMES: [(u32, u16); 32] = [
    (0, 0),
    (1, 4),
    (2, 2),
    (3, 1),
    (4, 3),
    (5, 3),
    (6, 3),
    (7, 3),
    (8, 6),
    (9, 26),
    (9, 26),
    (9, 26),
    (9, 26),
    (9, 26),
    (9, 26),
    (9, 26),
    (10, 8),
    (11, 3),
    (12, 1),
    (13, 1),
    (14, 0),
    (15, 1),
    (16, 16),
    (17, 2),
    (18, 2),
    (19, 1),
    (20, 6),
    (21, 1),
    (22, 2),
    (64, 1),
    (64, 0),
    (u32::MAX, 3),
];

// ---- streams

// Numbers that look random, the same for the same seed (the steps of SplitMix64).
#[derive(Copy, Clone)]
struct Random {
    state: u64,
}

impl Random {
    fn number(&mut self) -> u64 {
        self.state = self.state.wrapping_add(0x9E37_79B9_7F4A_7C15);
        let mixed = (self.state ^ (self.state >> 30)).wrapping_mul(0xBF58_476D_1CE4_E5B9);
        let mixed = (mixed ^ (mixed >> 27)).wrapping_mul(0x94D0_49BB_1331_11EB);
        mixed ^ (mixed >> 31)
    }

    // A 16-bit number.
    fn short(&mut self) -> u16 {
        let [first, second, ..] = self.number().to_le_bytes();
        u16::from_le_bytes([first, second])
    }

    // A number below that one.
    fn below(&mut self, end: u16) -> u16 {
        self.short() % end.max(1)
    }

    // A number of a body.
    fn word(&mut self) -> u64 {
        let shift = SHIFTS[usize::from(self.short()) % 16];
        self.number().wrapping_shr(shift)
    }

    // A type, and how many numbers its record needs.
    fn kind(&mut self) -> (u32, u16) {
        FRAMES[usize::from(self.short()) % 32]
    }

    // An attribute with these flags. Each field of a sample is present in one of four.
    fn attribute(&mut self, flags: u64) -> perf_event_attr {
        perf_event_attr {
            sample_type: (self.number() & self.number()) % (1 << 25),
            read_format: (self.number() & self.number()) % 32,
            flags,
            branch_sample_type: self.number(),
            sample_regs_user: u64::from(self.below(16)),
            sample_regs_intr: u64::from(self.below(4)),
            ..Default::default()
        }
    }
}

// A stream, and how it is read.
#[derive(Drop)]
struct Stream {
    random: Random,
    attr: perf_event_attr,
    order: Dynamic,
    // Whether each frame is as long as its header specifies, and as its record needs.
    is_whole: bool,
    bytes: Vec<u8>,
}

impl Stream {
    fn new(alloc: Global, seed: u64, order: Dynamic, flags: u64) -> Result<Stream, AllocError> {
        let mut random = Random { state: seed };
        let attr = random.attribute(flags);
        let is_whole = random.below(2) == 0;
        let mut stream = Stream {
            random,
            attr,
            order,
            is_whole,
            bytes: Vec::new(alloc),
        };
        stream.fill()?;
        Ok(stream)
    }

    // Makes at most six frames. About half of the streams keep their bytes as they are made, and
    // about half are not cut at the end.
    fn fill(&mut self) -> Result<(), AllocError> {
        for _ in 0..self.random.below(7) {
            self.put_frame()?;
        }
        for _ in 0..self.random.below(12).saturating_sub(6) {
            self.change_byte();
        }
        let cut = self.random.below(60).saturating_sub(30);
        let len = self.bytes.len().saturating_sub(usize::from(cut));
        self.bytes.truncate(len);
        Ok(())
    }

    fn put(&mut self, parts: &[Part]) -> Result<(), AllocError> {
        let is_big = self.order == Dynamic::Big;
        put_parts(&mut self.bytes, is_big, parts)
    }

    fn put_frame(&mut self) -> Result<(), AllocError> {
        let (kind, count) = self.random.kind();
        let words = self.words(count);
        let size = self.size(words.saturating_mul(8).saturating_add(8));
        let misc = self.random.short();
        self.put(&[Part::U32(kind), Part::U16(misc), Part::U16(size)])?;
        for _ in 0..words {
            let word = self.random.word();
            self.put(&[Part::U64(word)])?;
        }
        Ok(())
    }

    // How many numbers a frame has after its header. A sample id has at most six.
    fn words(&mut self, count: u16) -> u16 {
        if self.is_whole {
            count.saturating_add(6)
        } else {
            self.random.below(20)
        }
    }

    // The size in the header of a frame of `len` bytes.
    fn size(&mut self, len: u16) -> u16 {
        match self.random.below(6) {
            0 if !self.is_whole => self.random.below(8),
            1 if !self.is_whole => self.random.below(300),
            _ => len,
        }
    }

    fn change_byte(&mut self) {
        let place = usize::from(self.random.short()) % self.bytes.len().max(1);
        let [byte, ..] = self.random.number().to_le_bytes();
        if let Some(changed) = self.bytes.get_mut(place) {
            *changed = byte;
        }
    }
}

// ---- what is read of them

// How many frames are read, of each type and finally of the types from 22 on, how many are refused
// or have a size below 8, and how many streams end inside a frame or a header.
#[derive(Drop)]
struct Coverage {
    read: [u32; 23],
    refused: u32,
    small: u32,
    unfinished: u32,
    cut: u32,
}

impl Coverage {
    fn new() -> Coverage {
        Coverage {
            read: [0; 23],
            refused: 0,
            small: 0,
            unfinished: 0,
            cut: 0,
        }
    }

    fn add(&mut self, alloc: Global, stream: &Stream) {
        let config = ParseConfig::<Native>::from(stream.attr).with_endian(stream.order);
        let mut iterator = frames(&stream.bytes, stream.order);
        for _ in 0..=stream.bytes.len() {
            match iterator.next() {
                Some(Ok(frame)) => self.add_whole(
                    frame,
                    frame.visit(alloc, &config, Partial(Nothing)),
                ),
                Some(Err(bad)) => self.add_bad(bad),
                None => break,
            }
        }
        if !iterator.left().is_empty() {
            count(&mut self.cut);
        }
    }

    fn add_whole(&mut self, frame: Frame<'_, '_>, answer: ParseResult<()>) {
        let place = frame.header().type_.min(22) as usize;
        match self.read.get_mut(place) {
            Some(read) if answer.is_ok() => count(read),
            _ => count(&mut self.refused),
        }
    }

    fn add_bad(&mut self, bad: BadFrame) {
        if bad.kind() == ErrorKind::Eof {
            count(&mut self.unfinished);
        } else {
            count(&mut self.small);
        }
    }

    // What there is too little of.
    fn text_of_lacks(&self, alloc: Global) -> Result<String, AllocError> {
        let mut text = String::new(alloc);
        write_lacks(&mut text, "type", &self.read)?;
        let others = [self.refused, self.small, self.unfinished, self.cut];
        write_lacks(&mut text, "not read", &others)?;
        Ok(text)
    }
}

// Writes the numbers that are too small, with their places.
fn write_lacks(text: &mut String, what: &str, numbers: &[u32]) -> Result<(), AllocError> {
    for (place, number) in numbers.iter().enumerate() {
        if *number < LEAST {
            write!(text, "{what} {place}: {number}; ")?;
        }
    }
    Ok(())
}

fn count(number: &mut u32) {
    *number = number.saturating_add(1);
}

// What differs, with the seed, or nothing: whether a run that lists records, one that hands out frames
// and the frames of the slice have the same result for a stream, over a slice and another buffer.
fn text_of_stream(alloc: Global, seed: u64, stream: &mut Stream) -> Result<String, AllocError> {
    let other = OTHERS[usize::from(stream.random.short()) % 11];
    let mut text = differences(
        alloc,
        &Perfrec,
        &stream.bytes,
        stream.order,
        &stream.attr,
        other,
    )?;
    if !text.is_empty() {
        write!(text, " of the seed {seed}")?;
    }
    Ok(text)
}

// Makes a stream, adds to what is read, and returns what differs.
fn text_of_seed(
    alloc: Global,
    coverage: &mut Coverage,
    seed: u64,
    order: Dynamic,
    flags: u64,
) -> Result<String, AllocError> {
    let mut stream = Stream::new(alloc, seed, order, flags)?;
    coverage.add(alloc, &stream);
    text_of_stream(alloc, seed, &mut stream)
}

// Asserts that nothing differs in all streams of an order and these flags, and that there are frames of
// all kinds.
fn check_streams(rt: &(impl AllocGlobal + Abort), first: u64, order: Dynamic, flags: u64) {
    let alloc = rt.alloc();
    let mut coverage = Coverage::new();
    for index in 0..STREAMS {
        let seed = first.wrapping_add(index);
        check_text(
            rt,
            text_of_seed(alloc, &mut coverage, seed, order, flags),
            "",
        );
    }
    check_text(rt, coverage.text_of_lacks(alloc), "");
}

#[test]
fn little_streams_give_what_their_lists_give(rt: HostRuntime) {
    check_streams(&rt, 0, Dynamic::Little, 0);
}

#[test]
fn big_streams_give_what_their_lists_give(rt: HostRuntime) {
    check_streams(&rt, 10_000, Dynamic::Big, 0);
}

#[test]
fn little_streams_with_sample_ids_give_what_their_lists_give(rt: HostRuntime) {
    check_streams(&rt, 20_000, Dynamic::Little, SAMPLE_ID_ALL);
}

#[test]
fn big_streams_with_sample_ids_give_what_their_lists_give(rt: HostRuntime) {
    check_streams(&rt, 30_000, Dynamic::Big, SAMPLE_ID_ALL);
}
