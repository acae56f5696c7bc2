//! The workloads: recordings are made, a batch at a time, and read.

use crate::digest::Digest;
use crate::recording::{Maker, Recording};
use crate::ring::{Taken, read_ring};
use crate::stream::{ByteOrder, Stream};
use anyhow::Result;
use perf_event_data::endian::{Dynamic, Endian, Little, Native};
use perf_event_data::parse::{ParseBuf, ParseConfig, Parser};
use perf_event_data::{PieceBuf, Run, RunEnd, read_records};
use perf_reports::printing::{Report, print_recording};
use perf_run::run;
use std::alloc::Global;
use std::io::BufReader;

// How many results are kept at a time.
const BATCH: usize = 256;

// How many bytes are read at a time.
const PIECE: usize = 8_192;

// The size of a large recording.
const LARGE: usize = 1 << 20;

const MIDDLE: usize = 1 << 18;

const SMALL: usize = 1 << 12;

/// How a recording is read.
#[derive(Copy, Clone)]
enum Way {
    // As a slice, in the native byte order.
    Slice,
    // As a slice, in a byte order that is chosen at run time.
    Chosen,
    // Through a buffered reader.
    Reader,
    // In pieces of this many bytes.
    Pieces(usize),
    // As a ring buffer of pages of 4096 bytes.
    Ring(Taken),
    // As text, a line for each frame.
    Lines,
    // As text of samples or of tasks.
    Report(Report),
}

// A kind of recording, its byte order, its size, how it is read, and how many of them there are in
// each round.
#[derive(Copy, Clone)]
struct Part(Recording, ByteOrder, usize, Way, usize);

const PROFILE: &[Part] = &[
    Part(Recording::Chains, ByteOrder::Little, LARGE, Way::Slice, 3),
    Part(Recording::Flat, ByteOrder::Little, MIDDLE, Way::Slice, 2),
];

const PIPE: &[Part] = &[
    Part(Recording::Chains, ByteOrder::Little, LARGE, Way::Reader, 3),
    Part(Recording::Flat, ByteOrder::Little, MIDDLE, Way::Reader, 2),
];

const RING: &[Part] = &[
    Part(
        Recording::Chains,
        ByteOrder::Little,
        SMALL,
        Way::Ring(Taken::ByMetadata),
        64,
    ),
    Part(
        Recording::Flat,
        ByteOrder::Little,
        SMALL,
        Way::Ring(Taken::ByVisitor),
        24,
    ),
    Part(
        Recording::Tasks,
        ByteOrder::Little,
        SMALL,
        Way::Ring(Taken::ByMetadata),
        24,
    ),
];

const FIELDS: &[Part] = &[
    Part(Recording::Stacks, ByteOrder::Little, LARGE, Way::Slice, 4),
    Part(
        Recording::Branches,
        ByteOrder::Little,
        MIDDLE,
        Way::Slice,
        2,
    ),
    Part(Recording::Memory, ByteOrder::Little, MIDDLE, Way::Slice, 1),
    Part(Recording::Raw, ByteOrder::Little, MIDDLE, Way::Slice, 1),
    Part(Recording::Groups, ByteOrder::Little, MIDDLE, Way::Slice, 1),
    Part(Recording::Chains, ByteOrder::Big, MIDDLE, Way::Chosen, 2),
    Part(Recording::Tasks, ByteOrder::Little, MIDDLE, Way::Chosen, 1),
];

const TEXT: &[Part] = &[
    Part(Recording::Chains, ByteOrder::Little, MIDDLE, Way::Lines, 2),
    Part(
        Recording::Chains,
        ByteOrder::Little,
        MIDDLE,
        Way::Report(Report::Samples),
        1,
    ),
    Part(Recording::Tasks, ByteOrder::Little, MIDDLE, Way::Lines, 1),
    Part(
        Recording::Tasks,
        ByteOrder::Little,
        MIDDLE,
        Way::Report(Report::Tasks),
        1,
    ),
];

const AWKWARD: &[Part] = &[
    Part(Recording::Refused, ByteOrder::Little, MIDDLE, Way::Slice, 2),
    Part(Recording::Lies, ByteOrder::Little, MIDDLE, Way::Slice, 1),
    Part(Recording::Unknown, ByteOrder::Little, LARGE, Way::Reader, 4),
    Part(
        Recording::Tasks,
        ByteOrder::Little,
        SMALL,
        Way::Pieces(1),
        4,
    ),
    Part(
        Recording::Refused,
        ByteOrder::Little,
        MIDDLE,
        Way::Reader,
        1,
    ),
];

/// What is measured.
#[derive(Copy, Clone)]
pub enum Workload {
    /// Profiles as mapped files.
    Profile,
    /// Profiles through a pipe.
    Pipe,
    /// Profiles and tasks in the pages of a ring buffer.
    Ring,
    /// Stacks, branches, memory, tracepoints, groups, and other byte orders.
    Fields,
    /// Recordings as text.
    Text,
    /// Refused frames, false lengths, large frames of unknown type, and single bytes.
    Awkward,
}

impl Workload {
    fn parts(self) -> &'static [Part] {
        match self {
            Workload::Profile => PROFILE,
            Workload::Pipe => PIPE,
            Workload::Ring => RING,
            Workload::Fields => FIELDS,
            Workload::Text => TEXT,
            Workload::Awkward => AWKWARD,
        }
    }

    /// Runs this many rounds from a seed.
    pub fn measure(self, alloc: Global, rounds: u64, seed: u64) -> Result<Digest> {
        let mut digest = Digest::new();
        let mut stream = Stream::new(alloc, seed);
        let mut text = Vec::new(alloc);
        for part in self.parts() {
            part.measure(alloc, rounds, &mut stream, &mut text, &mut digest)?;
        }
        Ok(digest)
    }
}

impl Part {
    // Makes and reads the recordings of this many rounds.
    fn measure(
        self,
        alloc: Global,
        rounds: u64,
        stream: &mut Stream,
        text: &mut Vec<u8>,
        digest: &mut Digest,
    ) -> Result<()> {
        let Part(recording, order, size, way, count) = self;
        let maker = Maker::new(alloc, recording, order, &mut stream.random)?;
        for _ in 0..rounds.saturating_mul(count as u64) {
            maker.make(stream, size)?;
            way.read(alloc, stream, text, digest)?;
        }
        Ok(())
    }
}

impl Way {
    // Reads a recording.
    fn read(
        self,
        alloc: Global,
        stream: &Stream,
        text: &mut Vec<u8>,
        digest: &mut Digest,
    ) -> Result<()> {
        let bytes = stream.bytes.as_slice();
        match self {
            Way::Slice => read_all(alloc, bytes, Little, digest),
            Way::Chosen => read_all(alloc, bytes, chosen(stream.order), digest),
            Way::Reader => read_buffered(alloc, bytes, digest),
            Way::Pieces(most) => {
                let pieces = PieceBuf::new(bytes, most.max(1), false);
                read_all(alloc, pieces, Little, digest)
            }
            Way::Ring(taken) => read_ring(alloc, bytes, 4_096, taken, digest),
            Way::Lines => {
                write_lines(alloc, bytes, text, digest);
                Ok(())
            }
            Way::Report(report) => write_report(alloc, bytes, text, report, digest),
        }
    }
}

// Reads a recording through a buffered reader.
fn read_buffered(alloc: Global, bytes: &[u8], digest: &mut Digest) -> Result<()> {
    let reader = BufReader::with_capacity(alloc, PIECE, bytes)?;
    read_all(alloc, reader, Native, digest)
}

// Writes a line for each frame.
fn write_lines(alloc: Global, bytes: &[u8], text: &mut Vec<u8>, digest: &mut Digest) {
    text.clear();
    let outcome = run(alloc, bytes, text, Little, usize::MAX, true, PIECE);
    digest.number(u64::from(outcome.status()));
    digest.text(text);
}

// Writes the text of samples or of tasks.
fn write_report(
    alloc: Global,
    bytes: &[u8],
    text: &mut Vec<u8>,
    report: Report,
    digest: &mut Digest,
) -> Result<()> {
    text.clear();
    let mut errors = Vec::new(alloc);
    let clean = print_recording(alloc, bytes, text, &mut errors, report)?;
    digest.number(u64::from(clean));
    digest.bytes(&errors);
    digest.text(text);
    Ok(())
}

// A byte order as the type that covers all of them.
fn chosen(order: ByteOrder) -> Dynamic {
    match order {
        ByteOrder::Little => Dynamic::Little,
        ByteOrder::Big => Dynamic::Big,
    }
}

// Reads a buffer to its end.
fn read_all<'p, B: ParseBuf<'p> + Drop, E: Endian>(
    alloc: Global,
    buffer: B,
    order: E,
    digest: &mut Digest,
) -> Result<()> {
    let config = ParseConfig::<Native>::default().with_endian(order);
    let mut parser = Parser::new(alloc, buffer, config).after_attribute()?;
    for _ in 0..u64::MAX {
        if !read_batch(&mut parser, digest)? {
            break;
        }
    }
    Ok(())
}

// Reads a batch, and returns whether there may be another.
fn read_batch<'p, B: ParseBuf<'p>, E: Endian>(
    parser: &mut Parser<B, E>,
    digest: &mut Digest,
) -> Result<bool> {
    let Run { frames, end } = read_records(parser, BATCH);
    digest.run(&frames);
    drop(frames);
    is_limit(end, digest)
}

// Whether a batch ended because it was full.
fn is_limit(end: RunEnd, digest: &mut Digest) -> Result<bool> {
    let number = match end {
        RunEnd::Limit => 1,
        RunEnd::Done => 2,
        RunEnd::CutHeader => 3,
        RunEnd::Fault(error) => return Err(error.into()),
    };
    digest.number(number);
    Ok(number == 1)
}
