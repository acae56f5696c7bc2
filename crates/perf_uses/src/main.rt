//! Prints what the uses of the library make of a recording, and of a few bytes in this file.
//!
//! `docs/CALLING.md` explains the uses. Standard input is `examples/recording.stream`. The expected
//! output for it was made by `examples/uses.sh` from what `perf` itself reported of the recording.
//! The last ten lines are worked out by hand from the bytes below.
#![tactic(auto)]

mod by_hand;
mod call_stacks;
mod own_bytes;
mod own_mark;
mod own_order;
mod own_ring;
mod own_span;
mod sample_counter;
mod sample_times;
mod stamped;
mod with_attribute;

use crate::by_hand::{mapping_after, next_header};
use crate::call_stacks::call_stacks;
use crate::own_bytes::Received;
use crate::own_mark::{MARK, Mark, mark_after, mark_in};
use crate::own_order::HighWordFirst;
use crate::own_ring::Ring;
use crate::own_span::Span;
use crate::sample_counter::count_samples;
use crate::sample_times::sample_times;
use crate::stamped::Stamped;
use crate::with_attribute::open_recording;
use anyhow::{Result, bail};
use perf_event_data::endian::{Endian, Little};
use perf_event_data::parse::{ParseBuf, ParseConfig, ParseResult, Parser};
use perf_event_data::sys::{PERF_RECORD_COMM, PERF_RECORD_MMAP2, perf_event_header};
use perf_event_data::{
    Exit, Frame, Mmap2, Record, RecordMetadata, RecordVisitor, frames, read_records,
};
use std::alloc::Global;
use std::collections::BTreeMap;
use std::io::{self, Read};

// Prints the times of samples.
fn print_times(rt: &HostRuntime, config: &ParseConfig<Little>, records: &[u8]) -> Result<()> {
    let times = sample_times(rt.alloc(), config, records)?;
    for time in times.iter() {
        println!(rt; "sample at {time}")?;
    }
    Ok(())
}

// Prints how many frames and how many samples a buffered reader gives.
fn print_counts(rt: &HostRuntime, recording: &[u8]) -> Result<()> {
    let (frames, samples) = count_samples(rt.alloc(), recording)?;
    println!(rt; "{frames} frames, {samples} samples")?;
    Ok(())
}

// Prints each call chain, and the number of its samples.
fn print_stacks(rt: &HostRuntime, config: &ParseConfig<Little>, records: &[u8]) -> Result<()> {
    let stacks = call_stacks(rt.alloc(), config, records)?;
    let printed = print_each_stack(rt, &stacks);
    drop(stacks);
    printed
}

// Prints call chains, and the number of samples of each.
fn print_each_stack(rt: &HostRuntime, stacks: &BTreeMap<String, u64>) -> Result<()> {
    for (stack, count) in stacks.iter() {
        println!(rt; "{count} {stack}")?;
    }
    Ok(())
}

// Prints the file of a mapping.
fn print_mapping(rt: &HostRuntime, mapping: &Mmap2<'_>) -> Result<()> {
    let file = mapping.filename_os().unwrap_or("?");
    let printed = match mapping.build_id() {
        Some(id) => println!(rt; "{} maps {file} of build id {id:?}", mapping.pid),
        None => println!(rt; "{} maps {file}", mapping.pid),
    };
    Ok(printed?)
}

// Prints the record after a header, if it is a mapping.
fn print_mapping_after(
    rt: &HostRuntime,
    parser: &mut Parser<&[u8], Little>,
    header: perf_event_header,
) -> Result<()> {
    let Some(mapping) = mapping_after(parser, header)? else {
        return Ok(());
    };
    let printed = print_mapping(rt, &mapping);
    drop(mapping);
    printed
}

// Prints when a task got its name, if a record with this metadata is a COMM.
fn print_name(
    rt: &HostRuntime,
    metadata: &RecordMetadata,
    record: &ParseResult<Record<'_>>,
) -> Result<()> {
    match record {
        Ok(Record::Comm(comm)) => {
            let time = metadata.sample_id().time().unwrap_or(0);
            println!(rt; "{time} {} is {}", comm.tid, comm.comm_os().unwrap_or("?"))?;
        }
        Ok(_) => {}
        Err(error) => bail!("{error}"),
    }
    Ok(())
}

// Prints the record after a header, if it is a COMM.
fn print_name_after(
    rt: &HostRuntime,
    parser: &mut Parser<&[u8], Little>,
    header: perf_event_header,
) -> Result<()> {
    let visitor = Stamped(RecordVisitor::new(rt.alloc()));
    let (metadata, record) = parser.parse_record_with_header(visitor, header)?;
    let printed = print_name(rt, &metadata, &record);
    drop(record);
    printed
}

// Prints the record after a header, if it is a mapping, a task's name or a mark, which this type is.
fn print_after(
    rt: &HostRuntime,
    parser: &mut Parser<&[u8], Little>,
    header: perf_event_header,
    ty: u32,
) -> Result<()> {
    match ty {
        PERF_RECORD_MMAP2 => print_mapping_after(rt, parser, header),
        PERF_RECORD_COMM => print_name_after(rt, parser, header),
        _ => print_mark_after(rt, parser, header),
    }
}

// Prints the records of a type that are left in a buffer.
fn print_all(rt: &HostRuntime, parser: &mut Parser<&[u8], Little>, ty: u32) -> Result<()> {
    for _ in 0..u64::MAX {
        let Some(header) = next_header(parser)? else {
            break;
        };
        print_after(rt, parser, header, ty)?;
    }
    Ok(())
}

// The EXIT in a frame, or `None` if its record is another.
fn exit_in(
    alloc: Global,
    config: &ParseConfig<Little>,
    frame: &Frame<'_, '_>,
) -> ParseResult<Option<Exit>> {
    match frame.record(alloc, config)? {
        Record::Exit(exit) => Ok(Some(exit)),
        other => {
            drop(other);
            Ok(None)
        }
    }
}

// Prints when tasks ended, by frames.
fn print_ends(rt: &HostRuntime, config: &ParseConfig<Little>, records: &[u8]) -> Result<()> {
    for frame in frames(records, Little) {
        let Ok(frame) = frame else { continue };
        if let Some(exit) = exit_in(rt.alloc(), config, &frame)? {
            let metadata = frame.metadata(rt.alloc(), config)?;
            let time = metadata.sample_id().time().unwrap_or(0);
            println!(rt; "{time} {} ended", exit.tid)?;
        }
    }
    Ok(())
}

// An MMAP2 record of process 5: 0x2000 bytes at 0x1000, of a file with a build id of four bytes,
// which bit 14 of its `misc` (0x4002) announces.
const MAPPING: &[u8] = b"\x0A\0\0\0\x02\x40\x50\0\x05\0\0\0\x05\0\0\0\
    \0\x10\0\0\0\0\0\0\0\x20\0\0\0\0\0\0\0\0\0\0\0\0\0\0\
    \x04\0\0\0\xDE\xAD\xBE\xEF\0\0\0\0\0\0\0\0\0\0\0\0\0\0\0\0\
    \x05\0\0\0\x02\0\0\0/bin/a\0\0";

// A mark of 32 bytes, LOST_SAMPLES, and a mark of 24 bytes: marks are of type 100.
const MARKS: &[u8] = b"\x64\0\0\0\0\0\x20\0\x07\0\0\0\0\x01\0\0\0\0\0\0start\0\0\0\0\0\0\0\
    \x0D\0\0\0\0\0\x10\0\x08\0\0\0\0\0\0\0\
    \x64\0\0\0\0\0\x18\0\x08\0\0\0\x05\0\0\0\0\0\0\0stop";

// LOST_SAMPLES whose number has its higher half first: 0x10008 samples were lost.
const SWAPPED: &[u8] = b"\x0D\0\0\0\0\0\x10\0\0\0\0\0\x08\0\x01\0";

// A ring that is read from byte 12 on: 8 samples were lost, and then 9. The first four bytes of the
// second record are at the end of the ring, and the others at its start.
const RING: &[u8] = b"\0\0\x10\0\x09\0\0\0\0\0\0\0\
    \x0D\0\0\0\0\0\x10\0\x08\0\0\0\0\0\0\0\x0D\0\0\0";

// The body of a mark.
const BODY: &[u8] = b"\x09\0\0\0\x01\0\0\0\0\0\0\0end\0";

// Prints a mark.
fn print_mark(rt: &HostRuntime, mark: &Mark<'_>) -> Result<()> {
    let name = str::from_utf8(mark.name.as_slice()).unwrap_or("?");
    println!(rt; "mark {} of {}: {name}", mark.id, mark.value)?;
    Ok(())
}

// Prints the record after a header, if it is a mark.
fn print_mark_after(
    rt: &HostRuntime,
    parser: &mut Parser<&[u8], Little>,
    header: perf_event_header,
) -> Result<()> {
    let Some(mark) = mark_after(parser, header)? else {
        return Ok(());
    };
    let printed = print_mark(rt, &mark);
    drop(mark);
    printed
}

// A span of version 2, and one of version 3, which is refused.
const SPANS: &[u8] = b"\x02\0\x64\0\0\0\0\0\0\0\x07\0\0\0\0\0\0\0\x04\0load\x03\0";

// Prints a span.
fn print_span(rt: &HostRuntime, span: &Span<'_>) -> io::Result<()> {
    let label = str::from_utf8(span.label.as_slice()).unwrap_or("?");
    println!(rt; "{label} from {} for {}", span.start, span.duration)
}

// Prints the next span, or why it is refused.
fn print_next_span(rt: &HostRuntime, parser: &mut Parser<&[u8], Little>) -> io::Result<()> {
    let answer = parser.parse::<Span>();
    let printed = print_answer(rt, &answer);
    drop(answer);
    printed
}

// Prints a span, or why it is refused.
fn print_answer(rt: &HostRuntime, answer: &ParseResult<Span<'_>>) -> io::Result<()> {
    match answer {
        Ok(span) => print_span(rt, span),
        Err(error) => println!(rt; "{error}"),
    }
}

// Prints how many samples each LOST_SAMPLES among some records counts.
fn print_lost(
    rt: &HostRuntime,
    frames: &[(perf_event_header, ParseResult<Record<'_>>)],
) -> Result<()> {
    for (_, record) in frames {
        if let Ok(Record::LostSamples(record)) = record {
            println!(rt; "{} lost", record.lost)?;
        }
    }
    Ok(())
}

// Prints how many samples were lost, by the records in a buffer.
fn print_losses<'p, B: ParseBuf<'p> + Drop, E: Endian>(
    rt: &HostRuntime,
    buffer: B,
    order: E,
) -> Result<()> {
    let config = ParseConfig::<Little>::default().with_endian(order);
    let mut parser = Parser::new(rt.alloc(), buffer, config);
    let run = read_records(&mut parser, 10);
    let printed = print_lost(rt, &run.frames);
    drop(run);
    printed
}

// Prints the records of a type in a recording.
fn print_all_of(rt: &HostRuntime, recording: &[u8], ty: u32) -> Result<()> {
    let mut parser = open_recording(rt.alloc(), recording)?;
    print_all(rt, &mut parser, ty)
}

// Prints what a recording contains, of which these are the configuration and the records.
fn print_contents(
    rt: &HostRuntime,
    recording: &[u8],
    config: &ParseConfig<Little>,
    records: &[u8],
) -> Result<()> {
    print_times(rt, config, records)?;
    print_counts(rt, recording)?;
    print_stacks(rt, config, records)?;
    print_all_of(rt, recording, PERF_RECORD_MMAP2)?;
    print_all_of(rt, recording, PERF_RECORD_COMM)?;
    print_ends(rt, config, records)
}

// Prints what a recording contains.
fn print_recording(rt: &HostRuntime, recording: &[u8]) -> Result<()> {
    let mut parser = open_recording(rt.alloc(), recording)?;
    let records = parser.parse_rest()?;
    let printed = print_contents(rt, recording, parser.config(), records.as_slice());
    drop(records);
    printed
}

// A parser of bytes in little endian.
fn parser_of<'p>(alloc: Global, bytes: &'p [u8]) -> Parser<&'p [u8], Little> {
    Parser::new(alloc, bytes, ParseConfig::default())
}

// Prints the records of a type among these frames.
fn print_all_in(rt: &HostRuntime, frames: &[u8], ty: u32) -> Result<()> {
    let mut parser = parser_of(rt.alloc(), frames);
    print_all(rt, &mut parser, ty)
}

// Prints the mark whose body is above.
fn print_given_body(rt: &HostRuntime) -> Result<()> {
    let mark = mark_in(rt.alloc(), BODY)?;
    let printed = print_mark(rt, &mark);
    drop(mark);
    printed
}

// Prints the spans above.
fn print_given_spans(rt: &HostRuntime) -> io::Result<()> {
    let mut parser = parser_of(rt.alloc(), SPANS);
    print_next_span(rt, &mut parser)?;
    print_next_span(rt, &mut parser)
}

// Prints the first loss in the ring above, from a buffer that owns its bytes.
fn print_received_loss(rt: &HostRuntime) -> Result<()> {
    let bytes = Vec::from_slice(rt.alloc(), &RING[12..28])?;
    print_losses(rt, Received::new(bytes), Little)
}

// Prints the loss whose number has its higher half first, and those in the ring.
fn print_all_losses(rt: &HostRuntime) -> Result<()> {
    print_losses(rt, SWAPPED, HighWordFirst)?;
    print_losses(rt, Ring::new(&RING[12..], &RING[..12]), Little)?;
    print_received_loss(rt)
}

// Prints what the uses make of the bytes above.
fn print_given(rt: &HostRuntime) -> Result<()> {
    print_all_in(rt, MAPPING, PERF_RECORD_MMAP2)?;
    print_all_in(rt, MARKS, MARK)?;
    print_given_body(rt)?;
    print_given_spans(rt)?;
    print_all_losses(rt)
}

fn main(rt: HostRuntime) -> Result<()> {
    let mut recording = Vec::new(rt.alloc());
    rt.stdin().read_to_end(&mut recording)?;
    print_recording(&rt, recording.as_slice())?;
    print_given(&rt)
}
