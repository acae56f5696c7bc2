//! Records that are parsed over a slice.

use perf_event_data::Record;
use perf_event_data::endian::Little;
use perf_event_data::parse::{Parse, ParseConfig, ParseResult, Parser};
use perf_event_data::sys::{perf_event_attr, perf_event_header};
use perf_run::line_of;
use perf_test_helpers::drops::drop_record;
use std::alloc::Global;
use std::process::Abort;

// The sample type of an event, and flags of its attribute: each frame ends with a sample id if bit 18 is set.
type Attr = (u64, u64);

const NO_ATTR: Attr = (0, 0);

// TID, and TID and TIME, in sample ids.
const TIDS: Attr = (0x2, 1 << 18);

const TIDS_AND_TIMES: Attr = (0x6, 1 << 18);

// Samples of stacks alone, and of raw bytes alone.
const STACKS: Attr = (0x2000, 0);

const RAW: Attr = (0x400, 0);

// The record of a frame over a slice.
fn record_of<'a>(alloc: Global, bytes: &'a [u8], attr: Attr) -> ParseResult<Record<'a>> {
    let (sample_type, flags) = attr;
    let attr = perf_event_attr {
        sample_type,
        flags,
        ..Default::default()
    };
    let mut parser = Parser::new(alloc, bytes, ParseConfig::<Little>::from(attr));
    Record::parse(&mut parser)
}

// Its line, with the header and the number 0.
fn line(alloc: Global, bytes: &[u8], answer: &ParseResult<Record<'_>>) -> ParseResult<String> {
    let mut parser = Parser::new(alloc, bytes, ParseConfig::<Little>::default());
    let header = perf_event_header::parse(&mut parser)?;
    line_of(alloc, 0, &header, answer)
}

// The same, tried again if memory runs out: one request is refused, and no further one.
fn line_at_last(
    alloc: Global,
    bytes: &[u8],
    answer: &ParseResult<Record<'_>>,
) -> ParseResult<String> {
    match line(alloc, bytes, answer) {
        Ok(line) => Ok(line),
        Err(_) => line(alloc, bytes, answer),
    }
}

// Whether a request for memory is granted.
fn is_granted(alloc: Global) -> bool {
    Vec::from_slice(alloc, &[0u8]).is_ok()
}

// What a frame is, the attribute that it is read under, its bytes, and its line.
type Row<'a> = (&'a str, Attr, &'a [u8], &'a str);

// The line of a frame. Its record is parsed first: if that asks for no memory, a first request that is refused
// is the one after it.
fn line_of_frame(alloc: Global, attr: Attr, bytes: &[u8]) -> ParseResult<String> {
    let answer = record_of(alloc, bytes, attr);
    is_granted(alloc);
    let line = line_at_last(alloc, bytes, &answer);
    drop_record(answer);
    line
}

// Asserts the lines of frames.
fn check_lines(rt: &(impl AllocGlobal + Abort), rows: &[Row<'_>]) {
    for (name, attr, bytes, want) in rows {
        match line_of_frame(rt.alloc(), *attr, *bytes) {
            Ok(line) => assert_eq!(rt; line.as_str(), *want, "{name}"),
            Err(_) => panic!(rt; "no memory"),
        }
    }
}

const FRAMES: [Row<'static>; 19] = [
    (
        "a mapping",
        NO_ATTR,
        b"\x01\0\0\0\0\0\x30\0\x16\x4C\x01\0\x17\x4C\x01\0\0\xA0\x48\x96\x4F\x7F\0\0\0\x10\
            \0\0\0\0\0\0\0\xA0\x48\x96\x4F\x7F\0\0\x2F\x2F\x61\x6E\x6F\x6E\0\0",
        "0 1 0 48 Mmap pid=85014 tid=85015 addr=139979800485888 len=4096 \
            pgoff=139979800485888 filename=2f2f616e6f6e",
    ),
    (
        "a frame of seven bytes",
        NO_ATTR,
        b"\x02\0\0\0\0\0\x07\0",
        "0 2 0 7 refused InvalidRecord",
    ),
    (
        "a body that is cut short",
        NO_ATTR,
        b"\x02\0\0\0\0\0\x10\0\x01\0\0\0\0\0\0\0",
        "0 2 0 16 refused Eof",
    ),
    (
        "a switch",
        NO_ATTR,
        b"\x0E\0\0\0\0\0\x08\0",
        "0 14 0 8 Switch",
    ),
    (
        "a switch without its sample id",
        TIDS,
        b"\x0E\0\0\0\0\0\x08\0",
        "0 14 0 8 refused InvalidRecord",
    ),
    (
        "new code",
        NO_ATTR,
        b"\x14\0\0\0\0\0\x18\0\x10\0\0\0\0\0\0\0\0\0\x01\0\xAA\0\0\0",
        "0 20 0 24 TextPoke addr=16 old_bytes= new_bytes=aa",
    ),
    (
        "changed code",
        NO_ATTR,
        b"\x14\0\0\0\0\0\x18\0\x10\0\0\0\0\0\0\0\x01\0\x01\0\xAA\xBB\0\0",
        "0 20 0 24 TextPoke addr=16 old_bytes=aa new_bytes=bb",
    ),
    (
        "a mapping with a build id",
        NO_ATTR,
        b"\x0A\0\0\0\0\x40\x50\0\x01\0\0\0\x02\0\0\0\0\x10\0\0\0\0\0\0\0\x20\0\0\0\0\0\0\0\
            \0\0\0\0\0\0\0\x14\0\0\0\x01\x02\x03\x04\x05\x06\x07\x08\x09\x0A\x0B\x0C\x0D\x0E\
            \x0F\x10\x11\x12\x13\x14\x05\0\0\0\x02\0\0\0\x61\x62\0\0\0\0\0\0",
        "0 10 16384 80 Mmap2 pid=1 tid=2 addr=4096 len=8192 pgoff=0 \
            build_id=0102030405060708090a0b0c0d0e0f1011121314 prot=5 flags=2 \
            filename=6162",
    ),
    (
        "a build id that is too long",
        NO_ATTR,
        b"\x0A\0\0\0\0\x40\x40\0\x01\0\0\0\x02\0\0\0\0\x10\0\0\0\0\0\0\0\x20\0\0\0\0\0\0\0\
            \0\0\0\0\0\0\0\x15\0\0\0\x01\x02\x03\x04\x05\x06\x07\x08\x09\x0A\x0B\x0C\x0D\x0E\
            \x0F\x10\x11\x12\x13\x14",
        "0 10 16384 64 refused InvalidRecord",
    ),
    (
        "a build id that is cut short",
        NO_ATTR,
        b"\x0A\0\0\0\0\x40\x2B\0\x01\0\0\0\x02\0\0\0\0\x10\0\0\0\0\0\0\0\x20\0\0\0\0\0\0\0\
            \0\0\0\0\0\0\0\x15\0\0",
        "0 10 16384 43 refused Eof",
    ),
    (
        "a type below all",
        NO_ATTR,
        b"\0\0\0\0\0\0\x08\0",
        "0 0 0 8 Unknown data=",
    ),
    (
        "a type above all",
        NO_ATTR,
        b"\x16\0\0\0\0\0\x08\0",
        "0 22 0 8 Unknown data=",
    ),
    (
        "lost events with a sample id",
        TIDS_AND_TIMES,
        b"\x02\0\0\0\0\0\x28\0\x01\0\0\0\0\0\0\0\x02\0\0\0\0\0\0\0\x03\0\0\0\x04\0\0\0\x05\
            \0\0\0\0\0\0\0",
        "0 2 0 40 Lost id=1 lost=2",
    ),
    (
        "a symbol",
        NO_ATTR,
        b"\x11\0\0\0\0\0\x20\0\0\x10\0\0\0\0\0\0\x40\0\0\0\x01\0\x01\0\x62\x70\x66\0\0\0\0\
            \0",
        "0 17 0 32 KSymbol addr=4096 len=64 ksym_type=1 flags=1 name=627066",
    ),
    (
        "a program in the kernel",
        NO_ATTR,
        b"\x12\0\0\0\0\0\x18\0\x01\0\0\0\x07\0\0\0\x01\x02\x03\x04\x05\x06\x07\x08",
        "0 18 0 24 BpfEvent ty=1 flags=0 id=7 tag=0102030405060708",
    ),
    (
        "a mapping with an inode",
        NO_ATTR,
        b"\x0A\0\0\0\0\0\x50\0\x01\0\0\0\x02\0\0\0\0\x10\0\0\0\0\0\0\0\x20\0\0\0\0\0\0\0\0\
            \0\0\0\0\0\0\x08\0\0\0\x01\0\0\0\x63\0\0\0\0\0\0\0\x03\0\0\0\0\0\0\0\x05\0\0\0\
            \x02\0\0\0\x61\x62\0\0\0\0\0\0",
        "0 10 0 80 Mmap2 pid=1 tid=2 addr=4096 len=8192 pgoff=0 maj=8 min=1 \
            ino=99 ino_generation=3 prot=5 flags=2 filename=6162",
    ),
    (
        "longer changed code",
        NO_ATTR,
        b"\x14\0\0\0\0\0\x20\0\x10\0\0\0\0\0\0\0\x03\0\x02\0\xA1\xA2\xA3\xB1\xB2\0\0\0\0\0\
            \0\0",
        "0 20 0 32 TextPoke addr=16 old_bytes=a1a2a3 new_bytes=b1b2",
    ),
    (
        // A refused sample is refused for its bytes, even if the allocation of its box fails.
        "a stack of which too much was used",
        STACKS,
        b"\x09\0\0\0\0\0\x20\0\x08\0\0\0\0\0\0\0abcdefgh\x09\0\0\0\0\0\0\0",
        "0 9 0 32 refused InvalidRecord",
    ),
    (
        "a sample without its only field",
        STACKS,
        b"\x09\0\0\0\0\0\x0C\0\0\0\0\0",
        "0 9 0 12 refused Eof",
    ),
];

// The tests with refused allocations try each row alone.
#[test]
fn lines_of_frames(rt: HostRuntime) {
    check_lines(&rt, &FRAMES);
}

// A sample of raw bytes alone.
const RAW_BYTES: &[u8] = b"\x09\0\0\0\0\0\x10\0\x02\0\0\0\xAA\xBB\0\0";

// Whether at most one request is refused: that of the sample's box, or one after it.
fn is_lawful(line: &str, grants: [bool; 2]) -> bool {
    match line {
        "0 9 0 16 refused OutOfMemory" => grants == [true, true],
        "0 9 0 16 Sample raw=aabb" => grants != [false, false],
        _ => false,
    }
}

// The sample's line, and whether two requests after it are granted.
fn line_and_grants(alloc: Global) -> (ParseResult<String>, [bool; 2]) {
    let answer = record_of(alloc, RAW_BYTES, RAW);
    let grants = [is_granted(alloc), is_granted(alloc)];
    let line = line_at_last(alloc, RAW_BYTES, &answer);
    drop_record(answer);
    (line, grants)
}

// Prints both, so that they can be compared with which request was refused.
#[test]
fn a_sample_of_raw_bytes(rt: HostRuntime) {
    let (line, grants) = line_and_grants(rt.alloc());
    match line {
        Ok(line) => {
            let _ = println!(rt; "{line}, then {grants:?}");
            assert!(rt; is_lawful(line.as_str(), grants));
        }
        Err(_) => panic!(rt; "no memory"),
    }
}
