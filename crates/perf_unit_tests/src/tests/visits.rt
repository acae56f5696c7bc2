//! Visits of frames.

use crate::tests::cases::{Case, Request, check_case};
use crate::tests::partial_visits::{Mappings, OwnCalls};
use bitflags::Flags;
use perf_event_data::endian::{Endian, Little};
use perf_event_data::parse::{ParseBuf, Parser};
use perf_event_data::sys::perf_event_attr;
use perf_event_data::{Partial, RecordVisitor, SampleFlags};
use perf_test_helpers::attributes::ids_attribute;
use perf_test_helpers::everywhere::parser_of;
use perf_test_helpers::frames::{BY_BUILD_ID, zero_frames};
use perf_test_runs::perfrec::Perfrec;
use perf_test_texts::texts::{write_output, write_visited};
use std::alloc::{AllocError, Global};
use std::cell::Cell;
use std::test::Fail;

/// Which visitor is used.
#[derive(Copy, Clone)]
pub enum Gives {
    /// That of records.
    Records,
    /// The partial one that has every call itself.
    OwnCalls,
    /// That of mappings, and the number of visits.
    Mappings,
    /// The same, if each record has a sample id.
    TimedMappings,
    /// That of records, if each record has a sample id.
    TimedRecords,
}

impl Gives {
    // An attribute with time and CPU as sample ids, or the default one.
    fn attr(self) -> perf_event_attr {
        match self {
            Gives::Records | Gives::OwnCalls | Gives::Mappings => perf_event_attr::default(),
            Gives::TimedMappings | Gives::TimedRecords => {
                ids_attribute(SampleFlags::TIME.bits() | SampleFlags::CPU.bits())
            },
        }
    }

    fn are_counted(self) -> bool {
        matches!(self, Gives::Mappings | Gives::TimedMappings)
    }
}

// Writes what a visitor makes of the next frame, and returns whether it was not refused.
fn write_visit<'p, B: ParseBuf<'p>, E: Endian>(
    alloc: Global,
    text: &mut String,
    parser: &mut Parser<B, E>,
    visitor: Gives,
    visits: &Cell<u32>,
) -> Result<bool, AllocError> {
    match visitor {
        Gives::OwnCalls => write_output(text, parser.parse_record(Partial(OwnCalls))),
        Gives::Mappings | Gives::TimedMappings => {
            write_output(text, parser.parse_record(Partial(Mappings { visits })))
        }
        Gives::Records | Gives::TimedRecords => {
            write_visited(
                text,
                &Perfrec,
                parser.parse_record(RecordVisitor::new(alloc)),
            )
        }
    }
}

fn write_visits<'p, B: ParseBuf<'p>>(
    alloc: Global,
    text: &mut String,
    parser: &mut Parser<B, Little>,
    visitor: Gives,
    visits: &Cell<u32>,
) -> Result<(), AllocError> {
    for _ in 0..100 {
        if !write_visit(alloc, text, parser, visitor, visits)? {
            break;
        }
    }
    if visitor.are_counted() {
        write!(text, ", {}", visits.get())?;
    }
    Ok(())
}

/// What a visitor makes of each frame, until one is refused.
pub fn text_of_visits<'p, B: ParseBuf<'p> + Drop>(
    alloc: Global,
    buf: B,
    visitor: Gives,
) -> Result<String, AllocError> {
    let mut parser = parser_of(alloc, buf, Little, &visitor.attr());
    let mut text = String::new(alloc);
    let visits = Cell::new(0);
    let written = write_visits(alloc, &mut text, &mut parser, visitor, &visits);
    drop(parser);
    written?;
    Ok(text)
}

// The calls of a frame of each type.
const CALLS: &str = "mmap; lost; comm; exit; throttle; unthrottle; \
    fork; read; sample; mmap2; aux; itrace_start; \
    lost_samples; switch; switch_cpu_wide; namespaces; ksymbol; bpf_event; \
    cgroup; text_poke; aux_output_hw_id; unknown; Eof";

// Their records.
const RECORDS: &str = "Mmap pid=0 tid=0 addr=0 len=0 pgoff=0 filename=; Lost id=0 lost=0; \
    Comm pid=0 tid=0 comm=; Exit pid=0 ppid=0 tid=0 ptid=0 time=0; \
    Throttle time=0 id=0 stream_id=0; Unthrottle time=0 id=0 stream_id=0; \
    Fork pid=0 ppid=0 tid=0 ptid=0 time=0; Read pid=0 tid=0 value=0; Sample; \
    Mmap2 pid=0 tid=0 addr=0 len=0 pgoff=0 maj=0 min=0 ino=0 ino_generation=0 prot=0 flags=0 \
    filename=; Aux aux_offset=0 aux_size=0 flags=0; ITraceStart pid=0 tid=0; LostSamples lost=0; \
    Switch; SwitchCpuWide pid=0 tid=0 out=0; Namespaces pid=0 tid=0 namespaces=; \
    KSymbol addr=0 len=0 ksym_type=0 flags=0 name=; \
    BpfEvent ty=0 flags=0 id=0 tag=0000000000000000; CGroup id=0 path=; \
    TextPoke addr=0 old_bytes= new_bytes=; AuxOutputHwId hw_id=0; Unknown data= ty=22; Eof";

#[test]
fn each_type_has_its_call(rt: HostRuntime) -> Result<(), Fail> {
    let bytes = zero_frames(rt.alloc())?;
    for &(name, visitor, want) in &[
        ("records", Gives::Records, RECORDS),
        ("own calls", Gives::OwnCalls, CALLS),
    ] {
        let case = Case {
            name,
            request: Request::Visited(visitor),
            bytes: bytes.as_slice(),
            want,
        };
        check_case(&rt, &case);
    }
    Ok(())
}

// LOST_SAMPLES, SWITCH and COMM, each with time and CPU as its sample id.
const TIMED: &[u8] = b"\x0D\0\0\0\0\0\x20\0\x05\0\0\0\0\0\0\0\
    \x07\0\0\0\0\0\0\0\x03\0\0\0\0\0\0\0\
    \x0E\0\0\0\0\0\x18\0\x08\0\0\0\0\0\0\0\x02\0\0\0\0\0\0\0\
    \x03\0\0\0\0\0\x28\0\x01\0\0\0\x02\0\0\0\x61\0\0\0\0\0\0\0\
    \x09\0\0\0\0\0\0\0\x01\0\0\0\0\0\0\0";

// MMAP2 with a build id of length 21.
const BY_LONG_BUILD_ID: &[u8] = b"\x0A\0\0\0\0\x40\x50\0\x01\0\0\0\x02\0\0\0\
    \0\x10\0\0\0\0\0\0\0\x20\0\0\0\0\0\0\0\0\0\0\0\0\0\0\
    \x15\0\0\0\x01\x02\x03\x04\x05\x06\x07\x08\x09\x0A\x0B\x0C\x0D\x0E\x0F\x10\x11\x12\x13\x14\
    \x05\0\0\0\x02\0\0\0\x61\x62\0\0\0\0\0\0";

const LOST_SAMPLES: &[u8] = b"\x0D\0\0\0\0\0\x10\0\x05\0\0\0\0\0\0\0";

const SWITCH: &[u8] = b"\x0E\0\0\0\0\0\x08\0";

// A visitor, frames, and what it makes of them; of mappings also the number of visits. An MMAP2 goes
// to its own call for mappings, other records the default way, and a refused frame is not visited.
const VISITED: [(Gives, &[u8], &str); 6] = [
    (Gives::Mappings, BY_BUILD_ID, "mmap None None 10; Eof, 1"),
    (
        Gives::Mappings,
        LOST_SAMPLES,
        "unimplemented None None 13; Eof, 1",
    ),
    (
        Gives::Mappings,
        SWITCH,
        "unimplemented None None 14; Eof, 1",
    ),
    (Gives::Mappings, BY_LONG_BUILD_ID, "InvalidRecord, 0"),
    (
        Gives::TimedMappings,
        TIMED,
        "unimplemented Some(7) Some(3) 13; unimplemented Some(8) Some(2) 14; \
            unimplemented Some(9) Some(1) 3; Eof, 3",
    ),
    (
        Gives::TimedRecords,
        TIMED,
        "LostSamples lost=5; Switch; Comm pid=1 tid=2 comm=61; Eof",
    ),
];

#[test]
fn frames_are_visited(rt: HostRuntime) {
    for &(visitor, bytes, want) in &VISITED {
        let case = Case {
            name: want,
            request: Request::Visited(visitor),
            bytes,
            want,
        };
        check_case(&rt, &case);
    }
}
