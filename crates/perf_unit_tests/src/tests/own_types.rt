//! Types of a user's own.

ghost use Rattle.std.specs.Prelude.{◌≡◌, ◌+◌, None, ⊤};

use crate::tests::bodies::Body;
use crate::tests::cases::{Case, Request, check_cases, kind_of};
use perf_event_data::CowSlice;
use perf_event_data::endian::Endian;
use perf_event_data::parse::{
    ErrorKind, Layout, Parse, ParseBuf, ParseBufCursor, ParseError, ParseResult, Parser,
};
use std::alloc::{AllocError, Global};

/// What is asked for: types of a user's own.
#[derive(Copy, Clone)]
pub enum Own {
    /// Two lists, and one that is refused.
    Lists,
    /// An even number and an odd one.
    Evens,
}

#[derive(Drop)]
struct Task {
    pid: u32,
    tid: u32,
}

// Its cost is two reads, whatever its bytes are.
impl Layout for Task {
    ghost parses = { λ old outcome new. ⊤ };

    ghost counts = { λ old e new. e ≡ None → new.reads ≡ old.reads + 2 };
}

impl<'p, B: ParseBuf<'p>> Parse<'p, B> for Task {
    #[tactic(auto, using(perf_parser::proofs::Calls::chain))]
    fn parse<E: Endian>(parser: &mut Parser<B, E>) -> ParseResult<Self> {
        let pid = parser.parse_u32()?;
        let tid = parser.parse_u32()?;
        Ok(Task { pid, tid })
    }
}

#[derive(Drop)]
struct OwnSample {
    ip: u64,
    task: Task,
    list: OwnList,
    cgroup: u64,
}

// Nothing is specified.
impl Layout for OwnSample {
    ghost parses = { λ old outcome new. ⊤ };

    ghost counts = { λ old e new. ⊤ };
}

impl<'p, B: ParseBuf<'p>> Parse<'p, B> for OwnSample {
    #[tactic(auto, using(perf_parser::proofs::Calls::chain))]
    fn parse<E: Endian>(parser: &mut Parser<B, E>) -> ParseResult<Self> {
        let ip = parser.parse_u64()?;
        let task = parser.parse()?;
        let list = parser.parse()?;
        let cgroup = parser.parse_u64()?;
        Ok(OwnSample {
            ip,
            task,
            list,
            cgroup,
        })
    }
}

// The rest of a frame's body, as a sample.
fn own_sample<'p, E: Endian>(
    inner: &mut Parser<ParseBufCursor<'p>, E>,
    by_closure: bool,
) -> ParseResult<OwnSample> {
    if by_closure {
        inner.parse_with(|parser| parser.parse())
    } else {
        inner.parse()
    }
}

fn write_fields(text: &mut String, sample: &OwnSample) -> Result<(), AllocError> {
    let (pid, tid) = (sample.task.pid, sample.task.tid);
    let numbers = sample.list.numbers.as_slice();
    let (ip, cgroup) = (sample.ip, sample.cgroup);
    write!(text, ": {ip:#x} {pid} {tid} {numbers:?} {cgroup:#x}")
}

/// Writes a body that is parsed as a sample, and its rest.
pub fn write_sample<'p, E: Endian>(
    text: &mut String,
    inner: &mut Parser<ParseBufCursor<'p>, E>,
    by_closure: bool,
) -> ParseResult<()> {
    let sample = own_sample(inner, by_closure)?;
    write_fields(text, &sample)?;
    let rest = inner.parse_rest()?;
    Ok(write!(text, " {:?}", rest.as_slice())?)
}

// A count, and as many numbers.
#[derive(Drop)]
struct OwnList {
    numbers: Vec<u64>,
}

// It counts reads as the types of this library do.
impl Layout for OwnList {
    ghost parses = { λ old outcome new. ⊤ };
}

impl<'p, B: ParseBuf<'p>> Parse<'p, B> for OwnList {
    #[tactic(auto, using(perf_parser::proofs::InRow::items))]
    fn parse<E: Endian>(parser: &mut Parser<B, E>) -> ParseResult<Self> {
        let count = parser.parse::<u64>()?;
        let numbers = parser.parse_repeated::<u64>(count as usize)?;
        Ok(OwnList { numbers })
    }
}

// The same as an owned list.
#[derive(Drop)]
struct OwnSlice<'a> {
    numbers: CowSlice<'a, u64>,
}

impl Layout for OwnSlice<'_> {
    ghost parses = { λ old outcome new. ⊤ };
}

impl<'p, B: ParseBuf<'p>> Parse<'p, B> for OwnSlice<'p> {
    #[tactic(auto, using(perf_parser::proofs::InRow::items))]
    fn parse<E: Endian>(parser: &mut Parser<B, E>) -> ParseResult<Self> {
        let count = parser.parse_u64()?;
        let numbers = parser.parse_slice::<u64>(count as usize)?;
        Ok(OwnSlice { numbers })
    }
}

fn text_of_lists<'p, B: ParseBuf<'p>, E: Endian>(
    alloc: Global,
    parser: &mut Parser<B, E>,
) -> ParseResult<String> {
    let OwnList { numbers } = parser.parse()?;
    let slice = parser.parse::<OwnSlice>()?.numbers;
    let kind = kind_of(OwnList::parse(parser));
    Ok(format!(in alloc; "{numbers:?} {slice:?} {kind:?}")?)
}

// It refuses odd numbers.
#[derive(Drop)]
struct Even(u8);

impl Layout for Even {
    ghost parses = { λ old outcome new. ⊤ };

    ghost counts = { λ old e new. ⊤ };
}

impl<'p, B: ParseBuf<'p>> Parse<'p, B> for Even {
    #[tactic(auto, using(perf_parser::proofs::Calls::chain))]
    fn parse<E: Endian>(parser: &mut Parser<B, E>) -> ParseResult<Self> {
        let number = parser.parse_u8()?;
        if number % 2 == 1 {
            return Err(ParseError::custom(ErrorKind::InvalidRecord, "odd"));
        }
        Ok(Even(number))
    }
}

fn text_of_evens<'p, B: ParseBuf<'p>, E: Endian>(
    alloc: Global,
    parser: &mut Parser<B, E>,
) -> ParseResult<String> {
    let Even(number) = parser.parse()?;
    match Even::parse(parser) {
        Ok(Even(other)) => Ok(format!(in alloc; "{number} {other}")?),
        Err(error) => Ok(text_of_odd(alloc, number, &error)?),
    }
}

fn text_of_odd(alloc: Global, number: u8, error: &ParseError) -> Result<String, AllocError> {
    format!(in alloc; "{number} {:?} {:?}", error.kind(), error.message())
}

/// The results of a parser for types of a user's own.
pub fn text_of_own<'p, B: ParseBuf<'p>, E: Endian>(
    alloc: Global,
    parser: &mut Parser<B, E>,
    own: Own,
) -> ParseResult<String> {
    match own {
        Own::Lists => text_of_lists(alloc, parser),
        Own::Evens => text_of_evens(alloc, parser),
    }
}

// A frame of type 9, without a sample id.
const SAMPLE: &[u8] = b"\x09\0\0\0\0\0\x48\0\x10\x12\x33\x48\x99\x1A\x2B\x3C\x02\0\0\0\x03\0\0\0\
    \x04\0\0\0\0\0\0\0\x01\xF0\0\0\0\0\0\0\x02\xF0\0\0\0\0\0\0\x03\xF0\0\0\0\0\0\0\
    \x04\xF0\0\0\0\0\0\0\xC9\x40\x65\0\0\x65\x40\xC9";

// Its type and misc, its sample id, its fields, with a list of 0xF001 to 0xF004, and the rest.
const SAMPLE_TEXT: &str = "9 0 (None, None, None) (None, None, None): \
    0x3c2b1a9948331210 2 3 [61441, 61442, 61443, 61444] 0xc9406500006540c9 []";

const CASES: [Case; 4] = [
    Case {
        name: "a type of one's own is parsed out of a frame",
        request: Request::Body(Body::Sample),
        bytes: SAMPLE,
        want: SAMPLE_TEXT,
    },
    Case {
        name: "a closure parses it too",
        request: Request::Body(Body::SampleByClosure),
        bytes: SAMPLE,
        want: SAMPLE_TEXT,
    },
    // After the lists comes one that claims more numbers than there are.
    Case {
        name: "a list of one's own counts as all that is parsed",
        request: Request::Own(Own::Lists),
        bytes: b"\x02\0\0\0\0\0\0\0\x07\0\0\0\0\0\0\0\x08\0\0\0\0\0\0\0\
            \x01\0\0\0\0\0\0\0\x09\0\0\0\0\0\0\0\
            \x02\0\0\0\0\0\0\0\x01\0\0\0\0\0\0\0",
        want: "[7, 8] Owned([9]) Some(Eof)",
    },
    Case {
        name: "a type of one's own refuses by its own error",
        request: Request::Own(Own::Evens),
        bytes: &[4, 5],
        want: "4 InvalidRecord Some(\"odd\")",
    },
];

#[test]
fn types_of_ones_own_are_parsed(rt: HostRuntime) {
    check_cases(&rt, &CASES);
}
