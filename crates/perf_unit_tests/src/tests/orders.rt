//! Byte orders, and some of a user's own.

use crate::tests::cases::{Case, Request, check_case, check_cases, kind_of};
use crate::tests::checks::check_answer;
use perf_base::endian::{Dynamic, Endian, Little, Native};
use perf_base::{ParseConfig, ParseResult};
use perf_event_data::parse::{ParseBuf, Parser};
use perf_test_inputs::orders::{Counting, Words};
use perf_test_runs::perfrec::Perfrec;
use perf_test_runs::{next_header, text_of_runs};
use std::alloc::Global;
use std::cell::Cell;

/// What is asked for in a byte order of a user's own.
#[derive(Copy, Clone)]
pub enum OrderRequest {
    /// A run in words, of which one alone is this much more.
    Words(u16),
    /// Two runs in an order that has no second.
    Single,
    /// A parser of a frame's body in that order.
    Body,
    /// A run of one frame, and whether at least one and at most this many 64-bit numbers are
    /// converted.
    Count(u64),
}

// The rest is a number.
fn text_of_left<'p, B: ParseBuf<'p>, E: Endian>(
    alloc: Global,
    parser: &mut Parser<B, E>,
) -> ParseResult<String> {
    let number = parser.parse_u64()?;
    let rest = parser.parse_rest()?;
    let text = format!(in alloc; "{number} {:?}", rest.as_slice());
    drop(rest);
    Ok(text?)
}

// Takes the frame, for whose body there is no parser, and reads the next one.
fn text_of_refusals<'p, B: ParseBuf<'p>, E: Endian>(
    alloc: Global,
    parser: &mut Parser<B, E>,
) -> ParseResult<String> {
    let first = kind_of(parser.parse_metadata());
    let header = next_header(parser)?;
    let second = kind_of(parser.parse_metadata_with_header(header));
    let left = text_of_left(alloc, parser)?;
    Ok(format!(in alloc; "{first:?} {header:?} {second:?} {left}")?)
}

fn text_of_refused_body<'p, B: ParseBuf<'p> + Drop>(alloc: Global, buf: B) -> ParseResult<String> {
    let calls = Cell::new(0);
    let config = ParseConfig::<Little>::default().with_endian(Counting::single(&calls));
    text_of_refusals(alloc, &mut Parser::new(alloc, buf, config))
}

// Two runs.
fn text_of_single<'p, B: ParseBuf<'p> + Drop>(alloc: Global, buf: B) -> ParseResult<String> {
    let calls = Cell::new(0);
    Ok(text_of_runs(alloc, &Perfrec, buf, Counting::single(&calls), &[10, 10])?)
}

fn text_of_count<'p, B: ParseBuf<'p> + Drop>(
    alloc: Global,
    buf: B,
    most: u64,
) -> ParseResult<String> {
    let calls = Cell::new(0);
    let text = text_of_runs(alloc, &Perfrec, buf, Counting::new(&calls), &[1])?;
    let is_within = calls.get() >= 1 && calls.get() <= most;
    Ok(format!(in alloc; "{text}, {is_within}")?)
}

/// The results in a byte order of a user's own.
pub fn text_by_order<'p, B: ParseBuf<'p> + Drop>(
    alloc: Global,
    buf: B,
    request: OrderRequest,
) -> ParseResult<String> {
    match request {
        OrderRequest::Words(added) => Ok(text_of_runs(
            alloc,
            &Perfrec,
            buf,
            Words { added },
            &[10],
        )?),
        OrderRequest::Single => text_of_single(alloc, buf),
        OrderRequest::Body => text_of_refused_body(alloc, buf),
        OrderRequest::Count(most) => text_of_count(alloc, buf, most),
    }
}

const CASES: [Case; 4] = [
    Case {
        name: "an order in which two zero bytes are eight has frames of eight bytes",
        request: Request::InOrder(OrderRequest::Words(8)),
        bytes: &[0; 16],
        want: "0 0 8 8 Unknown data= ty=0; 1 0 8 8 Unknown data= ty=0; done",
    },
    Case {
        name: "an order of words reads its own bytes",
        request: Request::InOrder(OrderRequest::Words(0)),
        bytes: b"\0\0\x0D\0\0\0\x10\0\0\0\0\0\0\0\x05\0",
        want: "0 13 0 16 LostSamples lost=5; done",
    },
    // A run lends its order to each frame's body.
    Case {
        name: "a run asks for no second order",
        request: Request::InOrder(OrderRequest::Single),
        bytes: b"\x02\0\0\0\0\0\x07\0\x0D\0\0\0\0\0\x10\0\x05\0\0\0\0\0\0\0",
        want: "0 2 0 7 refused InvalidRecord; 1 13 0 16 LostSamples lost=5; done | done",
    },
    Case {
        name: "a refused duplicate refuses a parser of the body",
        request: Request::InOrder(OrderRequest::Body),
        bytes: b"\x0D\0\0\0\0\0\x10\0\x05\0\0\0\0\0\0\0\
            \x0D\0\0\0\0\0\x10\0\x06\0\0\0\0\0\0\0\x07\0\0\0\0\0\0\0",
        want: "Some(OutOfMemory) perf_event_header { type_: 13, misc: 0, size: 16 } \
            Some(OutOfMemory) 7 []",
    },
];

// Frames of NAMESPACES that claim 2^63 of them, and contain only as many numbers as given here, of
// which the count itself is the first; and the text of a run.
const HOSTILE: [(u64, &[u8], &str); 5] = [
    (
        1,
        b"\x10\0\0\0\0\0\x18\0\x01\0\0\0\x02\0\0\0\0\0\0\0\0\0\0\x80",
        "0 16 0 24 refused Eof; limit, true",
    ),
    (
        2,
        b"\x10\0\0\0\0\0\x20\0\x01\0\0\0\x02\0\0\0\0\0\0\0\0\0\0\x80\
            \x01\x01\x01\x01\x01\x01\x01\x01",
        "0 16 0 32 refused Eof; limit, true",
    ),
    (
        3,
        b"\x10\0\0\0\0\0\x28\0\x01\0\0\0\x02\0\0\0\0\0\0\0\0\0\0\x80\
            \x01\x01\x01\x01\x01\x01\x01\x01\x01\x01\x01\x01\x01\x01\x01\x01",
        "0 16 0 40 refused Eof; limit, true",
    ),
    (
        3,
        b"\x10\0\0\0\0\0\x2F\0\x01\0\0\0\x02\0\0\0\0\0\0\0\0\0\0\x80\
            \x01\x01\x01\x01\x01\x01\x01\x01\x01\x01\x01\x01\x01\x01\x01\x01\
            \x01\x01\x01\x01\x01\x01\x01",
        "0 16 0 47 refused Eof; limit, true",
    ),
    (
        4,
        b"\x10\0\0\0\0\0\x30\0\x01\0\0\0\x02\0\0\0\0\0\0\0\0\0\0\x80\
            \x01\x01\x01\x01\x01\x01\x01\x01\x01\x01\x01\x01\x01\x01\x01\x01\
            \x01\x01\x01\x01\x01\x01\x01\x01",
        "0 16 0 48 refused Eof; limit, true",
    ),
];

#[test]
fn a_hostile_count_converts_only_what_is_there(rt: HostRuntime) {
    for &(most, bytes, want) in &HOSTILE {
        let case = Case {
            name: "a hostile count",
            request: Request::InOrder(OrderRequest::Count(most)),
            bytes,
            want,
        };
        check_case(&rt, &case);
    }
}

#[test]
fn orders_of_ones_own_are_asked(rt: HostRuntime) {
    check_cases(&rt, &CASES);
}

// The byte order of a parser, that of its configuration, and the next header.
fn text_of_parser<'p, B: ParseBuf<'p>>(
    alloc: Global,
    parser: &mut Parser<B, Dynamic>,
) -> ParseResult<String> {
    let orders = [*parser.endian(), *parser.config().endian()];
    let header = next_header(parser)?;
    Ok(format!(in alloc; "{orders:?} {header:?}")?)
}

#[test]
fn a_parser_keeps_the_order_of_its_configuration(rt: HostRuntime) {
    let config = ParseConfig::<Native>::default().with_endian(Dynamic::Big);
    let bytes: &[u8] = b"\0\0\0\x0D\0\x01\0\x10";
    let actual = text_of_parser(rt.alloc(), &mut Parser::new(rt.alloc(), bytes, config));
    let want = "[Big, Big] perf_event_header { type_: 13, misc: 1, size: 16 }";
    check_answer(&rt, "the parser", actual, want);
}
