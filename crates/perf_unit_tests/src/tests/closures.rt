//! Closures that parse.

use crate::tests::bodies::Body;
use crate::tests::cases::{Case, Request, check_case, kind_of};
use perf_event_data::endian::Endian;
use perf_event_data::parse::{ParseBufCursor, ParseResult, Parser};

// Two bytes if a condition is true.
fn two_if<'p, E: Endian>(
    parser: &mut Parser<ParseBufCursor<'p>, E>,
    condition: bool,
) -> ParseResult<Option<u16>> {
    parser.parse_if_with(condition, |parser| parser.parse_u16())
}

// One byte if a condition is true.
fn one_if<'p, E: Endian>(
    parser: &mut Parser<ParseBufCursor<'p>, E>,
    condition: bool,
) -> ParseResult<Option<u8>> {
    parser.parse_if_with(condition, |parser| parser.parse_u8())
}

// The last two bytes are parsed if a condition is true.
fn write_conditions<'p, E: Endian>(
    text: &mut String,
    inner: &mut Parser<ParseBufCursor<'p>, E>,
) -> ParseResult<()> {
    let before = two_if(inner, false)?;
    let item = two_if(inner, true)?;
    let kind = kind_of(one_if(inner, true));
    let after = one_if(inner, false)?;
    Ok(write!(text, " {before:?} {item:?} {kind:?} {after:?}")?)
}

/// Writes what a closure parses from a frame's body: always, if a condition is true, and if it is
/// false.
pub fn write_closures<'p, E: Endian>(
    text: &mut String,
    inner: &mut Parser<ParseBufCursor<'p>, E>,
) -> ParseResult<()> {
    let (low, high) = inner.parse_with(|parser| {
        let low = parser.parse_u8()?;
        let high = parser.parse_u16()?;
        Ok((low, high))
    })?;
    write!(text, ": {low:#x} {high:#x}")?;
    write_conditions(text, inner)
}

const CLOSURES: Case = Case {
    name: "a closure parses what it is asked to",
    request: Request::Body(Body::Closures),
    bytes: b"\x44\0\0\0\0\0\x0D\0\x01\x02\x03\x04\x05",
    want: "68 0 (None, None, None) (None, None, None): 0x1 0x302 None Some(1284) Some(Eof) None",
};

#[test]
fn a_closure_parses_what_it_is_asked_to(rt: HostRuntime) {
    check_case(&rt, &CLOSURES);
}
