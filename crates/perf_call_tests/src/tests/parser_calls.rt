//! Byte strings, lists, conditions and configurations.

use crate::tests::checks::{check_answer, check_text};
use perf_event_data::endian::Little;
use perf_event_data::parse::{ParseBuf, ParseConfig, ParseResult, Parser};
use perf_test_inputs::configurations::{FULL, full, write_config};
use std::alloc::{AllocError, Global};
use std::io::BufReader;
use std::test::Fail;

const BYTES: &[u8] = b"\x01\x02\x03\0\0";

fn write_bytes<'p, B: ParseBuf<'p>>(
    text: &mut String,
    parser: &mut Parser<B, Little>,
) -> ParseResult<()> {
    write!(text, "{:?}", parser.parse_bytes(2)?)?;
    write!(text, " {:?}", parser.parse_rest_trim_nul()?)?;
    Ok(())
}

// Two bytes, and the rest without its zero bytes.
fn text_of_bytes<'p, B: ParseBuf<'p> + Drop>(alloc: Global, buf: B) -> ParseResult<String> {
    let mut parser = Parser::new(alloc, buf, ParseConfig::<Little>::default());
    let mut text = String::new(alloc);
    let written = write_bytes(&mut text, &mut parser);
    drop(parser);
    written?;
    Ok(text)
}

#[test]
fn bytes_are_borrowed_over_a_slice_and_owned_over_a_reader(rt: HostRuntime) -> Result<(), Fail> {
    let actual = text_of_bytes(rt.alloc(), BYTES)?;
    check_text(&rt, Ok(actual), "Borrowed([1, 2]) Borrowed([3])");
    let reader = BufReader::with_capacity(rt.alloc(), 7, BYTES)?;
    let actual = text_of_bytes(rt.alloc(), reader)?;
    check_text(&rt, Ok(actual), "Owned([1, 2]) Owned([3])");
    Ok(())
}

fn text_by_closures(alloc: Global) -> ParseResult<String> {
    let mut parser = Parser::new(alloc, BYTES, ParseConfig::<Little>::default());
    let first = parser.parse_with(|parser| parser.parse_u8())?;
    let second = parser.parse_if_with(false, |parser| parser.parse_u8())?;
    Ok(format!(in alloc; "{first} {second:?}")?)
}

#[test]
fn a_closure_parses_a_slice(rt: HostRuntime) {
    check_answer(&rt, "a slice", text_by_closures(rt.alloc()), "1 None");
}

type Reading<'p> = Parser<BufReader<&'p [u8]>, Little>;

// The first two bytes, which are 0x0201, and the third one.
fn text_of_three(alloc: Global, parser: &mut Reading<'_>) -> ParseResult<String> {
    let first = parser.parse_with(|parser| parser.parse_u16())?;
    let second = parser.parse_if_with(true, |parser| parser.parse_u8())?;
    Ok(format!(in alloc; "{first:#x} {second:?}")?)
}

#[test]
fn a_closure_parses_a_reader(rt: HostRuntime) -> Result<(), Fail> {
    let reader = BufReader::with_capacity(rt.alloc(), 1, BYTES)?;
    let mut parser = Parser::new(rt.alloc(), reader, ParseConfig::<Little>::default());
    let actual = text_of_three(rt.alloc(), &mut parser);
    drop(parser);
    check_answer(&rt, "a reader", actual, "0x201 Some(3)");
    Ok(())
}

// What two parsers of the same slice read in turn, and whether the second one has nothing left.
fn text_of_both(alloc: Global) -> ParseResult<String> {
    let bytes: &[u8] = &[1, 2, 3];
    let mut parser = Parser::new(alloc, bytes, ParseConfig::<Little>::default());
    let first = parser.parse_u8()?;
    let mut second = parser.clone()?;
    let (both, own) = (second.parse_u16()?, parser.parse_u8()?);
    let is_at_end = second.parse_rest()?.is_empty();
    Ok(format!(in alloc; "{first} {both:#x} {own} {is_at_end}")?)
}

#[test]
fn a_second_parser_of_a_slice_reads_on_alone(rt: HostRuntime) {
    check_answer(
        &rt,
        "two parsers",
        text_of_both(rt.alloc()),
        "1 0x302 2 true",
    );
}

fn text_of_config(alloc: Global, config: &ParseConfig<Little>) -> Result<String, AllocError> {
    let mut text = String::new(alloc);
    write_config(&mut text, config)?;
    Ok(text)
}

#[test]
fn a_parser_takes_another_configuration(rt: HostRuntime) {
    let parser = Parser::new(rt.alloc(), [].as_slice(), full());
    check_text(&rt, text_of_config(rt.alloc(), parser.config()), FULL);
    let parser = parser.reconfigure(ParseConfig::<Little>::default());
    let nothing = "([0, 0], [false, false], [0, 0], 0)";
    check_text(&rt, text_of_config(rt.alloc(), parser.config()), nothing);
}
