//! A type of one's own with a check and a length.

ghost use Rattle.perf_parser.specs.Prelude.{ReadsInPlace};
ghost use Rattle.perf_uses.specs.Span.{span_parts, span_value, IsBorrowedSpan};

use perf_event_data::CowSlice;
use perf_event_data::endian::Endian;
use perf_event_data::parse::{ErrorKind, Layout, Parse, ParseBuf, ParseError, ParseResult, Parser};

/// A part of a program's run.
#[derive(Drop)]
pub struct Span<'a> {
    /// When it began.
    pub start: u64,
    /// How long it took.
    pub duration: u64,
    /// What was done.
    pub label: CowSlice<'a, u8>,
}

impl Layout for Span<'_> {
    // what its layout gives; no byte is copied from a slice
    ghost parses = { ReadsInPlace (λ _. span_parts) span_value IsBorrowedSpan };
}

impl<'p, B: ParseBuf<'p>> Parse<'p, B> for Span<'p> {
    #[tactic(auto, using(perf_parser::proofs::Calls::chain))]
    fn parse<E: Endian>(parser: &mut Parser<B, E>) -> ParseResult<Self> {
        let version = parser.parse_u16()?;
        if version != 2 {
            return Err(ParseError::custom(ErrorKind::InvalidRecord, "not of version 2"));
        }
        let start = parser.parse_u64()?;
        let duration = parser.parse_u64()?;
        let len = parser.parse_u16()?;
        let label = parser.parse_bytes(usize::from(len))?;
        Ok(Span {
            start,
            duration,
            label,
        })
    }
}
