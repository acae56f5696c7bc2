//! A type of one's own: a record that a program writes beside the kernel's.

ghost use Rattle.std.specs.Prelude.{◌≡◌, IfOk, Ok};
ghost use Rattle.perf_base.specs.Layout.{layout};
ghost use Rattle.perf_base.specs.Order.{little};
ghost use Rattle.perf_parser.specs.Prelude.{ReadsInPlace};
ghost use Rattle.perf_uses.specs.Mark.{mark_parts, mark_value, IsBorrowedMark};

use perf_event_data::CowSlice;
use perf_event_data::endian::{Endian, Little};
use perf_event_data::parse::{Layout, Parse, ParseBuf, ParseConfig, ParseResult, Parser};
use perf_event_data::sys::perf_event_header;
use std::alloc::Global;

/// The type of a mark. Types from 64 on are free for programs.
pub const MARK: u32 = 100;

/// A number, its value, and its name.
#[derive(Drop)]
pub struct Mark<'a> {
    /// Which number it is.
    pub id: u32,
    /// Its value.
    pub value: u64,
    /// Its name, without the zero bytes at its end.
    pub name: CowSlice<'a, u8>,
}

impl Layout for Mark<'_> {
    // what its layout gives; no byte is copied from a slice
    ghost parses = { ReadsInPlace (λ _. mark_parts) mark_value IsBorrowedMark };
}

impl<'p, B: ParseBuf<'p>> Parse<'p, B> for Mark<'p> {
    #[tactic(auto, using(perf_parser::proofs::Calls::chain))]
    fn parse<E: Endian>(parser: &mut Parser<B, E>) -> ParseResult<Self> {
        let id = parser.parse_u32()?;
        let value = parser.parse_u64()?;
        let name = parser.parse_rest_trim_nul()?;
        Ok(Mark { id, value, name })
    }
}

/// The mark after a header, or `None` if the frame is of another type.
pub fn mark_after<'p, B: ParseBuf<'p>, E: Endian>(
    parser: &mut Parser<B, E>,
    header: perf_event_header,
) -> ParseResult<Option<Mark<'p>>> {
    let (mut body, metadata) = parser.parse_metadata_with_header(header)?;
    if metadata.ty() != MARK {
        return Ok(None);
    }
    body.parse().map(Some)
}

/// The mark that bytes begin with.
#[tactic(auto, using(perf_records::proofs::LayoutResults::took_result))]
pub fn mark_in<'p>(alloc: Global, bytes: &'p [u8]) -> ParseResult<Mark<'p>>
    ensures { IfOk result (λ mark. layout little mark_parts bytes.now ≡ Ok (mark_value mark)) }
{
    Parser::new(alloc, bytes, ParseConfig::<Little>::default()).parse()
}
