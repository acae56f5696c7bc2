//! Parsing: what can be parsed, and the parser that does it.

ghost use Rattle.std.specs.Prelude.{IsTrue};
ghost use Rattle.perf_base.specs.declared.sys.perf_event_header.{perf_event_header};
ghost use Rattle.perf_parser.specs.Prelude.{Transition, Counts, KeepsInvariant, Call, CallAs, parser_buffer};
ghost use Rattle.perf_parser.specs.Prelude.{error_kinds, length_after, MovesWithin, Reads};
ghost use Rattle.perf_parser.specs.Prelude.{RegistersValue, registers_of, registers_value};

pub use crate::parser::Parser;
use perf_base::Endian;
pub use perf_base::config::ParseConfig;
pub use perf_base::error::{ErrorKind, ParseError, ParseResult};
use perf_base::sys::perf_event_header;
pub use perf_buffers::cursor::ParseBufCursor;
use perf_buffers::outer::Outer;
pub use perf_buffers::parsebuf::{ParseBuf, ParseBufChunk};
use perf_reader::read::{HasTransition, ReadFrom};
use perf_sample_types::registers::{Registers, read_registers};

/// The contract of parsing a type.
///
/// A type of your own gives its bytes a meaning by a layout, one line for each field, in a file of its
/// crate's `specs`:
///
/// ```text
/// -- the layout of a mark: an id, a value, and the rest of the body is its name
/// abbrev pub mark_parts : Parts MarkValue
/// mark_parts = do
///   id ← u32
///   value ← u64
///   name ← name
///   done (record { id = id; value = value; name = name })
/// ```
///
/// and reads the same fields in the same order. The line `tactic` names the lemma by which reads one
/// after another add up, so that no proof file is needed:
///
/// ```text
/// impl Layout for Mark<'_> {
///     ghost parses = { ReadsInPlace (λ _. mark_parts) mark_value IsBorrowedMark };
/// }
///
/// impl<'p, B: ParseBuf<'p>> Parse<'p, B> for Mark<'p> {
///     #[tactic(auto, using(perf_parser::proofs::Calls::chain))]
///     fn parse<E: Endian>(parser: &mut Parser<B, E>) -> ParseResult<Self> {
///         let id = parser.parse_u32()?;
///         let value = parser.parse_u64()?;
///         let name = parser.parse_rest_trim_nul()?;
///         Ok(Mark { id, value, name })
///     }
/// }
/// ```
///
/// `ReadsInPlace` states that the result is what the layout gives, and that no byte is copied from a
/// slice; `ReadsPlain` is for numbers alone, and `Reads` for what always needs memory. The whole
/// example, with other fields and checks, is in `docs/CALLING.md`.
pub trait Layout: Sized {
    // What a call returns, from the state of the parser before it, and the state after it.
    ghost parses: { Transition Self };

    // What it counts: faults, and elementary reads. A type of this library counts each fault that
    // it returns and no other, returns one only over a buffer that can fault, and makes at most as
    // many reads as it takes bytes, and one more if it is refused. Another type may state its own.
    ghost counts: { Counts } = { KeepsInvariant };
}

/// A type that can be parsed from a buffer. [`Layout`] has an example of one of your own.
pub trait Parse<'p, B: ParseBuf<'p>>: Layout {
    /// Parses one value.
    fn parse<E: Endian>(parser: &mut Parser<B, E>) -> ParseResult<Self>
        ensures call { CallAs B.source E.order Self.parses Self.counts
            parser.old (error_kinds result) parser.new };
}

/// Every type that this library reads can be parsed.
impl<T: HasTransition> Layout for T {
    ghost parses = { T.transition };
}

impl<'p, B: ParseBuf<'p>, T: ReadFrom<'p, Outer<B>> + HasTransition> Parse<'p, B> for T {
    #[inline]
    fn parse<E: Endian>(parser: &mut Parser<B, E>) -> ParseResult<Self> {
        match T::read(&mut parser.reader) {
            Ok(value) => Ok(value),
            Err(refusal) => Err(parser.reader.error_of(refusal)),
        }
    }
}

/// The contract of parsing a frame, by its header.
pub trait FrameLayout: Sized {
    // What a call returns after a header.
    ghost transition_after: { perf_event_header → Transition Self };
}

/// A type that is parsed from a frame whose header was read before.
pub trait ParseRecord<'p, B: ParseBuf<'p>>: FrameLayout {
    /// Parses the rest of a frame. After a refusal exactly the frame is taken, or all that was left
    /// if that is less; after a fault, or if there was no memory for the frame, a prefix of it.
    fn parse_with_header<E: Endian>(
        parser: &mut Parser<B, E>,
        header: perf_event_header,
    ) -> ParseResult<Self>
        ensures within { IsTrue (B.source (parser_buffer parser.old)).told →
            MovesWithin (B.source (parser_buffer parser.old)) (length_after header)
            (B.source (parser_buffer parser.new)) }
        ensures call { Call B.source E.order (Self.transition_after header)
            parser.old (error_kinds result) parser.new };
}

/// The value of registers in plain numbers.
pub trait RegistersLayout: Sized {
    // their ABI, their mask, and a number for each
    ghost shown: { Self → RegistersValue };
}

/// Registers that are parsed by a mask of the configuration.
pub trait ParseRegisters<'p, B: ParseBuf<'p>>: RegistersLayout {
    /// Parses the user-space registers of a task, those of the configuration's `regs_user`.
    fn parse_user<E: Endian>(parser: &mut Parser<B, E>) -> ParseResult<Self>
        ensures call { Call B.source E.order (Reads (λ c. registers_of c.regs_user) Self.shown)
            parser.old (error_kinds result) parser.new };

    /// Parses the registers at the sampling interrupt, those of the configuration's `regs_intr`.
    fn parse_intr<E: Endian>(parser: &mut Parser<B, E>) -> ParseResult<Self>
        ensures call { Call B.source E.order (Reads (λ c. registers_of c.regs_intr) Self.shown)
            parser.old (error_kinds result) parser.new };
}

impl RegistersLayout for Registers<'_> {
    ghost shown = { registers_value };
}

impl<'p, B: ParseBuf<'p>> ParseRegisters<'p, B> for Registers<'p> {
    #[inline]
    fn parse_user<E: Endian>(parser: &mut Parser<B, E>) -> ParseResult<Self> {
        let mask = parser.config().regs_user();
        let spare = Vec::new(parser.reader.alloc());
        match read_registers(&mut parser.reader, mask, spare) {
            Ok(registers) => Ok(registers),
            Err(refusal) => Err(parser.reader.error_of(refusal)),
        }
    }

    #[inline]
    fn parse_intr<E: Endian>(parser: &mut Parser<B, E>) -> ParseResult<Self> {
        let mask = parser.config().regs_intr();
        let spare = Vec::new(parser.reader.alloc());
        match read_registers(&mut parser.reader, mask, spare) {
            Ok(registers) => Ok(registers),
            Err(refusal) => Err(parser.reader.error_of(refusal)),
        }
    }
}
