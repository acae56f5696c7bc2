//! A buffer and how to read it.

ghost use Rattle.std.specs.Prelude.{◌≡◌, ◌+◌, length, [], true, IsTrue, IsOk, IfOk, IfErr, ◌<◌};
ghost use Rattle.std.specs.Prelude.{◌≤◌, false, drop, Err, Ok, None};
ghost use Rattle.std.specs.Fn.{FnOnceReturnsAtMut};
ghost use Rattle.perf_parser.specs.Repeats.{ParsesInTurn, StopsShort, AsOption};
ghost use Rattle.perf_parser.specs.Prelude.{name, one_if_any, falls_short, is_made_beforehand};
ghost use Rattle.perf_parser.specs.Prelude.{Call, Reads, ReadsOne, NeedsNoMemory, parser_buffer};
ghost use Rattle.perf_parser.specs.Prelude.{parser_reads, error_kinds, kind_of, cow_items, is_borrowed};
ghost use Rattle.perf_parser.specs.Prelude.{byte_string, rest, SplitsParser, SplitsFrame};
ghost use Rattle.perf_parser.specs.Prelude.{parser_config, configuration_of, endian_of, length_after};
ghost use Rattle.perf_parser.specs.Prelude.{CallAs, CallOnly, parser_state, number, w1, w2, w4, w8};
ghost use Rattle.perf_parser.specs.Prelude.{GivesFrameAfter, GivesFrame, BelongsTo};
ghost use Rattle.perf_parser.specs.Prelude as prelude;

use crate::parse::Parse;
use perf_base::endian::{Endian, Native};
use perf_base::sys::{perf_event_attr, perf_event_header};
use perf_base::{CowSlice, ErrorKind, ParseConfig, ParseError, ParseResult};
use perf_buffers::cursor::ParseBufCursor;
use perf_buffers::outer::Outer;
use perf_buffers::parsebuf::ParseBuf;
use perf_reader::reader::Reader;
use perf_records::body_reader::ByVisitor;
use perf_records::frame_after::read_after;
use perf_records::metadata::RecordMetadata;
use perf_records::parts::split;
use perf_records::visitor::Visitor;
use std::alloc::Global;

/// Reads values from a buffer, under a configuration.
///
/// [`Parser::parse`] reads one value. If bytes are missing, all that was left is taken; if a record
/// is refused, exactly its frame is, so that the next record can be read.
#[derive(Drop)]
pub struct Parser<B, E> {
    pub(crate) reader: Reader<Outer<B>, E>,
}

// ---- how a parser is made, and its parts
impl<'p, B: ParseBuf<'p>, E: Endian> Parser<B, E> {
    /// A parser of the bytes in a buffer. It allocates from `alloc`.
    #[inline]
    pub fn new(alloc: Global, buf: B, config: ParseConfig<E>) -> Parser<B, E>
        ensures buf { parser_buffer result ≡ buf }
        ensures config { parser_config result ≡ config }
        ensures reads { parser_reads result ≡ 0 }
    {
        Parser {
            reader: Reader::of_buffer(alloc, buf, config),
        }
    }

    /// The configuration.
    #[inline]
    pub fn config(&self) -> &ParseConfig<E>
        ensures { result.now ≡ parser_config self.now }
    {
        self.reader.config()
    }

    /// The byte order.
    #[inline]
    pub fn endian(&self) -> &E
        ensures { result.now ≡ endian_of (parser_config self.now) }
    {
        self.reader.endian()
    }

    /// A parser of the rest of the same buffer under another configuration.
    #[inline]
    pub fn reconfigure<E2: Endian>(self, config: ParseConfig<E2>) -> Parser<B, E2>
        ensures buf { parser_buffer result ≡ parser_buffer self }
        ensures config { parser_config result ≡ config }
        ensures reads { parser_reads result ≡ parser_reads self }
    {
        Parser {
            reader: self.reader.reconfigure(config),
        }
    }
}

impl<'p, E: Endian> Parser<&'p [u8], E> {
    /// A second parser of the same bytes, under the same configuration. It has made no reads yet.
    /// It fails if the order's `duplicate` does.
    pub fn clone(&self) -> ParseResult<Parser<&'p [u8], E>>
        ensures buf { IfOk result (λ p. parser_buffer p ≡ parser_buffer self.now) }
        ensures same { IfOk result (λ p.
            configuration_of (parser_config p) ≡ configuration_of (parser_config self.now)) }
        ensures order { IfOk result (λ p.
            E.order (endian_of (parser_config p)) ≡ E.order (endian_of (parser_config self.now))) }
        ensures reads { IfOk result (λ p. parser_reads p ≡ 0) }
        ensures refused { IfErr result (λ e. (kind_of e ≡ ErrorKind.OutOfMemory)
            × IsTrue (E.may_refuse (endian_of (parser_config self.now)))) }
    {
        match self.config().duplicate() {
            Ok(config) => {
                let bytes = *self.reader.input().buf();
                Ok(Parser::new(self.reader.alloc(), bytes, config))
            }
            Err(error) => Err(error),
        }
    }
}

// ---- values of a type
impl<'p, B: ParseBuf<'p>, E: Endian> Parser<B, E> {
    /// Parses one value of a type.
    #[inline]
    pub fn parse<P: Parse<'p, B>>(&mut self) -> ParseResult<P>
        ensures call { CallAs B.source E.order P.parses P.counts
            self.old (error_kinds result) self.new }
    {
        P::parse(self)
    }
}

// ---- numbers
impl<'p, B: ParseBuf<'p>, E: Endian> Parser<B, E> {
    /// Parses a `u8`.
    #[inline]
    pub fn parse_u8(&mut self) -> ParseResult<u8>
        ensures counted { parser_reads self.new ≡ parser_reads self.old + 1 }
        ensures memory { NeedsNoMemory (error_kinds result) }
        ensures call { Call B.source E.order (ReadsOne (number w1) (λ n. n))
            self.old (error_kinds result) self.new }
    {
        match self.reader.read_u8() {
            Ok(number) => Ok(number),
            Err(refusal) => Err(self.reader.error_of(refusal)),
        }
    }

    /// Parses a `u16`.
    #[inline]
    pub fn parse_u16(&mut self) -> ParseResult<u16>
        ensures counted { parser_reads self.new ≡ parser_reads self.old + 1 }
        ensures memory { NeedsNoMemory (error_kinds result) }
        ensures call { Call B.source E.order (ReadsOne (number w2) (λ n. n))
            self.old (error_kinds result) self.new }
    {
        match self.reader.read_u16() {
            Ok(number) => Ok(number),
            Err(refusal) => Err(self.reader.error_of(refusal)),
        }
    }

    /// Parses a `u32`.
    #[inline]
    pub fn parse_u32(&mut self) -> ParseResult<u32>
        ensures counted { parser_reads self.new ≡ parser_reads self.old + 1 }
        ensures memory { NeedsNoMemory (error_kinds result) }
        ensures call { Call B.source E.order (ReadsOne (number w4) (λ n. n))
            self.old (error_kinds result) self.new }
    {
        match self.reader.read_u32() {
            Ok(number) => Ok(number),
            Err(refusal) => Err(self.reader.error_of(refusal)),
        }
    }

    /// Parses a `u64`.
    #[inline]
    pub fn parse_u64(&mut self) -> ParseResult<u64>
        ensures counted { parser_reads self.new ≡ parser_reads self.old + 1 }
        ensures memory { NeedsNoMemory (error_kinds result) }
        ensures call { Call B.source E.order (ReadsOne (number w8) (λ n. n))
            self.old (error_kinds result) self.new }
    {
        match self.reader.read_u64() {
            Ok(number) => Ok(number),
            Err(refusal) => Err(self.reader.error_of(refusal)),
        }
    }
}

// ---- byte strings: of a known length, all that is left, and names
impl<'p, B: ParseBuf<'p>, E: Endian> Parser<B, E> {
    /// The next `len` bytes, borrowed if the buffer is a slice.
    ///
    /// Otherwise they are copied, unless one chunk has them all and lives as long as the input. If
    /// the buffer reports that it has them, or reports nothing and `len` is at most 16,384, all
    /// memory is allocated first, so that nothing is taken if that fails. Too few bytes are `Eof`,
    /// and all of them are taken.
    #[inline]
    pub fn parse_bytes(&mut self, len: usize) -> ParseResult<CowSlice<'p, u8>>
        ensures whole { IsTrue (B.source (parser_buffer self.old)).whole →
            IfOk result (λ c. IsTrue (is_borrowed c)) }
        ensures whole_memory { IsTrue (B.source (parser_buffer self.old)).whole →
            NeedsNoMemory (error_kinds result) }
        ensures nothing { len ≡ 0 → IsOk result × (parser_buffer self.new ≡ parser_buffer self.old)
            × IfOk result (λ c. IsTrue (is_borrowed c)) }
        ensures short { falls_short (B.hint (parser_buffer self.old)) len ≡ true →
            NeedsNoMemory (error_kinds result) }
        ensures beforehand { IsTrue (B.source (parser_buffer self.old)).told →
            is_made_beforehand (B.hint (parser_buffer self.old)) len ≡ true → IfErr result (λ e.
            kind_of e ≡ ErrorKind.OutOfMemory →
            (B.source (parser_buffer self.new)).left ≡ (B.source (parser_buffer self.old)).left) }
        ensures counted { parser_reads self.new ≡ parser_reads self.old + one_if_any len }
        ensures length { IfOk result (λ c. length (cow_items c) ≡ len) }
        ensures call { Call B.source E.order (ReadsOne (byte_string len) cow_items)
            self.old (error_kinds result) self.new }
    {
        match self.reader.read_bytes(len) {
            Ok(bytes) => Ok(bytes),
            Err(refusal) => Err(self.reader.error_of(refusal)),
        }
    }

    /// All bytes that are left, borrowed if the buffer is a slice, or if there are none.
    #[inline]
    pub fn parse_rest(&mut self) -> ParseResult<CowSlice<'p, u8>>
        ensures whole { IsTrue (B.source (parser_buffer self.old)).whole →
            IfOk result (λ c. IsTrue (is_borrowed c)) }
        ensures whole_memory { IsTrue (B.source (parser_buffer self.old)).whole →
            NeedsNoMemory (error_kinds result) }
        ensures nothing { IsTrue (B.source (parser_buffer self.old)).told →
            (B.source (parser_buffer self.old)).left ≡ [] →
            NeedsNoMemory (error_kinds result) × IfOk result (λ c. IsTrue (is_borrowed c)) }
        ensures counted { IfOk result (λ c.
            parser_reads self.new ≡ parser_reads self.old + one_if_any (length (cow_items c))) }
        ensures call { Call B.source E.order (ReadsOne rest cow_items)
            self.old (error_kinds result) self.new }
    {
        match self.reader.read_rest() {
            Ok(bytes) => Ok(bytes),
            Err(refusal) => Err(self.reader.error_of(refusal)),
        }
    }

    /// All bytes that are left, without the zero bytes at their end, borrowed if the buffer is a
    /// slice, or if none are left.
    #[inline]
    pub fn parse_rest_trim_nul(&mut self) -> ParseResult<CowSlice<'p, u8>>
        ensures whole { IsTrue (B.source (parser_buffer self.old)).whole →
            IfOk result (λ c. IsTrue (is_borrowed c)) }
        ensures whole_memory { IsTrue (B.source (parser_buffer self.old)).whole →
            NeedsNoMemory (error_kinds result) }
        ensures nothing { IsTrue (B.source (parser_buffer self.old)).told →
            (B.source (parser_buffer self.old)).left ≡ [] →
            NeedsNoMemory (error_kinds result) × IfOk result (λ c. IsTrue (is_borrowed c)) }
        ensures call { Call B.source E.order (Reads (λ _. name) cow_items)
            self.old (error_kinds result) self.new }
    {
        match self.reader.read_rest_trim_nul() {
            Ok(bytes) => Ok(bytes),
            Err(refusal) => Err(self.reader.error_of(refusal)),
        }
    }
}

// ---- lists of values, and values that may be absent
impl<'p, B: ParseBuf<'p>, E: Endian> Parser<B, E> {
    /// Calls `parse` with this parser, and returns its result.
    #[inline]
    pub fn parse_with<T, F: FnOnce(&mut Parser<B, E>) -> ParseResult<T>>(
        &mut self,
        parse: F,
    ) -> ParseResult<T>
        requires { F.IsAlwaysCallable parse }
        ensures { FnOnceReturnsAtMut F.FnOnce parse self.old result self.new }
    {
        parse(self)
    }

    /// Calls `parse` if the condition holds; otherwise it reads nothing and returns `Ok(None)`.
    #[inline]
    pub fn parse_if_with<T, F: FnOnce(&mut Parser<B, E>) -> ParseResult<T> + Drop>(
        &mut self,
        condition: bool,
        parse: F,
    ) -> ParseResult<Option<T>>
        requires { F.IsAlwaysCallable parse }
        ensures skipped { condition ≡ false → (self.new ≡ self.old) × (result ≡ Ok None) }
        ensures called { condition ≡ true → AsOption (λ r.
            FnOnceReturnsAtMut F.FnOnce parse self.old r self.new) result }
    {
        if !condition {
            return Ok(None);
        }
        match parse(self) {
            Ok(item) => Ok(Some(item)),
            Err(error) => Err(error),
        }
    }

    /// A value of a type, if the condition holds; otherwise nothing is read.
    #[inline]
    pub fn parse_if<P: Parse<'p, B>>(&mut self, condition: bool) -> ParseResult<Option<P>>
        ensures call { CallOnly B.source E.order self.old (error_kinds result) self.new }
        ensures skipped { condition ≡ false → (self.new ≡ self.old) × (result ≡ Ok None) }
        ensures parsed { condition ≡ true → AsOption (λ outcome. CallAs B.source E.order P.parses
            P.counts self.old outcome self.new) (error_kinds result) }
    {
        if !condition {
            return Ok(None);
        }
        match self.parse::<P>() {
            Ok(item) => Ok(Some(item)),
            Err(error) => Err(error),
        }
    }

    /// `len` values of a type, one after another. The error is that of the first one that is
    /// refused.
    ///
    /// `len` alone never decides the allocation: capacity is reserved for at most one item for each
    /// byte that is left, or for 16,384 if the buffer does not report how many are. No memory is
    /// taken if `len` is 0.
    pub fn parse_repeated<P: Parse<'p, B> + Drop>(&mut self, len: usize) -> ParseResult<Vec<P>>
        ensures nothing { len ≡ 0 → IsOk result }
        ensures call { CallOnly B.source E.order self.old (error_kinds result) self.new }
        ensures ok { IfOk result (λ v. (length v.items ≡ len) × ParsesInTurn P.parses P.counts
            (parser_state B.source E.order self.old) v.items (parser_state B.source E.order self.new)) }
        ensures err { IfErr result (λ e. StopsShort P.parses P.counts
            (parser_state B.source E.order self.old) len (kind_of e)
            (parser_state B.source E.order self.new)) }
    {
        let mut items = match self.reader.list_for(len) {
            Ok(items) => items,
            Err(_) => return Err(ParseError::out_of_memory()),
        };
        for _ in 0..len {
            let item = match self.parse::<P>() {
                Ok(item) => item,
                Err(error) => return Err(error),
            };
            if items.push(item).is_err() {
                return Err(ParseError::out_of_memory());
            }
        }
        Ok(items)
    }

    /// The same as [`Parser::parse_repeated`], as an owned list.
    pub fn parse_slice<P: Parse<'p, B> + Copy>(
        &mut self,
        len: usize,
    ) -> ParseResult<CowSlice<'p, P>>
        ensures nothing { len ≡ 0 → IsOk result }
        ensures call { CallOnly B.source E.order self.old (error_kinds result) self.new }
        ensures owned { IfOk result (λ c. is_borrowed c ≡ false) }
        ensures ok { IfOk result (λ c. (length (cow_items c) ≡ len) × ParsesInTurn P.parses P.counts
            (parser_state B.source E.order self.old) (cow_items c)
            (parser_state B.source E.order self.new)) }
        ensures err { IfErr result (λ e. StopsShort P.parses P.counts
            (parser_state B.source E.order self.old) len (kind_of e)
            (parser_state B.source E.order self.new)) }
    {
        match self.parse_repeated::<P>(len) {
            Ok(items) => Ok(CowSlice::Owned(items)),
            Err(error) => Err(error),
        }
    }
}

// ---- visits of frames
impl<'p, B: ParseBuf<'p>, E: Endian> Parser<B, E> {
    /// Hands the record of the next frame, whose header was read before, to a visitor, and returns
    /// the visitor's output.
    ///
    /// The record is read under the header's `misc`. A record that is accepted is visited once, and
    /// one that is refused is not visited. After a refusal exactly the frame is taken, or all that
    /// was left if that is less; after a fault, or if there was no memory for the frame, a
    /// prefix of it.
    #[inline]
    pub fn parse_record_with_header<V: Visitor<'p>>(
        &mut self,
        visitor: V,
        header: perf_event_header,
    ) -> ParseResult<V::Output>
        ensures within { IsTrue (B.source (parser_buffer self.old)).told →
            prelude.MovesWithin (B.source (parser_buffer self.old)) (length_after header)
            (B.source (parser_buffer self.new)) }
        ensures event { IfOk result (λ output. BelongsTo V.gives header
            (B.source (parser_buffer self.old)).whole output) }
        ensures whole_memory { IsTrue (B.source (parser_buffer self.old)).whole →
            prelude.needs_memory header.type_ ≡ false → NeedsNoMemory (error_kinds result) }

        // A size that does not include the header is refused before anything else.
        ensures small { header.size < 8 → (error_kinds result ≡ Err ErrorKind.InvalidRecord)
            × (B.source (parser_buffer self.new) ≡ B.source (parser_buffer self.old)) }
        ensures small_why { header.size < 8 →
            IfErr result (λ e. prelude.IsErrorOf e prelude.SmallHeader) }

        // Memory is taken by the rules of a cut, and as the body needs it. If there is no memory
        // for the frame, nothing is taken if all of it was to be allocated first; if there is none
        // for the body, exactly the frame is taken.
        ensures nothing { length_after header ≡ 0 → prelude.needs_memory header.type_ ≡ false →
            NeedsNoMemory (error_kinds result) }
        ensures short { prelude.falls_short (B.hint (parser_buffer self.old))
            (length_after header) ≡ true →
            NeedsNoMemory (error_kinds result) × IfOk result (λ output. ⊥) }
        ensures beforehand { IsTrue (B.source (parser_buffer self.old)).told →
            prelude.is_made_beforehand (B.hint (parser_buffer self.old)) (length_after header) ≡ true →
            IfErr result (λ e. kind_of e ≡ ErrorKind.OutOfMemory →
            prelude.LeavesAllOrRest (B.source (parser_buffer self.old)) (length_after header)
            (B.source (parser_buffer self.new))) }
        ensures spent { IsTrue (B.source (parser_buffer self.old)).told →
            IsTrue (B.source (parser_buffer self.old)).whole →
            IfErr result (λ e. kind_of e ≡ ErrorKind.OutOfMemory →
            (B.source (parser_buffer self.new)).left
            ≡ drop (length_after header) (B.source (parser_buffer self.old)).left) }
        ensures call { Call B.source E.order (GivesFrameAfter V.gives header)
            self.old (error_kinds result) self.new }
    {
        match read_after(&mut self.reader, header, ByVisitor { visitor }, &mut ()) {
            Ok(output) => Ok(output),
            Err(refusal) => Err(self.reader.error_of(refusal)),
        }
    }

    /// The same as [`Parser::parse_record_with_header`], of a record whose header comes next.
    ///
    /// `Eof` is returned at the end of the input, and also for a record that is cut short: a loop
    /// that stops at the first `Eof` loses the records after such a one. [`crate::each_frame`] and
    /// [`crate::read_records`] tell the two apart.
    #[inline]
    pub fn parse_record<V: Visitor<'p>>(&mut self, visitor: V) -> ParseResult<V::Output>
        // A header that is missing, or whose size does not include it, is refused before any memory
        // is needed.
        ensures small { IsTrue (B.source (parser_buffer self.old)).told →
            prelude.RefusesHeader (E.order (prelude.endian_of (prelude.parser_config self.old)))
            (B.source (parser_buffer self.old)).left (error_kinds result) }
        ensures call { Call B.source E.order (GivesFrame V.gives)
            self.old (error_kinds result) self.new }
    {
        let header = match self.parse::<perf_event_header>() {
            Ok(header) => header,
            Err(error) => return Err(error),
        };
        match self.parse_record_with_header(visitor, header) {
            Ok(output) => Ok(output),
            Err(error) => Err(error),
        }
    }
}

// ---- the metadata of frames, and parsers of the bytes before their sample id
impl<'p, B: ParseBuf<'p>, E: Endian> Parser<B, E> {
    /// The metadata of the next record, whose header was read before, and a parser of the bytes
    /// between the header and the sample id.
    ///
    /// That parser has the same configuration, in which `misc` stays what it was, and has made no
    /// reads. A record that is too short for its sample id is `InvalidRecord`, and exactly its
    /// frame is taken. After a fault, or out of memory (for the frame, or for the duplicate of the
    /// order), a prefix of it is taken.
    #[inline]
    pub fn parse_metadata_with_header(
        &mut self,
        header: perf_event_header,
    ) -> ParseResult<(Parser<ParseBufCursor<'p>, E>, RecordMetadata)>
        ensures within { IsTrue (B.source (parser_buffer self.old)).told →
            prelude.MovesWithin (B.source (parser_buffer self.old)) (length_after header)
            (B.source (parser_buffer self.new)) }
        ensures inner { IfOk result (λ r.
            (configuration_of (parser_config r.0) ≡ configuration_of (parser_config self.old))
            × (E.order (endian_of (parser_config r.0)) ≡ E.order (endian_of (parser_config self.old)))
            × (parser_reads r.0 ≡ 0)) }
        ensures whole { IsTrue (B.source (parser_buffer self.old)).whole →
            IfOk result (λ r. IsTrue (prelude.cursor_is_borrowed (parser_buffer r.0))) }
        ensures whole_memory { IsTrue (B.source (parser_buffer self.old)).whole →
            E.may_refuse (endian_of (parser_config self.old)) ≡ false →
            NeedsNoMemory (error_kinds result) }

        // A size that does not include the header is refused before anything else.
        ensures small { header.size < 8 → (error_kinds result ≡ Err ErrorKind.InvalidRecord)
            × (B.source (parser_buffer self.new) ≡ B.source (parser_buffer self.old)) }
        ensures small_why { header.size < 8 →
            IfErr result (λ e. prelude.IsErrorOf e prelude.SmallHeader) }

        // With any other size it is an invalid record only if it is too short for its sample id.
        ensures id_why { IsTrue (B.source (parser_buffer self.old)).told → 8 ≤ header.size →
            IfErr result (λ e. kind_of e ≡ ErrorKind.InvalidRecord →
            prelude.IsErrorOf e prelude.NoRoomForId) }

        // Memory is taken by the rules of a cut, and for the duplicate of the order.
        ensures nothing { length_after header ≡ 0 →
            E.may_refuse (endian_of (parser_config self.old)) ≡ false →
            NeedsNoMemory (error_kinds result) }
        ensures short { prelude.falls_short (B.hint (parser_buffer self.old))
            (length_after header) ≡ true →
            NeedsNoMemory (error_kinds result) × IfOk result (λ parts. ⊥) }
        ensures beforehand { IsTrue (B.source (parser_buffer self.old)).told →
            prelude.is_made_beforehand (B.hint (parser_buffer self.old)) (length_after header) ≡ true →
            IfErr result (λ e. kind_of e ≡ ErrorKind.OutOfMemory →
            prelude.LeavesAllOrRest (B.source (parser_buffer self.old)) (length_after header)
            (B.source (parser_buffer self.new))) }
        ensures call { Call B.source E.order (SplitsParser header)
            self.old (error_kinds result) self.new }
    {
        let (body, metadata) = match split(&mut self.reader, header) {
            Ok(parts) => parts,
            Err(refusal) => return Err(self.reader.error_of(refusal)),
        };
        match self.config().duplicate() {
            Ok(config) => Ok((Parser::new(self.reader.alloc(), body, config), metadata)),
            Err(error) => Err(error),
        }
    }

    /// The same as [`Parser::parse_metadata_with_header`], of a record whose header comes next.
    #[inline]
    pub fn parse_metadata(&mut self) -> ParseResult<(Parser<ParseBufCursor<'p>, E>, RecordMetadata)>
        ensures inner { IfOk result (λ r.
            (configuration_of (parser_config r.0) ≡ configuration_of (parser_config self.old))
            × (E.order (endian_of (parser_config r.0)) ≡ E.order (endian_of (parser_config self.old)))
            × (parser_reads r.0 ≡ 0)) }
        ensures whole { IsTrue (B.source (parser_buffer self.old)).whole →
            IfOk result (λ r. IsTrue (prelude.cursor_is_borrowed (parser_buffer r.0))) }
        ensures whole_memory { IsTrue (B.source (parser_buffer self.old)).told →
            IsTrue (B.source (parser_buffer self.old)).whole →
            E.may_refuse (endian_of (parser_config self.old)) ≡ false →
            NeedsNoMemory (error_kinds result) }

        // A header that is missing, or whose size does not include it, is refused before any memory
        // is needed.
        ensures small { IsTrue (B.source (parser_buffer self.old)).told →
            prelude.RefusesHeader (E.order (endian_of (parser_config self.old)))
            (B.source (parser_buffer self.old)).left (error_kinds result) }
        ensures call { Call B.source E.order SplitsFrame self.old (error_kinds result) self.new }
    {
        let header = match self.parse::<perf_event_header>() {
            Ok(header) => header,
            Err(error) => return Err(error),
        };
        match self.parse_metadata_with_header(header) {
            Ok(parts) => Ok(parts),
            Err(error) => Err(error),
        }
    }
}

// The attribute at the front of a recording.
impl<'p, B: ParseBuf<'p> + Drop, E: Endian> Parser<B, E> {
    /// Reads the attribute at the front (`struct perf_event_attr`), and returns a parser of the bytes
    /// after it, under the attribute's configuration and in the same byte order.
    ///
    /// It fails as the parse of a `perf_event_attr` does, and if the order's `duplicate` does.
    pub fn after_attribute(mut self) -> ParseResult<Parser<B, E>>
        ensures order { IfOk result (λ after.
            E.order (endian_of (parser_config after)) ≡ E.order (endian_of (parser_config self))) }

        // The attribute is the layout of the first bytes, and takes as many as its size specifies.
        ensures read { let start = parser_state B.source E.order self in
            IsTrue start.source.told → IfOk result (λ after. (attr : prelude.perf_event_attr)
            × (prelude.took_by_places start.order prelude.attribute start.source.left start.reads
            ≡ prelude.took attr (B.source (parser_buffer after)).left (parser_reads after))
            × ((B.source (parser_buffer after)).left ≡ drop attr.size start.source.left)
            × (configuration_of (parser_config after) ≡ prelude.configured_by attr)) }

        // It fails as that layout does, or by a fault of the buffer, or out of memory for the order.
        ensures refused { let start = parser_state B.source E.order self in
            IsTrue start.source.told → IfErr result (λ e. IsTrue (prelude.of_layout (kind_of e)) →
            prelude.layout start.order prelude.attribute start.source.left ≡ Err (kind_of e)) }
        ensures fault { IfErr result (λ e. kind_of e ≡ ErrorKind.External →
            IsTrue (B.source (parser_buffer self)).can_fault) }
        ensures memory { IsTrue (B.source (parser_buffer self)).told → IfErr result (λ e.
            kind_of e ≡ ErrorKind.OutOfMemory →
            IsTrue (E.may_refuse (endian_of (parser_config self)))) }

        // What was kept since any earlier state is kept.
        ensures keeps { (start : prelude.ReaderState) →
            prelude.CallInvariant start None (parser_state B.source E.order self) →
            IfOk result (λ after. prelude.CallInvariant start None (parser_state B.source E.order after)) }
    {
        let attr = match self.parse::<perf_event_attr>() {
            Ok(attr) => attr,
            Err(error) => return Err(error),
        };
        let order = match self.endian().duplicate() {
            Ok(order) => order,
            Err(error) => return Err(error),
        };
        let config = ParseConfig::<Native>::from(attr).with_endian(order);
        Ok(self.reconfigure(config))
    }
}
