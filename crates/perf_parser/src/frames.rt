//! Records that are parsed after their header.

ghost use Rattle.std.specs.Prelude.{◌≡◌, ◌<◌, false, true, drop, Err, IsTrue, IfOk, IfErr};
ghost use Rattle.perf_parser.specs.Prelude.{Call, ReadsFrameAfter, error_kinds, parser_buffer};
ghost use Rattle.perf_parser.specs.Prelude.{NeedsNoMemory, length_after, kind_of};
ghost use Rattle.perf_parser.specs.Prelude as prelude;

use crate::parse::{FrameLayout, ParseRecord};
use crate::parser::Parser;
use perf_base::sys::perf_event_header;
use perf_base::{Endian, ErrorKind, ParseResult};
use perf_buffers::parsebuf::ParseBuf;
use perf_records::body_reader::AsRecord;
use perf_records::frame_after::read_after;
use perf_records::record::Record;

impl FrameLayout for Record<'_> {
    ghost transition_after = { ReadsFrameAfter };
}

impl<'p, B: ParseBuf<'p>> ParseRecord<'p, B> for Record<'p> {
    #[inline]
    fn parse_with_header<E: Endian>(
        parser: &mut Parser<B, E>,
        header: perf_event_header,
    ) -> ParseResult<Self>
        ensures within { IsTrue (B.source (parser_buffer parser.old)).told →
            prelude.MovesWithin (B.source (parser_buffer parser.old)) (length_after header)
            (B.source (parser_buffer parser.new)) }
        ensures borrowed { IsTrue (B.source (parser_buffer parser.old)).whole →
            IfOk result (λ r. prelude.IsBorrowed r) }
        ensures whole_memory { IsTrue (B.source (parser_buffer parser.old)).whole →
            prelude.needs_memory header.type_ ≡ false → NeedsNoMemory (error_kinds result) }

        // A size that does not include the header is refused before anything else.
        ensures small { header.size < 8 → (error_kinds result ≡ Err ErrorKind.InvalidRecord)
            × (B.source (parser_buffer parser.new) ≡ B.source (parser_buffer parser.old)) }
        ensures small_why { header.size < 8 →
            IfErr result (λ e. prelude.IsErrorOf e prelude.SmallHeader) }

        // Memory is taken by the rules of a cut, and as the body needs it. If there is no memory
        // for the frame, nothing is taken if all of it was to be allocated first; if there is none
        // for the body, exactly the frame is taken.
        ensures nothing { length_after header ≡ 0 → prelude.needs_memory header.type_ ≡ false →
            NeedsNoMemory (error_kinds result) }
        ensures short { prelude.falls_short (B.hint (parser_buffer parser.old))
            (length_after header) ≡ true →
            NeedsNoMemory (error_kinds result) × IfOk result (λ r. ⊥) }
        ensures beforehand { IsTrue (B.source (parser_buffer parser.old)).told →
            prelude.is_made_beforehand (B.hint (parser_buffer parser.old)) (length_after header) ≡ true →
            IfErr result (λ e. kind_of e ≡ ErrorKind.OutOfMemory →
            prelude.LeavesAllOrRest (B.source (parser_buffer parser.old)) (length_after header)
            (B.source (parser_buffer parser.new))) }
        ensures spent { IsTrue (B.source (parser_buffer parser.old)).told →
            IsTrue (B.source (parser_buffer parser.old)).whole →
            IfErr result (λ e. kind_of e ≡ ErrorKind.OutOfMemory →
            (B.source (parser_buffer parser.new)).left
            ≡ drop (length_after header) (B.source (parser_buffer parser.old)).left) }
        ensures call { Call B.source E.order (ReadsFrameAfter header)
            parser.old (error_kinds result) parser.new }
    {
        match read_after(&mut parser.reader, header, AsRecord, &mut ()) {
            Ok(record) => Ok(record),
            Err(refusal) => Err(parser.reader.error_of(refusal)),
        }
    }
}
