//! Counting the frames of a stream.

ghost use Rattle.std.specs.Prelude.{◌≡◌, true, Ok, Err, IsTrue, IfOk, IfErr};
ghost use Rattle.perf_base.specs.Configured.{configuration_of, endian_of};
ghost use Rattle.perf_buffers.specs.Prelude.{BufferInvariant};
ghost use Rattle.perf_parser.specs.Prelude.{parser_buffer, parser_config, kind_of, of_layout};
ghost use Rattle.perf_parser.specs.Runs.{end_refusal};
ghost use Rattle.perf_reader.specs.Reading.{is_external};
ghost use Rattle.perf_reports.specs.Counting.{CountsRun, CountsStream, attribute_in};

use crate::counting::FrameCounter;
use crate::counts::Counts;
use perf_base::endian::{Endian, Native};
use perf_parser::parse::{ErrorKind, ParseBuf, ParseConfig, ParseResult, Parser};
use perf_parser::{RunEnd, each_frame};
use std::alloc::Global;

/// The limit of a run that counts all frames: more than any input has.
pub const MOST_FRAMES: usize = usize::MAX;

/// Counts the frames of a stream, and returns how it ended. With `with_attr` an attribute comes
/// first, whose configuration applies to the records after it; if it is refused, nothing is
/// counted.
pub fn count_stream<'p, B: ParseBuf<'p> + Drop, E: Endian>(
    alloc: Global,
    input: B,
    endian: E,
    with_attr: bool,
) -> ParseResult<(Counts, RunEnd)>
    ensures counts { IsTrue (B.source input).told → IfOk result (λ counted.
        CountsStream with_attr (E.order endian) MOST_FRAMES (B.source input).left
        counted.0 counted.1) }
    ensures refused { IsTrue (B.source input).told → IfErr result (λ e.
        IsTrue (of_layout (kind_of e)) → (with_attr ≡ true)
        × (attribute_in (E.order endian) (B.source input).left ≡ Err (kind_of e))) }

    // A fault comes only from an input that can fault, and the attribute is out of memory only if
    // the order's duplicate is.
    ensures fault { IsTrue (B.source input).told → IfOk result (λ counted.
        is_external (end_refusal counted.1) ≡ true → IsTrue (B.source input).can_fault) }
    ensures attribute_fault { IfErr result (λ e. kind_of e ≡ ErrorKind.External →
        IsTrue (B.source input).can_fault) }
    ensures attribute_memory { IsTrue (B.source input).told → IfErr result (λ e.
        kind_of e ≡ ErrorKind.OutOfMemory → IsTrue (E.may_refuse endian)) }
{
    let plain = ParseConfig::<Native>::default().with_endian(endian);
    let mut parser = Parser::new(alloc, input, plain);
    if !with_attr {
        return Ok(count_records(alloc, &mut parser));
    }
    match parser.after_attribute() {
        Ok(mut after) => Ok(count_records(alloc, &mut after)),
        Err(error) => Err(error),
    }
}

/// Counts the frames that a parser reads until its buffer ends, and returns how it ended.
///
/// A refused frame is counted, and the next one begins at its end. Only a fault of the buffer or a
/// failed allocation ends a run early; the frame at which that happens is not counted.
pub fn count_records<'p, B: ParseBuf<'p>, E: Endian>(
    alloc: Global,
    parser: &mut Parser<B, E>,
) -> (Counts, RunEnd)
    ensures config { parser_config parser.new ≡ parser_config parser.old }
    ensures counts { IsTrue (B.source (parser_buffer parser.old)).told →
        CountsRun (configuration_of (parser_config parser.old)) (E.order (endian_of (parser_config parser.old)))
        MOST_FRAMES (B.source (parser_buffer parser.old)).left result.0 result.1
        (B.source (parser_buffer parser.new)).left }

    // A fault of the buffer ends it as such, and nothing else does.
    ensures buffer { IsTrue (B.source (parser_buffer parser.old)).told →
        BufferInvariant (B.source (parser_buffer parser.old)) (end_refusal result.1)
        (B.source (parser_buffer parser.new)) }
    ensures fault { IsTrue (B.source (parser_buffer parser.old)).told →
        is_external (end_refusal result.1) ≡ true →
        IsTrue (B.source (parser_buffer parser.old)).can_fault }
{
    let mut counter = FrameCounter::new(alloc);
    let run = each_frame(parser, MOST_FRAMES, &mut counter);
    let counts = counter.counts();
    let end = match run.end {
        Some(end) => end,
        None => counter.end(),
    };
    drop(counter);
    (counts, end)
}
