//! The engine: reads records from a reader and writes their text.

ghost use Rattle.std.specs.Prelude.{◌≡◌, ◌<◌, ◌++◌, List, ℕ, IsTrue, IfOk, IfSome, is_err};
ghost use Rattle.std.specs.Prelude.{codes, string_bytes, if◌then◌else◌, true};
ghost use Rattle.perf_run.specs.Prelude.{configuration_of, endian_of, parser_buffer};
ghost use Rattle.perf_run.specs.Prelude.{parser_config, of_layout, list_any, IsWritten, Writes};
ghost use Rattle.perf_run.specs.Prelude.{plain, ending_line, ending_outcome};
ghost use Rattle.perf_lines.specs.Text.{kind_name};
ghost use Rattle.perf_run.specs.Text as lines;

use crate::lines::{push_attr_refused, push_end, push_fault, push_lines};
use perf_base::endian::{Endian, Native};
use perf_base::sys::perf_event_header;
use perf_lines::outcome::Outcome;
use perf_lines::output::write_and_flush;
use perf_parser::parse::{ErrorKind, ParseBuf, ParseConfig, ParseResult, Parser};
use perf_parser::{RunEnd, read_records};
use perf_records::record::Record;
use std::alloc::{AllocError, Global};
use std::io::{BufReader, Read, Write};

// How many results are kept at a time.
const BATCH: usize = 256;

/// Reads at most `limit` records, in pieces of at most `piece` bytes, and writes a line for each
/// and a last one that states how reading ended. Nothing is written before everything is read, and
/// only the text is kept until then.
///
/// With `with_attr` the input begins with an attribute, whose configuration applies to the records
/// after it. If it is refused, the only line states that, and the outcome is `BadAttr`.
pub fn run<R: Read + Drop, W: Write, E: Endian>(
    alloc: Global,
    reader: R,
    writer: &mut W,
    order: E,
    limit: usize,
    with_attr: bool,
    piece: usize,
) -> Outcome
    requires { 0 < piece }

    // If the bytes of the reader are known, what is written is their text, as the outcome
    // specifies.
    ensures { IfSome (R.remaining reader) (λ bytes.
        Writes (E.order order) limit (lines.stream_of with_attr (E.order order) bytes) result
        (W.contents writer.old) (W.contents writer.new)) }
{
    let Ok((text, outcome)) = text_of(alloc, reader, order, limit, with_attr, piece) else {
        return Outcome::Stopped;
    };
    if write_and_flush(writer, text.as_bytes()) {
        outcome
    } else {
        Outcome::Stopped
    }
}

// The text of a run, and its outcome if that text can be written.
fn text_of<R: Read + Drop, E: Endian>(
    alloc: Global,
    reader: R,
    order: E,
    limit: usize,
    with_attr: bool,
    piece: usize,
) -> Result<(String, Outcome), AllocError>
    requires { 0 < piece }
    ensures { IfSome (R.remaining reader) (λ bytes. IfOk result (λ made.
        IsWritten true (E.order order) limit (lines.stream_of with_attr (E.order order) bytes)
        made.1 (string_bytes made.0))) }
{
    let mut text = String::new(alloc);
    let Ok(buffer) = BufReader::with_capacity(alloc, piece, reader) else {
        push_fault(&mut text, ErrorKind::OutOfMemory)?;
        return Ok((text, Outcome::Faulted));
    };
    let config = ParseConfig::<Native>::default().with_endian(order);
    let parser = Parser::new(alloc, buffer, config);
    let outcome = push_stream(&mut text, parser, limit, with_attr)?;
    Ok((text, outcome))
}

// Appends the text of what a parser of the plain configuration reads, which may begin with an
// attribute.
fn push_stream<'p, B: ParseBuf<'p> + Drop, E: Endian>(
    text: &mut String,
    mut parser: Parser<B, E>,
    limit: usize,
    with_attr: bool,
) -> Result<Outcome, AllocError>
    requires { configuration_of (parser_config parser) ≡ plain }
    ensures { IsTrue (B.source (parser_buffer parser)).told → IfOk result (λ outcome. (written : List ℕ)
        × (string_bytes text.new ≡ string_bytes text.old ++ written)
        × IsWritten (B.source (parser_buffer parser)).can_fault (E.order (endian_of (parser_config parser)))
        limit (lines.stream_of with_attr (E.order (endian_of (parser_config parser)))
        (B.source (parser_buffer parser)).left) outcome written) }
{
    if with_attr {
        push_run_with_attr(text, parser, limit)
    } else {
        push_run(text, &mut parser, limit)
    }
}

// Appends the text of what a parser reads, with the attribute first.
fn push_run_with_attr<'p, B: ParseBuf<'p> + Drop, E: Endian>(
    text: &mut String,
    parser: Parser<B, E>,
    limit: usize,
) -> Result<Outcome, AllocError>
    ensures { IsTrue (B.source (parser_buffer parser)).told → IfOk result (λ outcome. (written : List ℕ)
        × (string_bytes text.new ≡ string_bytes text.old ++ written)
        × IsWritten (B.source (parser_buffer parser)).can_fault (E.order (endian_of (parser_config parser)))
        limit (lines.stream_after_attribute (E.order (endian_of (parser_config parser)))
        (B.source (parser_buffer parser)).left) outcome written) }
{
    match parser.after_attribute() {
        Ok(mut after) => push_run(text, &mut after, limit),
        Err(error) => push_refusal(text, error.kind()),
    }
}

// Appends the only line of a run whose attribute could not be read.
fn push_refusal(text: &mut String, kind: ErrorKind) -> Result<Outcome, AllocError>
    ensures refused { IsTrue (of_layout kind) → IfOk result (λ outcome.
        (string_bytes text.new ≡ string_bytes text.old ++ lines.attr_line kind)
        × (outcome ≡ Outcome.BadAttr)) }
    ensures fault { (IsTrue (of_layout kind) → ⊥) → IfOk result (λ outcome.
        (string_bytes text.new
        ≡ string_bytes text.old ++ lines.end_line (codes "fault " ++ kind_name kind))
        × (outcome ≡ Outcome.Faulted)) }
{
    if kind.is_of_layout() {
        push_attr_refused(text, kind)?;
        Ok(Outcome::BadAttr)
    } else {
        push_fault(text, kind)?;
        Ok(Outcome::Faulted)
    }
}

// Appends the text of what a parser reads, batch by batch.
fn push_run<'p, B: ParseBuf<'p>, E: Endian>(
    text: &mut String,
    parser: &mut Parser<B, E>,
    limit: usize,
) -> Result<Outcome, AllocError>
    ensures { IsTrue (B.source (parser_buffer parser.old)).told → IfOk result (λ outcome.
        (written : List ℕ)
        × (string_bytes text.new ≡ string_bytes text.old ++ written)
        × IsWritten (B.source (parser_buffer parser.old)).can_fault
        (E.order (endian_of (parser_config parser.old))) limit
        (lines.framed (configuration_of (parser_config parser.old))
        (B.source (parser_buffer parser.old)).left)
        outcome written) }
{
    let mut count = 0;
    let mut any_refused = false;
    while count < limit {
        let batch = (limit - count).min(BATCH);
        let run = read_records(parser, batch);
        push_lines(text, count, &run.frames)?;
        any_refused |= has_refusal(&run.frames);
        match run.end {
            RunEnd::Limit => count += batch,
            end => return push_ending(text, end, any_refused),
        }
    }
    push_last(text, "limit", any_refused)
}

// Appends the line that states how a run ended.
fn push_ending(text: &mut String, end: RunEnd, any_refused: bool) -> Result<Outcome, AllocError>
    ensures { IfOk result (λ outcome.
        (string_bytes text.new ≡ string_bytes text.old ++ ending_line end)
        × (outcome ≡ ending_outcome end any_refused)) }
{
    match end {
        RunEnd::Limit => push_last(text, "limit", any_refused),
        RunEnd::Done => push_last(text, "done", any_refused),
        RunEnd::CutHeader => push_last(text, "cut", true),
        RunEnd::Fault(error) => {
            push_fault(text, error.kind())?;
            Ok(Outcome::Faulted)
        }
    }
}

fn has_refusal(frames: &[(perf_event_header, ParseResult<Record>)]) -> bool
    ensures { result ≡ list_any (λ pair. is_err pair.1) frames.now }
{
    frames.iter().any(|frame| frame.1.is_err())
}

fn push_last(text: &mut String, how: &str, any_refused: bool) -> Result<Outcome, AllocError>
    ensures { IfOk result (λ outcome.
        (string_bytes text.new ≡ string_bytes text.old ++ lines.end_line how.now)
        × (outcome ≡ (if any_refused then Outcome.Refused else Outcome.Clean))) }
{
    push_end(text, how)?;
    Ok(if any_refused {
        Outcome::Refused
    } else {
        Outcome::Clean
    })
}
