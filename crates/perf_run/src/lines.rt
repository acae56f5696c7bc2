//! The lines of a run.

ghost use Rattle.std.specs.Prelude.{◌≡◌, ◌+◌, ◌<◌, ◌^◌, ◌++◌, codes, length, string_bytes, OnOk};
ghost use Rattle.std.specs.Prelude.{IfOk, IfErr};
ghost use Rattle.perf_base.specs.Errors.{kind_of};
ghost use Rattle.perf_lines.specs.Fields.{with_spaces};
ghost use Rattle.perf_lines.specs.Text as words;
ghost use Rattle.perf_parser.specs.Runs.{seen_answer, seen_answers};
ghost use Rattle.perf_run.specs.Text as lines;

use perf_base::sys::perf_event_header;
use perf_lines::line::{kind_name, put_header};
use perf_lines::records::push_record;
use perf_parser::parse::{ErrorKind, ParseResult};
use perf_records::record::Record;
use perf_text::strip::Strip;
use std::alloc::{AllocError, Global};

/// The line of one frame, without its line feed: its number, its header, and its record or error.
pub fn line_of(
    alloc: Global,
    index: usize,
    header: &perf_event_header,
    answer: &ParseResult<Record>,
) -> ParseResult<String>
    ensures ok { IfOk result (λ text.
        string_bytes text ≡ words.line index header.now (seen_answer answer.now)) }
    ensures err { IfErr result (λ e. kind_of e ≡ ErrorKind.OutOfMemory) }
{
    let mut text = String::new(alloc);
    push_line(&mut text, index, header, answer)?;
    Ok(text)
}

/// Appends the lines of frames, numbered from `first`.
pub fn push_lines(
    text: &mut String,
    first: usize,
    frames: &[(perf_event_header, ParseResult<Record>)],
) -> Result<(), AllocError>
    ensures { first + length frames.now < 2 ^ 64 → OnOk result
        (string_bytes text.new
        ≡ string_bytes text.old ++ lines.lines_from first (seen_answers frames.now)) }
{
    let mut index = first;
    for (header, answer) in frames {
        push_line(text, index, header, answer)?;
        text.push_str("\n")?;
        index = index.saturating_add(1);
    }
    Ok(())
}

/// Appends the line that states how reading ended.
pub fn push_end(text: &mut String, how: &str) -> Result<(), AllocError>
    ensures { OnOk result (string_bytes text.new
        ≡ string_bytes text.old ++ lines.end_line how.now) }
{
    text.push_str("end ")?;
    text.push_str(how)?;
    text.push_str("\n")
}

/// Appends the last line of a run that ended with a fault.
pub fn push_fault(text: &mut String, kind: ErrorKind) -> Result<(), AllocError>
    ensures { OnOk result (string_bytes text.new
        ≡ string_bytes text.old ++ lines.end_line (codes "fault " ++ words.kind_name kind)) }
{
    push_kind(text, "end fault ", kind)
}

/// Appends the line for a refused attribute.
pub fn push_attr_refused(text: &mut String, kind: ErrorKind) -> Result<(), AllocError>
    ensures { OnOk result (string_bytes text.new ≡ string_bytes text.old ++ lines.attr_line kind) }
{
    push_kind(text, "attr refused ", kind)
}

// Appends a line that ends with the name of a kind of error.
fn push_kind(text: &mut String, before: &str, kind: ErrorKind) -> Result<(), AllocError>
    ensures { OnOk result (string_bytes text.new
        ≡ string_bytes text.old ++ words.with_line_feed (before.now ++ words.kind_name kind)) }
{
    text.push_str(before)?;
    text.push_str(kind_name(kind))?;
    text.push_str("\n")
}

fn push_line(
    text: &mut String,
    index: usize,
    header: &perf_event_header,
    answer: &ParseResult<Record>,
) -> Result<(), AllocError>
    ensures { OnOk result (string_bytes text.new
        ≡ string_bytes text.old ++ words.line index header.now (seen_answer answer.now)) }
{
    let mut strip = Strip::new();
    put_header(&mut strip, header);
    strip.put_number(index as u64);
    text.push_str(strip.text())?;
    push_answer(text, answer)
}

fn push_answer(text: &mut String, answer: &ParseResult<Record>) -> Result<(), AllocError>
    ensures { OnOk result (string_bytes text.new
        ≡ string_bytes text.old ++ with_spaces (words.answer_words (seen_answer answer.now))) }
{
    match answer {
        Ok(record) => push_record(text, record),
        Err(error) => {
            text.push_str(" refused ")?;
            text.push_str(kind_name(error.kind()))
        }
    }
}
