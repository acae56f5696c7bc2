//! What a parser is asked for, one thing after another, and the results as text.

use perf_event_data::endian::{Dynamic, Endian, Native};
use perf_event_data::parse::{
    Parse, ParseBuf, ParseBufCursor, ParseConfig, ParseRecord, ParseResult, Parser,
};
use perf_event_data::sys::perf_event_attr;
use perf_event_data::{PieceBuf, ReadGroup, Record, RecordMetadata, Sample};
use perf_test_helpers::everywhere::{Buffer, Question, parser_of, text_everywhere};
use perf_test_helpers::lines::write_last_frame;
use perf_test_helpers::over_buffer;
use perf_test_inputs::configurations::write_config;
use perf_test_runs::perfrec::Perfrec;
use perf_test_runs::{next_header, next_record, write_lists};
use perf_test_texts::texts::{
    write_both_ends, write_found, write_found_spaces, write_group, write_last_record, write_values,
};
use perf_test_texts::values::write_value;
use std::alloc::{AllocError, Global};
use std::io::BufReader;

// ---- records and samples

// The record after a header that is parsed first.
fn write_after_header<'p, B: ParseBuf<'p>, E: Endian>(
    text: &mut String,
    parser: &mut Parser<B, E>,
) -> Result<(), AllocError> {
    match next_header(parser) {
        Ok(header) => {
            let answer = Record::parse_with_header(parser, header);
            write_last_frame(text, &Perfrec, 0, &header, answer)
        }
        Err(error) => write!(text, "{error}"),
    }
}

// The next sample.
fn next_sample<'p, B: ParseBuf<'p>, E: Endian>(
    parser: &mut Parser<B, E>,
) -> ParseResult<Sample<'p>> {
    Sample::parse(parser)
}

// A sample as a record.
fn record_of<'p>(alloc: Global, answer: ParseResult<Sample<'p>>) -> ParseResult<Record<'p>> {
    match answer {
        Ok(sample) => Record::from_sample(alloc, sample),
        Err(error) => Err(error),
    }
}

fn write_sample<'p, B: ParseBuf<'p>, E: Endian>(
    text: &mut String,
    parser: &mut Parser<B, E>,
) -> Result<(), AllocError> {
    let answer = record_of(*text.allocator(), next_sample(parser));
    write_last_record(text, &Perfrec, answer)
}

// The next attribute.
fn next_attribute<'p, B: ParseBuf<'p>, E: Endian>(
    parser: &mut Parser<B, E>,
) -> ParseResult<perf_event_attr> {
    perf_event_attr::parse(parser)
}

// The next group of counters.
fn next_group<'p, B: ParseBuf<'p>, E: Endian>(
    parser: &mut Parser<B, E>,
) -> ParseResult<ReadGroup<'p>> {
    ReadGroup::parse(parser)
}

// ---- one thing by its name

// Groups of counters and the configuration.
fn write_asked<'p, B: ParseBuf<'p>, E: Endian>(
    text: &mut String,
    parser: &mut Parser<B, E>,
    name: &str,
    count: usize,
) -> Result<(), AllocError> {
    match name {
        "ReadGroup" => write_group(text, next_group(parser)),
        "both_ends" => write_both_ends(text, next_group(parser)),
        "config" => write_config(text, parser.config()),
        _ => write_record(text, parser, name, count),
    }
}

// Records, at once, after their headers, and with their namespaces; and samples.
fn write_record<'p, B: ParseBuf<'p>, E: Endian>(
    text: &mut String,
    parser: &mut Parser<B, E>,
    name: &str,
    count: usize,
) -> Result<(), AllocError> {
    match name {
        "Record" => write_found(text, &Perfrec, next_record(parser)),
        "parse_with_header" => write_after_header(text, parser),
        "namespaces" => write_found_spaces(text, &Perfrec, next_record(parser)),
        "Sample" => write_sample(text, parser),
        "values" => write_values(text, next_sample(parser)),
        _ => write_value(text, parser, name, count),
    }
}

// ---- one thing after another

// Writes a semicolon between two results.
fn write_semicolon(text: &mut String) -> Result<(), AllocError> {
    if text.is_empty() {
        Ok(())
    } else {
        text.push_str("; ")
    }
}

// A word is what is asked for, and after a colon the count.
fn write_word<'p, B: ParseBuf<'p>, E: Endian>(
    text: &mut String,
    parser: &mut Parser<B, E>,
    word: &str,
) -> Result<(), AllocError> {
    write_semicolon(text)?;
    let (name, count) = word.split_once(':').unwrap_or((word, "0"));
    match count.parse() {
        Ok(count) => write_asked(text, parser, name, count),
        Err(_) => write!(text, "how many are {count}?"),
    }
}

// Appends the results of what one parser is asked for.
fn write_answers<'p, B: ParseBuf<'p>, E: Endian>(
    text: &mut String,
    parser: &mut Parser<B, E>,
    words: &str,
) -> Result<(), AllocError> {
    for word in words.split(' ') {
        if !word.is_empty() {
            write_word(text, parser, word)?;
        }
    }
    Ok(())
}

// What is known of a frame besides its record, and the results of the parser of its body.
fn write_inside<'p, E: Endian>(
    text: &mut String,
    answer: ParseResult<(Parser<ParseBufCursor<'p>, E>, RecordMetadata)>,
    words: &str,
) -> Result<(), AllocError> {
    match answer {
        Ok((mut inner, metadata)) => {
            let written = write_frame(text, &mut inner, &metadata, words);
            drop(inner);
            written
        }
        Err(error) => write!(text, "{error}"),
    }
}

fn write_frame<'p, B: ParseBuf<'p>, E: Endian>(
    text: &mut String,
    inner: &mut Parser<B, E>,
    metadata: &RecordMetadata,
    words: &str,
) -> Result<(), AllocError> {
    write!(text, "{metadata:?}")?;
    write_answers(text, inner, words)
}

fn write_inside_after_header<'p, B: ParseBuf<'p>, E: Endian>(
    text: &mut String,
    parser: &mut Parser<B, E>,
    words: &str,
) -> Result<(), AllocError> {
    match next_header(parser) {
        Ok(header) => {
            write!(text, "{header:?}; ")?;
            write_inside(text, parser.parse_metadata_with_header(header), words)
        }
        Err(error) => write!(text, "{error}"),
    }
}

// The parser itself is asked for a part, or that of the body if the part begins with a frame.
fn write_part<'p, B: ParseBuf<'p>, E: Endian>(
    text: &mut String,
    parser: &mut Parser<B, E>,
    part: &str,
) -> Result<(), AllocError> {
    let (first, words) = part.split_once(' ').unwrap_or((part, ""));
    if !first.starts_with("parse_metadata") {
        return write_answers(text, parser, part);
    }
    write_semicolon(text)?;
    if first == "parse_metadata" {
        write_inside(text, parser.parse_metadata(), words)
    } else {
        write_inside_after_header(text, parser, words)
    }
}

// The results of a parser for each part.
fn write_parts<'p, B: ParseBuf<'p>, E: Endian>(
    text: &mut String,
    parser: &mut Parser<B, E>,
    parts: &str,
) -> Result<(), AllocError> {
    for part in parts.split(" | ") {
        write_part(text, parser, part)?;
    }
    Ok(())
}

// Writes the results for each part, and drops the parser.
fn write_calls<'p, B: ParseBuf<'p> + Drop>(
    text: &mut String,
    parser: Parser<B, Dynamic>,
    parts: &str,
) -> Result<(), AllocError> {
    let mut parser = parser;
    let written = write_parts(text, &mut parser, parts);
    drop(parser);
    written
}

// ---- the runs after an attribute

// An attribute's size, its configuration and the runs after it.
fn write_under<'p, B: ParseBuf<'p> + Drop>(
    text: &mut String,
    parser: Parser<B, Dynamic>,
    attr: perf_event_attr,
    limits: &[usize],
) -> Result<(), AllocError> {
    let config = ParseConfig::<Native>::from(attr).with_endian(*parser.endian());
    let mut parser = parser.reconfigure(config);
    let written = write_under_own(text, &mut parser, attr.size, limits);
    drop(parser);
    written
}

fn write_under_own<'p, B: ParseBuf<'p>>(
    text: &mut String,
    parser: &mut Parser<B, Dynamic>,
    size: u32,
    limits: &[usize],
) -> Result<(), AllocError> {
    write!(text, "{size} ")?;
    write_config(text, parser.config())?;
    write_lists(text, &Perfrec, parser, limits)
}

// The attribute at the start, and the runs after it with these limits.
fn write_after_attribute<'p, B: ParseBuf<'p> + Drop>(
    text: &mut String,
    parser: Parser<B, Dynamic>,
    limits: &[usize],
) -> Result<(), AllocError> {
    let mut parser = parser;
    match next_attribute(&mut parser) {
        Ok(attr) => write_under(text, parser, attr, limits),
        Err(error) => {
            drop(parser);
            write!(text, "{error}")
        }
    }
}

// ---- over every buffer

// What is asked for.
#[derive(Copy, Clone)]
enum Request<'a> {
    // Calls and types, one after another.
    Calls(&'a str),
    // The attribute at the start, and the runs after it with these limits.
    After(&'a [usize]),
}

// A request in a byte order, under an attribute.
#[derive(Copy, Clone)]
struct Asked<'a> {
    order: Dynamic,
    attr: &'a perf_event_attr,
    request: Request<'a>,
}

impl Asked<'_> {
    fn text_of<'p, B: ParseBuf<'p> + Drop>(
        &self,
        alloc: Global,
        buf: B,
    ) -> Result<String, AllocError> {
        let mut text = String::new(alloc);
        let parser = parser_of(alloc, buf, self.order, self.attr);
        let written = match self.request {
            Request::Calls(parts) => write_calls(&mut text, parser, parts),
            Request::After(limits) => write_after_attribute(&mut text, parser, limits),
        };
        written?;
        Ok(text)
    }
}

impl Question for Asked<'_> {
    fn text_over(&self, alloc: Global, bytes: &[u8], buffer: Buffer) -> Result<String, AllocError> {
        over_buffer!(self, alloc, bytes, buffer)
    }
}

/// What parsers over these bytes return under an attribute, over a slice, buffered readers and
/// pieces. The words name what is asked for, one thing after another: a call, a type or, after `|`,
/// a frame and what the parser of its body is asked for until the next `|`.
pub fn text_of_calls(
    alloc: Global,
    bytes: &[u8],
    order: Dynamic,
    attr: &perf_event_attr,
    parts: &str,
) -> Result<String, AllocError> {
    let asked = Asked {
        order,
        attr,
        request: Request::Calls(parts),
    };
    text_everywhere(alloc, bytes, &asked)
}

/// The attribute at the start of these bytes and the runs after it, over a slice, buffered readers
/// and pieces.
pub fn text_after_attribute(
    alloc: Global,
    bytes: &[u8],
    limits: &[usize],
) -> Result<String, AllocError> {
    let attr = perf_event_attr::default();
    let asked = Asked {
        order: Dynamic::Little,
        attr: &attr,
        request: Request::After(limits),
    };
    text_everywhere(alloc, bytes, &asked)
}
