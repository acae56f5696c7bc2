//! Why the first frame of a stream is refused, by each call that returns a reason.

ghost use Rattle.std.specs.Prelude.{⊤};

use perf_base::endian::{Endian, Little};
use perf_base::sys::perf_event_attr;
use perf_parser::parse::{ParseConfig, ParseResult, Parser};
use perf_parser::{Run, each_frame, read_records};
use perf_records::frame::Frame;
use perf_records::frame_handler::{BadFrame, FrameHandler};
use perf_records::frame_list::frames;
use perf_records::metadata::RecordMetadata;
use perf_records::partial::{Partial, PartialVisitor};
use perf_records::record::Record;
use perf_sample_types::sample::Sample;
use perf_sample_types::sample_fields::SampleFields;
use perf_test_helpers::drops::{drop_record, drop_run, drop_sample};
use perf_test_helpers::everywhere::{add_other, parser_of};
use std::alloc::{AllocError, Global};

/// Handles no type of record.
#[derive(Drop)]
pub struct Nothing;

impl PartialVisitor for Nothing {
    type Output = ();

    // Nothing is specified.
    ghost gives = { λ event output. ⊤ };

    ghost left_out = { λ metadata output. ⊤ };

    fn visit_unimplemented(self, _metadata: RecordMetadata) {}
}

// The message of a refusal.
fn message_of<T: Drop>(alloc: Global, answer: ParseResult<T>) -> Result<String, AllocError> {
    match answer {
        Ok(_) => String::from_str(alloc, "accepted"),
        Err(error) => format!(in alloc; "{error}"),
    }
}

// That of a record.
fn message_of_record(
    alloc: Global,
    answer: &ParseResult<Record<'_>>,
) -> Result<String, AllocError> {
    match answer {
        Ok(_) => String::from_str(alloc, "accepted"),
        Err(error) => format!(in alloc; "{error}"),
    }
}

// That of a header that no whole frame follows.
fn message_of_found(
    alloc: Global,
    found: Result<Frame<'_, '_>, BadFrame>,
) -> Result<String, AllocError> {
    match found {
        Ok(_) => String::from_str(alloc, "accepted"),
        Err(bad) => format!(in alloc; "{}", bad.error()),
    }
}

// Keeps the message of the last frame.
#[derive(Drop)]
struct Last {
    alloc: Global,
    text: Result<String, AllocError>,
}

impl<'p, E: Endian> FrameHandler<'p, E> for Last {
    ghost gets = { λ _ _ _ _ _ _. ⊤ };

    fn frame(&mut self, _config: &ParseConfig<E>, found: Result<Frame<'_, 'p>, BadFrame>) -> bool {
        self.text = message_of_found(self.alloc, found);
        true
    }
}

fn by_each_frame(alloc: Global, parser: &mut Parser<&[u8], Little>) -> Result<String, AllocError> {
    let mut last = Last {
        alloc,
        text: String::from_str(alloc, "no frame"),
    };
    each_frame(parser, 1, &mut last);
    last.text
}

// That of the first frame of a run.
fn message_of_first(alloc: Global, run: &Run<'_>) -> Result<String, AllocError> {
    match run.frames.first() {
        Some((_, answer)) => message_of_record(alloc, answer),
        None => String::from_str(alloc, "no frame"),
    }
}

fn by_read_records(
    alloc: Global,
    parser: &mut Parser<&[u8], Little>,
) -> Result<String, AllocError> {
    let run = read_records(parser, 1);
    let text = message_of_first(alloc, &run);
    drop_run(run);
    text
}

fn by_record(
    alloc: Global,
    config: &ParseConfig<Little>,
    frame: &Frame<'_, '_>,
) -> Result<String, AllocError> {
    let answer = frame.record(alloc, config);
    let text = message_of_record(alloc, &answer);
    drop_record(answer);
    text
}

fn by_sample_into<'p>(
    alloc: Global,
    config: &ParseConfig<Little>,
    frame: &Frame<'_, 'p>,
) -> Result<String, AllocError> {
    let mut sample: Sample<'p> = Sample::from_fields(SampleFields::default());
    let answer = frame.sample_into(alloc, config, &mut sample);
    drop_sample(sample);
    message_of(alloc, answer)
}

// The message by a call of a whole frame.
fn by_frame(
    alloc: Global,
    call: &str,
    config: &ParseConfig<Little>,
    frame: &Frame<'_, '_>,
) -> Result<String, AllocError> {
    match call {
        "record" => by_record(alloc, config, frame),
        "visit" => message_of(alloc, frame.visit(alloc, config, Partial(Nothing))),
        "metadata" => message_of(alloc, frame.metadata(alloc, config)),
        "sample_into" => by_sample_into(alloc, config, frame),
        _ => String::from_str(alloc, "no such call"),
    }
}

fn by_found(
    alloc: Global,
    call: &str,
    config: &ParseConfig<Little>,
    found: Result<Frame<'_, '_>, BadFrame>,
) -> Result<String, AllocError> {
    if call == "frames" {
        return message_of_found(alloc, found);
    }
    match found {
        Ok(frame) => by_frame(alloc, call, config, &frame),
        Err(_) => String::from_str(alloc, "no frame"),
    }
}

// The message by a call of a frame of a list.
fn by_list(
    alloc: Global,
    call: &str,
    config: &ParseConfig<Little>,
    bytes: &[u8],
) -> Result<String, AllocError> {
    match frames(bytes, Little).next() {
        Some(found) => by_found(alloc, call, config, found),
        None => String::from_str(alloc, "no frame"),
    }
}

fn by_parser(
    alloc: Global,
    call: &str,
    parser: &mut Parser<&[u8], Little>,
    bytes: &[u8],
) -> Result<String, AllocError> {
    match call {
        "each_frame" => by_each_frame(alloc, parser),
        "read_records" => by_read_records(alloc, parser),
        "parse_record" => message_of(alloc, parser.parse_record(Partial(Nothing))),
        "parse_metadata" => message_of(alloc, parser.parse_metadata()),
        _ => by_list(alloc, call, parser.config(), bytes),
    }
}

// The message by a call.
fn reason(
    alloc: Global,
    call: &str,
    attr: &perf_event_attr,
    bytes: &[u8],
) -> Result<String, AllocError> {
    let mut parser = parser_of(alloc, bytes, Little, attr);
    let text = by_parser(alloc, call, &mut parser, bytes);
    drop(parser);
    text
}

/// What each of these calls returns for the first frame of a stream in little endian, under an
/// attribute: the message of its refusal, or that it is accepted. It is one text if it is the same
/// for all of them, and otherwise the others after it.
pub fn reasons(
    alloc: Global,
    calls: &str,
    attr: &perf_event_attr,
    bytes: &[u8],
) -> Result<String, AllocError> {
    let (first, others) = calls.split_once(' ').unwrap_or((calls, calls));
    let first = reason(alloc, first, attr, bytes)?;
    let mut text = String::from_str(alloc, first.as_str())?;
    for call in others.split(' ') {
        let other = reason(alloc, call, attr, bytes)?;
        add_other(&mut text, other.as_str(), first.as_str())?;
    }
    Ok(text)
}
