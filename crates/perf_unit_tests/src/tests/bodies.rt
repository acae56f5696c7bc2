//! What is parsed from a frame's body.

use crate::tests::closures::write_closures;
use crate::tests::own_types::write_sample;
use perf_event_data::RecordMetadata;
use perf_event_data::endian::Endian;
use perf_event_data::parse::{ParseBuf, ParseBufCursor, ParseResult, Parser};
use std::alloc::{AllocError, Global};

/// What the parser of a frame's body is asked for.
#[derive(Copy, Clone)]
pub enum Body {
    /// A sample of a user's own.
    Sample,
    /// The same with a closure.
    SampleByClosure,
    /// What closures parse.
    Closures,
}

fn write_metadata(text: &mut String, metadata: &RecordMetadata) -> Result<(), AllocError> {
    let id = metadata.sample_id();
    let task = (id.pid(), id.tid(), id.time());
    let event = (id.id(), id.stream_id(), id.cpu());
    write!(
        text,
        "{} {} {task:?} {event:?}",
        metadata.ty(),
        metadata.misc()
    )
}

// Writes the results of the parser of a body.
fn write_body<'p, E: Endian>(
    text: &mut String,
    inner: &mut Parser<ParseBufCursor<'p>, E>,
    body: Body,
) -> ParseResult<()> {
    match body {
        Body::Sample => write_sample(text, inner, false),
        Body::SampleByClosure => write_sample(text, inner, true),
        Body::Closures => write_closures(text, inner),
    }
}

/// What is known of a frame besides its body, and the results of the parser of its body.
pub fn text_of_frame<'p, B: ParseBuf<'p>, E: Endian>(
    alloc: Global,
    parser: &mut Parser<B, E>,
    body: Body,
) -> ParseResult<String> {
    let (mut inner, metadata) = parser.parse_metadata()?;
    let mut text = String::new(alloc);
    let of_metadata = write_metadata(&mut text, &metadata);
    let of_body = write_body(&mut text, &mut inner, body);
    drop(inner);
    of_metadata?;
    of_body?;
    Ok(text)
}
