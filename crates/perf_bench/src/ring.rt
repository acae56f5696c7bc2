//! Small batches from a ring buffer, whose bytes come in pieces that do not live as long as the
//! input.

ghost use Rattle.std.specs.Prelude.{⊤, ◌<◌};

use crate::digest::Digest;
use anyhow::Result;
use perf_event_data::endian::Little;
use perf_event_data::parse::{ParseBuf, ParseConfig, ParseResult, Parser};
use perf_event_data::{Comm, Mmap2, Partial, PartialVisitor, PieceBuf, RecordMetadata, Sample};
use std::alloc::Global;

/// A digest of the samples, mappings and names that are visited.
#[derive(Copy, Clone)]
struct Numbers;

impl PartialVisitor for Numbers {
    type Output = u64;

    // Nothing is specified.
    ghost gives = { λ event output. ⊤ };

    ghost left_out = { λ metadata output. ⊤ };

    fn visit_unimplemented(self, metadata: RecordMetadata) -> Self::Output {
        let mut digest = Digest::new();
        digest.metadata(&metadata);
        digest.sum
    }

    fn visit_sample(self, content: Sample<'_>, metadata: RecordMetadata) -> Self::Output {
        let mut digest = Digest::new();
        digest.sample(&content);
        digest.metadata(&metadata);
        drop(content);
        digest.sum
    }

    fn visit_mmap2(self, content: Mmap2<'_>, metadata: RecordMetadata) -> Self::Output {
        let mut digest = Digest::new();
        digest.mmap2(&content);
        digest.metadata(&metadata);
        drop(content);
        digest.sum
    }

    fn visit_comm(self, content: Comm<'_>, metadata: RecordMetadata) -> Self::Output {
        let mut digest = Digest::new();
        digest.comm(&content);
        digest.metadata(&metadata);
        drop(content);
        digest.sum
    }
}

/// How the frames of a ring are read.
#[derive(Copy, Clone)]
pub enum Taken {
    /// Each by its metadata, and its record from the rest of the bytes.
    ByMetadata,
    /// Each by a visitor.
    ByVisitor,
}

/// Reads a recording as a ring buffer of pages of `most` bytes.
pub fn read_ring(
    alloc: Global,
    bytes: &[u8],
    most: usize,
    taken: Taken,
    digest: &mut Digest,
) -> Result<()>
    requires { 0 < most }
{
    let buffer = PieceBuf::new(bytes, most, false);
    let parser = Parser::new(alloc, buffer, ParseConfig::<Little>::default());
    let mut parser = parser.after_attribute()?;
    for _ in 0..u64::MAX {
        if !read_frame(&mut parser, taken, digest) {
            break;
        }
    }
    Ok(())
}

// Reads a frame, and returns whether it could.
fn read_frame<'p, B: ParseBuf<'p>>(
    parser: &mut Parser<B, Little>,
    taken: Taken,
    digest: &mut Digest,
) -> bool {
    let answer = match taken {
        Taken::ByMetadata => by_metadata(parser, digest),
        Taken::ByVisitor => by_visitor(parser, digest),
    };
    match answer {
        Ok(()) => {
            digest.frame();
            true
        }
        Err(error) => {
            digest.error(&error);
            false
        }
    }
}

fn by_visitor<'p, B: ParseBuf<'p>>(
    parser: &mut Parser<B, Little>,
    digest: &mut Digest,
) -> ParseResult<()> {
    let number = parser.parse_record(Partial(Numbers))?;
    digest.number(number);
    Ok(())
}

fn by_metadata<'p, B: ParseBuf<'p>>(
    parser: &mut Parser<B, Little>,
    digest: &mut Digest,
) -> ParseResult<()> {
    let (mut body, metadata) = parser.parse_metadata()?;
    digest.metadata(&metadata);
    let answer = read_body(&mut body, metadata.ty(), digest);
    drop(body);
    answer
}

// Reads the body of a frame of a type.
fn read_body<'p, B: ParseBuf<'p>>(
    body: &mut Parser<B, Little>,
    ty: u32,
    digest: &mut Digest,
) -> ParseResult<()> {
    match ty {
        9 => read_sample(body, digest),
        10 => read_mmap2(body, digest),
        3 => read_comm(body, digest),
        _ => read_bytes(body, digest),
    }
}

fn read_sample<'p, B: ParseBuf<'p>>(
    body: &mut Parser<B, Little>,
    digest: &mut Digest,
) -> ParseResult<()> {
    let sample = body.parse::<Sample>()?;
    digest.sample(&sample);
    drop(sample);
    Ok(())
}

fn read_mmap2<'p, B: ParseBuf<'p>>(
    body: &mut Parser<B, Little>,
    digest: &mut Digest,
) -> ParseResult<()> {
    let mapped = body.parse::<Mmap2>()?;
    digest.mmap2(&mapped);
    drop(mapped);
    Ok(())
}

fn read_comm<'p, B: ParseBuf<'p>>(
    body: &mut Parser<B, Little>,
    digest: &mut Digest,
) -> ParseResult<()> {
    let comm = body.parse::<Comm>()?;
    digest.comm(&comm);
    drop(comm);
    Ok(())
}

fn read_bytes<'p, B: ParseBuf<'p>>(
    body: &mut Parser<B, Little>,
    digest: &mut Digest,
) -> ParseResult<()> {
    let bytes = body.parse_rest()?;
    digest.bytes(bytes.as_slice());
    drop(bytes);
    Ok(())
}
