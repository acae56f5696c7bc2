//! Buffers over the same bytes.

use perf_base::endian::{Endian, Native};
use perf_base::sys::perf_event_attr;
use perf_parser::parse::{ParseBuf, ParseConfig, Parser};
use std::alloc::{AllocError, Global};

/// A parser over a buffer, under an attribute.
pub fn parser_of<'p, B: ParseBuf<'p>, E: Endian>(
    alloc: Global,
    buf: B,
    endian: E,
    attr: &perf_event_attr,
) -> Parser<B, E> {
    let config = ParseConfig::<Native>::from(*attr);
    Parser::new(alloc, buf, config.with_endian(endian))
}

/// A buffer over a slice.
#[derive(Copy, Clone)]
pub enum Buffer {
    /// The slice itself.
    Slice,
    /// A buffered reader of this capacity, which is at least 1.
    Reader(usize),
    /// Pieces of at most this many bytes, at least 1, and whether they live as long as the input.
    Pieces(usize, bool),
}

/// Buffers that show less than all bytes, or do not show them as long.
pub const OTHERS: [Buffer; 11] = [
    Buffer::Reader(1),
    Buffer::Reader(7),
    Buffer::Reader(8192),
    Buffer::Pieces(1, true),
    Buffer::Pieces(1, false),
    Buffer::Pieces(3, true),
    Buffer::Pieces(3, false),
    Buffer::Pieces(7, true),
    Buffer::Pieces(7, false),
    Buffer::Pieces(64, true),
    Buffer::Pieces(64, false),
];

/// What the method `text_of` of a question makes of a buffer of these bytes. (A trait cannot have
/// that method: its contract would name the lifetime of the buffer.)
#[macro_export]
macro_rules! over_buffer {
    ($question:expr, $alloc:expr, $bytes:expr, $buffer:expr) => {
        match $buffer {
            $crate::everywhere::Buffer::Slice => $question.text_of($alloc, $bytes),
            $crate::everywhere::Buffer::Reader(capacity) => {
                match BufReader::with_capacity($alloc, capacity.max(1), $bytes) {
                    Ok(reader) => $question.text_of($alloc, reader),
                    Err(_) => Err(AllocError),
                }
            }
            $crate::everywhere::Buffer::Pieces(most, lasts) => {
                $question.text_of($alloc, PieceBuf::new($bytes, most.max(1), lasts))
            }
        }
    };
}

/// Appends a text if it differs from the first.
pub fn add_other(others: &mut String, actual: &str, first: &str) -> Result<(), AllocError> {
    if actual == first {
        Ok(())
    } else {
        write!(others, " but {actual}")
    }
}

/// What parsers over many buffers are asked for.
pub trait Question {
    /// The results of a parser over a buffer of these bytes.
    fn text_over(&self, alloc: Global, bytes: &[u8], buffer: Buffer) -> Result<String, AllocError>;
}

/// Appends the texts over these buffers that differ from the first.
pub fn add_over<Q: Question>(
    others: &mut String,
    bytes: &[u8],
    question: &Q,
    buffers: &[Buffer],
    first: &str,
) -> Result<(), AllocError> {
    for &buffer in buffers {
        let actual = question.text_over(*others.allocator(), bytes, buffer)?;
        add_other(others, actual.as_str(), first)?;
    }
    Ok(())
}

/// The text over a slice, buffered readers and pieces of these bytes: one text if it is the same
/// over all of them, and otherwise the others after it.
pub fn text_everywhere<Q: Question>(
    alloc: Global,
    bytes: &[u8],
    question: &Q,
) -> Result<String, AllocError> {
    let first = question.text_over(alloc, bytes, Buffer::Slice)?;
    let mut text = String::from_str(alloc, first.as_str())?;
    add_over(&mut text, bytes, question, &OTHERS, first.as_str())?;
    Ok(text)
}
