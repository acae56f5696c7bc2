//! What `perfrec` writes for a stream.

ghost use Rattle.std.specs.Prelude.{◌<◌};

use anyhow::{Context, Result};
use perf_event_data::endian::{Big, Endian, Little, Native};
use perf_run::run;
use perf_text::args::command;
use perf_text::command::Command;
use perf_text::order::OrderName;
use std::alloc::{AllocError, Global};

// The lines that are written, one after another, and the status.
fn lines<E: Endian>(
    alloc: Global,
    order: E,
    request: Command,
    stream: &[u8],
    piece: usize,
) -> Result<String>
    requires { 0 < piece }
{
    let mut output = Vec::new(alloc);
    let end = run(
        alloc,
        stream,
        &mut output,
        order,
        request.limit,
        request.with_attr,
        piece,
    );
    let mut text = str::from_utf8(&output)?.replace(alloc, "\n", "; ")?;
    write!(text, "status {}", end.status())?;
    Ok(text)
}

fn text_in_pieces(alloc: Global, request: Command, stream: &[u8], piece: usize) -> Result<String>
    requires { 0 < piece }
{
    match request.order {
        OrderName::Little => lines(alloc, Little, request, stream, piece),
        OrderName::Big => lines(alloc, Big, request, stream, piece),
        OrderName::Native => lines(alloc, Native, request, stream, piece),
    }
}

fn words(alloc: Global, line: &str) -> Result<Vec<String>, AllocError> {
    let mut words = Vec::new(alloc);
    for word in line.split(' ') {
        words.push(String::from_str(alloc, word)?)?;
    }
    Ok(words)
}

/// What it writes for these words, if the stream is read in pieces of 1, 7 and 8192 bytes: one text
/// if all are the same, and otherwise the others after it.
pub fn text_of(alloc: Global, line: &str, stream: &[u8]) -> Result<String> {
    let request = command(&words(alloc, line)?).context("no words of perfrec")?;
    let mut text = text_in_pieces(alloc, request, stream, 1)?;
    for &piece in &[7, 8192] {
        let other = text_in_pieces(alloc, request, stream, piece)?;
        if other.as_str() != text.as_str() {
            write!(text, " but {other}")?;
        }
    }
    Ok(text)
}
