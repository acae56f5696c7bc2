//! Runs over streams as text, for the tests of several crates: by every buffer, and by each call that reads more than one
//! frame, with the lines of `perfrec`.
#![tactic(auto)]

pub mod perfrec;

ghost use Rattle.std.specs.Prelude.{⊤};

use perf_base::endian::{Endian, Little, Native};
use perf_base::sys::{perf_event_attr, perf_event_header};
use perf_buffers::pieces::PieceBuf;
use perf_parser::parse::{
    ErrorKind, Parse, ParseBuf, ParseConfig, ParseError, ParseResult, Parser,
};
use perf_parser::{FrameRun, Run, RunEnd, each_frame, read_records};
use perf_records::frame::Frame as WholeFrame;
use perf_records::frame_handler::{BadFrame, FrameHandler};
use perf_records::frame_list::frames;
use perf_records::record::Record;
use perf_test_helpers::drops::{drop_record, drop_run, end_of};
use perf_test_helpers::everywhere::{Buffer, OTHERS, Question, add_other, add_over, parser_of};
use perf_test_helpers::lines::{WriteLine, write_error, write_frame, write_last_frame};
use perf_test_helpers::over_buffer;
use std::alloc::{AllocError, Global};
use std::io::BufReader;

// ---- the text of a run

// The header of a frame, and its result.
type Frame<'a> = (perf_event_header, ParseResult<Record<'a>>);

// The same record, or the same error.
fn copy_of<'a>(alloc: Global, answer: &ParseResult<Record<'a>>) -> ParseResult<Record<'a>> {
    match answer {
        Ok(record) => record.clone(alloc),
        Err(error) => Err(ParseError::custom(error.kind(), "")),
    }
}

// Writes the line of a frame, and that of a clone of its record, each with a semicolon after it.
fn write_twice<L: WriteLine>(
    text: &mut String,
    again: &mut String,
    lines: &L,
    index: usize,
    frame: &Frame<'_>,
) -> Result<(), AllocError> {
    let (header, answer) = frame;
    write_frame(text, lines, index, header, answer)?;
    text.push_str("; ")?;
    let copy = copy_of(*again.allocator(), answer);
    write_last_frame(again, lines, index, header, copy)?;
    again.push_str("; ")
}

// Writes the frames of a run, and the same with clones of their records.
fn write_frames<L: WriteLine>(
    text: &mut String,
    again: &mut String,
    lines: &L,
    frames: &[Frame<'_>],
) -> Result<(), AllocError> {
    for (index, frame) in frames.iter().enumerate() {
        write_twice(text, again, lines, index, frame)?;
    }
    Ok(())
}

// Writes what clones of the records give, if it is not the text from `start` on.
fn write_other(text: &mut String, start: usize, again: &str) -> Result<(), AllocError> {
    if text.as_str().get(start..) == Some(again) {
        Ok(())
    } else {
        write!(text, "and not {again}")
    }
}

// Writes each frame of a run; what clones of its records give, if that differs; and how the run ended.
fn write_frames_and_end<L: WriteLine>(
    text: &mut String,
    lines: &L,
    run: &Run<'_>,
) -> Result<(), AllocError> {
    let start = text.len();
    let mut again = String::new(*text.allocator());
    write_frames(text, &mut again, lines, &run.frames)?;
    write_other(text, start, again.as_str())?;
    write_end(text, &run.end)
}

// Writes a run, and drops it.
fn write_last_run<L: WriteLine>(
    text: &mut String,
    lines: &L,
    run: Run<'_>,
) -> Result<(), AllocError> {
    let written = write_frames_and_end(text, lines, &run);
    drop_run(run);
    written
}

fn write_end(text: &mut String, end: &RunEnd) -> Result<(), AllocError> {
    match end {
        RunEnd::Limit => text.push_str("limit"),
        RunEnd::Done => text.push_str("done"),
        RunEnd::CutHeader => text.push_str("cut"),
        RunEnd::Fault(error) => {
            text.push_str("fault ")?;
            write_error(text, error)
        }
    }
}

// ---- runs of a parser

// What makes a run.
#[derive(Copy, Clone)]
enum Way {
    // The run that lists records.
    Records,
    // The run that hands out frames.
    Frames,
}

// Appends what separates the next run from those before.
fn write_separator(text: &mut String) -> Result<(), AllocError> {
    if text.is_empty() {
        Ok(())
    } else {
        text.push_str(" | ")
    }
}

fn write_run<'p, B: ParseBuf<'p>, E: Endian, L: WriteLine>(
    text: &mut String,
    lines: &L,
    parser: &mut Parser<B, E>,
    limit: usize,
    way: Way,
) -> Result<(), AllocError> {
    match way {
        Way::Records => write_last_run(text, lines, read_records(parser, limit)),
        Way::Frames => {
            let run = run_by_frames(*text.allocator(), parser, limit);
            write_last_run(text, lines, run)
        }
    }
}

// Appends the runs of a parser with these limits, in turn.
fn write_runs<'p, B: ParseBuf<'p>, E: Endian, L: WriteLine>(
    text: &mut String,
    lines: &L,
    parser: &mut Parser<B, E>,
    limits: &[usize],
    way: Way,
) -> Result<(), AllocError> {
    for limit in limits {
        write_separator(text)?;
        write_run(text, lines, parser, *limit, way)?;
    }
    Ok(())
}

/// Appends the runs of a parser that list records, with these limits, in turn.
pub fn write_lists<'p, B: ParseBuf<'p>, E: Endian, L: WriteLine>(
    text: &mut String,
    lines: &L,
    parser: &mut Parser<B, E>,
    limits: &[usize],
) -> Result<(), AllocError> {
    write_runs(text, lines, parser, limits, Way::Records)
}

fn text_of_runs_by<'p, B: ParseBuf<'p> + Drop, E: Endian, L: WriteLine>(
    alloc: Global,
    lines: &L,
    buf: B,
    endian: E,
    attr: &perf_event_attr,
    limits: &[usize],
    way: Way,
) -> Result<String, AllocError> {
    let mut parser = parser_of(alloc, buf, endian, attr);
    let mut text = String::new(alloc);
    let written = write_runs(&mut text, lines, &mut parser, limits, way);
    drop(parser);
    written?;
    Ok(text)
}

/// The runs of one parser under an attribute with these limits, in turn.
pub fn text_of_runs_under<'p, B: ParseBuf<'p> + Drop, E: Endian, L: WriteLine>(
    alloc: Global,
    lines: &L,
    buf: B,
    endian: E,
    attr: &perf_event_attr,
    limits: &[usize],
) -> Result<String, AllocError> {
    text_of_runs_by(alloc, lines, buf, endian, attr, limits, Way::Records)
}

/// The same under the default attribute.
pub fn text_of_runs<'p, B: ParseBuf<'p> + Drop, E: Endian, L: WriteLine>(
    alloc: Global,
    lines: &L,
    buf: B,
    endian: E,
    limits: &[usize],
) -> Result<String, AllocError> {
    text_of_runs_under(
        alloc,
        lines,
        buf,
        endian,
        &perf_event_attr::default(),
        limits,
    )
}

// ---- runs that hand out frames, in the form of those that list records

// Lists the frames of a run, each with its record.
struct FrameLister<'p> {
    alloc: Global,
    frames: Vec<Frame<'p>>,
}

impl<'p> FrameLister<'p> {
    fn new(alloc: Global) -> Self {
        FrameLister {
            alloc,
            frames: Vec::new(alloc),
        }
    }

    fn list<E: Endian>(
        &mut self,
        config: &ParseConfig<E>,
        frame: Result<WholeFrame<'_, 'p>, BadFrame>,
    ) -> bool {
        let is_reserved = self.frames.reserve(1).is_ok();
        if is_reserved {
            self.frames.push_reserved(listed(self.alloc, config, frame));
        }
        is_reserved
    }

    // The run of the frames that are listed.
    fn run(self, end: RunEnd) -> Run<'p> {
        let FrameLister { alloc: _, frames } = self;
        Run { frames, end }
    }
}

fn listed<'p, E: Endian>(
    alloc: Global,
    config: &ParseConfig<E>,
    frame: Result<WholeFrame<'_, 'p>, BadFrame>,
) -> Frame<'p> {
    match frame {
        Ok(frame) => (frame.header(), frame.record(alloc, config)),
        Err(bad) => (bad.header(), Err(bad.error())),
    }
}

impl<'p, E: Endian> FrameHandler<'p, E> for FrameLister<'p> {
    ghost gets = { λ _ _ _ _ _ _. ⊤ };

    fn frame(
        &mut self,
        config: &ParseConfig<E>,
        frame: Result<WholeFrame<'_, 'p>, BadFrame>,
    ) -> bool {
        self.list(config, frame)
    }
}

// Lists the frames that a run hands out, and returns how it ended.
fn end_by_frames<'p, B: ParseBuf<'p>, E: Endian>(
    parser: &mut Parser<B, E>,
    limit: usize,
    lister: &mut FrameLister<'p>,
) -> RunEnd {
    let FrameRun { count, end } = each_frame(parser, limit, lister);
    match end {
        Some(end) if count == lister.frames.len() => end,
        _ => RunEnd::Fault(ParseError::custom(ErrorKind::External, "not as many frames")),
    }
}

fn run_by_frames<'p, B: ParseBuf<'p>, E: Endian>(
    alloc: Global,
    parser: &mut Parser<B, E>,
    limit: usize,
) -> Run<'p> {
    let mut lister = FrameLister::new(alloc);
    let end = end_by_frames(parser, limit, &mut lister);
    lister.run(end)
}

// Lists the frames of a slice, and returns whether none of its bytes are left.
fn list_slice<'p, E: Endian>(
    lister: &mut FrameLister<'p>,
    bytes: &'p [u8],
    order: E,
    config: &ParseConfig<E>,
) -> bool {
    let mut iterator = frames(bytes, order);
    for _ in 0..=bytes.len() {
        match iterator.next() {
            Some(frame) => {
                lister.list(config, frame);
            }
            None => break,
        }
    }
    iterator.left().is_empty()
}

fn run_of_slice<'p, E: Endian>(
    alloc: Global,
    bytes: &'p [u8],
    order: E,
    config: &ParseConfig<E>,
) -> Run<'p> {
    let mut lister = FrameLister::new(alloc);
    let is_done = list_slice(&mut lister, bytes, order, config);
    lister.run(if is_done {
        RunEnd::Done
    } else {
        RunEnd::CutHeader
    })
}

// ---- runs over many buffers

// Runs of a kind with these limits.
#[derive(Drop)]
struct Runs<'a, E, L> {
    lines: &'a L,
    endian: E,
    attr: &'a perf_event_attr,
    way: Way,
    limits: &'a [usize],
}

impl<E: Endian + Copy, L: WriteLine> Runs<'_, E, L> {
    fn text_of<'p, B: ParseBuf<'p> + Drop>(
        &self,
        alloc: Global,
        buf: B,
    ) -> Result<String, AllocError> {
        text_of_runs_by(
            alloc,
            self.lines,
            buf,
            self.endian,
            self.attr,
            self.limits,
            self.way,
        )
    }

    // The text of a run over all frames of these bytes, from the frames of the slice.
    fn text_of_slice(&self, alloc: Global, bytes: &[u8]) -> Result<String, AllocError> {
        let config = ParseConfig::<Native>::from(*self.attr).with_endian(self.endian);
        let mut text = String::new(alloc);
        let run = run_of_slice(alloc, bytes, self.endian, &config);
        write_last_run(&mut text, self.lines, run)?;
        Ok(text)
    }
}

impl<E: Endian + Copy, L: WriteLine> Question for Runs<'_, E, L> {
    fn text_over(&self, alloc: Global, bytes: &[u8], buffer: Buffer) -> Result<String, AllocError> {
        over_buffer!(self, alloc, bytes, buffer)
    }
}

// Appends the texts that differ from the first: of runs that list records over these buffers, and of
// runs that hand out frames over a slice and these buffers.
fn add_runs<E: Endian + Copy, L: WriteLine>(
    others: &mut String,
    bytes: &[u8],
    runs: &Runs<'_, E, L>,
    buffers: &[Buffer],
    first: &str,
) -> Result<(), AllocError> {
    let by_frames = Runs {
        lines: runs.lines,
        endian: runs.endian,
        attr: runs.attr,
        way: Way::Frames,
        limits: runs.limits,
    };
    add_over(others, bytes, runs, buffers, first)?;
    add_over(others, bytes, &by_frames, &[Buffer::Slice], first)?;
    add_over(others, bytes, &by_frames, buffers, first)
}

// Appends the text of the frames of the slice, if it is not that of one run over all of them.
fn add_slice<E: Endian + Copy, L: WriteLine>(
    others: &mut String,
    lines: &L,
    bytes: &[u8],
    endian: E,
    attr: &perf_event_attr,
) -> Result<(), AllocError> {
    let runs = Runs {
        lines,
        endian,
        attr,
        way: Way::Records,
        limits: &[usize::MAX],
    };
    let alloc = *others.allocator();
    let whole = runs.text_of(alloc, bytes)?;
    let of_slice = runs.text_of_slice(alloc, bytes)?;
    add_other(others, of_slice.as_str(), whole.as_str())
}

/// The runs over these bytes under an attribute, over a slice, buffered readers and pieces; and if
/// runs that hand out frames, or the frames of the slice, differ, those too.
pub fn runs_everywhere<E: Endian + Copy, L: WriteLine>(
    alloc: Global,
    lines: &L,
    bytes: &[u8],
    endian: E,
    attr: &perf_event_attr,
    limits: &[usize],
) -> Result<String, AllocError> {
    let runs = Runs {
        lines,
        endian,
        attr,
        way: Way::Records,
        limits,
    };
    let first = runs.text_of(alloc, bytes)?;
    let mut text = String::from_str(alloc, first.as_str())?;
    add_runs(&mut text, bytes, &runs, &OTHERS, first.as_str())?;
    add_slice(&mut text, lines, bytes, endian, attr)?;
    Ok(text)
}

/// Nothing, if a run over these bytes under an attribute has the same text as a run over another
/// buffer, as runs over either that hand out frames, and as the frames of the slice. Otherwise the
/// texts that differ.
pub fn differences<E: Endian + Copy, L: WriteLine>(
    alloc: Global,
    lines: &L,
    bytes: &[u8],
    endian: E,
    attr: &perf_event_attr,
    other: Buffer,
) -> Result<String, AllocError> {
    let runs = Runs {
        lines,
        endian,
        attr,
        way: Way::Records,
        limits: &[usize::MAX],
    };
    let first = runs.text_of(alloc, bytes)?;
    let mut others = String::new(alloc);
    add_runs(&mut others, bytes, &runs, &[other], first.as_str())?;
    add_slice(&mut others, lines, bytes, endian, attr)?;
    Ok(others)
}

// ---- records one by one

/// The next header.
pub fn next_header<'p, B: ParseBuf<'p>, E: Endian>(
    parser: &mut Parser<B, E>,
) -> ParseResult<perf_event_header> {
    perf_event_header::parse(parser)
}

/// The next record.
pub fn next_record<'p, B: ParseBuf<'p>, E: Endian>(
    parser: &mut Parser<B, E>,
) -> ParseResult<Record<'p>> {
    Record::parse(parser)
}

/// Writes the `{:?}` of a record, or the kind of its error, and returns whether it is a record.
pub fn write_debug_record(
    text: &mut String,
    answer: ParseResult<Record<'_>>,
) -> Result<bool, AllocError> {
    let written = match &answer {
        Ok(record) => write!(text, "{record:?}; "),
        Err(error) => write_error(text, error),
    };
    let is_record = answer.is_ok();
    drop_record(answer);
    written?;
    Ok(is_record)
}

fn write_records<'p, B: ParseBuf<'p>>(
    text: &mut String,
    parser: &mut Parser<B, Little>,
    most: usize,
) -> Result<(), AllocError> {
    for _ in 0..most {
        if !write_debug_record(text, next_record(parser))? {
            break;
        }
    }
    Ok(())
}

/// The `{:?}` of the records of a slice, one after another, and why there is no further one. Bytes
/// that are those of the slice are `Borrowed`.
pub fn text_of_records(alloc: Global, bytes: &[u8]) -> Result<String, AllocError> {
    let mut parser = Parser::new(alloc, bytes, ParseConfig::<Little>::default());
    let mut text = String::new(alloc);
    let written = write_records(&mut text, &mut parser, bytes.len() + 1);
    drop(parser);
    written?;
    Ok(text)
}

// ---- what refuses

/// The fault that ends a run of at most so many frames, or none.
pub fn fault_of_run<'p, B: ParseBuf<'p>, E: Endian>(
    parser: &mut Parser<B, E>,
    limit: usize,
) -> Option<ParseError> {
    match end_of(read_records(parser, limit)) {
        RunEnd::Fault(error) => Some(error),
        _ => None,
    }
}

/// Why there is no next record, or nothing if there is one.
pub fn error_of_record<'p, B: ParseBuf<'p>, E: Endian>(
    parser: &mut Parser<B, E>,
) -> Option<ParseError> {
    match next_record(parser) {
        Ok(record) => {
            drop_record(Ok(record));
            None
        }
        Err(error) => Some(error),
    }
}
