//! Lines of a recording: one for each record that a report covers.

ghost use Rattle.std.specs.Prelude.{◌≡◌, ◌≤◌, ◌⊎◌, ◌++◌, ℕ, false, IsTrue, [], take, length, string_bytes};
ghost use Rattle.std.specs.Prelude.{OnOk, IfOk, IfErr, IfSome, Some, if◌then◌else◌};
ghost use Rattle.std.specs.Io.KnownBytes.{Appends};
ghost use Rattle.anyhow.specs.Error.{HasMessage};
ghost use Rattle.perf_buffers.specs.Prelude.{reader_remaining};
ghost use Rattle.perf_parser.specs.Prelude.{parser_buffer, parser_config, parser_state};
ghost use Rattle.perf_reports.specs.FramePrinting.{PrintsAll, PrintsFirst, PrintsLines, PrintsRecording, PrintsRun, answers_left, recording_answers};
ghost use Rattle.perf_reports.specs.Printing.{attribute_message, found_value, text_of_record, printed_answers, is_memory};
ghost use Rattle.perf_reports.specs.Printing.{Grows, GrowsWithin, StopsReading};

use crate::frame_printer::FramePrinter;
use crate::{samples, tasks};
use anyhow::{Error as AnyError, Result, bail};
use core::mem::replace_with;
use perf_base::endian::{Endian, Little};
use perf_parser::parse::{ParseBuf, ParseConfig, ParseError, Parser};
use perf_parser::{RunEnd, each_frame};
use perf_records::record::Record;
use perf_sample_types::sample::Sample;
use perf_text::output::write_whole;
use std::alloc::{AllocError, Global};
use std::error::Error;
use std::io::{BufReader, Read, Write};
use std::{fmt, io};

// How many frames are read before all lines are written.
const BATCH: usize = 256;

// The maximum number of bytes of lines that are written together. Only a longer line is written
// alone. A pipe keeps a write of this size in one piece (`PIPE_BUF`).
const GATHERED: usize = 4096;

// What is told of bytes that are no attribute.
const NO_ATTRIBUTE: &str =
    "the input does not begin with an attribute; if it is a file of `perf record`, use perf_data";

/// What is printed of a recording.
#[derive(Copy, Clone, Debug)]
pub enum Report {
    /// A line for each record about a task ([`tasks::line_of`]).
    Tasks,
    /// A line for each sample ([`samples::line_of`]).
    Samples,
}

impl Report {
    // Appends the line of what was found and a line feed. Appends nothing if it has no line in this
    // report.
    fn push_line(self, text: &mut String, found: Found<'_, '_>) -> Result<(), AllocError>
        ensures { OnOk result (string_bytes text.new
            ≡ string_bytes text.old ++ text_of_record self (found_value found.entry)) }
    {
        let has_line = match (self, found) {
            (Report::Tasks, Found::Record(record)) => tasks::push_line(text, record),
            (Report::Tasks, Found::Sample(_)) => Ok(false),
            (Report::Samples, Found::Record(record)) => samples::push_line(text, record),
            (Report::Samples, Found::Sample(sample)) => samples::push_own_line(text, sample),
        };
        if has_line? {
            text.push_str("\n")
        } else {
            Ok(())
        }
    }
}

// What was found in a frame.
#[derive(Copy, Clone)]
pub(crate) enum Found<'a, 'p> {
    // Its record.
    Record(&'a Record<'p>),
    // Its sample, which is not in a record.
    Sample(&'a Sample<'p>),
}

// Why printing stopped.
#[derive(Debug, Drop)]
pub(crate) enum Stopped {
    // There was no memory for a line.
    Memory(AllocError),
    // There was no memory for the record of a frame. Its error, which is large, is made at the end.
    Frame,
    // An output failed.
    Output(io::Error),
}

impl fmt::Display for Stopped {
    fn fmt<W: fmt::Write>(&self, f: &mut fmt::Formatter<W>) -> fmt::Result {
        match self {
            Stopped::Memory(error) => write!(f, "{error}"),
            Stopped::Frame => write!(f, "{}", ParseError::out_of_memory()),
            Stopped::Output(error) => write!(f, "{error}"),
        }
    }
}

impl Error for Stopped {}

impl From<io::Error> for Stopped {
    ghost from_gives = { λ error stopped. is_memory stopped ≡ false };

    fn from(error: io::Error) -> Stopped {
        Stopped::Output(error)
    }
}

// Lines on their way to the output.
#[derive(Drop)]
pub(crate) struct Lines {
    // Lines that have not been written yet.
    gathered: String,
    // The buffer that the next line is made in.
    next: String,
}

impl Lines {
    // No lines.
    pub(crate) fn new(alloc: Global) -> Lines
        ensures { string_bytes result.gathered ≡ [] }
    {
        Lines {
            gathered: String::new(alloc),
            next: String::new(alloc),
        }
    }

    // Makes the line of what was found, if it has one, and gathers it. The lines before it are
    // written first if memory runs out, or if they would be too many with it.
    pub(crate) fn add<W: Write>(
        &mut self,
        output: &mut W,
        report: Report,
        found: Found<'_, '_>,
    ) -> Result<(), Stopped>
        ensures grown { OnOk result (Grows (W.contents output.old) (W.contents output.new)
            (string_bytes self.old.gathered) (string_bytes self.new.gathered)
            (text_of_record report (found_value found.entry))) }
        ensures bound { OnOk result ((length (string_bytes self.new.gathered) ≤ GATHERED)
            ⊎ (string_bytes self.new.gathered ≡ text_of_record report (found_value found.entry))) }
        ensures part { GrowsWithin (W.contents output.old) (W.contents output.new)
            (string_bytes self.old.gathered ++ text_of_record report (found_value found.entry)) }
        ensures refused { IfErr result (λ stopped. IsTrue (is_memory stopped) →
            Appends (W.contents output.old) (W.contents output.new)
            (string_bytes self.old.gathered)) }
    {
        self.next.clear();
        match report.push_line(&mut self.next, found) {
            Ok(()) => self.gather(output),
            Err(error) => Err(self.stop(output, Stopped::Memory(error))),
        }
    }

    // Gathers the next line. The lines before it are written first if they would be too many with
    // it, or if memory runs out; in the latter case it is written by itself.
    fn gather<W: Write>(&mut self, output: &mut W) -> Result<(), Stopped>
        ensures grown { OnOk result (Grows (W.contents output.old) (W.contents output.new)
            (string_bytes self.old.gathered) (string_bytes self.new.gathered)
            (string_bytes self.old.next)) }
        ensures bound { OnOk result ((length (string_bytes self.new.gathered) ≤ GATHERED)
            ⊎ (string_bytes self.new.gathered ≡ string_bytes self.old.next)) }
        ensures part { GrowsWithin (W.contents output.old) (W.contents output.new)
            (string_bytes self.old.gathered ++ string_bytes self.old.next) }
        ensures failed { IfErr result (λ stopped. is_memory stopped ≡ false) }
    {
        if self.takes_next() {
            return Ok(());
        }
        self.send(output)?;
        if self.gathered.push_str(self.next.as_str()).is_err() {
            write_whole(output, self.next.as_bytes(), true)?;
        }
        Ok(())
    }

    // Gathers the next line unless the lines become too many or memory runs out, and returns
    // whether it did.
    fn takes_next(&mut self) -> bool
        ensures taken { IsTrue result →
            string_bytes self.new.gathered ≡ string_bytes self.old.gathered ++ string_bytes self.old.next }
        ensures bound { IsTrue result → length (string_bytes self.new.gathered) ≤ GATHERED }
        ensures left { result ≡ false →
            string_bytes self.new.gathered ≡ string_bytes self.old.gathered }
        ensures next { string_bytes self.new.next ≡ string_bytes self.old.next }
    {
        if self.gathered.len().saturating_add(self.next.len()) > GATHERED {
            return false;
        }
        self.gathered.push_str(self.next.as_str()).is_ok()
    }

    // Writes the lines that were gathered, and returns why printing stops: `why`, or the error of
    // that write.
    pub(crate) fn stop<W: Write>(&mut self, output: &mut W, why: Stopped) -> Stopped
        ensures part { (n : ℕ) × Appends (W.contents output.old) (W.contents output.new)
            (take n (string_bytes self.old.gathered)) }
        ensures refused { IsTrue (is_memory result) → Appends (W.contents output.old)
            (W.contents output.new) (string_bytes self.old.gathered) }
    {
        match self.send(output) {
            Ok(()) => why,
            Err(stopped) => stopped,
        }
    }

    // Writes the lines that were gathered.
    pub(crate) fn send<W: Write>(&mut self, output: &mut W) -> Result<(), Stopped>
        ensures sent { OnOk result (Appends (W.contents output.old) (W.contents output.new)
            (string_bytes self.old.gathered)) }
        ensures none { OnOk result (string_bytes self.new.gathered ≡ []) }
        ensures next { string_bytes self.new.next ≡ string_bytes self.old.next }
        ensures part { (n : ℕ) × Appends (W.contents output.old) (W.contents output.new)
            (take n (string_bytes self.old.gathered)) }
        ensures failed { IfErr result (λ stopped. is_memory stopped ≡ false) }
    {
        write_whole(output, self.gathered.as_bytes(), true)?;
        self.gathered.clear();
        Ok(())
    }
}

/// Prints the lines of a recording that a report covers, and to `errors` why records were refused.
/// A recording is an attribute and the records after it, in little endian. Returns whether no
/// record was refused. It is an error if the attribute is refused, the input cannot be read or ends
/// inside a header, an output fails, or memory runs out; what was printed before stays printed.
///
/// Lines are written together, up to 4,096 bytes of whole lines at a time, and a longer line by
/// itself. All lines are written after each 256 frames, before the next frame is read, before an
/// error is printed, and before this returns, unless the output fails.
///
/// If the reader's bytes are known, what was written to `output` is a prefix of the recording's
/// lines, and all of them after an `Ok`.
pub fn print_recording<R: Read + Drop, W: Write, E: Write>(
    alloc: Global,
    input: R,
    output: &mut W,
    errors: &mut E,
    report: Report,
) -> Result<bool>
    ensures all { IfSome (R.remaining input) (λ bytes. IfOk result (λ clean.
        PrintsLines report bytes (W.contents output.old) clean (W.contents output.new))) }
    ensures part { IfSome (R.remaining input) (λ bytes.
        GrowsWithin (W.contents output.old) (W.contents output.new)
        (printed_answers report (recording_answers bytes))) }
{
    let input = BufReader::new(alloc, input)?;
    replace_with(output, (alloc, input, errors, report), print_buffered)
}

// Prints what a reader reads, and returns the output. So a caller that has only borrowed its output
// knows what was written there.
fn print_buffered<R: Read + Drop, W: Write, E: Write + Drop>(
    output: W,
    of: (Global, BufReader<R>, E, Report),
) -> (W, Result<bool>)
    ensures all { IfSome (reader_remaining R.remaining of.1) (λ bytes. IfOk result.1 (λ clean.
        PrintsLines of.3 bytes (W.contents output) clean (W.contents result.0))) }
    ensures part { IfSome (reader_remaining R.remaining of.1) (λ bytes.
        GrowsWithin (W.contents output) (W.contents result.0)
        (printed_answers of.3 (recording_answers bytes))) }
{
    let (alloc, input, errors, report) = of;
    let (clean, output, _) = print_buffer(alloc, input, output, errors, report);
    (output, clean)
}

/// The same of a recording in any buffer; the outputs are returned too. If the buffer's bytes are
/// known, what was written is a prefix of the recording's lines, and all of them after an `Ok`.
pub fn print_buffer<'p, B: ParseBuf<'p> + Drop, W: Write, E: Write>(
    alloc: Global,
    buf: B,
    output: W,
    errors: E,
    report: Report,
) -> (Result<bool>, W, E)
    ensures all { IsTrue (B.source buf).told → IfOk result.0 (λ clean.
        PrintsRecording report (B.source buf).left (W.contents output) (E.contents errors) clean
        (W.contents result.1) (E.contents result.2)) }
    ensures part { IsTrue (B.source buf).told →
        GrowsWithin (W.contents output) (W.contents result.1)
        (printed_answers report (recording_answers (B.source buf).left)) }
{
    let parser = Parser::new(alloc, buf, ParseConfig::<Little>::default());
    let mut parser = match parser.after_attribute() {
        Ok(parser) => parser,
        Err(error) => return (Err(no_attribute(error)), output, errors),
    };
    let mut printer = FramePrinter::new(alloc, output, errors, report);
    let clean = print_records(&mut parser, &mut printer);
    let (output, errors) = printer.into_outputs();
    (clean, output, errors)
}

/// An error of [`Parser::after_attribute`] with what to try: bytes that are refused as an attribute
/// may be a file of `perf record`. The error itself is its cause. A fault, and out of memory, keep
/// their own messages.
#[cold]
pub fn no_attribute(error: ParseError) -> AnyError
    ensures { HasMessage (Some (attribute_message error)) result }
{
    let is_of_layout = error.kind().is_of_layout();
    let error = AnyError::from(error);
    if is_of_layout {
        error.context(NO_ATTRIBUTE)
    } else {
        error
    }
}

// Prints the records that a parser reads up to the end of its buffer, and returns whether none was
// refused.
fn print_records<'p, B: ParseBuf<'p>, O: Endian, W: Write, E: Write>(
    parser: &mut Parser<B, O>,
    printer: &mut FramePrinter<W, E>,
) -> Result<bool>
    ensures all { IsTrue (B.source (parser_buffer parser.old)).told → IfOk result (λ clean.
        PrintsAll W.contents E.contents printer.old (parser_state B.source O.order parser.old) clean
        printer.new) }
    ensures part { IsTrue (B.source (parser_buffer parser.old)).told →
        GrowsWithin (W.contents printer.old.output) (W.contents printer.new.output)
        (string_bytes printer.old.lines.gathered ++ printed_answers printer.old.report
        (answers_left (parser_state B.source O.order parser.old))) }
{
    for _ in 0..u64::MAX {
        let end = match print_frames(parser, printer) {
            Ok(end) => end,
            Err(Stopped::Frame) => return Err(ParseError::out_of_memory().into()),
            Err(stopped) => return Err(stopped.into()),
        };
        if !goes_on(end)? {
            return Ok(printer.is_clean());
        }
    }
    bail!("more frames than can be counted")
}

// Prints the next frames, at most `BATCH`, and returns how the run ended. All their lines are
// written then.
fn print_frames<'p, B: ParseBuf<'p>, O: Endian, W: Write, E: Write>(
    parser: &mut Parser<B, O>,
    printer: &mut FramePrinter<W, E>,
) -> Result<RunEnd, Stopped>
    ensures config { parser_config parser.new ≡ parser_config parser.old }
    ensures told { IsTrue (B.source (parser_buffer parser.old)).told →
        IsTrue (B.source (parser_buffer parser.new)).told }
    ensures sent { IsTrue (B.source (parser_buffer parser.old)).told → IfOk result (λ end.
        PrintsRun W.contents E.contents printer.old (parser_state B.source O.order parser.old) BATCH end
        (B.source (parser_buffer parser.new)).left printer.new) }
    ensures none { OnOk result (string_bytes printer.new.lines.gathered ≡ []) }
    ensures part { IsTrue (B.source (parser_buffer parser.old)).told →
        GrowsWithin (W.contents printer.old.output) (W.contents printer.new.output)
        (string_bytes printer.old.lines.gathered ++ printed_answers printer.old.report
        (take BATCH (answers_left (parser_state B.source O.order parser.old)))) }
    ensures refused { IsTrue (B.source (parser_buffer parser.old)).told → IfErr result (λ stopped.
        IsTrue (is_memory stopped) → (k : ℕ) × PrintsFirst W.contents E.contents printer.old
        (answers_left (parser_state B.source O.order parser.old)) k printer.new) }
{
    let run = each_frame(parser, BATCH, printer);
    match run.end {
        Some(end) => match printer.send() {
            Ok(()) => Ok(end),
            Err(stopped) => Err(stopped),
        },
        None => printer.end(),
    }
}

// Whether frames may follow the last one that a run read. It is an error if the run could not go
// on, or if the input ends inside a header.
fn goes_on(end: RunEnd) -> Result<bool>
    ensures more { IfOk result (λ more. end ≡ (if more then RunEnd.Limit else RunEnd.Done)) }
    ensures why { IfErr result (λ why. StopsReading end why) }
{
    match end {
        RunEnd::Limit => Ok(true),
        RunEnd::Done => Ok(false),
        RunEnd::CutHeader => bail!("the input ends inside a header"),
        RunEnd::Fault(error) => Err(error.into()),
    }
}
