//! Printing the frames that a run hands out.

ghost use Rattle.std.specs.Prelude.{◌≡◌, ◌++◌, ℕ, [], take, true, false, None, Some, Err, IsTrue};
ghost use Rattle.std.specs.Prelude.{◌≢◌, OnOk, IfErr, string_bytes, Result};
ghost use Rattle.std.specs.Io.KnownBytes.{Appends};
ghost use Rattle.perf_base.specs.Configured.{configuration_of, endian_of};
ghost use Rattle.perf_base.specs.Errors.{kind_of};
ghost use Rattle.perf_base.specs.declared.error.ErrorKind.{ErrorKind as Kind};
ghost use Rattle.perf_base.specs.declared.sys.perf_event_header.{perf_event_header};
ghost use Rattle.perf_reader.specs.Reading.{of_layout};
ghost use Rattle.perf_records.specs.Records.{RecordValue};
ghost use Rattle.perf_records.specs.Sights.{sight_of};
ghost use Rattle.perf_reports.specs.FramePrinting.{PrintsAnswer, PrintsSight, frame_answer, sight_pair};
ghost use Rattle.perf_reports.specs.Printing.{is_memory};

use crate::printing::{Found, Lines, Report, Stopped};
use perf_base::endian::Endian;
use perf_base::sys::PERF_RECORD_SAMPLE;
use perf_parser::RunEnd;
use perf_parser::parse::{ParseConfig, ParseError};
use perf_records::frame::Frame;
use perf_records::frame_handler::{BadFrame, FrameHandler};
use perf_sample_types::sample::Sample;
use std::alloc::Global;
use std::io::Write;

/// Prints the lines of a report for the frames that a run hands to it, and the errors of refused
/// frames to another output. It ends the run if an output fails or memory runs out.
#[derive(Drop)]
pub(crate) struct FramePrinter<W, E> {
    alloc: Global,
    report: Report,
    output: W,
    errors: E,
    // Lines that have not been written yet.
    lines: Lines,
    // Whether no frame was refused so far.
    clean: bool,
    // Why it ended the run, if it did.
    stopped: Option<Stopped>,
}

impl<W: Write, E: Write> FramePrinter<W, E> {
    /// A printer that has printed nothing.
    pub(crate) fn new(alloc: Global, output: W, errors: E, report: Report) -> FramePrinter<W, E>
        ensures lines { string_bytes result.lines.gathered ≡ [] }
        ensures outputs { (result.output ≡ output) × (result.errors ≡ errors) }
        ensures report { result.report ≡ report }
        ensures clean { result.clean ≡ true }
    {
        FramePrinter {
            alloc,
            report,
            output,
            errors,
            lines: Lines::new(alloc),
            clean: true,
            stopped: None,
        }
    }

    /// Its outputs. Lines that have not been written yet are dropped.
    pub(crate) fn into_outputs(self) -> (W, E)
        ensures output { result.0 ≡ self.output }
        ensures errors { result.1 ≡ self.errors }
    {
        (self.output, self.errors)
    }

    /// Whether no frame was refused so far.
    pub(crate) fn is_clean(&self) -> bool
        ensures { result ≡ self.now.clean }
    {
        self.clean
    }

    /// Writes the lines that have not been written yet.
    pub(crate) fn send(&mut self) -> Result<(), Stopped>
        ensures sent { OnOk result (Appends (W.contents self.old.output)
            (W.contents self.new.output) (string_bytes self.old.lines.gathered)) }
        ensures none { OnOk result (string_bytes self.new.lines.gathered ≡ []) }
        ensures part { (n : ℕ) × Appends (W.contents self.old.output)
            (W.contents self.new.output) (take n (string_bytes self.old.lines.gathered)) }
        ensures failed { IfErr result (λ stopped. is_memory stopped ≡ false) }
        ensures same { (self.new.report ≡ self.old.report) × (self.new.errors ≡ self.old.errors)
            × (self.new.clean ≡ self.old.clean) }
    {
        self.lines.send(&mut self.output)
    }

    /// How the run ended, if the printer ended it: what stopped it.
    pub(crate) fn end(&mut self) -> Result<RunEnd, Stopped>
        ensures stopped { (why : Stopped) → self.old.stopped ≡ Some why → (result ≡ Err why)
            × (self.new.output ≡ self.old.output) × (self.new.errors ≡ self.old.errors) }
        ensures none { OnOk result (string_bytes self.new.lines.gathered ≡ []) }
    {
        match self.stopped.take() {
            Some(stopped) => Err(stopped),
            None => {
                self.send()?;
                Ok(RunEnd::Limit)
            }
        }
    }

    // Prints an error and a line feed, after the lines before it.
    #[cold]
    #[inline(never)]
    fn print_error(&mut self, error: &ParseError) -> Result<(), Stopped>
        ensures { (h : perf_event_header) → PrintsAnswer W.contents E.contents self.old
            (h, Err (kind_of error.now)) result self.new }
    {
        self.clean = false;
        match self.send() {
            Ok(()) => Ok(write!(self.errors, "{error}\n")?),
            Err(stopped) => Err(stopped),
        }
    }

    // Prints why the record of a frame was refused. If memory ran out, printing stops, and the lines
    // before it are written.
    #[cold]
    #[inline(never)]
    fn refuse(&mut self, error: &ParseError) -> Result<(), Stopped>
        requires { kind_of error.now ≢ Kind.External }
        ensures { (h : perf_event_header) → (answer : Result RecordValue Kind) →
            (IsTrue (of_layout (kind_of error.now)) → answer ≡ Err (kind_of error.now)) →
            PrintsAnswer W.contents E.contents self.old (h, answer) result self.new }
    {
        if error.kind().is_of_layout() {
            self.print_error(error)
        } else {
            Err(self.lines.stop(&mut self.output, Stopped::Frame))
        }
    }

    // Prints the line of a sample without a box for it. It is not inlined, so that only samples pay
    // for the space of one, which is large.
    #[inline(never)]
    fn print_sample<'p, O: Endian>(
        &mut self,
        config: &ParseConfig<O>,
        frame: &Frame<'_, 'p>,
    ) -> Result<(), Stopped>
        requires { frame.now.header.type_ ≡ 9 }
        ensures { PrintsAnswer W.contents E.contents self.old (frame_answer
            (configuration_of config.now) (O.order (endian_of config.now)) frame.now) result self.new }
    {
        let mut sample: Sample<'p> = Sample::default();
        match frame.sample_into(self.alloc, config, &mut sample) {
            Ok(_) => {
                let found = Found::Sample(&sample);
                let added = self.lines.add(&mut self.output, self.report, found);
                drop(sample);
                added
            }
            Err(error) => {
                drop(sample);
                let refused = self.refuse(&error);
                drop(error);
                refused
            }
        }
    }

    // Prints the line of a frame that is not a sample.
    #[inline(never)]
    fn print_record<O: Endian>(
        &mut self,
        config: &ParseConfig<O>,
        frame: &Frame<'_, '_>,
    ) -> Result<(), Stopped>
        ensures { PrintsAnswer W.contents E.contents self.old (frame_answer
            (configuration_of config.now) (O.order (endian_of config.now)) frame.now) result self.new }
    {
        match frame.record(self.alloc, config) {
            Ok(record) => {
                let found = Found::Record(&record);
                let added = self.lines.add(&mut self.output, self.report, found);
                drop(record);
                added
            }
            Err(error) => {
                let refused = self.refuse(&error);
                drop(error);
                refused
            }
        }
    }

    // Prints the line of a whole frame, whose bytes are borrowed for as long as it is shown.
    #[inline]
    fn print_frame<O: Endian>(
        &mut self,
        config: &ParseConfig<O>,
        frame: &Frame<'_, '_>,
    ) -> Result<(), Stopped>
        ensures { PrintsAnswer W.contents E.contents self.old (frame_answer
            (configuration_of config.now) (O.order (endian_of config.now)) frame.now) result self.new }
    {
        let shown = frame.borrowed();
        if shown.header().type_ == PERF_RECORD_SAMPLE {
            self.print_sample(config, &shown)
        } else {
            self.print_record(config, &shown)
        }
    }

    // Prints the line of a frame, or why it was refused.
    #[inline]
    fn print<O: Endian>(
        &mut self,
        config: &ParseConfig<O>,
        frame: Result<Frame<'_, '_>, BadFrame>,
    ) -> Result<(), Stopped>
        ensures { PrintsAnswer W.contents E.contents self.old (sight_pair
            (configuration_of config.now) (O.order (endian_of config.now)) (sight_of frame.entry))
            result self.new }
    {
        match frame {
            Ok(frame) => self.print_frame(config, &frame),
            Err(bad) => self.print_error(&bad.error()),
        }
    }
}

impl<'p, O: Endian, W: Write, E: Write> FrameHandler<'p, O> for FramePrinter<W, E> {
    ghost gets = { PrintsSight W.contents E.contents };

    #[inline]
    fn frame(&mut self, config: &ParseConfig<O>, frame: Result<Frame<'_, 'p>, BadFrame>) -> bool {
        match self.print(config, frame) {
            Ok(()) => true,
            Err(stopped) => {
                self.stopped = Some(stopped);
                false
            }
        }
    }
}
