//! Counting the frames that a run hands out.

ghost use Rattle.std.specs.Prelude.{◌≡◌, ◌≢◌, ℕ, Bool, List, [], Ok, None, IfErr, true};
ghost use Rattle.perf_base.specs.Configuration.{Configuration};
ghost use Rattle.perf_base.specs.Configured.{configuration_of, endian_of};
ghost use Rattle.perf_base.specs.Errors.{kind_of};
ghost use Rattle.perf_base.specs.Order.{Order};
ghost use Rattle.perf_buffers.specs.Prelude.{chunk_bytes};
ghost use Rattle.perf_records.specs.Answers.{answer_after};
ghost use Rattle.perf_records.specs.Records.{type_of};
ghost use Rattle.perf_records.specs.Sights.{sight_of, whole};
ghost use Rattle.perf_reports.specs.Counting.{counts_of, CountsSight, EndsBy, IsRefused, RefusesSight};
ghost use Rattle.perf_reports.specs.Counting.{SumsAnswer, bad_kinds};

use crate::counts::Counts;
use crate::record_sums::SumVisitor;
use crate::sums::sample_sum;
use perf_base::endian::Endian;
use perf_base::sys::{PERF_RECORD_SAMPLE, perf_event_header};
use perf_parser::RunEnd;
use perf_parser::parse::{ErrorKind, ParseConfig, ParseError};
use perf_records::frame::Frame;
use perf_records::frame_handler::{BadFrame, FrameHandler};
use perf_sample_types::sample::Sample;
use std::alloc::Global;

/// Counts the frames that a run hands to it. If memory runs out for one, it ends the run and does
/// not count that frame.
#[derive(Drop)]
pub(crate) struct FrameCounter<'p> {
    alloc: Global,
    // What was counted so far.
    counts: Counts,
    // Why it ended the run, if it did.
    error: Option<ParseError>,
    // The place that samples are read into.
    sample: Sample<'p>,
}

impl<'p> FrameCounter<'p> {
    /// A counter that has counted nothing.
    pub(crate) fn new(alloc: Global) -> FrameCounter<'p>
        ensures { result.counts ≡ counts_of [] }
    {
        FrameCounter {
            alloc,
            counts: Counts::NONE,
            error: None,
            sample: Sample::default(),
        }
    }

    /// The counts so far.
    pub(crate) fn counts(&self) -> Counts
        ensures { result ≡ self.now.counts }
    {
        self.counts
    }

    /// How the run ended, if the counter ended it.
    pub(crate) fn end(&mut self) -> RunEnd
        ensures end { EndsBy self.old.error result }
        ensures counts { self.new.counts ≡ self.old.counts }
    {
        match self.error.take() {
            Some(error) => RunEnd::Fault(error),
            None => RunEnd::Limit,
        }
    }

    // Counts a frame that was refused with a kind. If memory ran out, the run ends instead.
    #[cold]
    fn refuse(&mut self, kind: ErrorKind) -> bool
        requires { kind ≢ ErrorKind.External }
        ensures { RefusesSight kind self.old result self.new }
    {
        if kind.is_of_layout() {
            self.counts.add_refused();
            true
        } else {
            self.error = Some(ParseError::out_of_memory());
            false
        }
    }
}

// Whether the frame of a sample has fewer bytes than the sample's fields take at least, so that it
// is refused.
#[inline]
fn is_short<E: Endian>(config: &ParseConfig<E>, frame: &Frame<'_, '_>) -> bool
    requires { frame.now.header.type_ ≡ 9 }
    ensures { result ≡ true → IsRefused (answer_after (configuration_of config.now)
        (E.order (endian_of config.now)) frame.now.header (chunk_bytes frame.now.rest)) }
{
    frame.rest().len() < Sample::least_len(config)
}

// What a call returned, with no more of a refusal than its kind.
#[inline]
fn with_kind(answer: Result<u64, BadFrame>) -> Result<u64, ErrorKind>
    ensures { result ≡ bad_kinds answer }
{
    match answer {
        Ok(sum) => Ok(sum),
        Err(bad) => Err(bad.kind()),
    }
}

// What a record adds that is no sample. Nothing is kept of it, so no byte string is copied. A record of
// a type that the kernel does not have adds nothing, and is not read.
#[inline]
fn other_sum<E: Endian>(
    alloc: Global,
    config: &ParseConfig<E>,
    frame: &Frame<'_, '_>,
) -> Result<u64, ErrorKind>
    ensures { SumsAnswer (answer_after (configuration_of config.now)
        (E.order (endian_of config.now)) frame.now.header (chunk_bytes frame.now.rest)) result }
{
    if frame.kind().is_none() {
        return unknown_sum(alloc, config, frame);
    }
    with_kind(frame.borrowed().try_visit(alloc, config, SumVisitor))
}

// What a sample adds that is read into a place.
#[inline]
fn placed_sum<'s, E: Endian>(
    alloc: Global,
    config: &ParseConfig<E>,
    frame: &Frame<'_, 's>,
    place: &mut Sample<'s>,
) -> Result<u64, ErrorKind>
    requires { frame.now.header.type_ ≡ 9 }
    ensures { SumsAnswer (answer_after (configuration_of config.now)
        (E.order (endian_of config.now)) frame.now.header (chunk_bytes frame.now.rest)) result }
{
    match frame.try_sample_into(alloc, config, place) {
        Ok(_) => Ok(sample_sum(place)),
        Err(bad) => Err(bad.kind()),
    }
}

// What a sample adds of which nothing is kept.
#[inline(never)]
fn shown_sum<E: Endian>(
    alloc: Global,
    config: &ParseConfig<E>,
    frame: &Frame<'_, '_>,
) -> Result<u64, ErrorKind>
    requires { frame.now.header.type_ ≡ 9 }
    ensures { SumsAnswer (answer_after (configuration_of config.now)
        (E.order (endian_of config.now)) frame.now.header (chunk_bytes frame.now.rest)) result }
{
    own_place_sum(alloc, config, &frame.borrowed())
}

// What a sample adds that is read into a place of its own.
#[inline]
fn own_place_sum<'s, E: Endian>(
    alloc: Global,
    config: &ParseConfig<E>,
    frame: &Frame<'_, 's>,
) -> Result<u64, ErrorKind>
    requires { frame.now.header.type_ ≡ 9 }
    ensures { SumsAnswer (answer_after (configuration_of config.now)
        (E.order (endian_of config.now)) frame.now.header (chunk_bytes frame.now.rest)) result }
{
    let mut place: Sample<'s> = Sample::default();
    let sum = placed_sum(alloc, config, frame, &mut place);
    drop(place);
    sum
}

// What the record of a frame adds whose type is none of the kernel's.
#[inline(never)]
fn unknown_sum<E: Endian>(
    alloc: Global,
    config: &ParseConfig<E>,
    frame: &Frame<'_, '_>,
) -> Result<u64, ErrorKind>
    requires { type_of frame.now.header.type_ ≡ None }
    ensures { SumsAnswer (answer_after (configuration_of config.now)
        (E.order (endian_of config.now)) frame.now.header (chunk_bytes frame.now.rest)) result }
{
    match frame.metadata(alloc, config) {
        Ok(_) => Ok(0),
        Err(error) => Err(error.kind()),
    }
}

impl<'p> FrameCounter<'p> {
    // Counts a whole frame by what its record adds to the checksum, or by the kind with which it is
    // refused: an error is large, so none is made.
    #[inline(always)]
    fn add(&mut self, header: perf_event_header, answer: Result<u64, ErrorKind>) -> bool
        requires { IfErr answer (λ kind. kind ≢ ErrorKind.External) }
        ensures { (c : Configuration) → (o : Order) → (bytes : List ℕ) → (borrowed : Bool) →
            SumsAnswer (answer_after c o header bytes) answer →
            CountsSight self.old c o (whole header bytes borrowed) result self.new }
    {
        match answer {
            Ok(sum) => {
                self.counts.add_record(header, sum);
                true
            }
            Err(kind) => self.refuse(kind),
        }
    }

    // Counts a sample. If its bytes live as long as the input, it is read into the place that is kept
    // for the next.
    #[inline(never)]
    fn count_sample<E: Endian>(&mut self, config: &ParseConfig<E>, frame: &Frame<'_, 'p>) -> bool
        requires { frame.now.header.type_ ≡ 9 }
        ensures { CountsSight self.old (configuration_of config.now)
            (E.order (endian_of config.now)) (sight_of (Ok frame.now)) result self.new }
    {
        if is_short(config, frame) {
            self.counts.add_refused();
            return true;
        }
        if !frame.is_borrowed() {
            return self.add(frame.header(), shown_sum(self.alloc, config, frame));
        }
        match frame.try_sample_into(self.alloc, config, &mut self.sample) {
            Ok(_) => {
                let sum = sample_sum(&self.sample);
                self.add(frame.header(), Ok(sum))
            }
            Err(bad) => self.add(frame.header(), Err(bad.kind())),
        }
    }

    // Counts a frame of any other record.
    #[inline(never)]
    fn count_other<E: Endian>(&mut self, config: &ParseConfig<E>, frame: &Frame<'_, 'p>) -> bool
        ensures { CountsSight self.old (configuration_of config.now)
            (E.order (endian_of config.now)) (sight_of (Ok frame.now)) result self.new }
    {
        self.add(frame.header(), other_sum(self.alloc, config, frame))
    }
}

impl<'p, E: Endian> FrameHandler<'p, E> for FrameCounter<'p> {
    ghost gets = { CountsSight };

    // It is inlined into the loop of a run, which calls one function for a frame.
    #[inline(always)]
    fn frame(&mut self, config: &ParseConfig<E>, frame: Result<Frame<'_, 'p>, BadFrame>) -> bool {
        match frame {
            Ok(frame) => {
                if frame.header().type_ == PERF_RECORD_SAMPLE {
                    return self.count_sample(config, &frame);
                }
                self.count_other(config, &frame)
            }
            Err(_) => {
                self.counts.add_refused();
                true
            }
        }
    }
}
