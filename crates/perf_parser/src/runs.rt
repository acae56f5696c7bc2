//! Runs over a stream of records.

ghost use Rattle.std.specs.Prelude.{◌≡◌, ◌+◌, ◌≤◌, ◌<◌, ◌++◌, [], ◌∷◌, take, Ok};
ghost use Rattle.std.specs.Prelude.{max, min, length};
ghost use Rattle.std.specs.Prelude.{vec_len, vec_capacity};
ghost use Rattle.std.specs.Prelude.{IsTrue, IfErr, OnOk, OnErr};
ghost use Rattle.perf_parser.specs.Prelude.{parser_buffer, parser_config, parser_reads, parser_state};
ghost use Rattle.perf_parser.specs.Runs as runs;
ghost use Rattle.perf_parser.specs.Steps as steps;
ghost use Rattle.perf_reader.specs.Prelude as prelude;

use crate::parser::Parser;
use crate::run::{Run, RunEnd};
use crate::steps::{Step, run_steps};
use perf_base::sys::{PERF_RECORD_SAMPLE, perf_event_header};
use perf_base::{Endian, ParseError, ParseResult, ReadCounter, ReadResult, Refusal};
use perf_buffers::outer::Outer;
use perf_buffers::parsebuf::ParseBuf;
use perf_reader::header::{Stop, stop_at};
use perf_reader::reader::Reader;
use perf_records::body_reader::{AsRecord, AsSample};
use perf_records::frame_after::read_after;
use perf_records::record::Record;
use perf_sample_types::sample::Sample;
use std::boxed::Box;

// The most answers for which capacity is reserved at a time.
const MOST_RESERVED: usize = 256;

// The header of each frame, and its record or why there is none.
type Frames<'p> = Vec<(perf_event_header, ParseResult<Record<'p>>)>;

// Lists a frame that has too few bytes, in capacity that was reserved. It is not inlined, so that
// the place for its answer, which is large, is cleared once.
#[inline(never)]
fn list_short<'p>(
    frames: &mut Vec<(perf_event_header, ParseResult<Record<'p>>)>,
    header: perf_event_header,
)
    requires { vec_len frames.old < vec_capacity frames.old }
    ensures { steps.ListsRefused header Refusal.Eof frames.old.items frames.new.items }
{
    frames.push_reserved((header, Err(ParseError::eof())));
}

// Lists the answer of a frame that was refused, in capacity that was reserved; or returns the fault
// or the failed allocation that stops the run. Most frames are refused because they have too few
// bytes.
#[inline(never)]
fn list_refused<'p, B: ParseBuf<'p>, E: Endian>(
    reader: &mut Reader<Outer<B>, E>,
    frames: &mut Vec<(perf_event_header, ParseResult<Record<'p>>)>,
    header: perf_event_header,
    refusal: Refusal,
) -> ReadResult<()>
    requires room { vec_len frames.old < vec_capacity frames.old }
    ensures listed { OnOk result (steps.ListsRefused header refusal
        frames.old.items frames.new.items) }
    ensures stops { IfErr result (λ e. (e ≡ refusal)
        × (IsTrue (prelude.of_layout (prelude.refusal_kind refusal)) → ⊥)) }
    ensures kept { OnErr result (frames.new.items ≡ frames.old.items) }
    ensures buf { prelude.buffer_of reader.new ≡ prelude.buffer_of reader.old }
    ensures config { prelude.config_of reader.new ≡ prelude.config_of reader.old }
    ensures reads { prelude.reads_of reader.new ≡ prelude.reads_of reader.old }
{
    if refusal == Refusal::Eof {
        list_short(frames, header);
        return Ok(());
    }
    if !refusal.kind().is_of_layout() {
        return Err(refusal);
    }
    let error = reader.error_of(refusal);
    frames.push_reserved((header, Err(error)));
    Ok(())
}

// Lists a record in capacity that was reserved. It is not inlined, so that the place for its
// answer, which is large, is cleared once.
#[inline(never)]
fn list_record<'p>(
    frames: &mut Vec<(perf_event_header, ParseResult<Record<'p>>)>,
    header: perf_event_header,
    content: Record<'p>,
)
    requires { vec_len frames.old < vec_capacity frames.old }
    ensures { frames.new.items ≡ frames.old.items ++ ((header, Ok content.entry) ∷ []) }
{
    frames.push_reserved((header, Ok(content)));
}

// Lists the answer of a frame after its header, in capacity that was reserved; or returns the fault
// or the failed allocation that stops the run. A record is listed here, without a place for an
// error, which is large.
#[inline]
fn list_answer<'p, B: ParseBuf<'p>, E: Endian>(
    reader: &mut Reader<Outer<B>, E>,
    frames: &mut Vec<(perf_event_header, ParseResult<Record<'p>>)>,
    header: perf_event_header,
) -> ReadResult<()>
    requires room { vec_len frames.old < vec_capacity frames.old }
    ensures { steps.ListsFrame B.source B.hint E.order header reader.old reader.new
        frames.old.items frames.new.items result }
{
    match read_after(reader, header, AsRecord, &mut ()) {
        Ok(record) => {
            list_record(frames, header, record);
            Ok(())
        }
        Err(refusal) => list_refused(reader, frames, header, refusal),
    }
}

// Lists a sample in capacity that was reserved.
#[inline(always)]
fn list_boxed<'p>(
    frames: &mut Vec<(perf_event_header, ParseResult<Record<'p>>)>,
    header: perf_event_header,
    sample: Box<Sample<'p>>,
)
    requires { vec_len frames.old < vec_capacity frames.old }
    ensures { frames.new.items ≡ frames.old.items
        ++ ((header, Ok (Record.Sample sample.entry)) ∷ []) }
{
    frames.push_reserved((header, Ok(Record::Sample(sample))));
}

// The same as `list_answer`, for a sample, which stays in its box.
#[inline]
fn list_sample<'p, B: ParseBuf<'p>, E: Endian>(
    reader: &mut Reader<Outer<B>, E>,
    frames: &mut Vec<(perf_event_header, ParseResult<Record<'p>>)>,
    header: perf_event_header,
) -> ReadResult<()>
    requires ty { header.type_ ≡ 9 }
    requires room { vec_len frames.old < vec_capacity frames.old }
    ensures { steps.ListsFrame B.source B.hint E.order header reader.old reader.new
        frames.old.items frames.new.items result }
{
    match read_after(reader, header, AsSample, &mut ()) {
        Ok(sample) => {
            list_boxed(frames, header, sample);
            Ok(())
        }
        Err(refusal) => list_refused(reader, frames, header, refusal),
    }
}

// The same as `list_answer`, for any frame.
#[inline]
fn list_frame<'p, B: ParseBuf<'p>, E: Endian>(
    reader: &mut Reader<Outer<B>, E>,
    frames: &mut Vec<(perf_event_header, ParseResult<Record<'p>>)>,
    header: perf_event_header,
) -> ReadResult<()>
    requires room { vec_len frames.old < vec_capacity frames.old }
    ensures { steps.ListsFrame B.source B.hint E.order header reader.old reader.new
        frames.old.items frames.new.items result }
{
    if header.type_ == PERF_RECORD_SAMPLE {
        list_sample(reader, frames, header)
    } else {
        list_answer(reader, frames, header)
    }
}

// Reserves capacity for more answers: for as many as frames are shown, for as many again as there
// are, or for one. If that allocation fails, capacity for one is tried.
fn grow<'p>(
    frames: &mut Vec<(perf_event_header, ParseResult<Record<'p>>)>,
    shown_count: usize,
    most: usize,
) -> Result<(), Stop>
    ensures room { OnOk result (vec_len frames.new < vec_capacity frames.new) }
    ensures items { frames.new.items ≡ frames.old.items }
    ensures bound { vec_capacity frames.new ≤ max (vec_capacity frames.old)
        (vec_len frames.old + max shown_count (max (min (vec_len frames.old) most) 1)) }
    ensures refused { IfErr result (λ s. s ≡ Stop.Refused Refusal.OutOfMemory) }
{
    let more = shown_count.max(frames.len().min(most)).max(1);
    if frames.reserve_exact(more).is_ok() || frames.reserve_exact(1).is_ok() {
        return Ok(());
    }
    Err(Stop::Refused(Refusal::OutOfMemory))
}

// Reserves capacity for the next answer, if there is none, before anything of its frame is taken.
// It follows what the buffer shows: it is for as many frames as its chunk would have if they were
// small, but at first, if that is less than the limit, for those that it has. If the buffer shows
// nothing, the run ends and nothing is allocated.
#[inline]
fn make_room<'p, B: ParseBuf<'p>, E: Endian>(
    reader: &mut Reader<Outer<B>, E>,
    frames: &mut Vec<(perf_event_header, ParseResult<Record<'p>>)>,
    limit: usize,
) -> Result<(), Stop>
    ensures room { OnOk result (vec_len frames.new < vec_capacity frames.new) }
    ensures items { frames.new.items ≡ frames.old.items }
    ensures bound { IsTrue (B.source (prelude.buffer_of reader.old)).told →
        steps.MakesRoom (length (B.source (prelude.buffer_of reader.old)).left) (vec_len frames.old)
        (vec_capacity frames.old) (vec_capacity frames.new) }
    ensures stop { IsTrue (B.source (prelude.buffer_of reader.old)).told → IfErr result (λ s.
        steps.StopsAt (prelude.state_of (λ (o : Outer B). B.source o.buf) E.order reader.old) s
        (prelude.state_of (λ (o : Outer B). B.source o.buf) E.order reader.new)) }
    ensures call { prelude.Call (λ (o : Outer B). B.source o.buf) E.order steps.TakesNothing
        reader.old (steps.stop_kinds result) reader.new }
{
    if frames.len() < frames.capacity() {
        return Ok(());
    }
    let most = limit.saturating_sub(frames.len()).min(MOST_RESERVED);
    match reader.frames_shown(most, frames.is_empty()) {
        Ok(shown_count) => grow(frames, shown_count, most),
        Err(refusal) => {
            reader.count(ReadCounter::of(1));
            Err(stop_at(refusal, Stop::Done))
        }
    }
}

// Lists the next frame, for whose answer capacity is reserved first.
#[derive(Copy, Clone)]
struct Listing {
    limit: usize,
}

impl<'p, B: ParseBuf<'p>, E: Endian> Step<'p, B, E, Frames<'p>> for Listing {
    ghost kind = { record {
      refusals = λ frames. runs.refused_count frames.items;
      reads = runs.listed_reads;
      so_far = λ start first k go now. steps.ListsFirst start k go now.items;
      allocates = Unit {0};
    } };

    #[inline]
    fn step(
        &self,
        reader: &mut Reader<Outer<B>, E>,
        frames: &mut Frames<'p>,
    ) -> Result<bool, Stop> {
        match make_room(reader, frames, self.limit) {
            Ok(()) => {}
            Err(stop) => return Err(stop),
        }
        let header = match reader.next_header() {
            Ok(header) => header,
            Err(stop) => return Err(stop),
        };
        match list_frame(reader, frames, header) {
            Ok(()) => Ok(true),
            Err(refusal) => Err(Stop::Refused(refusal)),
        }
    }
}

/// Reads the records of the next frames, at most `limit`.
///
/// A refused frame costs that one answer, and the next frame begins at its end. Besides the end of
/// the input, only a fault of the buffer and a failed allocation end a run before its limit; they
/// are not listed.
pub fn read_records<'p, B: ParseBuf<'p>, E: Endian>(
    parser: &mut Parser<B, E>,
    limit: usize,
) -> Run<'p>
    ensures config { parser_config parser.new ≡ parser_config parser.old }

    // The list is the first answers of the bytes.
    ensures answers { let start = parser_state B.source E.order parser.old in
        IsTrue start.source.told → runs.answers_in result ≡ take (runs.answer_count result)
        (runs.answers start.settings start.order start.source.left) }

    ensures count { runs.answer_count result ≤ limit }

    // How it ends, and what it leaves.
    ensures end { let start = parser_state B.source E.order parser.old in
        IsTrue start.source.told → runs.EndsWith start.order limit start.source.left
        (runs.answer_count result) result.end (B.source (parser_buffer parser.new)).left }

    // Over a slice, a run that a failed allocation ended is between two frames: the failure costs
    // at most the answer of the next one, and the run after it begins at a frame.
    ensures between { let start = parser_state B.source E.order parser.old in
        IsTrue start.source.told → IsTrue start.source.whole →
        runs.EndsBetween start.order start.source.left (runs.answer_count result) result.end
        (B.source (parser_buffer parser.new)).left }

    // The number of elementary reads: those of the frames that it lists, and those of its end.
    ensures reads { let start = parser_state B.source E.order parser.old in
        IsTrue start.source.told → runs.CountsReads start.settings start.order start.source.left
        (runs.answer_count result) result.end start.reads (parser_reads parser.new) }

    // There are at most as many of them as bytes taken, and one more for each refused answer and
    // for an end before the limit.
    ensures keeps { runs.RunInvariant (parser_state B.source E.order parser.old)
        (runs.refused_count result.frames.items + runs.one_if_ended result.end)
        (runs.end_refusal result.end)
        (parser_state B.source E.order parser.new) }

    // Over a slice no byte string is copied.
    ensures borrowed { IsTrue (B.source (parser_buffer parser.old)).whole →
        runs.AllBorrowed result.frames.items }
{
    let mut frames: Frames<'p> = Vec::new(parser.reader.alloc());
    let run = run_steps(&mut parser.reader, limit, &Listing { limit }, &mut frames);
    Run {
        frames,
        end: run.end.unwrap_or(RunEnd::Limit),
    }
}
