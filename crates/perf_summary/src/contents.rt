//! What a frame of a file adds to the counts.

ghost use Rattle.std.specs.Prelude.{◌≡◌, ◌<◌, ◌≤◌, MatchOption, length, option_map, slice_index_or};
ghost use Rattle.std.specs.Result.{result_ok};
ghost use Rattle.perf_base.specs.Configuration.{under_misc};
ghost use Rattle.perf_base.specs.Configured.{configuration_of, endian_of};
ghost use Rattle.perf_base.specs.Dynamic.{order_of};
ghost use Rattle.perf_base.specs.Layout.{layout};
ghost use Rattle.perf_buffers.specs.Prelude.{chunk_bytes};
ghost use Rattle.perf_records.specs.Answers.{answer_after};
ghost use Rattle.perf_records.specs.Bodies.{body};
ghost use Rattle.perf_file.specs.Entries.{time_of};
ghost use Rattle.perf_sections.specs.Opened.{event_view};
ghost use Rattle.perf_file.specs.Pieces.{piece_of};
ghost use Rattle.perf_file.specs.Views.{view};
ghost use Rattle.perf_summary.specs.Contents as contents;

use bitflags::Flags;
use perf_base::ParseConfig;
use perf_base::endian::Dynamic;
use perf_base::sys::perf_event_header;
use perf_file::entries::time_in;
use perf_file::listing::header_of;
use perf_file::{Event, FileFrame, Owner, Recording};
use perf_flat::frame::{FlatFrame, NUMBERS};
use perf_flat::read::read_body;
use perf_records::frame::Frame;
use perf_records::frame_end::frame_end;
use perf_records::record_type::RecordType;
use perf_words::SampleFlags;
use std::alloc::Global;

/// What a frame adds to the counts.
#[derive(Copy, Clone, Debug, PartialEq, Eq)]
pub struct Contents {
    /// The number of its event, if it has one.
    pub event: Option<usize>,
    /// The type in its header, `PERF_RECORD_*`.
    pub type_: u32,
    /// Whether it is refused.
    pub is_refused: bool,
    /// When it happened, in nanoseconds of the clock of the recording, 0 if that is not known.
    pub time: u64,
    /// The period of a sample. `None` for other records, and if it is refused.
    pub period: Option<u64>,
    /// How many records or samples were lost, as LOST and LOST_SAMPLES tell.
    pub lost: u64,
}

// The numbers of a record that are counted.
#[derive(Copy, Clone)]
struct Numbers {
    // The period that a sample contains, 0 if it contains none.
    period: Option<u64>,
    lost: u64,
}

impl Numbers {
    // Those of a record that has none.
    const NONE: Numbers = Numbers {
        period: None,
        lost: 0,
    };
}

/// What a frame of a file adds to the counts. It is read into `place`, whatever was there.
///
/// The period of a sample that contains none is that of the attribute of its event, as perf has it.
pub fn contents_of(
    alloc: Global,
    recording: &Recording<'_>,
    found: &FileFrame<'_>,
    place: &mut FlatFrame,
) -> Contents
    ensures { result ≡ contents.contents_of (view recording.now) (piece_of found.now) }
{
    let read = numbers_of(alloc, recording, found, place);
    let numbers = numbers_or_none(read);
    Contents {
        event: event_of(found.owner),
        type_: header_of(&found.frame).type_,
        is_refused: read.is_none(),
        time: time_of(recording, found),
        period: period_of(fixed_period(recording, found.owner), numbers.period),
        lost: numbers.lost,
    }
}

// The number of the event that is an owner.
fn event_of(owner: Owner) -> Option<usize>
    ensures { result ≡ contents.event_of owner }
{
    match owner {
        Owner::Event(number) => Some(number),
        Owner::Perf | Owner::Unknown(_) | Owner::Short => None,
    }
}

// The numbers that were read, or those of no record.
fn numbers_or_none(read: Option<Numbers>) -> Numbers
    ensures { result ≡ contents.numbers_or_none read }
{
    match read {
        Some(numbers) => numbers,
        None => Numbers::NONE,
    }
}

// The period of a sample that contains this one: a fixed one comes first.
fn period_of(fixed: Option<u64>, own: Option<u64>) -> Option<u64>
    ensures { result ≡ contents.period_by fixed own }
{
    match own {
        Some(own) => Some(fixed.unwrap_or(own)),
        None => None,
    }
}

// When a frame happened.
fn time_of(recording: &Recording<'_>, found: &FileFrame<'_>) -> u64
    ensures { result ≡ time_of (view recording.now) (piece_of found.now) }
{
    match recording.config(found.owner) {
        Some(config) => time_in(config, &found.frame),
        None => 0,
    }
}

// The event with a number, if there is one.
fn event_at<'a, 'p>(events: &'a [Event<'p>], number: usize) -> Option<&'a Event<'p>>
    ensures { MatchOption result (length events.now ≤ number) (λ e. (number < length events.now)
        × (e.now ≡ slice_index_or events.now number e.now)) }
{
    events.get(number)
}

// The period of the samples of an owner, if they contain none.
fn fixed_period(recording: &Recording<'_>, owner: Owner) -> Option<u64>
    ensures { result ≡ contents.fixed_period_of (view recording.now) owner }
{
    match owner {
        Owner::Event(number) => match event_at(recording.events(), number) {
            Some(event) => fixed_period_of(event),
            None => None,
        },
        Owner::Perf | Owner::Unknown(_) | Owner::Short => None,
    }
}

// The same of an event.
fn fixed_period_of(event: &Event<'_>) -> Option<u64>
    ensures { result ≡ contents.fixed_period (event_view event.now) }
{
    if event.config().sample_type().contains(SampleFlags::PERIOD) {
        None
    } else {
        Some(event.attr().sample_period)
    }
}

// The numbers of a frame, unless it is refused.
fn numbers_of(
    alloc: Global,
    recording: &Recording<'_>,
    found: &FileFrame<'_>,
    place: &mut FlatFrame,
) -> Option<Numbers>
    ensures { contents.AreNumbersOf (view recording.now) (piece_of found.now) result }
{
    if !recording.has_payload(found) {
        return None;
    }
    match &found.frame {
        Ok(frame) => match recording.config(found.owner) {
            Some(config) => record_numbers(alloc, config, frame, place),
            None => own_numbers(found.owner),
        },
        Err(_) => None,
    }
}

// Those of a whole frame whose event has no configuration: perf's own frames are not refused.
fn own_numbers(owner: Owner) -> Option<Numbers>
    ensures { result ≡ contents.own_numbers owner }
{
    match owner {
        Owner::Event(_) | Owner::Perf => Some(Numbers::NONE),
        Owner::Unknown(_) | Owner::Short => None,
    }
}

// Those of the record of a whole frame, unless it is refused.
fn record_numbers(
    alloc: Global,
    config: &ParseConfig<Dynamic>,
    frame: &Frame<'_, '_>,
    place: &mut FlatFrame,
) -> Option<Numbers>
    ensures { result ≡ option_map contents.numbers_of (result_ok (answer_after (configuration_of config.now)
        (order_of (endian_of config.now)) frame.now.header (chunk_bytes frame.now.rest))) }
{
    if read_record(alloc, config, frame, place) {
        Some(numbers_in(frame.kind(), &place.numbers))
    } else {
        None
    }
}

// Reads the record of a whole frame into a place, and returns whether it is not refused.
fn read_record(
    alloc: Global,
    config: &ParseConfig<Dynamic>,
    frame: &Frame<'_, '_>,
    place: &mut FlatFrame,
) -> bool
    ensures { contents.Reads (configuration_of config.now).read_format (answer_after (configuration_of config.now)
        (order_of (endian_of config.now)) frame.now.header (chunk_bytes frame.now.rest)) result place.new }
{
    let header = frame.header();
    match frame_end(config, header.type_, frame.rest()) {
        Some(end) => read_end(alloc, config, header, end.body, place),
        None => false,
    }
}

// Reads the record in a body, after that header.
fn read_end(
    alloc: Global,
    config: &ParseConfig<Dynamic>,
    header: perf_event_header,
    bytes: &[u8],
    place: &mut FlatFrame,
) -> bool
    requires { length bytes.now < 65528 }
    ensures { contents.Reads (configuration_of config.now).read_format (layout (order_of (endian_of config.now))
        (body (under_misc header.misc (configuration_of config.now)) header.type_) bytes.now) result place.new }
{
    read_body(alloc, config, header.type_, header.misc, bytes, place) && place.refusal == 0
}

// Those of a record of a type, of which these are the numbers in a flat frame.
fn numbers_in(kind: Option<RecordType>, numbers: &[u64; NUMBERS]) -> Numbers
    ensures { result ≡ contents.numbers_by kind numbers.now }
{
    match kind {
        Some(RecordType::Sample) => Numbers {
            period: Some(numbers[2]),
            lost: 0,
        },
        Some(RecordType::Lost) => Numbers {
            period: None,
            lost: numbers[1],
        },
        Some(RecordType::LostSamples) => Numbers {
            period: None,
            lost: numbers[0],
        },
        _ => Numbers::NONE,
    }
}
