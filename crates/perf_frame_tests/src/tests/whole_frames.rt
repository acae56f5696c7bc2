//! Frames one by one: what each contains, and runs that hand them out.

ghost use Rattle.std.specs.Prelude.{⊤, ◌<◌};

use crate::tests::checks::check_text;
use bitflags::Flags;
use perf_event_data::endian::{Endian, Little};
use perf_event_data::parse::{ParseConfig, ParseResult, Parser};
use perf_event_data::{
    BadFrame, Frame, FrameHandler, PieceBuf, Record, RecordMetadata, RecordVisitor, Sample,
    SampleFields, SampleFlags, each_frame, frames,
};
use perf_test_helpers::attributes::ids_attribute;
use perf_test_helpers::drops::drop_sample;
use perf_test_helpers::lines::write_error;
use perf_test_inputs::bytes::{FIVE_LOST, TWO};
use perf_test_runs::write_debug_record;
use std::alloc::{AllocError, Global};

// The fields of the samples.
const FIELDS: [SampleFlags; 7] = [
    SampleFlags::IDENTIFIER,
    SampleFlags::IP,
    SampleFlags::TID,
    SampleFlags::TIME,
    SampleFlags::ID,
    SampleFlags::CPU,
    SampleFlags::PERIOD,
];

// A sample of event 77: at address 4096, of thread 12 of process 11, at 13 nanoseconds on CPU 3,
// for 5 events.
const SAMPLE: &[u8] =
    b"\x09\0\0\0\x02\0\x40\0\x4D\0\0\0\0\0\0\0\0\x10\0\0\0\0\0\0\x0B\0\0\0\x0C\0\0\0\
    \x0D\0\0\0\0\0\0\0\x4D\0\0\0\0\0\0\0\x03\0\0\0\0\0\0\0\x05\0\0\0\0\0\0\0";

// A sample that ends inside its first number.
const SHORT: &[u8] = b"\x09\0\0\0\x02\0\x09\0\x4D";

// Thread 2 of process 1 is called `sh`; with the sample id of event 78: thread 22 of process 21, at
// 23 nanoseconds on CPU 4.
const NAMED: &[u8] = b"\x03\0\0\0\0\x20\x40\0\x01\0\0\0\x02\0\0\0sh\0\0\0\0\0\0\x15\0\0\0\x16\0\0\0\
    \x17\0\0\0\0\0\0\0\x4E\0\0\0\0\0\0\0\x04\0\0\0\0\0\0\0\x4E\0\0\0\0\0\0\0";

// The same without space for its sample id.
const NO_ROOM: &[u8] = b"\x03\0\0\0\0\x20\x18\0\x01\0\0\0\x02\0\0\0sh\0\0\0\0\0\0";

// A frame of a user's type, with eight bytes.
const OWN: &[u8] = b"\x40\0\0\0\0\0\x10\0\x01\0\0\0\0\0\0\0";

// A frame with a size below that of a header, five lost samples, and a frame that is cut off.
const MIXED: &[u8] =
    b"\x02\0\0\0\0\0\x07\0\x0D\0\0\0\0\0\x10\0\x05\0\0\0\0\0\0\0\x0D\0\0\0\0\0\x10\0\x06\0";

fn config() -> ParseConfig<Little> {
    let mut sample_type = 0;
    for &field in &FIELDS {
        sample_type |= field.bits();
    }
    ParseConfig::from(ids_attribute(sample_type))
}

// What is written of a frame.
#[derive(Copy, Clone)]
enum Part {
    // Its type, how many bytes follow its header, and its single numbers.
    Numbers,
    // Its metadata, its record, and the record that a visit makes, or the kinds of their errors.
    Readings,
    // Its sample, read into the place of an older one.
    Placed,
    // The same, and the record that a visit makes, where a refusal is a bad frame.
    Tried,
}

// The text of the first frame of some bytes.
fn text_of_first(alloc: Global, bytes: &[u8], part: Part) -> Result<String, AllocError> {
    let mut text = String::new(alloc);
    let written = match frames(bytes, Little).next() {
        Some(Ok(frame)) => write_part(&mut text, alloc, &frame, part),
        Some(Err(_)) => text.push_str("no whole frame"),
        None => text.push_str("no frame"),
    };
    written?;
    Ok(text)
}

fn write_part(
    text: &mut String,
    alloc: Global,
    frame: &Frame<'_, '_>,
    part: Part,
) -> Result<(), AllocError> {
    match part {
        Part::Numbers => write_numbers(text, frame),
        Part::Readings => write_readings(text, alloc, frame),
        Part::Placed => write_sample_in_place(text, alloc, frame, false),
        Part::Tried => {
            write_sample_in_place(text, alloc, frame, true)?;
            write_visit(text, alloc, frame)
        }
    }
}

fn write_numbers(text: &mut String, frame: &Frame<'_, '_>) -> Result<(), AllocError> {
    let config = config();
    let (kind, len) = (frame.kind(), frame.rest().len());
    let (time, id) = (frame.time(&config), frame.id(&config));
    let identifier = frame.identifier(&Little);
    let task = (frame.pid(&config), frame.tid(&config));
    let cpu = frame.cpu(&config);
    write!(text, "{:?}", (kind, len, time, id, identifier, task, cpu))
}

fn write_readings(
    text: &mut String,
    alloc: Global,
    frame: &Frame<'_, '_>,
) -> Result<(), AllocError> {
    write_metadata(text, alloc, frame)?;
    text.push_str("; ")?;
    write_debug_record(text, frame.record(alloc, &config()))?;
    text.push_str(" ")?;
    write_debug_record(text, visit_record(alloc, frame))?;
    Ok(())
}

// Writes the type, the misc, the time and the CPU.
fn write_metadata(
    text: &mut String,
    alloc: Global,
    frame: &Frame<'_, '_>,
) -> Result<(), AllocError> {
    match frame.metadata(alloc, &config()) {
        Ok(metadata) => write_moment(text, &metadata),
        Err(error) => write_error(text, &error),
    }
}

fn write_moment(text: &mut String, metadata: &RecordMetadata) -> Result<(), AllocError> {
    let id = metadata.sample_id();
    let actual = (metadata.ty(), metadata.misc(), id.time(), id.cpu());
    write!(text, "{actual:?}")
}

// The record that a visit makes.
fn visit_record<'p>(alloc: Global, frame: &Frame<'_, 'p>) -> ParseResult<Record<'p>> {
    match frame.visit(alloc, &config(), RecordVisitor::new(alloc)) {
        Ok(record) => record,
        Err(error) => Err(error),
    }
}

fn write_sample_in_place<'p>(
    text: &mut String,
    alloc: Global,
    frame: &Frame<'_, 'p>,
    is_tried: bool,
) -> Result<(), AllocError> {
    let mut place: Sample<'p> = older_sample();
    let is_written = write_sample_into(text, alloc, frame, &mut place, is_tried);
    drop_sample(place);
    is_written
}

fn write_sample_into<'p>(
    text: &mut String,
    alloc: Global,
    frame: &Frame<'_, 'p>,
    place: &mut Sample<'p>,
    is_tried: bool,
) -> Result<(), AllocError> {
    match read_into(alloc, frame, place, is_tried) {
        Ok(is_put) => write!(text, "{is_put}")?,
        Err(error) => write_error(text, &error)?,
    }
    write_fields(text, place)
}

// Writes what a visit makes, or the bad frame.
fn write_visit(text: &mut String, alloc: Global, frame: &Frame<'_, '_>) -> Result<(), AllocError> {
    text.push_str("; ")?;
    match frame.try_visit(alloc, &config(), RecordVisitor::new(alloc)) {
        Ok(record) => write_debug_record(text, record)?,
        Err(bad) => return write_bad(text, bad),
    };
    Ok(())
}

// Writes the size, the kind and the error.
fn write_bad(text: &mut String, bad: BadFrame) -> Result<(), AllocError> {
    write!(text, "{} {:?} ", bad.header().size, bad.kind())?;
    write_error(text, &bad.error())
}

// Reads a sample into a place, by the call whose refusal is a bad frame or by the other.
fn read_into<'p>(
    alloc: Global,
    frame: &Frame<'_, 'p>,
    place: &mut Sample<'p>,
    is_tried: bool,
) -> ParseResult<bool> {
    if !is_tried {
        return frame.sample_into(alloc, &config(), place);
    }
    match frame.try_sample_into(alloc, &config(), place) {
        Ok(is_put) => Ok(is_put),
        Err(bad) => Err(bad.error()),
    }
}

// A sample with the address 1, and no other field.
fn older_sample<'p>() -> Sample<'p> {
    let mut fields = SampleFields::default();
    fields.addr = Some(1);
    Sample::from_fields(fields)
}

// Writes the address, the instruction pointer and the period.
fn write_fields(text: &mut String, sample: &Sample<'_>) -> Result<(), AllocError> {
    let actual = (sample.addr(), sample.ip(), sample.period());
    write!(text, " {actual:?}")
}

// Writes the sizes of frames, and ends the run after `most`.
#[derive(Drop)]
struct Sizes {
    text: String,
    left: usize,
}

impl Sizes {
    fn add(&mut self, frame: Result<Frame<'_, '_>, BadFrame>) -> Result<(), AllocError> {
        match frame {
            Ok(frame) => write!(self.text, "{} ", frame.header().size),
            Err(bad) => write!(self.text, "{} {:?} ", bad.header().size, bad.kind()),
        }
    }
}

impl<'p, E: Endian> FrameHandler<'p, E> for Sizes {
    ghost gets = { λ _ _ _ _ _ _. ⊤ };

    fn frame(&mut self, _config: &ParseConfig<E>, frame: Result<Frame<'_, 'p>, BadFrame>) -> bool {
        let is_added = self.add(frame).is_ok();
        self.left = self.left.saturating_sub(1);
        is_added && self.left > 0
    }
}

// The runs over the mixed bytes, each of which ends after at most `most` frames.
fn text_in_runs(alloc: Global, most: usize, piece: usize) -> Result<String, AllocError>
    requires { 0 < piece }
{
    let buf = PieceBuf::new(MIXED, piece, false);
    let mut parser = Parser::new(alloc, buf, ParseConfig::<Little>::default());
    let mut sizes = Sizes {
        text: String::new(alloc),
        left: most,
    };
    for _ in 0..MIXED.len() {
        sizes.left = most;
        let run = each_frame(&mut parser, 10, &mut sizes);
        write!(sizes.text, "{}, ", run.count)?;
        if run.end.is_some() {
            break;
        }
    }
    Ok(sizes.text)
}

#[test]
fn a_frame_has_single_numbers(rt: HostRuntime) {
    let parts = [
        (
            SAMPLE,
            "(Some(Sample), 56, Some(13), Some(77), Some(77), (Some(11), Some(12)), Some(3))",
        ),
        (
            NAMED,
            "(Some(Comm), 56, Some(23), Some(78), Some(78), (Some(21), Some(22)), Some(4))",
        ),
        (
            NO_ROOM,
            "(Some(Comm), 16, None, None, Some(26739), (None, None), None)",
        ),
        (OWN, "(None, 8, None, None, None, (None, None), None)"),
    ];
    for (bytes, want) in parts {
        check_text(&rt, text_of_first(rt.alloc(), bytes, Part::Numbers), want);
    }
}

#[test]
fn a_frame_has_its_metadata_and_its_record(rt: HostRuntime) {
    let names = "(3, 8192, Some(23), Some(4)); \
        Comm(Comm { pid: 1, tid: 2, comm: Borrowed([115, 104]) });  \
        Comm(Comm { pid: 1, tid: 2, comm: Borrowed([115, 104]) }); ";
    check_text(&rt, text_of_first(rt.alloc(), NAMED, Part::Readings), names);
    let no_room = "InvalidRecord; InvalidRecord InvalidRecord";
    check_text(
        &rt,
        text_of_first(rt.alloc(), NO_ROOM, Part::Readings),
        no_room,
    );
}

#[test]
fn a_sample_takes_the_place_of_another(rt: HostRuntime) {
    let parts = [
        (SAMPLE, "true (None, Some(4096), Some(5))"),
        (SHORT, "Eof (None, None, None)"),
        (NAMED, "false (Some(1), None, None)"),
    ];
    for (bytes, want) in parts {
        check_text(&rt, text_of_first(rt.alloc(), bytes, Part::Placed), want);
    }
}

#[test]
fn a_refused_frame_is_a_bad_frame(rt: HostRuntime) {
    let parts = [
        (SHORT, "Eof (None, None, None); 9 Eof Eof"),
        (
            NO_ROOM,
            "false (Some(1), None, None); 24 InvalidRecord InvalidRecord",
        ),
        (
            NAMED,
            "false (Some(1), None, None); \
            Comm(Comm { pid: 1, tid: 2, comm: Borrowed([115, 104]) }); ",
        ),
    ];
    for (bytes, want) in parts {
        check_text(&rt, text_of_first(rt.alloc(), bytes, Part::Tried), want);
    }
}

#[test]
fn a_run_ends_when_its_handler_returns_false(rt: HostRuntime) {
    let parts = [
        (1, 64, "7 InvalidRecord 1, 16 1, 16 Eof 1, 0, "),
        (2, 3, "7 InvalidRecord 16 2, 16 Eof 1, "),
        (9, 1, "7 InvalidRecord 16 16 Eof 3, "),
    ];
    for (most, piece, want) in parts {
        check_text(&rt, text_in_runs(rt.alloc(), most, piece.max(1)), want);
    }
}

// Whether a list of these bytes has a first frame and a second one, and how many bytes are left then.
fn text_of_left(alloc: Global, bytes: &[u8]) -> Result<String, AllocError> {
    let mut list = frames(bytes, Little);
    let (first, second) = (list.next().is_some(), list.next().is_some());
    format!(in alloc; "{first} {second} {}", list.left().len())
}

#[test]
fn an_iterator_leaves_a_header_that_is_cut(rt: HostRuntime) {
    check_text(
        &rt,
        text_of_left(rt.alloc(), &FIVE_LOST[..12]),
        "true false 0",
    );
    check_text(&rt, text_of_left(rt.alloc(), &TWO[..20]), "true false 4");
}
