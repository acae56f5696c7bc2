//! The lines of a file's frames.

ghost use Rattle.std.specs.Prelude.{◌≡◌, ◌≢◌, ◌≤◌, ◌+◌, ◌++◌, IfOk, OnOk, Ok, Err, is_ok};
ghost use Rattle.std.specs.Prelude.{string_bytes, option_map};
ghost use Rattle.perf_base.specs.declared.error.ErrorKind.TheVariants.{OutOfMemory};
ghost use Rattle.perf_buffers.specs.Prelude.{chunk_bytes};
ghost use Rattle.perf_records.specs.Answers.{answer_after};
ghost use Rattle.perf_text.specs.Strips.{strip_text, room_of};
ghost use Rattle.perf_lines.specs.FileLines as of_frame;
ghost use Rattle.perf_lines.specs.FileText as files;
ghost use Rattle.perf_lines.specs.Text as lines;

use crate::fields::push_hex;
use crate::line::{kind_name, put_header};
use crate::records::push_record;
use perf_base::endian::Dynamic;
use perf_base::sys::perf_event_header;
use perf_base::{ErrorKind, ParseConfig};
use perf_records::frame::Frame;
use perf_records::frame_handler::BadFrame;
use perf_text::strip::Strip;
use std::alloc::{AllocError, Global};

/// Which event a frame of a file belongs to.
#[derive(Copy, Clone, Debug, PartialEq, Eq)]
pub enum FrameEvent {
    /// The event with that number.
    Number(usize),
    /// None: perf wrote the frame for itself.
    Perf,
    /// An event that the file does not have, by its id.
    Unknown(u64),
    /// An event that is not known, since the frame is too short for an id.
    Short,
}

/// A frame of a file, and how it is read.
#[derive(Copy, Clone, Debug)]
pub struct FrameLine<'a, 'p> {
    /// The offset of the frame in the file.
    pub at: usize,
    /// Which event it belongs to.
    pub event: FrameEvent,
    /// The configuration of that event, if there is one.
    pub config: Option<&'a ParseConfig<Dynamic>>,
    /// The header that was found there.
    pub header: perf_event_header,
    /// What was found there: a frame, or a header that no whole frame follows.
    pub frame: Result<Frame<'p, 'p>, BadFrame>,
    /// Whether the bytes after the frame that it announces are all there.
    pub has_payload: bool,
}

/// Appends the line of a frame, with its line feed: its number, its offset in the file, its event,
/// its header, and its record or why it is refused. Returns whether it was read.
///
/// The event is a number, `-` if perf wrote the frame for itself, `?` and an id that no event has,
/// or `?` alone. A frame without a configuration is printed as the bytes after its header. It is
/// refused if its event is not known (`UnknownId`, `NoId`), and with `Eof` if the bytes that it
/// announces are cut off.
pub fn push_file_line(
    text: &mut String,
    alloc: Global,
    index: usize,
    found: &FrameLine<'_, '_>,
) -> Result<bool, AllocError>
    ensures read { IfOk result (λ read. read ≡ is_ok (of_frame.frame_words found.now)) }
    ensures text { OnOk result (string_bytes text.new
        ≡ string_bytes text.old ++ of_frame.numbered_line index found.now) }
{
    push_start(text, index, found.at, found.event, &found.header)?;
    let read = push_words(text, alloc, found)?;
    text.push_str("\n")?;
    Ok(read)
}

// Appends the beginning of a line.
fn push_start(
    text: &mut String,
    index: usize,
    at: usize,
    event: FrameEvent,
    header: &perf_event_header,
) -> Result<(), AllocError>
    ensures { OnOk result (string_bytes text.new
        ≡ string_bytes text.old ++ files.line_start index at event header.now) }
{
    let mut strip = Strip::new();
    put_header(&mut strip, header);
    put_event(&mut strip, event);
    strip.put(" ");
    strip.put_number(at as u64);
    strip.put(" ");
    strip.put_number(index as u64);
    text.push_str(strip.text())
}

// Writes the word of an event before the text.
fn put_event(strip: &mut Strip, event: FrameEvent)
    requires { 21 ≤ room_of strip.old }
    ensures text { strip_text strip.new ≡ files.event_word event ++ strip_text strip.old }
    ensures room { room_of strip.old ≤ room_of strip.new + 21 }
{
    match event {
        FrameEvent::Number(number) => strip.put_number(number as u64),
        FrameEvent::Perf => strip.put("-"),
        FrameEvent::Unknown(id) => {
            strip.put_number(id);
            strip.put("?");
        }
        FrameEvent::Short => strip.put("?"),
    }
}

// Appends the words of a frame, and returns whether it was read.
fn push_words(
    text: &mut String,
    alloc: Global,
    found: &FrameLine<'_, '_>,
) -> Result<bool, AllocError>
    ensures { IfOk result (λ read. files.PrintsWords (of_frame.frame_words found.now) read
        (string_bytes text.old) (string_bytes text.new)) }
{
    match &found.frame {
        Ok(frame) => {
            if found.has_payload {
                push_whole(text, alloc, found.event, frame, found.config)
            } else {
                push_refused(text, "Eof")
            }
        }
        Err(bad) => push_refused(text, kind_name(bad.kind())),
    }
}

// Appends the words of a whole frame.
fn push_whole(
    text: &mut String,
    alloc: Global,
    event: FrameEvent,
    frame: &Frame<'_, '_>,
    config: Option<&ParseConfig<Dynamic>>,
) -> Result<bool, AllocError>
    ensures { IfOk result (λ read. files.PrintsWords
        (files.words_under event (option_map (λ c. of_frame.read_by c.now) config.entry)
        frame.now.header (chunk_bytes frame.now.rest)) read
        (string_bytes text.old) (string_bytes text.new)) }
{
    match config {
        Some(config) => push_under(text, alloc, frame, config),
        None => push_without(text, event, frame.rest()),
    }
}

// Appends the words of a frame under a configuration.
fn push_under(
    text: &mut String,
    alloc: Global,
    frame: &Frame<'_, '_>,
    config: &ParseConfig<Dynamic>,
) -> Result<bool, AllocError>
    ensures { IfOk result (λ read. files.PrintsWords
        (files.words_of_record (answer_after (of_frame.read_by config.now).0
        (of_frame.read_by config.now).1 frame.now.header (chunk_bytes frame.now.rest))) read
        (string_bytes text.old) (string_bytes text.new)) }
{
    match frame.record(alloc, config) {
        Ok(record) => {
            push_record(text, &record)?;
            Ok(true)
        }
        Err(error) => push_error(text, error.kind()),
    }
}

// Appends why a record is refused. Memory that ran out is no refusal.
fn push_error(text: &mut String, kind: ErrorKind) -> Result<bool, AllocError>
    ensures { IfOk result (λ read. (kind ≢ OutOfMemory)
        × files.PrintsWords (Err (lines.kind_name kind)) read
        (string_bytes text.old) (string_bytes text.new)) }
{
    match kind {
        ErrorKind::OutOfMemory => Err(AllocError),
        ErrorKind::Eof
        | ErrorKind::InvalidRecord
        | ErrorKind::UnsupportedConfig
        | ErrorKind::UnsupportedData
        | ErrorKind::External => push_refused(text, kind_name(kind)),
    }
}

// Appends the bytes of a frame, or why its event is not known.
fn push_without(text: &mut String, event: FrameEvent, bytes: &[u8]) -> Result<bool, AllocError>
    ensures { IfOk result (λ read. files.PrintsWords (files.words_of_bytes event bytes.now) read
        (string_bytes text.old) (string_bytes text.new)) }
{
    match event {
        FrameEvent::Number(_) | FrameEvent::Perf => push_bytes(text, bytes),
        FrameEvent::Unknown(_) => push_refused(text, "UnknownId"),
        FrameEvent::Short => push_refused(text, "NoId"),
    }
}

// Appends bytes, as those of a record of unknown type.
fn push_bytes(text: &mut String, bytes: &[u8]) -> Result<bool, AllocError>
    ensures { IfOk result (λ read. files.PrintsWords (Ok (lines.unknown_words bytes.now)) read
        (string_bytes text.old) (string_bytes text.new)) }
{
    push_hex(text, " Unknown data=", bytes)?;
    Ok(true)
}

// Appends why a frame is refused.
fn push_refused(text: &mut String, why: &str) -> Result<bool, AllocError>
    ensures { IfOk result (λ read. files.PrintsWords (Err why.now) read
        (string_bytes text.old) (string_bytes text.new)) }
{
    text.push_str(" refused ")?;
    text.push_str(why)?;
    Ok(false)
}
