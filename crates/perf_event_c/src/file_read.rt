//! Frames of a file, each read under its own event.

ghost use Rattle.std.specs.Prelude.{◌≡◌, Ok, min, drop, length};
ghost use Rattle.perf_file.specs.Forms.{opened};
ghost use Rattle.perf_sections.specs.Opened.{File};
ghost use Rattle.perf_outlines.specs.PipeOutlines.{form_outline};
ghost use Rattle.perf_outlines.specs.declared.summary.Outline.{Outline};
ghost use Rattle.perf_outlines.specs.EntryReads as reads;
ghost use Rattle.perf_outlines.specs.Files.{flat_file};

use crate::file::FlatFile;
use crate::file_entries::FlatEntry;
use crate::file_events::FlatEvent;
use perf_base::ParseConfig;
use perf_base::endian::Dynamic;
use perf_flat::frame::FlatFrame;
use perf_flat::read::read_into;
use perf_outlines::file_entries::{frames_of, left_from};
use perf_outlines::file_read::event_of;

// Marks a frame that is not read.
fn refuse(frame: &mut FlatFrame)
    ensures { frame.new ≡ reads.refused frame.old }
{
    frame.read = 0;
    frame.refusal = 3;
}

// Writes the frame of an entry, whose event is this one, from what is left of a file there.
fn read_left(config: &ParseConfig<Dynamic>, left: &[u8], frame: &mut FlatFrame)
    ensures { reads.ReadsLeft config.now left.now frame.old frame.new }
{
    if !read_into(config, left, frame) {
        refuse(frame);
    }
}

// Writes the frame of an entry.
fn read_entry(
    file: &FlatFile,
    bytes: &[u8],
    all: &[FlatEvent],
    entry: &FlatEntry,
    frame: &mut FlatFrame,
)
    ensures { (o : Outline) (f : File) → form_outline bytes.now ≡ Ok o → opened bytes.now ≡ Ok f →
        file.now ≡ flat_file o → reads.States f bytes.now all.now →
        reads.ReadsEntry f entry.now frame.old frame.new }
{
    let Some(frames) = frames_of(file, bytes) else {
        return refuse(frame);
    };
    let Some(event) = event_of(all, entry) else {
        return refuse(frame);
    };
    let Some(config) = event.config.config() else {
        return refuse(frame);
    };
    read_left(
        &config,
        left_from(frames, file.frames.start, entry.at),
        frame,
    );
}

/// Reads the frames of entries, each under its own event, and writes them to `frames`, in the order
/// of the entries: as many as there is room for, which it returns. What is after them in `frames` is
/// left as it was.
///
/// The frame of an entry that has no event, or is not in the file, is not read: its `refusal` is 3,
/// `PED_UNSUPPORTED_CONFIG`, its `read` is 0, and the rest of it is left as it was.
#[unsafe(no_mangle)]
pub extern "C" fn ped_file_read(
    file: &FlatFile,
    bytes: &[u8],
    all: &[FlatEvent],
    entries: &[FlatEntry],
    frames: &mut [FlatFrame],
) -> usize
    ensures count { result ≡ min (length entries.now) (length frames.old) }
    ensures frames { (o : Outline) (f : File) → form_outline bytes.now ≡ Ok o → opened bytes.now ≡ Ok f →
        file.now ≡ flat_file o → reads.States f bytes.now all.now →
        reads.ReadsEntries f entries.now result frames.old frames.new }
    ensures after { drop result frames.new ≡ drop result frames.old }
{
    let count = entries.len().min(frames.len());
    for index in 0..count {
        read_entry(file, bytes, all, &entries[index], &mut frames[index]);
    }
    count
}
