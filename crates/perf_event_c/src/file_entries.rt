//! Frames of a file, by their offsets and times.

ghost use Rattle.std.specs.Prelude.{◌≡◌, Ok};
ghost use Rattle.perf_file.specs.Forms.{opened};
ghost use Rattle.perf_sections.specs.Opened.{File};
ghost use Rattle.perf_outlines.specs.PipeOutlines.{form_outline};
ghost use Rattle.perf_outlines.specs.declared.summary.Outline.{Outline};
ghost use Rattle.perf_outlines.specs.Entries as entries;
ghost use Rattle.perf_outlines.specs.FileEvents.{AreRead};
ghost use Rattle.perf_outlines.specs.Files.{flat_file};

use crate::file::FlatFile;
use crate::file_events::FlatEvent;
use perf_file::entries::sort_by_time;
pub use perf_outlines::file_entries::FlatEntry;
use perf_outlines::file_entries::next_entry;
use perf_sections::ids::IdOfEvent;

/// Sorts entries by time, and at equal times by their offsets in the file.
#[unsafe(no_mangle)]
pub extern "C" fn ped_file_sort(list: &mut [FlatEntry])
    ensures { entries.IsInOrder list.old list.new }
{
    sort_by_time(list);
}

/// Writes when the frame at the offset `at` of a file happened, where it is, and which event it
/// belongs to, to `entry`, moves `at` beyond it and its payload, and returns [`LIMIT`]. With `at` 0
/// it begins at the first frame.
///
/// At the end of the frames it returns [`DONE`], or [`CUT_HEADER`] if fewer bytes are left there
/// than a header has, and if `file` is not of these bytes [`NOT_READ`]; nothing is written then.
///
/// [`LIMIT`]: crate::ends::LIMIT
/// [`DONE`]: crate::ends::DONE
/// [`CUT_HEADER`]: crate::ends::CUT_HEADER
/// [`NOT_READ`]: crate::ends::NOT_READ
#[unsafe(no_mangle)]
pub extern "C" fn ped_file_next(
    file: &FlatFile,
    bytes: &[u8],
    all: &[FlatEvent],
    ids: &[IdOfEvent],
    at: &mut u64,
    entry: &mut FlatEntry,
) -> u32
    ensures { (o : Outline) (f : File) → form_outline bytes.now ≡ Ok o → opened bytes.now ≡ Ok f →
        file.now ≡ flat_file o → AreRead bytes.now f all.now ids.now →
        entries.ReadsNext f at.old result at.new entry.old entry.new }
{
    next_entry(file, bytes, all, ids, at, entry)
}
