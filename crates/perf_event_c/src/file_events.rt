//! The events of a file of `perf record`.

ghost use Rattle.std.specs.Prelude.{◌≡◌, Ok, Err, true, false, length};
ghost use Rattle.perf_file.specs.Forms.{opened};
ghost use Rattle.perf_sections.specs.Opened.{File};
ghost use Rattle.perf_outlines.specs.PipeOutlines.{form_outline};
ghost use Rattle.perf_sections.specs.declared.error.OpenError.{OpenError};
ghost use Rattle.perf_outlines.specs.declared.summary.Outline.{Outline};
ghost use Rattle.perf_outlines.specs.FileEvents as events;
ghost use Rattle.perf_outlines.specs.Files.{open_code};

use perf_file::piped::pipe_order;
pub use perf_outlines::file_events::{FlatEvent, OTHER_COUNT};
use perf_outlines::file_events::{read_file, read_pipe};
use perf_sections::ids::IdOfEvent;
use perf_sections::section::Section;
use std::alloc::Global;

/// Writes the events of a file to `all`, its ids by rising numbers to `ids`, and its parts to
/// `parts`, and returns 0. `all` and `ids` have as many elements as [`ped_file_open`] stated, and
/// `parts` three more than `all`; else it returns [`OTHER_COUNT`], and nothing is written.
///
/// If the file is refused, it returns the number of the refusal.
///
/// [`ped_file_open`]: crate::file::ped_file_open
#[unsafe(no_mangle)]
pub extern "C" fn ped_file_events(
    alloc: Global,
    bytes: &[u8],
    all: &mut [FlatEvent],
    parts: &mut [Section],
    ids: &mut [IdOfEvent],
) -> u32
    ensures opened { (o : Outline) → form_outline bytes.now ≡ Ok o →
        events.has_room o (length all.old) (length parts.old) (length ids.old) ≡ true →
        events.ReadsEvents bytes.now (opened bytes.now) result all.new ids.new }
    ensures inside { (o : Outline) (f : File) → form_outline bytes.now ≡ Ok o →
        events.has_room o (length all.old) (length parts.old) (length ids.old) ≡ true →
        opened bytes.now ≡ Ok f → events.HaveIds bytes.now all.new }
    ensures other { (o : Outline) → form_outline bytes.now ≡ Ok o →
        events.has_room o (length all.old) (length parts.old) (length ids.old) ≡ false →
        (result ≡ OTHER_COUNT) × (all.new ≡ all.old) × (parts.new ≡ parts.old)
        × (ids.new ≡ ids.old) }
    ensures refused { (e : OpenError) → form_outline bytes.now ≡ Err e →
        (opened bytes.now ≡ Err e) × (result ≡ open_code e) × (all.new ≡ all.old)
        × (parts.new ≡ parts.old) × (ids.new ≡ ids.old) }
{
    match pipe_order(bytes) {
        Some(order) => read_pipe(alloc, order, bytes, all, parts, ids),
        None => read_file(alloc, bytes, all, parts, ids),
    }
}
