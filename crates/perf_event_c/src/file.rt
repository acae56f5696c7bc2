//! A file of `perf record`, before its events are read.

ghost use Rattle.std.specs.Prelude.{◌≡◌, ◌≢◌, Err};
ghost use Rattle.perf_file.specs.Forms.{opened};
ghost use Rattle.perf_outlines.specs.PipeOutlines.{form_outline};
ghost use Rattle.perf_sections.specs.declared.error.OpenError.{OpenError};
ghost use Rattle.perf_event_c.specs.Files.{OpensFile};
ghost use Rattle.perf_outlines.specs.Files as files;

use perf_outlines::file::flat_file;
pub use perf_outlines::file::{FlatFile, open_code};
use perf_outlines::pipe_outline::outline_of_form;
use std::alloc::Global;

/// Writes to `file` where the frames of a file are, and how many events and ids it has, and returns
/// 0: of what `perf record` writes into a file or to a pipe. What is between events is checked by
/// [`ped_file_events`].
///
/// If the file is refused before that, it returns the number of the refusal, and nothing is written.
///
/// [`ped_file_events`]: crate::file_events::ped_file_events
#[unsafe(no_mangle)]
pub extern "C" fn ped_file_open(alloc: Global, bytes: &[u8], file: &mut FlatFile) -> u32
    ensures opened { OpensFile (form_outline bytes.now) result file.old file.new }
    ensures refused { result ≢ 0 → (e : OpenError) × (opened bytes.now ≡ Err e)
        × (result ≡ files.open_code e) }
{
    match outline_of_form(alloc, bytes) {
        Ok(outline) => {
            *file = flat_file(outline);
            0
        }
        Err(refusal) => open_code(refusal),
    }
}
