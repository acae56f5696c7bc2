//! Counts the frames of a file.

ghost use Rattle.std.specs.Prelude.{IfOk, length};
ghost use Rattle.perf_file.specs.Views.{view};
ghost use Rattle.perf_summary.specs.Contents.{all_contents};
ghost use Rattle.perf_summary.specs.Counts.{AreCounts};

use crate::contents::contents_of;
use crate::counts::Counts;
use perf_file::Recording;
use perf_flat::refusals::blank_frame;
use std::alloc::{AllocError, Global};

/// The counts of all frames of a file. Memory is needed for those of its events alone.
pub fn counts_of(alloc: Global, recording: &Recording<'_>) -> Result<Counts, AllocError>
    ensures { IfOk result (AreCounts (length (view recording.now).events) (all_contents (view recording.now))) }
{
    let mut counts = Counts::new(alloc, recording.events().len())?;
    let mut place = blank_frame();
    for found in recording.frames() {
        let contents = contents_of(alloc, recording, &found, &mut place);
        counts.add(&contents);
    }
    Ok(counts)
}
