//! The names of a file's events.

ghost use Rattle.std.specs.Prelude.{◌≡◌, ◌≢◌, Ok, Err, Some, None, length};
ghost use Rattle.perf_base.specs.Dynamic.{order_of};
ghost use Rattle.perf_sections.specs.Features.{descriptions_of};
ghost use Rattle.perf_file.specs.Forms.{opened};
ghost use Rattle.perf_sections.specs.Opened.{File, checked_head};
ghost use Rattle.perf_file.specs.Pipes as pipes;
ghost use Rattle.perf_sections.specs.declared.error.OpenError.{OpenError};
ghost use Rattle.perf_sections.specs.declared.head.Head.{Head};
ghost use Rattle.perf_outlines.specs.FileEvents.{AreRead, HaveIds};
ghost use Rattle.perf_outlines.specs.Files.{open_code};
ghost use Rattle.perf_outlines.specs.FlatNames as names;

use crate::file_events::{FlatEvent, OTHER_COUNT};
use perf_file::event_list::checked_head;
use perf_file::piped::pipe_order;
use perf_outlines::file_names::{find_in_file, find_noted};
use perf_sections::ids::IdOfEvent;
use perf_sections::name_places::NamePlace;

/// Finds the names of a file's events, writes to each event where its name is, and returns 0. `ids` are
/// those of all events, as [`ped_file_events`] wrote them. `found` is room for this, of as many elements
/// as there are events: with another count it returns [`OTHER_COUNT`], and nothing is written. If the
/// head of the file is refused, it returns the number of the refusal, and nothing is written.
///
/// An event that is not described, or whose name has no bytes, has a place of no bytes.
///
/// [`ped_file_events`]: crate::file_events::ped_file_events
#[unsafe(no_mangle)]
pub extern "C" fn ped_file_names(
    bytes: &[u8],
    all: &mut [FlatEvent],
    ids: &[IdOfEvent],
    found: &mut [NamePlace],
) -> u32
    ensures named { (h : Head) → pipes.pipe_order bytes.now ≡ None → checked_head bytes.now ≡ Ok h →
        length found.old ≡ length all.old → (result ≡ 0)
        × names.FindsNames (order_of h.order) (descriptions_of bytes.now h) bytes.now
        all.old all.new }
    ensures file { (f : File) → opened bytes.now ≡ Ok f → AreRead bytes.now f all.old ids.now →
        HaveIds bytes.now all.old → length found.old ≡ length all.old →
        names.AreNames bytes.now f all.new }
    ensures refused { (e : OpenError) → pipes.pipe_order bytes.now ≡ None →
        checked_head bytes.now ≡ Err e → length found.old ≡ length all.old →
        (result ≡ open_code e) × (all.new ≡ all.old) × (found.new ≡ found.old) }
    ensures other { length found.old ≢ length all.old →
        (result ≡ OTHER_COUNT) × (all.new ≡ all.old) × (found.new ≡ found.old) }
{
    if found.len() != all.len() {
        return OTHER_COUNT;
    }
    match pipe_order(bytes) {
        Some(order) => {
            find_noted(order, bytes, all, ids, found);
            0
        }
        None => find_in_file(bytes, all, found),
    }
}
