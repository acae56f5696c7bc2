//! Where the features of a file are, in either form.

ghost use Rattle.std.specs.Prelude.{◌≡◌, ◌+◌, ◌≤◌, ◌<◌, ◌^◌, All, IfOk, IfSome, length, drop, option_map};
ghost use Rattle.perf_base.specs.Dynamic.{order_of};
ghost use Rattle.perf_file.specs.FeatureTable as table;
ghost use Rattle.perf_file.specs.Forms.{feature_of, notes_of};
ghost use Rattle.perf_outlines.specs.NotePlaces.{IsPlaced, bytes_of};
ghost use Rattle.perf_file.specs.NoteViews.{note_of};
ghost use Rattle.perf_file.specs.Pipes as pipes;
ghost use Rattle.perf_sections.specs.Sections.{IsInside};

use crate::pipe_outline::frames_of;
use perf_base::endian::Dynamic;
use perf_file::BadFeature;
use perf_file::event_list::checked_head;
use perf_file::feature_table::section_of;
use perf_file::note_frames::Note;
use perf_file::noting::has_number;
use perf_file::piped::pipe_order;
use perf_sections::section::Section;

// Where a feature of a file is that is no pipe.
#[tactic(auto, unfolding(perf_file::specs::FeatureTable::file_feature_of))]
fn file_section(bytes: &[u8], feature: u8) -> Result<Option<Section>, BadFeature>
    ensures value { table.seen (bytes_of bytes.now) result
        ≡ table.file_feature_of bytes.now feature }
    ensures inside { IfOk result (λ found. IfSome found (IsInside bytes.now)) }
{
    match checked_head(bytes) {
        Ok(head) => section_of(bytes, head, feature),
        Err(_) => Ok(None),
    }
}

// Where the feature with a number is, if a note is that.
fn own_section(bytes: &[u8], order: Dynamic, note: &Note<'_>, feature: u64) -> Option<Section>
    requires { IsPlaced bytes.now (note_of note.now) }
    ensures value { option_map (bytes_of bytes.now) result
        ≡ pipes.own_feature (order_of order) feature (note_of note.now) }
    ensures inside { IfSome result (IsInside bytes.now) }
{
    if has_number(order, note, feature) {
        Some(Section {
            start: note.at as u64 + 16,
            size: note.body.len() as u64 - 8,
        })
    } else {
        None
    }
}

// The newer of two, if there is one.
fn newer(bytes: &[u8], first: Option<Section>, other: Option<Section>) -> Option<Section>
    ensures value { option_map (bytes_of bytes.now) result ≡ pipes.newer
        (option_map (bytes_of bytes.now) first) (option_map (bytes_of bytes.now) other) }
    ensures inside { IfSome first (IsInside bytes.now) → IfSome other (IsInside bytes.now) →
        IfSome result (IsInside bytes.now) }
{
    match first {
        Some(section) => Some(section),
        None => other,
    }
}

/// Where a feature of a pipe in that order is: in its last note.
pub fn noted_section(order: Dynamic, bytes: &[u8], feature: u64) -> Option<Section>
    requires { 16 ≤ length bytes.now }
    ensures value { option_map (bytes_of bytes.now) result ≡ pipes.noted_feature (order_of order)
        feature (pipes.all_frames order (drop 16 bytes.now)) }
    ensures inside { IfSome result (IsInside bytes.now) }
{
    let mut found = None;
    for note in frames_of(order, bytes.split_at(16).1) {
        found = newer(bytes, own_section(bytes, order, &note, feature), found);
    }
    found
}

/// Where a feature of a file in either form is, or `None` if the file does not have it. Refused if it
/// ends beyond the file.
#[tactic(auto, unfolding(perf_file::specs::Forms::feature_of, perf_file::specs::Forms::notes_of))]
pub fn feature_section(bytes: &[u8], feature: u8) -> Result<Option<Section>, BadFeature>
    ensures value { table.seen (bytes_of bytes.now) result ≡ feature_of bytes.now feature }
    ensures inside { IfOk result (λ found. IfSome found (IsInside bytes.now)) }
{
    match pipe_order(bytes) {
        Some(order) => match noted_section(order, bytes, u64::from(feature)) {
            Some(section) => Ok(Some(section)),
            None => Ok(None),
        },
        None => file_section(bytes, feature),
    }
}
