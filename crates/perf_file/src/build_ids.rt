//! The build ids of files that were mapped.

ghost use Rattle.std.specs.Bool.{OnTrue};
ghost use Rattle.std.specs.Prelude.{◌≡◌, ◌+◌, ◌≤◌, [], ◌∷◌, Ok, Err, length, map, drop, option_map, IsTrue, MatchOption, MatchResult};
ghost use Rattle.std.specs.Iterator.{YieldsFirstBy, item_count};
ghost use Rattle.perf_base.specs.Dynamic.{order_of};
ghost use Rattle.perf_file.specs.BuildIds as builds;
ghost use Rattle.perf_file.specs.FeatureTable.{seen};
ghost use Rattle.perf_file.specs.FeatureTexts.{then_read};
ghost use Rattle.perf_file.specs.Forms.{feature_of};
ghost use Rattle.perf_file.specs.NoteViews.{note_of};

use crate::feature::{BadFeature, Feature};
use crate::note_frames::Note;
use crate::noting::HEADER_BUILD_ID;
use crate::opening::Recording;
use perf_base::Endian;
use perf_base::endian::Dynamic;
use perf_sections::descriptions::before_zero;
use perf_sections::number::{bytes_at, small_number_at};

/// The build id of a file that was mapped, by which the same bytes are recognized.
#[derive(Copy, Clone, Debug)]
pub struct BuildId<'p> {
    /// The `misc` of its record: the lowest three bits state whose the file is
    /// (`PERF_RECORD_MISC_CPUMODE_MASK`), 1 the kernel's, 2 a program's.
    pub misc: u16,
    /// The process that mapped it; 4294967295 for the kernel.
    pub pid: u32,
    /// The build id, at most 20 bytes.
    pub id: &'p [u8],
    /// The path of the file.
    pub filename: &'p [u8],
}

/// The build ids of files that were mapped, each once, in order. Made by [`Recording::build_ids`].
#[derive(Copy, Clone, Debug, Drop)]
pub struct BuildIds<'a, 'p> {
    order: Dynamic,
    left: &'p [u8],
    notes: &'a [Note<'p>],
}

// The number of the two bytes at an offset.
fn half_number_at(order: Dynamic, bytes: &[u8], at: usize) -> u16
    requires { at + 2 ≤ length bytes.now }
    ensures { result ≡ builds.half_number (order_of order) bytes.now at }
{
    match bytes[at..].first_chunk::<2>() {
        Some(two) => order.convert_u16(*two),
        None => 0,
    }
}

// How many bytes the record at the front takes.
fn record_size(order: Dynamic, bytes: &[u8]) -> usize
    requires { 36 ≤ length bytes.now }
    ensures { result ≡ builds.record_size (order_of order) bytes.now }
{
    half_number_at(order, bytes, 6) as usize
}

// Whether it is whole.
fn is_whole(order: Dynamic, bytes: &[u8]) -> bool
    ensures { result ≡ builds.is_whole (order_of order) bytes.now }
{
    if bytes.len() < 36 {
        return false;
    }
    let size = record_size(order, bytes);
    36 <= size && size <= bytes.len()
}

// How many bytes a build id has.
fn id_length(misc: u16, stated: u8) -> usize
    ensures value { result ≡ builds.id_length misc stated }
    ensures bound { result ≤ 20 }
{
    if (misc >> 15) % 2 == 1 {
        usize::from(stated).min(20)
    } else {
        20
    }
}

// The build id in the bytes after a header with that `misc`.
fn build_with(order: Dynamic, misc: u16, body: &[u8]) -> BuildId<'_>
    requires { 28 ≤ length body.now }
    ensures { builds.build_of result ≡ builds.build_with (order_of order) misc body.now }
{
    let length = id_length(misc, body[24]);
    BuildId {
        misc,
        pid: small_number_at(order, body, 0),
        id: bytes_at(body, 4, length),
        filename: before_zero(body.split_at(28).1),
    }
}

// The build id in the record at the front.
fn build_in(order: Dynamic, bytes: &[u8]) -> BuildId<'_>
    requires { IsTrue (builds.is_whole (order_of order) bytes.now) }
    ensures { builds.build_of result ≡ builds.build_in (order_of order) bytes.now }
{
    let body = bytes_at(bytes, 8, record_size(order, bytes) - 8);
    build_with(order, half_number_at(order, bytes, 4), body)
}

// The bytes after it.
fn after_record(order: Dynamic, bytes: &[u8]) -> &[u8]
    requires { IsTrue (builds.is_whole (order_of order) bytes.now) }
    ensures { result.now ≡ drop (builds.record_size (order_of order) bytes.now) bytes.now }
{
    bytes.split_at(record_size(order, bytes)).1
}

// Whether whole records take all of the bytes.
#[tactic(auto, using(crate::proofs::Builds::all_taken, crate::proofs::Builds::none_whole, crate::proofs::Builds::more_whole, crate::proofs::Builds::over))]
fn are_whole(order: Dynamic, bytes: &[u8]) -> bool
    ensures { result ≡ builds.are_whole (order_of order) (length bytes.now) bytes.now }
{
    let mut left = bytes;
    for _index in 0..bytes.len() {
        if left.is_empty() {
            return true;
        }
        if !is_whole(order, left) {
            return false;
        }
        left = after_record(order, left);
    }
    left.is_empty()
}

// The records of the feature, which are whole.
fn checked_records(order: Dynamic, bytes: &[u8]) -> Result<&[u8], BadFeature>
    ensures { MatchResult result
        (λ left. builds.checked_builds (order_of order) bytes.now
        ≡ Ok (builds.builds (order_of order) left.now))
        (λ e. builds.checked_builds (order_of order) bytes.now ≡ Err e) }
{
    if are_whole(order, bytes) {
        Ok(bytes)
    } else {
        Err(BadFeature::Short)
    }
}

// The first build id of records, and the bytes after it.
#[tactic(auto, using(crate::proofs::Builds::next_build, crate::proofs::Builds::no_build))]
fn first_build(order: Dynamic, bytes: &[u8]) -> Option<(BuildId<'_>, &[u8])>
    ensures { MatchOption result (builds.builds (order_of order) bytes.now ≡ [])
        (λ found. builds.builds (order_of order) bytes.now ≡ builds.build_of found.0
        ∷ builds.builds (order_of order) found.1.now) }
{
    if !is_whole(order, bytes) {
        return None;
    }
    Some((build_in(order, bytes), after_record(order, bytes)))
}

// Whether a note has a build id.
fn is_build(note: &Note<'_>) -> bool
    ensures value { result ≡ builds.is_build (note_of note.now) }
    ensures long { OnTrue result (28 ≤ length note.now.body.now) }
{
    note.header.type_ == HEADER_BUILD_ID && 28 <= note.body.len()
}

// Whether it should have one that is not whole.
fn is_cut(note: &Note<'_>) -> bool
    ensures { result ≡ builds.is_cut (note_of note.now) }
{
    note.header.type_ == HEADER_BUILD_ID && note.body.len() < 28
}

// Refuses notes that should have a build id that is not whole.
fn check_notes(notes: &[Note<'_>]) -> Result<(), BadFeature>
    ensures { result ≡ builds.checked_notes (map note_of notes.now) }
{
    for note in notes {
        if is_cut(note) {
            return Err(BadFeature::Short);
        }
    }
    Ok(())
}

// The first build id in notes, and the notes after it.
fn first_noted<'a, 'p>(
    order: Dynamic,
    notes: &'a [Note<'p>],
) -> Option<(BuildId<'p>, &'a [Note<'p>])>
    ensures { MatchOption result
        (builds.noted_builds (order_of order) (map note_of notes.now) ≡ [])
        (λ found. builds.noted_builds (order_of order) (map note_of notes.now)
        ≡ builds.build_of found.0
        ∷ builds.noted_builds (order_of order) (map note_of found.1.now)) }
{
    for index in 0..notes.len() {
        let note = &notes[index];
        if is_build(note) {
            let build = build_with(order, note.header.misc, note.body);
            return Some((build, notes.split_at(index + 1).1));
        }
    }
    None
}

impl<'a, 'p> BuildIds<'a, 'p> {
    // The first build id that is left, and those after it.
    fn first(self) -> Option<(BuildId<'p>, BuildIds<'a, 'p>)>
        ensures { MatchOption result (builds.builds_left self.entry ≡ [])
            (λ found. builds.builds_left self.entry
            ≡ builds.build_of found.0 ∷ builds.builds_left found.1) }
    {
        let BuildIds { order, left, notes } = self;
        match first_build(order, left) {
            Some((build, left)) => Some((build, BuildIds { order, left, notes })),
            None => {
                let (build, notes) = first_noted(order, notes)?;
                Some((build, BuildIds { order, left, notes }))
            }
        }
    }
}

impl<'p> Iterator for BuildIds<'_, 'p> {
    type Item = BuildId<'p>;

    ghost next_gives = { YieldsFirstBy builds.build_of builds.builds_left };

    ghost remaining = { item_count builds.builds_left };

    fn next(&mut self) -> Option<BuildId<'p>> {
        let (build, left) = self.first()?;
        *self = left;
        Some(build)
    }
}

// The build ids of records and of notes: none if there are no records of the feature, and no notes have
// one.
#[tactic(auto, using(crate::proofs::Builds::only_noted))]
fn builds_of<'a, 'p>(
    order: Dynamic,
    records: Option<&'p [u8]>,
    notes: &'a [Note<'p>],
) -> Option<BuildIds<'a, 'p>>
    ensures { option_map builds.builds_left result ≡ builds.joined
        (option_map (λ b. builds.builds (order_of order) b.now) records.entry)
        (builds.noted_builds (order_of order) (map note_of notes.now)) }
{
    match records {
        Some(left) => Some(BuildIds { order, left, notes }),
        None => {
            let left = &[];
            match first_noted(order, notes) {
                Some(_) => Some(BuildIds { order, left, notes }),
                None => None,
            }
        }
    }
}

impl<'p> Recording<'p> {
    // The records of the feature, which are whole.
    fn build_records(&self) -> Result<Option<&'p [u8]>, BadFeature>
        ensures { seen (λ b. builds.builds (order_of self.now.order) b.now) result
            ≡ then_read (builds.checked_builds (order_of self.now.order))
            (feature_of self.now.bytes.now 2) }
    {
        match self.feature(Feature::BUILD_ID) {
            Ok(Some(bytes)) => match checked_records(self.order, bytes) {
                Ok(records) => Ok(Some(records)),
                Err(error) => Err(error),
            },
            Ok(None) => Ok(None),
            Err(error) => Err(error),
        }
    }

    /// The build ids of the files that were mapped and of the kernel, or `None` if the file does not
    /// have them. In a pipe they are those of the frames of the type 67.
    pub fn build_ids(&self) -> Result<Option<BuildIds<'_, 'p>>, BadFeature>
        ensures { seen builds.builds_left result
            ≡ builds.build_ids_of self.now.order self.now.bytes.now }
    {
        let records = match self.build_records() {
            Ok(records) => records,
            Err(error) => return Err(error),
        };
        match check_notes(&self.notes) {
            Ok(()) => Ok(builds_of(self.order, records, &self.notes)),
            Err(error) => Err(error),
        }
    }
}
