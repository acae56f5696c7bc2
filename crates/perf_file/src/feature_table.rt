//! Where the features of a file are.

ghost use Rattle.std.specs.Prelude.{◌≡◌, ◌+◌, ◌*◌, ◌≤◌, length, IfOk, IfSome};
ghost use Rattle.perf_base.specs.Dynamic.{order_of};
ghost use Rattle.perf_file.specs.FeatureTable as table;
ghost use Rattle.perf_sections.specs.Heads.{IsGoodHead};
ghost use Rattle.perf_sections.specs.Sections.{IsInside};

use crate::event_list::checked_head;
use crate::feature::BadFeature;
use perf_base::endian::Dynamic;
use perf_sections::head::Head;
use perf_sections::number::{bytes_at, number_at};
use perf_sections::section::{Section, is_inside, section_at};

// Whether the head has the bit of a feature.
fn has_feature(order: Dynamic, bytes: &[u8], feature: u8) -> bool
    requires { 104 ≤ length bytes.now }
    ensures { result ≡ table.has_feature (order_of order) bytes.now feature }
{
    let word = number_at(order, bytes, 72 + 8 * (feature as usize / 64));
    (word >> (feature % 64)) % 2 == 1
}

// How many features the file has before one.
#[tactic(auto, using(crate::proofs::FeatureCounts::counts_none, crate::proofs::FeatureCounts::counts_one, crate::proofs::FeatureCounts::counts_other))]
fn features_before(order: Dynamic, bytes: &[u8], feature: u8) -> u8
    requires { 104 ≤ length bytes.now }
    ensures value { result ≡ table.features_before (order_of order) bytes.now feature }
    ensures bound { result ≤ feature }
{
    let mut count = 0;
    for number in 0..feature {
        if has_feature(order, bytes, number) {
            count += 1;
        }
    }
    count
}

// Where the table states a feature.
fn entry_of(bytes: &[u8], head: Head, feature: u8) -> u64
    requires good { IsGoodHead bytes.now head }
    requires whole { 104 ≤ length bytes.now }
    ensures value { result ≡ table.entry_of bytes.now head feature }
    ensures bound { result ≤ length bytes.now + 16 * 255 }
{
    let before = features_before(head.order, bytes, feature);
    head.frames.start + head.frames.size + 16 * u64::from(before)
}

// A part of the file that is to end inside it.
fn checked_section(bytes: &[u8], section: Section) -> Result<Option<Section>, BadFeature>
    ensures { result ≡ table.checked_section bytes.now section }
{
    if is_inside(bytes, section) {
        Ok(Some(section))
    } else {
        Err(BadFeature::PastEnd)
    }
}

/// Where a feature is, or `None` if the file does not have it. Refused if it ends beyond the file.
pub fn section_of(bytes: &[u8], head: Head, feature: u8) -> Result<Option<Section>, BadFeature>
    requires good { IsGoodHead bytes.now head }
    requires whole { 104 ≤ length bytes.now }
    ensures value { result ≡ table.section_of bytes.now head feature }
    ensures inside { IfOk result (λ found. IfSome found (IsInside bytes.now)) }
{
    if !head.is_closed || !has_feature(head.order, bytes, feature) {
        return Ok(None);
    }
    let at = entry_of(bytes, head, feature);
    if (bytes.len() as u64) < at + 16 {
        return Err(BadFeature::PastEnd);
    }
    checked_section(bytes, section_at(head.order, bytes, at as usize))
}

// The bytes of a feature of a file with that head.
fn feature_with(bytes: &[u8], head: Head, feature: u8) -> Result<Option<&[u8]>, BadFeature>
    requires good { IsGoodHead bytes.now head }
    requires whole { 104 ≤ length bytes.now }
    ensures { table.seen (λ b. b.now) result ≡ table.feature_with bytes.now head feature }
{
    match section_of(bytes, head, feature) {
        Ok(Some(section)) => Ok(Some(bytes_at(
            bytes,
            section.start as usize,
            section.size as usize,
        ))),
        Ok(None) => Ok(None),
        Err(error) => Err(error),
    }
}

/// The bytes of a feature, if the file, which is no pipe, has it.
#[tactic(auto, unfolding(crate::specs::FeatureTable::file_feature_of))]
pub fn feature_in(bytes: &[u8], feature: u8) -> Result<Option<&[u8]>, BadFeature>
    ensures { table.seen (λ b. b.now) result ≡ table.file_feature_of bytes.now feature }
{
    match checked_head(bytes) {
        Ok(head) => feature_with(bytes, head, feature),
        Err(_) => Ok(None),
    }
}
