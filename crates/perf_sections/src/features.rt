//! The features of a file: what perf states about the recording, after the frames.

ghost use Rattle.std.specs.Prelude.{◌≡◌, ◌<◌, ◌%◌, ◌^◌, count_ones, option_map};
ghost use Rattle.perf_sections.specs.Features as features;
ghost use Rattle.perf_base.specs.Layout.{slice};
ghost use Rattle.perf_sections.specs.Heads.{IsGoodHead};
ghost use Rattle.perf_sections.specs.Sections.{IsInside};

use crate::head::Head;
use crate::number::bytes_at;
use crate::section::{Section, is_inside, section_at};

/// The feature `EVENT_DESC`.
pub const EVENT_DESCRIPTIONS: u32 = 12;

// How many features the file has before one.
fn features_before(bits: u64, feature: u32) -> u32
    requires { feature < 64 }
    ensures { result ≡ count_ones (bits % 2 ^ feature) }
{
    (bits % (1 << feature)).count_ones()
}

// Where a feature is, if the file has it.
fn feature_section(bytes: &[u8], head: Head, feature: u32) -> Option<Section>
    requires small { feature < 64 }
    requires good { IsGoodHead bytes.now head }
    ensures { result ≡ features.feature_section bytes.now head feature }
{
    if (head.features >> feature) % 2 == 0 {
        return None;
    }
    let before = u64::from(features_before(head.features, feature));
    let at = head.frames.start + head.frames.size + 16 * before;
    if (bytes.len() as u64) < at + 16 {
        return None;
    }
    Some(section_at(head.order, bytes, at as usize))
}

// The bytes of a part of the file, if it ends inside that.
pub fn part_in(bytes: &[u8], section: Section) -> Option<&[u8]>
    ensures { option_map (λ b. b.now) result ≡ features.part_in bytes.now section }
{
    if is_inside(bytes, section) {
        Some(bytes_at(bytes, section.start as usize, section.size as usize))
    } else {
        None
    }
}

// The bytes of a feature, if the file has it.
fn feature_in(bytes: &[u8], head: Head, feature: u32) -> Option<&[u8]>
    requires small { feature < 64 }
    requires good { IsGoodHead bytes.now head }
    ensures { option_map (λ b. b.now) result ≡ features.feature_in bytes.now head feature }
{
    part_in(bytes, feature_section(bytes, head, feature)?)
}

/// Where the descriptions of events are: no bytes if the file does not have them, or if they end beyond
/// it.
pub fn description_section(bytes: &[u8], head: Head) -> Section
    requires { IsGoodHead bytes.now head }
    ensures inside { IsInside bytes.now result }
    ensures value { slice bytes.now result.start result.size ≡
        features.descriptions_of bytes.now head }
{
    match feature_section(bytes, head, EVENT_DESCRIPTIONS) {
        Some(section) => if is_inside(bytes, section) {
            section
        } else {
            Section { start: 0, size: 0 }
        },
        None => Section { start: 0, size: 0 },
    }
}

/// The descriptions of events; none if the file does not have them, or if they end beyond it.
pub fn find_descriptions(bytes: &[u8], head: Head) -> &[u8]
    requires { IsGoodHead bytes.now head }
    ensures { result.now ≡ features.descriptions_of bytes.now head }
{
    match feature_in(bytes, head, EVENT_DESCRIPTIONS) {
        Some(found) => found,
        None => &[],
    }
}
