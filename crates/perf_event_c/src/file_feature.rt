//! Where the features of a file are: what perf states about the recording.

ghost use Rattle.perf_file.specs.Forms.{feature_of};
ghost use Rattle.perf_event_c.specs.FileFeatures as features;

use perf_outlines::feature_places::feature_section;
use perf_sections::section::Section;

/// In place of the number of a refusal: the file does not have the feature.
pub const NO_FEATURE: u32 = 20;

/// The feature ends beyond the file.
pub const CUT_FEATURE: u32 = 21;

/// Writes where the bytes of a feature are in a file to `place`, and returns 0. The feature is a number
/// of perf, `HEADER_*` of its `util/header.h`. In what perf wrote to a pipe the last frame with it counts.
///
/// If the file does not have it, or cannot be opened, it returns [`NO_FEATURE`], and if the feature ends
/// beyond the file [`CUT_FEATURE`]; nothing is written then.
#[unsafe(no_mangle)]
pub extern "C" fn ped_file_feature(bytes: &[u8], feature: u8, place: &mut Section) -> u32
    ensures { features.FindsFeature bytes.now (feature_of bytes.now feature) result place.old place.new }
{
    match feature_section(bytes, feature) {
        Ok(Some(section)) => {
            *place = section;
            0
        }
        Ok(None) => NO_FEATURE,
        Err(_) => CUT_FEATURE,
    }
}
