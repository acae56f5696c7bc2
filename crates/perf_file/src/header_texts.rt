//! What perf states about the machine and the command.

ghost use Rattle.std.specs.Prelude.{◌≡◌, MatchResult};
ghost use Rattle.perf_base.specs.Dynamic.{order_of};
ghost use Rattle.perf_file.specs.FeatureTable.{seen};
ghost use Rattle.perf_file.specs.FeatureTexts as texts;

use crate::command_line::{CommandLine, checked_text, checked_words};
use crate::feature::{BadFeature, Feature};
use crate::opening::Recording;
use perf_base::endian::Dynamic;
use perf_sections::number::number_at;

/// The times of the first and of the last sample, in nanoseconds of the clock of the recording. perf
/// writes zeros if it did not look at the samples.
#[derive(Copy, Clone, Debug, PartialEq, Eq)]
pub struct SampleTimes {
    /// The time of the first sample.
    pub first: u64,
    /// The time of the last sample.
    pub last: u64,
}

// The times of the feature.
fn checked_times(order: Dynamic, bytes: &[u8]) -> Result<SampleTimes, BadFeature>
    ensures { result ≡ texts.checked_times (order_of order) bytes.now }
{
    if bytes.len() < 16 {
        return Err(BadFeature::Short);
    }
    Ok(SampleTimes {
        first: number_at(order, bytes, 0),
        last: number_at(order, bytes, 8),
    })
}

// The text of a feature.
fn text_of<'p>(recording: &Recording<'p>, feature: Feature) -> Result<Option<&'p [u8]>, BadFeature>
    ensures { seen (λ b. b.now) result
        ≡ texts.text_of recording.now.order recording.now.bytes.now feature.0 }
{
    match recording.feature(feature) {
        Ok(Some(bytes)) => match checked_text(recording.order, bytes) {
            Ok(text) => Ok(Some(text)),
            Err(error) => Err(error),
        },
        Ok(None) => Ok(None),
        Err(error) => Err(error),
    }
}

impl<'p> Recording<'p> {
    /// The name of the machine on which was recorded, or `None` if the file does not have it.
    pub fn hostname(&self) -> Result<Option<&'p [u8]>, BadFeature>
        ensures { seen (λ b. b.now) result
            ≡ texts.text_of self.now.order self.now.bytes.now 3 }
    {
        text_of(self, Feature::HOSTNAME)
    }

    /// The release of the kernel that ran there, or `None` if the file does not have it.
    pub fn os_release(&self) -> Result<Option<&'p [u8]>, BadFeature>
        ensures { seen (λ b. b.now) result
            ≡ texts.text_of self.now.order self.now.bytes.now 4 }
    {
        text_of(self, Feature::OSRELEASE)
    }

    /// The words of the command that recorded, of which the first is the path of perf, or `None` if the
    /// file does not have them.
    pub fn command_line(&self) -> Result<Option<CommandLine<'p>>, BadFeature>
        ensures { seen texts.words_left result
            ≡ texts.command_line_of self.now.order self.now.bytes.now }
    {
        match self.feature(Feature::CMDLINE) {
            Ok(Some(bytes)) => match checked_words(self.order, bytes) {
                Ok(line) => Ok(Some(line)),
                Err(error) => Err(error),
            },
            Ok(None) => Ok(None),
            Err(error) => Err(error),
        }
    }

    /// The times of the first and of the last sample, or `None` if the file does not have them.
    pub fn sample_times(&self) -> Result<Option<SampleTimes>, BadFeature>
        ensures { result ≡ texts.sample_times_of self.now.order self.now.bytes.now }
    {
        match self.feature(Feature::SAMPLE_TIME) {
            Ok(Some(bytes)) => match checked_times(self.order, bytes) {
                Ok(times) => Ok(Some(times)),
                Err(error) => Err(error),
            },
            Ok(None) => Ok(None),
            Err(error) => Err(error),
        }
    }
}
