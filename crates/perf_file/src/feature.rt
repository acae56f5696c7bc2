//! The features of a file: what perf states about the recording.

ghost use Rattle.std.specs.Prelude.{◌≡◌, Some};
ghost use Rattle.perf_file.specs.FeatureTable as table;
ghost use Rattle.perf_file.specs.FeatureTexts as texts;
ghost use Rattle.perf_file.specs.Forms as forms;

use crate::feature_table::feature_in;
use crate::noting::noted_feature;
use crate::opening::Recording;
use crate::piped::pipe_order;
use std::fmt;

/// A feature, by the number that perf gives it, `HEADER_*` of its `util/header.h`.
#[derive(Copy, Clone, Debug, PartialEq, Eq)]
pub struct Feature(pub u8);

impl Feature {
    /// What tracepoints contain.
    pub const TRACING_DATA: Feature = Feature(1);

    /// The build ids of files that were mapped. [`Recording::build_ids`] reads it.
    pub const BUILD_ID: Feature = Feature(2);

    /// The name of the machine. [`Recording::hostname`] reads it.
    pub const HOSTNAME: Feature = Feature(3);

    /// The release of its kernel. [`Recording::os_release`] reads it.
    pub const OSRELEASE: Feature = Feature(4);

    /// The version of perf.
    pub const VERSION: Feature = Feature(5);

    /// The architecture of the machine.
    pub const ARCH: Feature = Feature(6);

    /// How many processors there are, and how many were online.
    pub const NRCPUS: Feature = Feature(7);

    /// The name of the processor.
    pub const CPUDESC: Feature = Feature(8);

    /// The identification of the processor.
    pub const CPUID: Feature = Feature(9);

    /// How much memory the machine has, in units of 1024 bytes.
    pub const TOTAL_MEM: Feature = Feature(10);

    /// The words of the command. [`Recording::command_line`] reads it.
    pub const CMDLINE: Feature = Feature(11);

    /// The descriptions of events. [`Event::name`] reads it.
    ///
    /// [`Event::name`]: perf_sections::Event::name
    pub const EVENT_DESC: Feature = Feature(12);

    /// Which processors are on one core or die.
    pub const CPU_TOPOLOGY: Feature = Feature(13);

    /// The nodes of the memory.
    pub const NUMA_TOPOLOGY: Feature = Feature(14);

    /// That there are stacks of branches. It has no bytes.
    pub const BRANCH_STACK: Feature = Feature(15);

    /// The names of the types of events.
    pub const PMU_MAPPINGS: Feature = Feature(16);

    /// The groups of events.
    pub const GROUP_DESC: Feature = Feature(17);

    /// Where the payloads of AUXTRACE are.
    pub const AUXTRACE: Feature = Feature(18);

    /// That `perf stat record` wrote the file. It has no bytes.
    pub const STAT: Feature = Feature(19);

    /// The caches.
    pub const CACHE: Feature = Feature(20);

    /// The times of the first and of the last sample. [`Recording::sample_times`] reads it.
    pub const SAMPLE_TIME: Feature = Feature(21);

    /// The blocks of physical memory.
    pub const MEM_TOPOLOGY: Feature = Feature(22);

    /// The number of the clock of times, `CLOCK_*`.
    pub const CLOCKID: Feature = Feature(23);

    /// That the frames are in several files.
    pub const DIR_FORMAT: Feature = Feature(24);

    /// The programs for BPF.
    pub const BPF_PROG_INFO: Feature = Feature(25);

    /// The types of programs for BPF.
    pub const BPF_BTF: Feature = Feature(26);

    /// How frames are compressed.
    pub const COMPRESSED: Feature = Feature(27);

    /// What the unit of the processor that counts events is able to do.
    pub const CPU_PMU_CAPS: Feature = Feature(28);

    /// The time of day and the time of the clock at one moment.
    pub const CLOCK_DATA: Feature = Feature(29);

    /// The kinds of processors of a hybrid machine.
    pub const HYBRID_TOPOLOGY: Feature = Feature(30);

    /// What each unit that counts events is able to do.
    pub const PMU_CAPS: Feature = Feature(31);
}

/// Why a feature cannot be read. The other calls are not concerned.
#[derive(Copy, Clone, Debug, PartialEq, Eq)]
pub enum BadFeature {
    /// It ends beyond the file, or its entry in the table of features does.
    PastEnd,
    /// It has fewer bytes than its numbers state.
    Short,
}

impl BadFeature {
    /// What is wrong with the feature, and what to do.
    pub fn message(self) -> &'static str
        ensures { result.now ≡ texts.message self }
    {
        match self {
            BadFeature::PastEnd => {
                "the feature ends beyond the file, so it is cut off: copy it again, or record again"
            }
            BadFeature::Short => { "the feature is damaged: copy the file again, or record again" }
        }
    }
}

/// Its message.
impl fmt::Display for BadFeature {
    ghost output = { λ e. Some (texts.message e) };

    fn fmt<W: fmt::Write>(&self, f: &mut fmt::Formatter<W>) -> fmt::Result {
        f.write_str(self.message())
    }
}

impl std::error::Error for BadFeature {}

impl<'p> Recording<'p> {
    /// The bytes of a feature, as perf wrote them, or `None` if the file does not have it. They are in
    /// the order of the file. A file whose perf was killed has no features. In a pipe the last frame
    /// with a feature counts.
    #[tactic(auto, unfolding(crate::specs::Forms::feature_of))]
    pub fn feature(&self, feature: Feature) -> Result<Option<&'p [u8]>, BadFeature>
        ensures { table.seen (λ b. b.now) result ≡ forms.feature_of self.now.bytes.now feature.0 }
    {
        match pipe_order(self.bytes) {
            Some(order) => match noted_feature(order, &self.notes, u64::from(feature.0)) {
                Some(bytes) => Ok(Some(bytes)),
                None => Ok(None),
            },
            None => feature_in(self.bytes, feature.0),
        }
    }
}
