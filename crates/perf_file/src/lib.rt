//! Opens what `perf record` writes, a `perf.data` file: its events, its frames each under its own
//! event, and their order of time.
#![tactic(auto)]

pub mod attributes;
mod build_ids;
mod command_line;
pub mod deciding;
pub mod entries;
pub mod event_list;
mod feature;
pub mod feature_table;
pub mod finding;
mod form_opening;
mod header_texts;
pub mod listing;
pub mod note_frames;
pub mod noting;
mod opening;
mod owning;
mod payloads;
pub mod piped;

pub use build_ids::{BuildId, BuildIds};
pub use command_line::CommandLine;
pub use entries::Entry;
pub use feature::{BadFeature, Feature};
pub use header_texts::SampleTimes;
pub use listing::{FileFrame, FileFrames};
pub use opening::Recording;
pub use owning::Owner;
pub use perf_sections::{EscapedBytes, Event, EventName, OpenError, Part};
