//! The text of the samples and the other records of a recording, as `perf script` prints it.
#![tactic(auto)]

mod chains;
mod error;
mod fields;
mod heads;
mod ids;
mod labels;
mod namespaces;
mod readings;
mod run;
mod samples;
mod script;
mod side_band;
mod writing;

pub use error::ScriptError;
pub use fields::{Fields, Style, is_field_name};
pub use ids::Ids;
pub use labels::{Label, labels_of};
pub use readings::{Counters, Reading, push_readings};
pub use run::{status_after, write_script};
pub use samples::{Heading, Sampled, push_sample};
