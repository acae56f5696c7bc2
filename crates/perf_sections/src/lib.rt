//! The sections of a `perf.data` file: its header, the ids and names of its events, and what refuses it.
#![tactic(auto)]

pub mod apart;
pub mod descriptions;
pub mod error;
pub mod events;
pub mod features;
pub mod head;
pub mod id_place;
pub mod id_sections;
pub mod ids;
pub mod kernel_names;
pub mod name_places;
pub mod naming;
pub mod naming_events;
pub mod number;
pub mod reading;
pub mod section;

pub use error::{OpenError, Part};
pub use events::Event;
pub use naming::{EscapedBytes, EventName};
