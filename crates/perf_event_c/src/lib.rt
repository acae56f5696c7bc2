//! The library for C: its calls over structs of plain numbers.
//!
//! Nothing is kept from one call to the next, and no pointer is returned: a call reads and writes what
//! its arguments point to, and nothing else.
#![tactic(auto)]

pub mod attr;
pub mod body;
pub mod event_name;
pub mod file;
pub mod file_entries;
pub mod file_events;
pub mod file_feature;
pub mod file_names;
pub mod file_read;
pub mod identifier;
pub mod many;
pub mod read;
pub mod split;

pub use perf_outlines::ends;
