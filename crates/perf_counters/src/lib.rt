//! The reads of counters, as plain values.
#![tactic(auto)]

pub mod group_entry;
pub mod group_iter;
pub mod group_laws;
pub mod group_memory;
mod read_format;
pub mod read_group;
pub mod read_value;

pub use group_entry::GroupEntry;
pub use group_iter::GroupIter;
pub use read_group::ReadGroup;
pub use read_value::{ReadValue, TryFromGroupError};
