//! What a `perf.data` file contains, for callers without an allocator: how much room its events and
//! their ids need, these in memory of the caller's, where names and features are in the file, and its
//! events and frames as structs of plain numbers.
#![tactic(auto)]

pub mod ends;
pub mod event_name;
pub mod feature_places;
pub mod file;
pub mod file_entries;
pub mod file_events;
pub mod file_names;
pub mod file_read;
pub mod id_list;
pub mod new_names;
pub mod order;
pub mod parts;
pub mod pipe_outline;
pub mod summary;
