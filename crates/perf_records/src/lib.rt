//! One value for every record that the kernel writes, and visits of records.
#![tactic(auto)]

pub mod body;
pub mod body_reader;
pub mod frame;
pub mod frame_after;
pub mod frame_end;
pub mod frame_handler;
pub mod frame_list;
mod frame_numbers;
mod frame_readings;
pub mod metadata;
pub mod partial;
pub mod parts;
pub mod record;
pub mod record_type;
pub mod visitor;
