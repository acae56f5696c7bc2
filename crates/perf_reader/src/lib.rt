//! Elementary reads from an input, each of them counted, and what reading a type means.
#![tactic(auto)]

mod attribute;
pub mod blocks;
mod flags;
pub mod frame_reader;
pub mod halves;
pub mod header;
pub mod names;
pub mod read;
pub mod reader;
pub mod spare;
