//! What the tests of several crates share: attributes, frames, and the text of lines, over every buffer.
//! It asserts nothing, as a library may not end a process.
#![tactic(auto)]

pub mod attributes;
pub mod drops;
pub mod everywhere;
pub mod frames;
pub mod lines;
pub mod sample_bytes;
