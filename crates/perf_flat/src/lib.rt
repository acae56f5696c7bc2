//! Frames as plain numbers: a frame's record in one struct without references, whose byte strings and
//! lists are places in the frame.
#![tactic(auto)]

pub mod attr;
mod bodies;
pub mod config;
mod cursor;
pub mod frame;
pub mod read;
pub mod refusals;
mod sample;
