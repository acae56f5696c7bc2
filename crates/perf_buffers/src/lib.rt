//! Buffers: where the bytes of a parser come from, and how bytes are taken from them.
#![tactic(auto)]

pub mod cursor;
mod cut;
mod fill;
pub mod frame_reader;
pub mod input;
pub mod outer;
pub mod parsebuf;
pub mod pieces;
mod rest;
pub mod transient;
mod zeros;
