//! Parsers: readers of a caller's buffer that return errors.
//!
//! [`parse::Parser`] reads values out of a buffer: a slice, a buffered reader, or bytes that come
//! in pieces.
#![tactic(auto)]

mod frame_runs;
mod frames;
pub mod parse;
mod parser;
mod run;
mod runs;
mod steps;

pub use crate::frame_runs::each_frame;
pub use crate::run::{FrameRun, Run, RunEnd};
pub use crate::runs::read_records;
