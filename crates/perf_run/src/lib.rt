//! The engine of the program `perfrec`, which writes the records of a reader as lines of text to a writer.
#![tactic(auto)]

mod engine;
mod lines;

pub use crate::engine::run;
pub use crate::lines::line_of;
