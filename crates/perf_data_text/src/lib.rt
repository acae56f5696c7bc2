//! What is inside a file of `perf record` as lines of text, and the engine of the program
//! `perf_data`, which writes them to a writer.
#![tactic(auto)]

pub mod dump;
pub mod events;
pub mod header;
pub mod run;
