//! The summary of a file of `perf record`: what is counted of its frames, what each thread did, and the
//! engine of the command that writes these.
#![tactic(auto)]

pub mod contents;
pub mod counting;
pub mod counts;
mod facts;
mod json;
pub mod run;
mod subjects;
mod text;
mod thread_lines;
mod threads;
mod type_names;

pub use threads::{Thread, ThreadId, threads_of};
