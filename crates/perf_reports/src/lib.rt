//! What the small programs beside `perfrec` print of records: a line for each record about a task
//! (`tasks`), a line for each sample (`samples`), either of them for a whole recording
//! (`printing`), and counts of frames (`counts`, `streams`).
#![tactic(auto)]

mod counting;
pub mod counts;
mod frame_printer;
mod names;
pub mod printing;
mod record_sums;
pub mod samples;
pub mod streams;
mod sums;
pub mod tasks;
