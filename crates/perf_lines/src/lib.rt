//! Records, and frames of files, as words of lines of text.
#![tactic(auto)]

mod fields;
pub mod line;
pub mod outcome;
pub mod output;
pub mod records;
mod sample;
