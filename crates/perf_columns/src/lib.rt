//! The columns of the lines that `perf script` prints, and the text of records after them.
#![tactic(auto)]

pub mod bits;
pub mod cells;
pub mod columns;
pub mod files;
pub mod records;
pub mod threads;
