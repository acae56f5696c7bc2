//! What the tests of several crates read and write: frames, a reader that fails, byte orders, a
//! configuration, and the texts of configurations and errors.
#![tactic(auto)]

pub mod bytes;
pub mod configurations;
pub mod errors;
pub mod orders;
pub mod readers;
