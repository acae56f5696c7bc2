//! Values, records and why calls refuse, as text, for the tests of several crates.
#![tactic(auto)]

pub mod reasons;
pub mod texts;
pub mod values;
