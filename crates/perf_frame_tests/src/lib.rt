//! Tests of frames and runs that are no row of a list (`perf_replay` reads those): readers that fail,
//! buffers of a user's own whose hints are wrong or that count their faults, counts that claim more
//! than there is, generated streams, frames one by one, and the text of the error that ends a run.
//! Without its tests this crate is empty.
#![tactic(auto)]

#[cfg(test)]
mod tests;
