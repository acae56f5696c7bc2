//! Tests of parsers that are no row of a list (`perf_replay` reads those): visitors, and byte orders,
//! types and closures of a user's own. Without its tests this crate is empty.
#![tactic(auto)]

#[cfg(test)]
mod tests;
