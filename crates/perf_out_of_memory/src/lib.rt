//! Tests of how many requests for memory calls make, and of what a failed allocation changes.
//! `tools/memory/refused.sh` runs them with each request for memory refused in turn; they also hold
//! with none refused. Without its tests this crate is empty.
#![tactic(auto)]

#[cfg(test)]
mod tests;
