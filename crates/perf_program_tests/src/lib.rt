//! Tests of what the small programs print and count. Without its tests this crate is empty.
#![tactic(auto)]

#[cfg(test)]
mod tests;
