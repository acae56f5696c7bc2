//! Texts of samples, as `perf script` printed them. Without its tests this crate is empty.
#![tactic(auto)]

#[cfg(test)]
mod tests;
