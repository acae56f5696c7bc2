//! Files that open, and files that are refused, computed by hand from the format of `perf.data`; a walk
//! through a recording that was made by hand, its folded stacks, and call chains. Without its tests this
//! crate is empty.
#![tactic(auto)]

#[cfg(test)]
mod tests;
