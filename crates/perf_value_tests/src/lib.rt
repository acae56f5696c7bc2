//! Tests of what needs no parser: words, records, samples, groups and sizes and their copies, byte
//! orders, configurations, errors, lists that may be borrowed, buffers with their cursors, histories
//! of names and mappings, folded stacks, and flame graphs. Without its tests this crate is empty.
#![tactic(auto)]

#[cfg(test)]
mod tests;
