//! Tests of a parser's own calls, of reads of counters and of sample ids that are no row of a list
//! (`perf_replay` reads those), of flat frames, of the capacity of a run's list, and of runs of
//! `perfrec`, also over readers, writers and byte orders that fail. Without its tests this crate is
//! empty.
#![tactic(auto)]

#[cfg(test)]
mod tests;
