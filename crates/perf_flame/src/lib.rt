//! Folded stacks, their sums, and a flame graph of them: what tools for flame graphs read, and what
//! they draw. A stack is the name of a command and those of the functions from the outermost to the
//! innermost, with `;` between them. That of a sample has the name of its thread, and a name for each
//! address of its call chain.
#![tactic(auto)]

mod boxes;
pub mod error;
pub mod flame;
pub mod folded;
mod kept;
mod keys;
pub mod laws;
pub mod names;
pub mod reading;
pub mod stack;
pub mod stacks;
mod svg;
pub mod tally;
