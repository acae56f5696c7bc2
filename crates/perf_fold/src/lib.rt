//! The folded stacks of a recording, the sums of texts of folded stacks, and what the program `perf_data`
//! writes of both.
#![tactic(auto)]

mod error;
mod folding;
mod form;
mod labels;
pub mod laws;
mod run;
mod stack;
mod texts;
mod writing;

pub use error::{FoldError, TextError};
pub use folding::{Choice, Weight, fold};
pub use form::{Form, text_of};
pub use run::{status_after, write_fold};
pub use texts::read_texts;
pub use writing::{status_after_sum, write_folded, write_sum};
