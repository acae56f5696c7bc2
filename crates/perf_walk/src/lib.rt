//! The frames of a recording in turn, each with what is known of threads and memory by then.
#![tactic(auto)]

mod calls;
mod changing;
mod filtering;
mod parts;
mod sampling;
mod times;
mod walk;

pub use calls::{Call, push_calls, push_chain};
pub use changing::change_in;
pub use filtering::Filter;
pub use parts::bytes_at;
pub use sampling::{Sample, sample_in};
pub use times::nanoseconds;
pub use walk::{Found, Walk};
