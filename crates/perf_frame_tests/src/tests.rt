//! The tests.

mod causes;
mod checks;
mod faults;
mod generated;
mod hints;
mod sample_counts;
mod streams;
mod whole_frames;
