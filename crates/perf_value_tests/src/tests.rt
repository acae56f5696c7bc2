//! The tests.

mod checks;
mod configurations;
mod copies;
mod cursors;
mod errors;
mod flames;
mod generated_histories;
mod groups;
mod histories;
mod hostile_histories;
mod orders;
mod records;
mod samples;
mod searching;
mod sizes;
mod stacks;
mod using;
mod words;
