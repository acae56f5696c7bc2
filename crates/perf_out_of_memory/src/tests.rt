//! The tests.

mod page;
mod reports;
mod requests;
mod runs;
mod slices;
