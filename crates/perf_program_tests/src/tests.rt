//! The tests.

mod checks;
mod counts;
mod lines;
mod printing;
