//! The tests.

mod bodies;
mod cases;
mod checks;
mod closures;
mod orders;
mod own_types;
mod partial_visits;
mod values;
mod visits;
