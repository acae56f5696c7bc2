//! Samples, their sample ids and their registers, as plain values.
#![tactic(auto)]

mod branches;
pub mod laws;
pub mod layout;
pub mod registers;
pub mod sample;
pub mod sample_boxed;
mod sample_clone;
mod sample_field;
pub mod sample_fields;
mod sample_groups;
pub mod sample_id;
mod sample_made;
mod sample_parts;
mod sample_row;
