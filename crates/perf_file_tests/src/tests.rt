//! The tests.

mod chains;
mod changed;
mod checks;
mod features;
mod files;
mod folds;
mod many;
mod names;
mod opened;
mod pipes;
mod recording;
mod refused;
mod walks;
