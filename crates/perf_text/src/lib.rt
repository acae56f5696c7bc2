//! What the lines and the arguments of the programs share: a short text that is written backward
//! (`strip`), the names of byte orders (`order`), what arguments ask for (`args`, `command`), what a
//! program prints of itself (`usage`), and how it writes (`output`).
#![tactic(auto)]

pub mod args;
pub mod command;
pub mod hex_bytes;
mod hexadecimal;
pub mod order;
pub mod output;
pub mod strip;
pub mod usage;
