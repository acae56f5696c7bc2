//! The base of every crate of the port: byte orders, errors, byte strings that may be borrowed, the
//! configuration and the header of a record. Its `specs/` are the model of a layout that the
//! contracts of all other crates cite.
#![tactic(auto)]

pub mod config;
pub mod cow;
pub mod endian;
pub mod error;
pub mod laws;
pub mod reads;
pub mod refusal;
pub mod sys;

pub use config::ParseConfig;
pub use cow::CowSlice;
pub use endian::Endian;
pub use error::{ErrorKind, ParseError, ParseResult};
pub use reads::ReadCounter;
pub use refusal::{Kept, ReadResult, Refusal};
