//! The arguments of the program.

use crate::order::OrderName;

/// What the arguments of the program ask for.
#[derive(Copy, Clone, Debug, PartialEq, Eq)]
pub struct Command {
    /// The byte order of the input.
    pub order: OrderName,
    /// The maximum number of frames to print.
    pub limit: usize,
    /// Whether the input begins with an attribute.
    pub with_attr: bool,
}
