//! How a call ends, as a number.

/// As many frames as there is space for were read, accepted or refused.
pub const LIMIT: u32 = 0;

/// No byte is left where a header would begin.
pub const DONE: u32 = 1;

/// One to seven bytes are left where a header would begin.
pub const CUT_HEADER: u32 = 2;

/// A frame in two pieces is longer than the space to which it would be copied.
pub const SMALL_SCRATCH: u32 = 3;

/// Nothing was read: the configuration is of another version, or names no byte order.
pub const NOT_READ: u32 = 4;

/// Nothing was read: the body is longer than that of any frame.
pub const LONG_BODY: u32 = 5;
