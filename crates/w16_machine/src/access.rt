//! The bounds of far accesses.

/// The most bytes that a `Read` answers.
pub const MOST_READ: usize = 1024;

/// The most bytes that a `Fill` fills.
pub const MOST_FILLED: u32 = 65_536;
