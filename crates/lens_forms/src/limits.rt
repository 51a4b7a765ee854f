//! How large a definition may be.

/// The most parts that a definition may have, names expanded.
pub const MOST_PARTS: usize = 4096;

/// The greatest height of a lens, of a type written in it, and of the type of a side.
pub const GREATEST_HEIGHT: u32 = 32;
