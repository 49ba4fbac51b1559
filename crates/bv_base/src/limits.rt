//! The limits of texts, each a number of bytes, and those of integers.

/// The most bytes that a style, a certificate or a condition has.
pub const STYLE_BYTES: usize = 4194304;

/// The most bytes that an `.aux` or a `.bib` file has.
pub const DATA_BYTES: usize = 16777216;

/// The greatest integer of a style: those of 32 bits are this one, the negative of the next, and all between.
pub const GREATEST_INTEGER: u32 = 2147483647;

/// The most bytes that texts in one piece of memory have together.
pub const PACKED_BYTES: u32 = 2147483647;

/// Where the count of a number's digits stops: greater than every number that a text may have.
pub const WIDEST_NUMBER: u64 = 2199023255552;
