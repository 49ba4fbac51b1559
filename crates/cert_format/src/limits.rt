//! The limits of the lines of certificates and conditions: how many may be listed, and how great a number may be.

/// The greatest number of a list of errors.
pub const MOST_LIST: u32 = 1;

/// The most summaries of a certificate, and the most loops.
pub const MOST_UNITS: usize = 65536;

/// The most entries that a condition may ask for.
pub const MOST_ENTRIES: u32 = 1_000_000;

/// The most pieces of a unit.
pub const MOST_PIECES: u32 = 64;

/// The most symbols of a stack, facts and rows of a piece, and uses of a proof.
pub const MOST_ITEMS: usize = 64;

/// The most terms of a row.
pub const MOST_TERMS: usize = 32;

/// The greatest other number of a condition, of a unit and of a hint.
pub const MOST: u32 = 1_073_741_824;
