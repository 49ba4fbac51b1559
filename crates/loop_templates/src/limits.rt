//! Limits on candidates.

/// The most cases that are added to a candidate.
pub const MOST_ADDED: usize = 16;

/// The most symbols on the stack of a case, and the most facts that it keeps: as many as a certificate may have.
pub const MOST_ITEMS: usize = 64;

/// The greatest size of a number of a row, likewise.
pub const ROW_SIZE: u64 = 1_099_511_627_776;

/// The most cases of a candidate, likewise.
pub const MOST_PIECES: usize = 64;

/// The longest stack whose symbols are numbered: behind it memory is wanting.
pub const MOST_SYMBOLS: usize = 2147483648;
