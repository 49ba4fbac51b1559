//! The limits of walks.

/// The most states that one token gives.
pub const MOST_CASES: usize = 256;

/// The most that the walk of one unit counts: one for each token that is taken from a state, for each name that a command,
/// `if$` or `call.type$` enters, and for each variable that a summary may write where it is used.
pub const MOST_COUNT: u32 = 1000000;

/// The most bodies that are walked one in the other, the unit's own included.
pub const MOST_DEPTH: u32 = 256;

/// The most loops of a certificate.
pub const MOST_LOOPS: usize = 65536;
