//! Limits on sequences of candidates.

/// The most candidates of a loop: the first one, and behind it each adds one of at most 16 cases or leaves out one of at most 64 rows of
/// an added case.
pub const MOST_CANDIDATES: u32 = 1041;
