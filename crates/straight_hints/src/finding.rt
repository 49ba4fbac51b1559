//! How hints are found.

/// How hints are found.
#[derive(Clone, Copy, Debug, PartialEq, Eq)]
pub enum Finding {
    /// `plain` at each choice, and `keep` at each case.
    Bare,
    /// A step and a `drop` by the straight proof, where there is one.
    Straight,
}
