//! Where and why no certificate is found.

use bv_base::place::Place;
use sym_state::demand::Demand;

/// Where no certificate is found for a style, and why.
#[derive(Clone, Copy, Debug, PartialEq, Eq)]
pub struct Unknown {
    /// The token or the command. Beside `NoMemory` it says nothing.
    pub place: Place,
    pub reason: UnknownReason,
}

/// Why no certificate is found.
#[derive(Clone, Copy, Debug, PartialEq, Eq)]
pub enum UnknownReason {
    /// A demand of a built-in function isn't met by what is known, or has no straight proof.
    Demand(Demand),
    /// A `while$`, for which no loop is found.
    Loop,
    /// A token gives more states than a walk may have.
    TooManyCases,
    /// The walk counts more than it may.
    WalkTooLong,
    /// Bodies are walked one in the other more deeply than they may be.
    WalkTooDeep,
    /// What is entered isn't known exactly.
    UnknownFunction,
    /// The rules refuse what was found.
    Rejected,
    /// Want of memory.
    NoMemory,
}
