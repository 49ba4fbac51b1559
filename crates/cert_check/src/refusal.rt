//! Why a certificate isn't accepted (docs/CHECKER.md, "Refusals").

use bv_base::place::Place;
use sym_state::demand::Demand;

/// The rule that fails.
#[derive(Clone, Copy, Debug, PartialEq, Eq)]
pub enum Reason {
    /// A token's demand isn't met.
    Demand(Demand),
    /// A line of a piece, by its number from 1, isn't shown; 0 for what comes before the lines.
    NotEntailed(u32),
    /// The hint uses no summary of what is entered.
    NoSummary,
    /// The hint uses no loop of the two functions.
    NoInvariant,
    /// It isn't known which function is entered.
    UnknownFunction,
    /// A hint is left where a unit ends.
    HintsLeft,
    /// No hint is left where one is taken.
    HintsShort,
    /// A token gives more than [`MOST_CASES`] states.
    ///
    /// [`MOST_CASES`]: crate::limits::MOST_CASES
    TooManyCases,
    /// Want of memory.
    NoMemory,
    /// The record of a command doesn't fit the command.
    CommandShape,
    /// The walk of a unit counts more than [`MOST_COUNT`].
    ///
    /// [`MOST_COUNT`]: crate::limits::MOST_COUNT
    WalkTooLong,
    /// More than [`MOST_DEPTH`] bodies are walked one in the other.
    ///
    /// [`MOST_DEPTH`]: crate::limits::MOST_DEPTH
    WalkTooDeep,
    /// The hint is none of those that are taken there.
    WrongHint,
}

/// The first rule that fails, with its place in the style.
#[derive(Clone, Copy, Debug, PartialEq, Eq)]
pub struct Refusal {
    pub place: Place,
    pub reason: Reason,
}

/// A walk comes to its end, or a rule fails on it.
pub type Walk = Result<(), Refusal>;
