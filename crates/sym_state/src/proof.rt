//! Proofs of rows by what a state knows.

use crate::symbol::Sym;
use bv_base::seq::Seq;

/// A row that a state gives (docs/STATES.md, "References").
#[derive(Clone, Copy, Debug, PartialEq, Eq)]
pub enum Reference {
    /// A row of the state, by its number from 0.
    Row(u32),
    /// An integer is at least -2147483648.
    ValueLow(Sym),
    /// An integer is at most 2147483647.
    ValueHigh(Sym),
    /// A length is at least 0.
    LengthLow(Sym),
    /// A count of names is at least 0.
    NamesLow(Sym),
    /// A string has no more names than bytes.
    NamesHigh(Sym),
    /// An exact integer is at least itself.
    ExactLow(Sym),
    /// An exact integer is at most itself.
    ExactHigh(Sym),
    /// A string that isn't blank has at least one byte.
    NonblankLength(Sym),
    /// A string that isn't blank has at least one name.
    NonblankNames(Sym),
    /// The length of an exact text is at least what it is.
    TextLow(Sym),
    /// The length of an exact text is at most what it is.
    TextHigh(Sym),
    /// The number of entries visited before is at least 0.
    PosLow,
    /// The number of entries visited before is below the number of entries.
    PosHigh,
    /// The number of entries is at least 0.
    CountLow,
    /// The number of entries is at most what the condition says.
    CountHigh,
}

/// A row that is used, and how often.
#[derive(Clone, Copy, Debug, PartialEq, Eq)]
pub struct Use {
    pub reference: Reference,
    pub times: u32,
}

/// Rows that are added up, and the number that their sum is divided by.
#[derive(Debug, Drop)]
pub struct Proof {
    pub divisor: u32,
    pub uses: Seq<Use>,
}
