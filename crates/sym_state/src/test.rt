//! Tests on which the walk splits a state.

use crate::symbol::Sym;

/// A test of a built-in function, or whether the integer of a symbol is above 0.
#[derive(Clone, Copy, Debug, PartialEq, Eq)]
pub enum Test {
    /// `empty$`.
    Empty,
    /// `missing$`.
    Missing,
    /// `=`.
    Equal,
    /// `<`.
    Less,
    /// `>`.
    Greater,
    /// The integer is above 0, as `if$` and `while$` ask.
    Above(Sym),
}
