//! The hints of a certificate that are found token by token: straight ones, and those of a bare certificate.
#![tactic(auto)]

mod assign;
mod at;
mod cases;
mod finding;
mod laws;
mod numbers;
mod pieces;
mod plain;
mod steps;
mod substring;
mod texts;

pub use crate::cases::{above_hints, test_hints};
pub use crate::finding::Finding;
pub use crate::laws::found_hints_are_short;
pub use crate::pieces::piece_hints;
pub use crate::plain::plain_hints;
