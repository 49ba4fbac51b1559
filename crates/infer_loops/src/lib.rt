//! Invariants of loops that are found (docs/ANALYSER.md, "Loops").
#![tactic(auto)]

mod ends;
mod frames;
pub mod laws;
pub mod limits;
mod loops;
mod making;
mod sequence;
mod turns;

pub use crate::making::Invariants;
pub use crate::sequence::invariant;
