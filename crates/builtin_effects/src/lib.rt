//! The effects of the built-in functions on symbolic states (docs/EFFECTS.md).
#![tactic(auto)]

mod assign;
mod at;
pub mod effect;
mod laws;
mod moves;
mod numbers;
mod results;
mod steps;
mod substring;
mod surroundings;
mod texts;

pub use crate::laws::{
    effects_cover, effects_keep, effects_leave_the_last_hints, effects_leave_the_rest,
};
