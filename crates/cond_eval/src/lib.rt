//! Whether an entry list meets a condition.
#![tactic(auto)]

mod eval;
pub mod unmet;

pub use crate::eval::meets;
