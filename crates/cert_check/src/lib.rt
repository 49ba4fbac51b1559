//! The rules of the checker on units: summaries and calls.
#![tactic(auto)]

mod at;
mod checker;
mod choice;
mod course;
pub mod laws;
pub mod limits;
mod literals;
mod loops;
mod making;
pub mod refusal;
mod scope;
mod summaries;
mod tables;
mod targets;
mod tours;
mod turns;
mod types;
mod units;
mod uses;
mod walk;
mod whiles;

pub use crate::checker::{Called, Checker};
pub use crate::course::{held, placed, refuse};
pub use crate::making::{Loops, Unmade};
pub use crate::tours::{Ended, Tour, Turning};
pub use crate::types::type_functions;
