//! Straight proofs: proofs of rows that are found without a search over summaries or loops.
#![tactic(auto)]

mod asked;
mod floors;
mod known;
pub mod laws;
mod learnt;
mod lookup;
mod on_term;
mod remainders;
mod remembered;
mod search;
mod straight;
mod with_term;

pub use crate::asked::Search;
pub use crate::floors::floor;
pub use crate::on_term::rows_on;
pub use crate::straight::{MOST_REFERENCES, drop_proof, straight_proof};
