//! Templates of loops: what a loop's cases can say, by the states that enter it and those behind its turns.
#![tactic(auto)]

mod candidates;
mod cases;
mod claims;
mod copies;
mod facts;
mod hints;
mod in_order;
mod in_piece;
mod laws;
pub mod limits;
mod lowering;
mod names;
mod places;
mod reaching;
mod roots;
mod rows;
mod signed_sums;
pub mod skeletons;
mod terms;
mod visits;

pub use crate::candidates::{Added, Candidate, Next, exits_of, first_candidate, next_after};
pub use crate::cases::{Bound, Frame};
pub use crate::hints::{entailing, entailing_one};
pub use crate::laws::{entailing_hints_are_short, sums_have_values};
pub use crate::reaching::{Occurrences, is_marked, occurring, occurring_anywhere};
pub use crate::roots::{push_roots, quoted_variables};
pub use crate::rows::rows_over;
pub use crate::signed_sums::sums;
pub use crate::terms::{command_terms, terms_over};
pub use crate::visits::{common_case, rows_left};
