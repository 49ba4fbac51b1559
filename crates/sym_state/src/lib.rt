//! Symbolic states of the checker: what is known of a configuration of the machine, what that says of it, and the
//! calls that start, change and compare states.
#![tactic(auto)]

mod bindings;
mod by_hints;
pub mod demand;
pub mod entails;
mod facts;
pub mod hint;
mod laws;
mod matching;
pub mod operands;
pub mod piece;
pub mod proof;
mod raising;
pub mod references;
pub mod results;
mod shared_list;
pub mod shows;
pub mod start;
pub mod state;
pub mod symbol;
pub mod test;

pub use crate::by_hints::shown_by;
pub use crate::facts::subject;
pub use crate::laws::{
    blank_as_the_machine_has_it, entailed_pieces_hold, frames_are_free, known_kinds_hold,
    pushes_cover, pushes_keep, rows_move, shown_pieces_hold, shown_rows_hold, started_states_are_well_made,
    started_states_stand, values_as_the_machine_reads_them,
};
pub use crate::matching::Matching;
pub use crate::raising::symbols_of;
