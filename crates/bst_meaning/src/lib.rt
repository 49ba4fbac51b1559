//! What a style means: what it has at a number, the values that the machine computes with, the entries that it visits,
//! conditions on them, the faults of a run, and, in `specs/`, the machine itself and what it is for a style to be safe.
#![tactic(auto)]

pub mod condition;
pub mod fault;
pub mod laws;
pub mod style_parts;
pub mod value;
