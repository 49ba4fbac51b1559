//! Names: those of a text, as slices of it, and the parts of one, as slices of it.
#![tactic(auto)]

mod bytes;
mod commas;
pub mod front;
pub mod laws;
mod low;
pub mod names;
pub mod parts;
pub mod pattern;
pub mod spans;
mod survey;
pub mod tokens;
