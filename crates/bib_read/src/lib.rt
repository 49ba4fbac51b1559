//! The reader of `.bib` files: macros, entries and the preamble, with the warnings that reading them gives.
#![tactic(auto)]

pub mod database;
pub mod entries;
pub mod fault;
mod fields;
mod key_places;
pub mod laws;
mod macros;
mod opening;
mod packed_entries;
mod packed_fields;
pub mod raw_entry;
pub mod raw_fields;
pub mod read;
mod reader;
mod row;
mod runs;
mod squeeze;
mod stop;
mod values;
mod warnings;
