//! The list of entries of a run: what is cited, joined with what the databases hold.
#![tactic(auto)]

mod chosen;
mod citing;
mod entry_table;
mod fields;
pub mod join;
pub mod joined;
pub mod laws;
mod listed;
mod parents;
mod sources;
mod warnings;
