//! The entries that a style formats, in one piece of memory, as its run sees them.
#![tactic(auto)]

pub mod entry;
mod numbered_texts;
pub mod packed_entries;
mod row;
