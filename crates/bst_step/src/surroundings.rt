//! What surrounds a call of a built-in function.

use entry_store::entry::Entry;
use name_table::style::Style;
use std::alloc::Global;

/// What surrounds a call of a built-in function.
#[derive(Drop)]
pub struct Surroundings<'a> {
    pub alloc: Global,
    pub style: &'a Style,
    /// The database's preamble.
    pub preamble: &'a [u8],
    /// The visited entry, if one is visited.
    pub entry: Option<Entry<'a>>,
}
