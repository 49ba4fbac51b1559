//! What a search for a straight proof knows.

use bst_meaning::condition::Cond;
use lin_facts::row::Row;
use std::alloc::Global;
use sym_state::state::State;

/// The state and the condition of a search, with the rows of the state that references can name.
#[derive(Drop)]
pub(crate) struct Known<'a> {
    pub alloc: Global,
    pub state: &'a State,
    pub cond: &'a Cond,
    pub rows: Vec<Row>,
}
