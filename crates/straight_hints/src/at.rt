//! Where hints are looked for.

use crate::finding::Finding;
use bst_meaning::condition::Cond;
use sym_state::demand::EffectFault;
use sym_state::hint::Hint;
use sym_state::state::State;

/// How hints are found, the state that they are for, and the condition on entries.
#[derive(Clone, Copy)]
pub struct At<'a> {
    pub finding: Finding,
    pub state: &'a State,
    pub cond: &'a Cond,
}

/// The hints that are found, or the demand before all of them that isn't met.
pub type Found = Result<Vec<Hint>, EffectFault>;
