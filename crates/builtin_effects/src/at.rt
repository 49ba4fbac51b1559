//! Where an effect is asked for.

use bst_meaning::condition::Cond;
use sym_state::demand::EffectFault;
use sym_state::state::State;

/// The state that an effect is of, and the condition on entries.
#[derive(Clone, Copy)]
pub struct At<'a> {
    pub state: &'a State,
    pub cond: &'a Cond,
}

/// What comes of an effect: the state after it, or why it can't be taken.
pub type Outcome = Result<State, EffectFault>;
