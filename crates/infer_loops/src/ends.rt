//! The states that came to the ends of turns.

ghost use Rattle.std.specs.Prelude.{◌≡◌, IfOk};
ghost use Rattle.infer_loops.specs.Invariants as rule;

use bv_base::memory::NoMemory;
use cert_check::Ended;
use std::alloc::Global;
use sym_state::state::State;

/// The states behind turns, or those that leave.
pub(crate) fn ended_states(
    alloc: Global,
    turned: bool,
    ends: &[Ended],
) -> Result<Vec<State>, NoMemory>
    ensures { IfOk result (λ states. states.items ≡ rule.ended_states turned ends.now) }
{
    let mut states = Vec::new(alloc);
    for end in ends {
        if is_behind(turned, end) {
            states.push(end.state.branch()?)?;
        }
    }
    Ok(states)
}

/// Whether a state is behind a turn, or leaves.
fn is_behind(turned: bool, end: &Ended) -> bool
    ensures { result ≡ rule.is_behind turned end.now }
{
    if turned { end.turned } else { !end.turned }
}
