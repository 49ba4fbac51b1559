//! Cases that a hint keeps or drops.

ghost use Rattle.std.specs.Prelude.{◌≡◌, ◌≤◌, ◌++◌, length, IfOk};
ghost use Rattle.std.specs.List.{All};
ghost use Rattle.std.specs.Option.{option_to_list};
ghost use Rattle.sym_state.specs.Cases as rule;
ghost use Rattle.sym_state.specs.References.{shows};
ghost use Rattle.sym_state.specs.WellMade.{HasBounds, IsBounded};
ghost use Rattle.refinements.specs.Given.{Gives, GivesOne};

use bst_meaning::condition::Cond;
use bv_base::memory::NoMemory;
use bv_base::seq::Seq;
use lin_facts::row::Row;
use std::alloc::Global;
use sym_state::demand::EffectFault;
use sym_state::hint::{Hint, Hints};
use sym_state::proof::Proof;
use sym_state::shows::shows;
use sym_state::state::State;

/// The kept ones of two cases, each of which takes a hint.
pub fn weighed_both(
    cond: &Cond,
    first: State,
    second: State,
    hints: &mut Hints<'_>,
) -> Result<Vec<State>, EffectFault>
    requires first { HasBounds first }
    requires second { HasBounds second }
    requires proofs { All rule.HasFewUses hints.old }
    ensures { Gives result hints.new (rule.weighed_both cond.now first second hints.old) }
{
    let alloc = first.alloc();
    let kept = weighed(cond, first, hints)?;
    let other = weighed(cond, second, hints)?;
    Ok(both_kept(alloc, kept, other)?)
}

/// The states that are there.
pub fn both_kept(
    alloc: Global,
    first: Option<State>,
    second: Option<State>,
) -> Result<Vec<State>, NoMemory>
    ensures { IfOk result (λ states. states.items ≡ option_to_list first ++ option_to_list second) }
{
    let mut states = Vec::new(alloc);
    if let Some(state) = first {
        states.push(state)?;
    }
    if let Some(state) = second {
        states.push(state)?;
    }
    Ok(states)
}

/// A case, where the next hint keeps it.
pub fn weighed(
    cond: &Cond,
    state: State,
    hints: &mut Hints<'_>,
) -> Result<Option<State>, EffectFault>
    requires state { HasBounds state }
    requires proofs { All rule.HasFewUses hints.old }
    ensures cases { GivesOne result hints.new (rule.weighed cond.now state hints.old) }
    ensures proofs { IfOk result (λ _. All rule.HasFewUses hints.new) }
{
    match hints.next() {
        None => Err(EffectFault::HintsShort),
        Some(Hint::Keep) => Ok(Some(state)),
        Some(Hint::Drop(proof)) => {
            if refutes(cond, &state, proof)? {
                Ok(None)
            } else {
                Err(EffectFault::NotEntailed(0))
            }
        }
        _ => Err(EffectFault::WrongHint),
    }
}

/// Whether a proof shows that a case can't come about.
fn refutes(cond: &Cond, state: &State, proof: &Proof) -> Result<bool, NoMemory>
    requires state { HasBounds state.now }
    requires proof { length proof.now.uses ≤ 64 }
    ensures { IfOk result (λ shown. shown ≡ shows cond.now state.now proof.now rule.absurdity) }
{
    let alloc = state.alloc();
    shows(alloc, state, cond, proof, &absurdity(alloc))
}

/// The row that never holds: -1 is at least 0.
fn absurdity(alloc: Global) -> Row
    ensures row { result ≡ rule.absurdity }
    ensures bounded { IsBounded result }
{
    Row {
        constant: -1,
        parts: Seq::new(alloc),
    }
}
