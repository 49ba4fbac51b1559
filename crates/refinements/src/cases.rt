//! The states of cases.

ghost use Rattle.std.specs.Prelude.{◌≡◌, ◌<◌, [], ◌∷◌, true, false, IfOk};
ghost use Rattle.sym_state.specs.Cases as rule;
ghost use Rattle.sym_state.specs.WellMade.{HasBounds};

use bv_base::memory::NoMemory;
use sym_state::demand::EffectFault;
use sym_state::state::State;
use sym_state::symbol::{Fact, Kinds};

/// The states of the cases of a test, or why it can't be taken.
pub type States = Result<Vec<State>, EffectFault>;

/// The one case of a test that is decided.
pub fn decided(answer: bool, rest: State) -> Result<Vec<State>, NoMemory>
    requires { rest.next < 4294967295 }
    ensures { IfOk result (λ states. states.items ≡ rule.with_truth answer rest ∷ []) }
{
    let alloc = rest.alloc();
    let mut states = Vec::new(alloc);
    states.push(with_truth(answer, rest)?)?;
    Ok(states)
}

/// Both cases of a test, with the facts that each adds.
pub fn both(holds: Vec<Fact>, fails: Vec<Fact>, rest: State) -> Result<Vec<State>, NoMemory>
    requires { rest.next < 4294967295 }
    ensures { IfOk result (λ states. states.items
        ≡ rule.with_truth true (rule.with_case holds.items [] rest) ∷ (rule.with_truth false (rule.with_case fails.items [] rest) ∷ [])) }
{
    let alloc = rest.alloc();
    let other = rest.branch()?.with_case(fails, Vec::new(alloc))?;
    let first = rest.with_case(holds, Vec::new(alloc))?;
    let mut states = Vec::new(alloc);
    states.push(with_truth(true, first)?)?;
    states.push(with_truth(false, other)?)?;
    Ok(states)
}

/// A state with the answer of a test on top.
pub fn with_truth(answer: bool, state: State) -> Result<State, NoMemory>
    requires { state.next < 4294967295 }
    ensures after { IfOk result (λ after. after ≡ rule.with_truth answer state) }
    ensures bounds { HasBounds state → IfOk result HasBounds }
{
    let mut after = state;
    let sym = after.fresh(Kinds::Int)?;
    after.add_fact(Fact::Int(sym, number_of(answer)))?;
    after.push(sym)?;
    Ok(after)
}

/// The result of a built-in function that tests.
fn number_of(answer: bool) -> i32
    ensures { result ≡ rule.number_of answer }
{
    if answer { 1 } else { 0 }
}
