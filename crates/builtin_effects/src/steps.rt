//! Steps of hints (docs/EFFECTS.md, "Steps").

ghost use Rattle.std.specs.Prelude.{◌≡◌, ◌≢◌, List, Err, if◌then◌else◌, MatchResult};
ghost use Rattle.sym_state.specs.declared.demand.EffectFault.TheVariants.{NoMemory as WantOfMemory};
ghost use Rattle.sym_state.specs.declared.hint.Hint.{Hint};
ghost use Rattle.sym_state.specs.Demands as rule;
ghost use Rattle.sym_state.specs.Demands.{Outcome, HasFewUses, IsReady};
ghost use Rattle.sym_state.specs.WellMade.{HasBounds, IsBounded};

use crate::at::At;
use lin_facts::row::Row;
use sym_state::demand::EffectFault;
use sym_state::hint::{Hint, Hints};
use sym_state::shows::shows;

/// Takes two steps for one demand.
pub fn both_steps(
    at: &At<'_>,
    first: &Row,
    second: &Row,
    fault: EffectFault,
    hints: &mut Hints<'_>,
) -> Result<(), EffectFault>
    requires ready { IsReady at.now.state.now hints.old }
    requires first { IsBounded first.now }
    requires second { IsBounded second.now }
    ensures { MatchResult result
        (λ _. (next : List Hint → Outcome)
        → rule.two_steps at.now.cond.now at.now.state.now first.now second.now fault hints.old next ≡ next hints.new)
        (λ f. f ≢ WantOfMemory → (next : List Hint → Outcome)
        → rule.two_steps at.now.cond.now at.now.state.now first.now second.now fault hints.old next ≡ Err f) }
{
    step(at, first, fault, hints)?;
    step(at, second, fault, hints)
}

/// Takes a step that shows a row; where it doesn't, this is the fault.
pub fn step(
    at: &At<'_>,
    row: &Row,
    fault: EffectFault,
    hints: &mut Hints<'_>,
) -> Result<(), EffectFault>
    requires row { IsBounded row.now }
    requires ready { IsReady at.now.state.now hints.old }
    ensures ready { IsReady at.now.state.now hints.new }
    ensures taken { MatchResult result
        (λ _. (next : List Hint → Outcome) → rule.step at.now.cond.now at.now.state.now row.now fault hints.old next ≡ next hints.new)
        (λ f. f ≢ WantOfMemory → (next : List Hint → Outcome) → rule.step at.now.cond.now at.now.state.now row.now fault hints.old next ≡ Err f) }
{
    match hints.next_short() {
        Some(hint) => step_by(at, row, fault, hint),
        None => Err(EffectFault::HintsShort),
    }
}

/// Whether a hint is a step that shows a row; where it doesn't, this is the fault.
fn step_by(at: &At<'_>, row: &Row, fault: EffectFault, hint: &Hint) -> Result<(), EffectFault>
    requires state { HasBounds at.now.state.now }
    requires row { IsBounded row.now }
    requires hint { HasFewUses hint.now }
    ensures { MatchResult result
        (λ _. (left : List Hint) (next : List Hint → Outcome) → rule.step_by at.now.cond.now at.now.state.now row.now fault hint.now left next ≡ next left)
        (λ f. f ≢ WantOfMemory → (left : List Hint) (next : List Hint → Outcome)
        → rule.step_by at.now.cond.now at.now.state.now row.now fault hint.now left next ≡ Err f) }
{
    match hint {
        Hint::Step(proof) => {
            if shows(at.state.alloc(), at.state, at.cond, proof, row)? {
                Ok(())
            } else {
                Err(fault)
            }
        }
        _ => Err(EffectFault::WrongHint),
    }
}

/// Takes `plain`, or a step that shows a row where one is wanted, and says whether it took the step.
pub fn choice(
    at: &At<'_>,
    wanted: bool,
    row: &Row,
    hints: &mut Hints<'_>,
) -> Result<bool, EffectFault>
    requires row { IsBounded row.now }
    requires ready { IsReady at.now.state.now hints.old }
    ensures taken { MatchResult result
        (λ by_step. (first second : List Hint → Outcome) → rule.choice at.now.cond.now at.now.state.now wanted row.now hints.old first second
        ≡ (if by_step then first hints.new else second hints.new))
        (λ f. f ≢ WantOfMemory → (first second : List Hint → Outcome)
        → rule.choice at.now.cond.now at.now.state.now wanted row.now hints.old first second ≡ Err f) }
{
    match hints.next_short() {
        Some(hint) => choice_by(at, wanted, row, hint),
        None => Err(EffectFault::HintsShort),
    }
}

/// Whether a hint is a step that shows a row where one is wanted, or else `plain`.
fn choice_by(at: &At<'_>, wanted: bool, row: &Row, hint: &Hint) -> Result<bool, EffectFault>
    requires state { HasBounds at.now.state.now }
    requires row { IsBounded row.now }
    requires hint { HasFewUses hint.now }
    ensures { MatchResult result
        (λ by_step. (left : List Hint) (first second : List Hint → Outcome)
        → rule.choice_by at.now.cond.now at.now.state.now wanted row.now hint.now left first second
        ≡ (if by_step then first left else second left))
        (λ f. f ≢ WantOfMemory → (left : List Hint) (first second : List Hint → Outcome)
        → rule.choice_by at.now.cond.now at.now.state.now wanted row.now hint.now left first second ≡ Err f) }
{
    match hint {
        Hint::Step(proof) => {
            if !wanted {
                return Err(EffectFault::WrongHint);
            }
            if shows(at.state.alloc(), at.state, at.cond, proof, row)? {
                Ok(true)
            } else {
                Err(EffectFault::NotEntailed(0))
            }
        }
        Hint::Plain => Ok(false),
        _ => Err(EffectFault::WrongHint),
    }
}
