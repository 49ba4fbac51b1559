//! The built-in functions that only move or drop values.

ghost use Rattle.sym_state.specs.declared.hint.Hint.{Hint};
ghost use Rattle.sym_state.specs.declared.symbol.Kinds.TheVariants.{Any};
ghost use Rattle.sym_state.specs.Demands.{Gives as Given, Demands, OneOperand, TwoOperands};
ghost use Rattle.sym_state.specs.declared.demand.DemandKind.TheVariants.{WholeStack};
ghost use Rattle.std.specs.Prelude.{[], List};
ghost use Rattle.sym_state.specs.Effects as rule;
ghost use Rattle.sym_state.specs.Results.{with_top};
ghost use Rattle.builtin_effects.specs.Given.{Gives, outcome_at};

use crate::at::At;
use sym_state::demand::{DemandKind, EffectFault};
use sym_state::operands::{demand, one, two};
use sym_state::state::State;
use sym_state::symbol::Kinds;

/// `duplicate$`
pub fn duplicate(at: &At<'_>) -> Result<State, EffectFault>
    ensures { (hints : List Hint) → Gives result hints (outcome_at at.now (OneOperand Any (λ a rest. Given (with_top a at.now.state.now))) hints) }
{
    let a = one(at.state, Kinds::Any)?;
    let mut after = at.state.branch()?;
    after.push(a)?;
    Ok(after)
}

/// `pop$`, and `top$`, which logs what it takes.
pub fn pop(at: &At<'_>) -> Result<State, EffectFault>
    ensures { (hints : List Hint) → Gives result hints (outcome_at at.now rule.taken hints) }
{
    one(at.state, Kinds::Any)?;
    Ok(at.state.without(1)?)
}

/// `write$` and `warning$`
pub fn pop_string(at: &At<'_>) -> Result<State, EffectFault>
    ensures { (hints : List Hint) → Gives result hints (outcome_at at.now rule.string_taken hints) }
{
    one(at.state, Kinds::Str)?;
    Ok(at.state.without(1)?)
}

/// `swap$`
pub fn swap(at: &At<'_>) -> Result<State, EffectFault>
    ensures { (hints : List Hint) → Gives result hints (outcome_at at.now (TwoOperands Any Any (λ a b rest. Given (with_top a (with_top b rest)))) hints) }
{
    let (a, b) = two(at.state, Kinds::Any, Kinds::Any)?;
    let mut after = at.state.without(2)?;
    after.push(b)?;
    after.push(a)?;
    Ok(after)
}

/// `newline$` and `skip$`
pub fn same(at: &At<'_>) -> Result<State, EffectFault>
    ensures { (hints : List Hint) → Gives result hints (outcome_at at.now (Given at.now.state.now) hints) }
{
    Ok(at.state.branch()?)
}

/// `stack$`
pub fn log_stack(at: &At<'_>) -> Result<State, EffectFault>
    ensures { (hints : List Hint) → Gives result hints (outcome_at at.now (Demands at.now.state.now.whole WholeStack 0 (Given (record at.now.state.now { stack = [] }))) hints) }
{
    demand(at.state.is_whole(), DemandKind::WholeStack, 0)?;
    Ok(at.state.emptied()?)
}
