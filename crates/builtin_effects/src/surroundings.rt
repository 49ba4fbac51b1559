//! The built-in functions that push something of the surroundings, or a constant.

ghost use Rattle.sym_state.specs.declared.hint.Hint.{Hint};
ghost use Rattle.std.specs.Prelude.{◌<◌, ◌∷◌, [], codes, List};
ghost use Rattle.sym_state.specs.declared.symbol.Fact.TheVariants.{Text as TextFact};
ghost use Rattle.sym_state.specs.declared.symbol.Kinds.TheVariants.{Str};
ghost use Rattle.sym_state.specs.Demands.{Gives as Given};
ghost use Rattle.sym_state.specs.Effects as rule;
ghost use Rattle.sym_state.specs.Results.{next_of, with_result};
ghost use Rattle.builtin_effects.specs.Given.{Gives, outcome_at};

use crate::at::At;
use crate::results::{Said, with_result};
use bv_base::text::Text;
use lin_facts::row::Term;
use sym_state::demand::{DemandKind, EffectFault};
use sym_state::operands::demand;
use sym_state::references::at_most;
use sym_state::state::State;
use sym_state::symbol::{Fact, Kinds, Sym};

/// `cite$`
pub fn cite(at: &At<'_>) -> Result<State, EffectFault>
    requires { at.now.state.now.next < 4294967295 }
    ensures { (hints : List Hint) → Gives result hints (outcome_at at.now (rule.at_entry at.now.state.now (rule.limited at.now.cond.now.key at.now.state.now)) hints) }
{
    demand(at.state.is_at_entry(), DemandKind::NoEntry, 0)?;
    limited(at, at.cond.key)
}

/// `preamble$`
pub fn preamble(at: &At<'_>) -> Result<State, EffectFault>
    requires { at.now.state.now.next < 4294967295 }
    ensures { (hints : List Hint) → Gives result hints (outcome_at at.now (rule.limited at.now.cond.now.preamble at.now.state.now) hints) }
{
    limited(at, at.cond.preamble)
}

/// A new string that is no longer than the condition says.
fn limited(at: &At<'_>, limit: u32) -> Result<State, EffectFault>
    requires { at.now.state.now.next < 4294967295 }
    ensures { (hints : List Hint) → Gives result hints (outcome_at at.now (rule.limited limit at.now.state.now) hints) }
{
    let row = at_most(
        at.state.alloc(),
        Term::Length(at.state.next()),
        limit as i64,
    )?;
    Ok(with_result(at.state, 0, Kinds::Str, Said::row(Some(row)))?)
}

/// `type$`
pub fn type_name(at: &At<'_>) -> Result<State, EffectFault>
    requires { at.now.state.now.next < 4294967295 }
    ensures { (hints : List Hint) → Gives result hints (outcome_at at.now (rule.at_entry at.now.state.now (Given (with_result Str [] [] at.now.state.now))) hints) }
{
    demand(at.state.is_at_entry(), DemandKind::NoEntry, 0)?;
    Ok(with_result(at.state, 0, Kinds::Str, Said::row(None))?)
}

/// `quote$`
pub fn quote(at: &At<'_>) -> Result<State, EffectFault>
    requires { at.now.state.now.next < 4294967295 }
    ensures { (hints : List Hint) → Gives result hints (outcome_at at.now (Given (with_result Str (TextFact (next_of at.now.state.now) (codes "\"") ∷ []) [] at.now.state.now)) hints) }
{
    let text = Text::from_slice(at.state.alloc(), b"\"")?;
    let said = Said::fact(Fact::Text(Sym(at.state.next()), text));
    Ok(with_result(at.state, 0, Kinds::Str, said)?)
}
