//! `format.name$`.

ghost use Rattle.straight_hints.specs.Given.{Finds, hints_at};
ghost use Rattle.straight_hints.specs.Subjects.{HasBounds};
ghost use Rattle.sym_state.specs.Effects as rule;

use crate::at::{At, Found};
use crate::steps::both_steps;
use lin_facts::row::Term;
use sym_state::operands::three;
use sym_state::references::{at_least, exceeds};
use sym_state::symbol::Kinds;

/// `format.name$`
pub fn format_name(at: &At<'_>) -> Found
    requires { HasBounds at.now.state.now }
    ensures { Finds result (hints_at at.now (rule.format_name at.now.state.now)) }
{
    let (s, i, _) = three(at.state, Kinds::Str, Kinds::Int, Kinds::Str)?;
    let alloc = at.state.alloc();
    let number = Term::Value(i.0);
    let low = at_least(alloc, number, 1)?;
    let high = exceeds(alloc, Term::Names(s.0), number, 0)?;
    Ok(both_steps(at, &low, &high)?)
}
