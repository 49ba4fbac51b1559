//! The hints for what a built-in function does to a state.

ghost use Rattle.std.specs.Prelude.{◌≡◌, ◌<◌, IfOk};
ghost use Rattle.std.specs.List.{All};
ghost use Rattle.straight_hints.specs.Found as rule;
ghost use Rattle.straight_hints.specs.Given.{Finds, hints_at};
ghost use Rattle.straight_hints.specs.Subjects.{Each, HasBounds, HasFewUses, IsHint};
ghost use Rattle.sym_state.specs.Effects.{rule_of};

use crate::assign::assign;
use crate::at::{At, Found};
use crate::finding::Finding;
use crate::steps::none;
use crate::substring::substring;
use crate::{numbers, texts};
use bst_meaning::condition::Cond;
use bv_base::memory::NoMemory;
use name_table::builtin::Builtin;
use name_table::style::Style;
use sym_state::demand::EffectFault;
use sym_state::hint::Hint;
use sym_state::state::State;

/// The hints for what a built-in function that is neither a test nor enters a function does to a state, in order. Behind a
/// demand that isn't met there is none; a step without a proof stands there with an empty one, by which it fails.
pub fn plain_hints(
    finding: Finding,
    style: &Style,
    state: &State,
    cond: &Cond,
    op: Builtin,
) -> Result<Vec<Hint>, NoMemory>
    requires bounds { HasBounds state.now }
    requires room { state.now.next < 4294967295 }
    ensures found { IfOk result (λ hints. hints.items ≡ rule.plain_hints finding style.now cond.now state.now op) }
    ensures few { IfOk result (λ hints. All HasFewUses hints.items) }
    ensures written { IfOk result (λ hints. Each IsHint hints.items) }
{
    let at = At {
        finding,
        state,
        cond,
    };
    match hints_of(style, &at, op) {
        Ok(hints) => Ok(hints),
        Err(EffectFault::NoMemory) => Err(NoMemory),
        Err(_) => Ok(none(&at)),
    }
}

/// The same, or the demand before all hints that isn't met.
fn hints_of(style: &Style, at: &At<'_>, op: Builtin) -> Found
    requires { HasBounds at.now.state.now }
    ensures { Finds result (hints_at at.now (rule_of style.now at.now.cond.now at.now.state.now op)) }
{
    match op {
        Builtin::Plus => numbers::sum(at, 1),
        Builtin::Minus => numbers::sum(at, -1),
        Builtin::Assign => assign(style, at),
        Builtin::ChrToInt => numbers::chr_to_int(at),
        Builtin::FormatName => texts::format_name(at),
        Builtin::IntToChr => numbers::int_to_chr(at),
        Builtin::NumNames => numbers::num_names(at),
        Builtin::Substring => substring(at),
        Builtin::TextLength => numbers::text_length(at),
        Builtin::Width => numbers::width(at),
        _ => Ok(none(at)),
    }
}
