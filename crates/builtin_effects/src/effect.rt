//! The effect of a built-in function.

ghost use Rattle.std.specs.Prelude.{◌≡◌, ◌≢◌, ◌<◌, ◌≤◌, ◌^◌, true, Ok, Err, OnErr, IfOk, IfErr};
ghost use Rattle.std.specs.List.{All};
ghost use Rattle.sym_state.specs.declared.demand.EffectFault.TheVariants.{NoMemory as WantOfMemory};
ghost use Rattle.sym_state.specs.Demands.{HasFewUses, IsReady};
ghost use Rattle.sym_state.specs.Effects.{effect_of, is_plain, rule_of};
ghost use Rattle.sym_state.specs.WellMade.{HasBounds, WellMade};
ghost use Rattle.builtin_effects.specs.Given.{Gives, outcome_at};

use crate::assign::assign;
use crate::at::At;
use crate::substring::substring;
use crate::{moves, numbers, surroundings, texts};
use bst_meaning::condition::Cond;
use name_table::builtin::Builtin;
use name_table::style::Style;
use sym_state::demand::{DemandKind, EffectFault};
use sym_state::hint::Hints;
use sym_state::state::State;

/// What a built-in function gives of a state, or the first demand that isn't met, or why its hints don't serve. After a
/// fault the cursor stands where it stood. The tests, and what enters a function, have no effect of this kind.
pub fn effect(
    style: &Style,
    state: &State,
    cond: &Cond,
    op: Builtin,
    hints: &mut Hints<'_>,
) -> Result<State, EffectFault>
    requires bounds { HasBounds state.now }
    requires next { state.now.next < 4294967295 }
    requires plain { is_plain op ≡ true }
    requires hints { All HasFewUses hints.old }
    ensures ok { IfOk result (λ after. effect_of style.now cond.now state.now op hints.old ≡ Ok (record { state = after; hints = hints.new })) }
    ensures fault { IfErr result (λ fault. fault ≢ WantOfMemory → effect_of style.now cond.now state.now op hints.old ≡ Err fault) }
    ensures cursor { OnErr result (hints.new ≡ hints.old) }
    ensures few { All HasFewUses hints.new }
    ensures kept { IfOk result (λ after. WellMade style.now state.now → WellMade style.now after) }
{
    // For the proof of `kept`, which has no range of a field behind a reference: nothing is done.
    limits_are_small(cond.key, cond.preamble);
    let mut left = Hints::new(hints.rest());
    let after = effect_by(style, &At { state, cond }, op, &mut left)?;
    *hints = left;
    Ok(after)
}

/// The limits of a condition are within the bounds of rows.
fn limits_are_small(key: u32, preamble: u32)
    ensures key { key ≤ 2 ^ 45 }
    ensures preamble { preamble ≤ 2 ^ 45 }
{}

/// The same, with a cursor that may have moved after a fault.
fn effect_by(
    style: &Style,
    at: &At<'_>,
    op: Builtin,
    hints: &mut Hints<'_>,
) -> Result<State, EffectFault>
    requires { IsReady at.now.state.now hints.old }
    ensures { Gives result hints.new (outcome_at at.now (rule_of style.now at.now.cond.now at.now.state.now op) hints.old) }
{
    match op {
        Builtin::Plus => numbers::plus(at, hints),
        Builtin::Minus => numbers::minus(at, hints),
        Builtin::Join => texts::join(at),
        Builtin::Assign => assign(style, at, hints),
        Builtin::AddPeriod => texts::add_period(at),
        Builtin::ChangeCase => texts::change_case(at),
        Builtin::ChrToInt => numbers::chr_to_int(at, hints),
        Builtin::Cite => surroundings::cite(at),
        Builtin::Duplicate => moves::duplicate(at),
        Builtin::FormatName => texts::format_name(at, hints),
        Builtin::IntToChr => numbers::int_to_chr(at, hints),
        Builtin::IntToStr => numbers::int_to_str(at),
        Builtin::Newline | Builtin::Skip => moves::same(at),
        Builtin::NumNames => numbers::num_names(at, hints),
        Builtin::Pop | Builtin::Top => moves::pop(at),
        Builtin::Preamble => surroundings::preamble(at),
        Builtin::Purify => texts::purify(at),
        Builtin::Quote => surroundings::quote(at),
        Builtin::Stack => moves::log_stack(at),
        Builtin::Substring => substring(at, hints),
        Builtin::Swap => moves::swap(at),
        Builtin::TextLength => numbers::text_length(at, hints),
        Builtin::TextPrefix => texts::text_prefix(at),
        Builtin::TypeName => surroundings::type_name(at),
        Builtin::Warning | Builtin::Write => moves::pop_string(at),
        Builtin::Width => numbers::width(at, hints),
        _ => Err(EffectFault::unmet(DemandKind::WrongKind, 0)),
    }
}
