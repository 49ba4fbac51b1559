//! `:=`.

ghost use Rattle.sym_state.specs.declared.hint.Hint.{Hint};
ghost use Rattle.std.specs.Prelude.{◌≡◌, ◌<◌, option_map, List};
ghost use Rattle.sym_state.specs.Changes as change;
ghost use Rattle.sym_state.specs.declared.symbol.Kinds.TheVariants.{Int, Str};
ghost use Rattle.sym_state.specs.Demands.{Gives as Given, IsReady, without};
ghost use Rattle.sym_state.specs.Effects as rule;
ghost use Rattle.builtin_effects.specs.Given.{Gives, outcome_at};

use crate::at::{At, Outcome};
use crate::results::{Said, with_symbol};
use crate::steps::choice;
use bst_meaning::style_parts::kind_of;
use bst_meaning::value::{ENTRY_SIZE, GLOBAL_SIZE};
use lin_facts::row::Term;
use name_table::names::{Kind, NameId};
use name_table::style::Style;
use sym_state::demand::{DemandKind, EffectFault};
use sym_state::hint::Hints;
use sym_state::operands::{demand, of_kind, two};
use sym_state::references::at_most;
use sym_state::symbol::{Kinds, Sym};

/// `:=`
pub fn assign(style: &Style, at: &At<'_>, hints: &mut Hints<'_>) -> Outcome
    requires { IsReady at.now.state.now hints.old }
    ensures { Gives result hints.new (outcome_at at.now (rule.assign style.now at.now.state.now) hints.old) }
{
    let (a, f) = two(at.state, Kinds::Any, Kinds::Func)?;
    match at.state.exact_name(f) {
        Some(name) => assigned(at, kind_of(style, name), name, a, hints),
        None => Err(EffectFault::unmet(DemandKind::NotVariable, 1)),
    }
}

/// A symbol is assigned to a name, by the kind of the name.
fn assigned(at: &At<'_>, kind: Option<Kind>, name: NameId, a: Sym, hints: &mut Hints<'_>) -> Outcome
    requires { IsReady at.now.state.now hints.old }
    ensures { Gives result hints.new (outcome_at at.now (rule.assigned at.now.state.now kind name a (without 2 at.now.state.now)) hints.old) }
{
    match kind {
        Some(Kind::IntGlobal) => integer_assigned(at, name, a),
        Some(Kind::StrGlobal) => string_assigned(at, name, GLOBAL_SIZE, a, hints),
        Some(Kind::IntEntry) => {
            demand(at.state.is_at_entry(), DemandKind::NoEntry, 0)?;
            integer_assigned(at, name, a)
        }
        Some(Kind::StrEntry) => {
            demand(at.state.is_at_entry(), DemandKind::NoEntry, 0)?;
            string_assigned(at, name, ENTRY_SIZE, a, hints)
        }
        _ => Err(EffectFault::unmet(DemandKind::NotVariable, 1)),
    }
}

/// An integer is assigned.
fn integer_assigned(at: &At<'_>, name: NameId, a: Sym) -> Outcome
    ensures { (hints : List Hint) → Gives result hints (outcome_at at.now (rule.of_kind at.now.state.now Int 2 a (Given (change.with_bind name a (without 2 at.now.state.now)))) hints) }
{
    of_kind(at.state, Kinds::Int, 2, a)?;
    bound(at, name, a)
}

/// A string is assigned: one that may be longer than its variable is another one once it is cut.
fn string_assigned(at: &At<'_>, name: NameId, size: u32, a: Sym, hints: &mut Hints<'_>) -> Outcome
    requires { IsReady at.now.state.now hints.old }
    ensures { Gives result hints.new (outcome_at at.now
        (rule.of_kind at.now.state.now Str 2 a (rule.string_assigned at.now.state.now name size a (without 2 at.now.state.now))) hints.old) }
{
    of_kind(at.state, Kinds::Str, 2, a)?;
    if fits_exactly(at.state.exact_text(a), size) {
        return bound(at, name, a);
    }
    let row = at_most(at.state.alloc(), Term::Length(a.0), size as i64)?;
    if choice(at, true, &row, hints)? {
        bound(at, name, a)
    } else {
        cut_bound(at, name, size)
    }
}

/// Whether a text is known and isn't longer than a size.
fn fits_exactly(text: Option<&[u8]>, size: u32) -> bool
    ensures { result ≡ rule.fits_exactly (option_map (λ t. t.now) text.entry) size }
{
    match text {
        Some(bytes) => bytes.len() <= size as usize,
        None => false,
    }
}

/// The variable is bound to the symbol that is assigned.
fn bound(at: &At<'_>, name: NameId, a: Sym) -> Outcome
    ensures { (hints : List Hint) → Gives result hints (outcome_at at.now (Given (change.with_bind name a (without 2 at.now.state.now))) hints) }
{
    let mut after = at.state.without(2)?;
    after.bind(name, a)?;
    Ok(after)
}

/// The variable is bound to a new string, of which no more is known than that it is cut.
fn cut_bound(at: &At<'_>, name: NameId, size: u32) -> Outcome
    requires { at.now.state.now.next < 4294967295 }
    ensures { (hints : List Hint) → Gives result hints (outcome_at at.now (rule.cut_bound name size (without 2 at.now.state.now)) hints) }
{
    let r = Sym(at.state.next());
    let row = at_most(at.state.alloc(), Term::Length(r.0), size as i64)?;
    let mut after = with_symbol(at.state, 2, Kinds::Str, Said::row(Some(row)))?;
    after.bind(name, r)?;
    Ok(after)
}
