//! `:=`.

ghost use Rattle.std.specs.Prelude.{◌≡◌, option_map};
ghost use Rattle.name_table.specs.declared.names.NameId.{NameId as Name};
ghost use Rattle.straight_hints.specs.Given.{Finds, hints_at};
ghost use Rattle.straight_hints.specs.Subjects.{HasBounds};
ghost use Rattle.sym_state.specs.Effects as rule;
ghost use Rattle.sym_state.specs.State.{State as StateValue};
ghost use Rattle.sym_state.specs.declared.symbol.Kinds.TheVariants.{Str};

use crate::at::{At, Found};
use crate::steps::{choice, none};
use bst_meaning::style_parts::kind_of;
use bst_meaning::value::{ENTRY_SIZE, GLOBAL_SIZE};
use lin_facts::row::Term;
use name_table::names::Kind;
use name_table::style::Style;
use sym_state::demand::DemandKind;
use sym_state::operands::{demand, of_kind, two};
use sym_state::references::at_most;
use sym_state::symbol::{Kinds, Sym};

/// `:=`
pub fn assign(style: &Style, at: &At<'_>) -> Found
    requires { HasBounds at.now.state.now }
    ensures { Finds result (hints_at at.now (rule.assign style.now at.now.state.now)) }
{
    let (a, f) = two(at.state, Kinds::Any, Kinds::Func)?;
    match at.state.exact_name(f) {
        Some(name) => assigned(at, kind_of(style, name), a),
        None => Ok(none(at)),
    }
}

/// A symbol is assigned to a name, by the kind of the name: a string variable alone takes a hint.
fn assigned(at: &At<'_>, kind: Option<Kind>, a: Sym) -> Found
    requires { HasBounds at.now.state.now }
    ensures { (name : Name) (rest : StateValue) → Finds result (hints_at at.now (rule.assigned at.now.state.now kind name a rest)) }
{
    match kind {
        Some(Kind::StrGlobal) => string_assigned(at, GLOBAL_SIZE, a),
        Some(Kind::StrEntry) => {
            demand(at.state.is_at_entry(), DemandKind::NoEntry, 0)?;
            string_assigned(at, ENTRY_SIZE, a)
        }
        _ => Ok(none(at)),
    }
}

/// A string is assigned: a choice, where it may be longer than its variable.
fn string_assigned(at: &At<'_>, size: u32, a: Sym) -> Found
    requires { HasBounds at.now.state.now }
    ensures { (name : Name) (rest : StateValue) → Finds result (hints_at at.now
        (rule.of_kind at.now.state.now Str 2 a (rule.string_assigned at.now.state.now name size a rest))) }
{
    of_kind(at.state, Kinds::Str, 2, a)?;
    if fits_exactly(at.state.exact_text(a), size) {
        return Ok(none(at));
    }
    let row = at_most(at.state.alloc(), Term::Length(a.0), size as i64)?;
    Ok(choice(at, true, &row)?)
}

/// Whether a text is known and isn't longer than a size.
fn fits_exactly(text: Option<&[u8]>, size: u32) -> bool
    ensures { result ≡ rule.fits_exactly (option_map (λ t. t.now) text.entry) size }
{
    match text {
        Some(bytes) => bytes.len() <= size as usize,
        None => false,
    }
}
