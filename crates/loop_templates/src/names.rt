//! The names that cases bind (docs/ANALYSER.md, "Loops").

ghost use Rattle.std.specs.Prelude.{◌≡◌, ◌<◌, ◌++◌, ◌∷◌, [], if◌then◌else◌, length, Bool, IfOk, OnOk};
ghost use Rattle.std.specs.List.{All};
ghost use Rattle.name_table.specs.declared.names.Kind.{Kind};
ghost use Rattle.sym_state.specs.WellMade.{ids_from};
ghost use Rattle.loop_templates.specs.Bound as rule;
ghost use Rattle.loop_templates.specs.Reaching.{occurring_of};

use crate::cases::Bound;
use crate::reaching::is_marked;
use bv_base::memory::NoMemory;
use name_table::names::{Kind, NameId};
use name_table::style::Style;
use std::alloc::Global;

/// The variables that are bound, upwards by id.
pub(crate) fn variables(alloc: Global, style: &Style, bound: Bound) -> Result<Vec<NameId>, NoMemory>
    ensures { IfOk result (λ names. names.items ≡ ids_from (rule.is_bound_variable bound) 0 style.now.names) }
{
    names_where(alloc, style, |kind| is_variable(bound, kind))
}

/// The fields that are bound, upwards by id.
pub(crate) fn fields(alloc: Global, style: &Style, bound: Bound) -> Result<Vec<NameId>, NoMemory>
    ensures { IfOk result (λ names. names.items ≡ ids_from (rule.is_bound_field bound) 0 style.now.names) }
{
    names_where(alloc, style, |kind| is_field(bound, kind))
}

/// The names that are marked, and whose kinds pass a test, which is pure, upwards by id.
pub(crate) fn occurring_of<F: Fn(Kind) -> bool>(
    alloc: Global,
    style: &Style,
    marks: &[bool],
    test: F,
) -> Result<Vec<NameId>, NoMemory>
    requires { F.IsAlwaysCallable test }
    ensures { (passes : Kind → Bool) → ((kind : Kind) (r : Bool) → F.post test kind r → r ≡ passes kind)
        → IfOk result (λ names. names.items ≡ occurring_of passes style.now marks.now) }
{
    let mut names = names_where(alloc, style, test)?;
    names.retain(|name| is_marked(marks, name.0 as usize));
    Ok(names)
}

/// The names whose kinds pass a test, which is pure, upwards by id.
fn names_where<F: Fn(Kind) -> bool>(
    alloc: Global,
    style: &Style,
    test: F,
) -> Result<Vec<NameId>, NoMemory>
    requires { F.IsAlwaysCallable test }
    ensures { (passes : Kind → Bool) → ((kind : Kind) (r : Bool) → F.post test kind r → r ≡ passes kind)
        → IfOk result (λ names. names.items ≡ ids_from passes 0 style.now.names) }
{
    let mut names = Vec::new(alloc);
    for id in 0..style.names.len() {
        let wanted = test(style.names.kind(NameId(id)));
        push_where(&mut names, wanted, NameId(id))?;
    }
    Ok(names)
}

/// Adds a name that is wanted.
fn push_where(names: &mut Vec<NameId>, wanted: bool, name: NameId) -> Result<(), NoMemory>
    ensures { OnOk result (names.new.items ≡ (if wanted then names.old.items ++ name ∷ [] else names.old.items)) }
{
    if wanted {
        names.push(name)?;
    }
    Ok(())
}

/// Whether a variable of a kind is bound.
pub(crate) fn is_variable(bound: Bound, kind: Kind) -> bool
    ensures { result ≡ rule.is_bound_variable bound kind }
{
    match kind {
        Kind::IntGlobal | Kind::StrGlobal => bound.globals,
        Kind::IntEntry | Kind::StrEntry => bound.entry,
        _ => false,
    }
}

/// Whether a field is bound.
fn is_field(bound: Bound, kind: Kind) -> bool
    ensures { result ≡ rule.is_bound_field bound kind }
{
    match kind {
        Kind::Field => bound.entry,
        _ => false,
    }
}
