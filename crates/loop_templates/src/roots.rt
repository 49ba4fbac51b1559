//! Where a walk over bodies begins, and which variables are quoted there (docs/ANALYSER.md, "Loops").

ghost use Rattle.std.specs.Prelude.{◌≡◌, ◌++◌, flat_map, IfOk, OnOk};
ghost use Rattle.bst_meaning.specs.StyleParts as parts;
ghost use Rattle.loop_templates.specs.Bound.{is_bound_variable};
ghost use Rattle.loop_templates.specs.Reaching as rule;

use crate::cases::Bound;
use crate::names::{is_variable, occurring_of};
use crate::reaching::Occurrences;
use bst_meaning::style_parts::kind_of;
use bst_meaning::value::Target;
use bv_base::memory::NoMemory;
use name_table::builtin::Builtin;
use name_table::names::{Kind, NameId};
use name_table::style::{BodyId, Style};
use std::alloc::Global;

/// Adds the bodies that a target enters, where these are the functions that `call.type$` enters.
pub fn push_roots(
    roots: &mut Vec<BodyId>,
    style: &Style,
    types: &[NameId],
    target: Target,
) -> Result<(), NoMemory>
    ensures { OnOk result (roots.new.items ≡ roots.old.items ++ rule.roots_of style.now types.now target) }
{
    match target {
        Target::Named(name) => push_entered(roots, style, types, kind_of(style, name)),
        Target::Block(body) => Ok(roots.push(body)?),
    }
}

/// Adds the bodies that a name of a kind enters.
fn push_entered(
    roots: &mut Vec<BodyId>,
    style: &Style,
    types: &[NameId],
    kind: Option<Kind>,
) -> Result<(), NoMemory>
    ensures { OnOk result (roots.new.items ≡ roots.old.items ++ rule.bodies_entered style.now types.now kind) }
{
    match kind {
        Some(Kind::Builtin(Builtin::CallType)) => push_types(roots, style, types),
        kind => push_own(roots, kind),
    }
}

/// Adds the bodies of the functions that the style defines.
fn push_types(roots: &mut Vec<BodyId>, style: &Style, types: &[NameId]) -> Result<(), NoMemory>
    ensures { OnOk result (roots.new.items ≡ roots.old.items ++ flat_map (λ name. rule.own_body (parts.kind_of style.now name)) types.now) }
{
    for name in types {
        push_own(roots, kind_of(style, *name))?;
    }
    Ok(())
}

/// Adds the body of a function that the style defines.
fn push_own(roots: &mut Vec<BodyId>, kind: Option<Kind>) -> Result<(), NoMemory>
    ensures { OnOk result (roots.new.items ≡ roots.old.items ++ rule.own_body kind) }
{
    if let Some(Kind::Wizard(body)) = kind {
        roots.push(body)?;
    }
    Ok(())
}

/// The variables of those that are bound which are quoted.
pub fn quoted_variables(
    alloc: Global,
    style: &Style,
    found: &Occurrences,
    bound: Bound,
) -> Result<Vec<NameId>, NoMemory>
    ensures { IfOk result (λ names. names.items ≡ rule.occurring_of (is_bound_variable bound) style.now found.now.quoted) }
{
    let quoted = found.quoted.as_slice();
    occurring_of(alloc, style, quoted, |kind| is_variable(bound, kind))
}
