//! The functions that `call.type$` may enter (docs/CHECKER.md, "The walk").

ghost use Rattle.std.specs.Prelude.{◌≡◌, true, codes, is_none, IfOk};
ghost use Rattle.std.specs.List.{list_any};
ghost use Rattle.name_table.specs.TypeTarget as target;
ghost use Rattle.cert_check.specs.Courses as courses;
ghost use Rattle.cert_check.specs.Given.{GoesOn};
ghost use Rattle.cert_check.specs.Here.{here};
ghost use Rattle.cert_check.specs.Walks as rule;

use crate::at::At;
use crate::course::{held, refuse};
use crate::making::Loops;
use crate::refusal::{Reason, Refusal};
use bst_meaning::condition::Cond;
use bv_base::memory::NoMemory;
use bv_base::text::Text;
use name_table::names::NameId;
use name_table::opening::SKIP;
use name_table::style::{Style, TypeTarget};
use std::alloc::Global;
use sym_state::demand::{Demand, DemandKind};
use sym_state::state::State;

/// The functions that `call.type$` enters from a state, which has to be at an entry.
pub(crate) fn types_entered<M: Loops>(at: &At<'_, M>, state: &State) -> Result<Vec<NameId>, Refusal>
    ensures { (enter : rule.Enter) (course : courses.Course) → GoesOn (rule.typed (here M.made at.now) enter at.now.place state.now course)
        (λ names. rule.types_called (here M.made at.now) enter at.now.place names.items state.now course) result }
{
    if !state.is_at_entry() {
        let missing = Demand {
            kind: DemandKind::NoEntry,
            operand: 0,
        };
        return refuse(at.place, Reason::Demand(missing));
    }
    let names = type_functions(state.alloc(), at.scope.style(), at.scope.cond());
    held(at.place, names)
}

/// The functions of the listed types, and the default function where a type may be another.
pub fn type_functions(alloc: Global, style: &Style, cond: &Cond) -> Result<Vec<NameId>, NoMemory>
    ensures { IfOk result (λ names. names.items ≡ rule.type_functions style.now cond.now) }
{
    let mut names = listed_functions(alloc, style, cond.types.as_slice())?;
    if has_other_types(style, cond) {
        names.push(default_function(style))?;
    }
    Ok(names)
}

/// The functions of these types, of those that the style defines.
fn listed_functions(alloc: Global, style: &Style, types: &[Text]) -> Result<Vec<NameId>, NoMemory>
    ensures { IfOk result (λ names. names.items ≡ rule.listed_functions style.now types.now) }
{
    let mut names = Vec::new(alloc);
    for name in types {
        if let Some(id) = type_function(style, name.as_slice()) {
            names.push(id)?;
        }
    }
    Ok(names)
}

/// Whether an entry may have a type that the style doesn't define.
fn has_other_types(style: &Style, cond: &Cond) -> bool
    ensures { result ≡ rule.has_other_types style.now cond.now }
{
    cond.other || is_any_other(style, cond.types.as_slice())
}

/// Whether the style doesn't define one of these types.
fn is_any_other(style: &Style, types: &[Text]) -> bool
    ensures { result ≡ list_any (λ name. is_none (target.type_function name style.now)) types.now }
{
    types
        .iter()
        .any(|name| type_function(style, name.as_slice()).is_none())
}

/// What `call.type$` enters for such a type.
fn default_function(style: &Style) -> NameId
    ensures { result ≡ rule.default_function style.now }
{
    match type_function(style, b"default.type") {
        Some(id) => id,
        None => SKIP,
    }
}

/// The function of a type that the style defines.
fn type_function(style: &Style, name: &[u8]) -> Option<NameId>
    ensures { result ≡ target.type_function name.now style.now }
{
    match style.type_target(name) {
        TypeTarget::Function(id) => Some(id),
        _ => None,
    }
}
