//! The rows that references say of a term (docs/STATES.md, "References").

ghost use Rattle.std.specs.Prelude.{◌≡◌, ◌++◌, IfOk, IfSome, OnOk};
ghost use Rattle.std.specs.List.{All, filter_map};
ghost use Rattle.std.specs.Option.{option_to_list};
ghost use Rattle.sym_state.specs.References as said;
ghost use Rattle.straight_proofs.specs.Subjects.{HasBounds, IsSmall};
ghost use Rattle.straight_proofs.specs.Lookup as rule;

use crate::lookup::push_on_term;
use bst_meaning::condition::Cond;
use bv_base::memory::NoMemory;
use lin_facts::row::{Row, Term};
use std::alloc::Global;
use sym_state::proof::Reference;
use sym_state::references::row_said;
use sym_state::state::State;

/// The rows that references say of a term in a state, in the order of the references. A row of the state isn't among them.
pub fn rows_on(alloc: Global, state: &State, cond: &Cond, term: Term) -> Result<Vec<Row>, NoMemory>
    requires { HasBounds state.now }
    ensures said { IfOk result (λ rows. rows.items ≡ filter_map (said.row_said cond.now state.now) (rule.on_term term)) }
    ensures small { IfOk result (λ rows. All IsSmall rows.items) }
{
    let mut references = Vec::new(alloc);
    push_on_term(&mut references, term)?;
    rows_said(alloc, state, cond, references.as_slice())
}

/// The rows that some references say.
fn rows_said(
    alloc: Global,
    state: &State,
    cond: &Cond,
    references: &[Reference],
) -> Result<Vec<Row>, NoMemory>
    requires { HasBounds state.now }
    ensures said { IfOk result (λ rows. rows.items ≡ filter_map (said.row_said cond.now state.now) references.now) }
    ensures small { IfOk result (λ rows. All IsSmall rows.items) }
{
    let mut rows = Vec::new(alloc);
    for reference in references {
        push_said(&mut rows, row_said(alloc, state, cond, *reference)?)?;
    }
    Ok(rows)
}

/// Adds a row, where there is one.
fn push_said(rows: &mut Vec<Row>, row: Option<Row>) -> Result<(), NoMemory>
    requires rows { All IsSmall rows.old.items }
    requires row { IfSome row IsSmall }
    ensures added { OnOk result (rows.new.items ≡ rows.old.items ++ option_to_list row) }
    ensures small { OnOk result (All IsSmall rows.new.items) }
{
    if let Some(row) = row {
        rows.push(row)?;
    }
    Ok(())
}
