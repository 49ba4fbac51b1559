//! Proofs of rows.

ghost use Rattle.std.specs.Prelude.{◌≡◌, ◌≤◌, length, option_map, IfOk, IfSome, IsTrue};
ghost use Rattle.std.specs.List.{All};
ghost use Rattle.lin_facts.specs.Rows.{Holds, IsSmall};
ghost use Rattle.name_table.specs.declared.style.Style.{Style};
ghost use Rattle.sym_state.specs.References as rule;
ghost use Rattle.sym_state.specs.Stands.{Satisfies};
ghost use Rattle.sym_state.specs.Symbols.{Valuation, numbers};
ghost use Rattle.sym_state.specs.WellMade.{HasBounds, IsBounded};

use crate::proof::{Proof, Use};
use crate::references::row_said;
use crate::state::State;
use bst_meaning::condition::Cond;
use bv_base::memory::NoMemory;
use bv_base::seq::Seq;
use lin_facts::follows::follows;
use lin_facts::row::{Row, Step, StepUse};
use std::alloc::Global;

/// Whether a proof shows a row from what a state knows: each of its references is there, and their rows show it. Then
/// the row holds by every assignment that satisfies the state.
pub fn shows(
    alloc: Global,
    state: &State,
    cond: &Cond,
    proof: &Proof,
    goal: &Row,
) -> Result<bool, NoMemory>
    requires state { HasBounds state.now }
    requires proof { length proof.now.uses ≤ 64 }
    requires goal { IsBounded goal.now }
    ensures shown { IfOk result (λ shown. shown ≡ rule.shows cond.now state.now proof.now goal.now) }
    ensures sound { IfOk result (λ shown. IsTrue shown → (style : Style) (v : Valuation)
        → Satisfies style cond.now v state.now → Holds (numbers v) goal.now) }
{
    match rows_said(alloc, state, cond, proof.uses.as_slice())? {
        Some(rows) => {
            let step = Step {
                uses: Seq::from_vec(row_uses(alloc, proof.uses.as_slice())?),
                divisor: proof.divisor,
            };
            Ok(follows(rows.as_slice(), &step, goal))
        }
        None => Ok(false),
    }
}

/// The rows of the references, in order, where each of them is there.
fn rows_said(
    alloc: Global,
    state: &State,
    cond: &Cond,
    uses: &[Use],
) -> Result<Option<Vec<Row>>, NoMemory>
    requires { HasBounds state.now }
    ensures said { IfOk result (λ rows. option_map (λ all. all.items) rows ≡ rule.rows_said cond.now state.now uses.now) }
    ensures small { IfOk result (λ rows. IfSome rows (λ all. All IsSmall all.items)) }
    ensures many { IfOk result (λ rows. IfSome rows (λ all. length all.items ≡ length uses.now)) }
{
    let mut rows = Vec::new(alloc);
    for used in uses {
        match row_said(alloc, state, cond, used.reference)? {
            Some(row) => rows.push(row)?,
            None => return Ok(None),
        }
    }
    Ok(Some(rows))
}

/// The uses of those rows, by their numbers.
fn row_uses(alloc: Global, uses: &[Use]) -> Result<Vec<StepUse>, NoMemory>
    requires { length uses.now ≤ 64 }
    ensures { IfOk result (λ all. all.items ≡ rule.row_uses 0 uses.now) }
{
    let mut all = Vec::new(alloc);
    for (k, used) in uses.iter().enumerate() {
        all.push(StepUse {
            row: k as u32,
            times: used.times,
        })?;
    }
    Ok(all)
}
