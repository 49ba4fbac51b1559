//! Copies of candidates' cases (docs/ANALYSER.md, "Loops").

ghost use Rattle.std.specs.Prelude.{◌≡◌, IfOk};

use crate::candidates::Added;
use bv_base::copied::Copied;
use bv_base::memory::NoMemory;
use bv_base::seq::Seq;
use lin_facts::row::Row;
use std::alloc::Global;
use sym_state::piece::Piece;

/// Some cases.
pub(crate) fn cases_copied(alloc: Global, cases: &[Piece]) -> Result<Vec<Piece>, NoMemory>
    ensures { IfOk result (λ copies. copies.items ≡ cases.now) }
{
    let mut copies = Vec::new(alloc);
    for case in cases {
        copies.push(case_copied(alloc, case)?)?;
    }
    Ok(copies)
}

/// A case.
fn case_copied(alloc: Global, case: &Piece) -> Result<Piece, NoMemory>
    ensures { IfOk result (λ copy. copy ≡ case.now) }
{
    let rows = case.rows.copied(alloc)?;
    case_with(alloc, case, rows.into_vec())
}

/// A case with these rows in place of its own.
pub(crate) fn case_with(alloc: Global, case: &Piece, rows: Vec<Row>) -> Result<Piece, NoMemory>
    ensures { IfOk result (λ copy. copy ≡ record case.now { rows = rows.items }) }
{
    Ok(Piece {
        stack: Seq::from_vec(case.stack.as_slice().to_vec(alloc)?),
        vars: Seq::from_vec(case.vars.as_slice().to_vec(alloc)?),
        fields: Seq::from_vec(case.fields.as_slice().to_vec(alloc)?),
        facts: case.facts.copied(alloc)?,
        rows: Seq::from_vec(rows),
    })
}

impl Copied for Added {
    fn copied(&self, alloc: Global) -> Result<Added, NoMemory> {
        let rows = self.case.rows.copied(alloc)?;
        added_with(alloc, self, rows.into_vec())
    }
}

/// An added case with these rows in place of its own.
pub(crate) fn added_with(alloc: Global, one: &Added, rows: Vec<Row>) -> Result<Added, NoMemory>
    ensures { IfOk result (λ copy. copy
        ≡ record { bones = one.now.bones; case = record one.now.case { rows = rows.items } }) }
{
    Ok(Added {
        bones: Seq::from_vec(one.bones.as_slice().to_vec(alloc)?),
        case: case_with(alloc, &one.case, rows)?,
    })
}
