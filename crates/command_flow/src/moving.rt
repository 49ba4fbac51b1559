//! Pieces where a command begins, comes to its next entry and ends: what stands for `pos` in their rows (docs/STATES.md,
//! "Positions").

ghost use Rattle.std.specs.Prelude.{◌≡◌, ◌^◌, ◌+ℤ◌, map, IfOk, OnOk};
ghost use Rattle.std.specs.List.{All};
ghost use Rattle.lin_facts.specs.Rows.{IsWithin};
ghost use Rattle.sym_state.specs.Positions as rule;
ghost use Rattle.sym_state.specs.WellMade.{IsBounded};
ghost use Rattle.cert_check.specs.Certified.{IsMovable};
ghost use Rattle.command_flow.specs.Between.{piece_moved};
ghost use Rattle.command_flow.specs.Moments.{position_of};

use bv_base::copied::Copied;
use bv_base::memory::NoMemory;
use bv_base::seq::Seq;
use lin_facts::row::{Part, Row, Term};
use std::alloc::Global;
use sym_state::piece::Piece;
use sym_state::results::and_part;

/// Where in a command that visits entries.
#[derive(Clone, Copy, Debug, PartialEq, Eq)]
pub enum Moment {
    /// No entry was visited.
    Start,
    /// One more was.
    Next,
    /// All were.
    End,
}

/// A piece of which each row has the number of visited entries at that moment in place of its own.
pub(crate) fn piece_moved(alloc: Global, moment: Moment, piece: &Piece) -> Result<Piece, NoMemory>
    requires bounded { All IsBounded piece.now.rows }
    requires movable { All IsMovable piece.now.rows }
    ensures { IfOk result (λ moved. moved ≡ piece_moved (position_of moment) piece.now) }
{
    Ok(Piece {
        stack: Seq::from_vec(piece.stack.as_slice().to_vec(alloc)?),
        vars: Seq::from_vec(piece.vars.as_slice().to_vec(alloc)?),
        fields: Seq::from_vec(piece.fields.as_slice().to_vec(alloc)?),
        facts: piece.facts.copied(alloc)?,
        rows: Seq::from_vec(rows_moved(alloc, moment, piece.rows.as_slice())?),
    })
}

/// Rows that are moved, in order.
fn rows_moved(alloc: Global, moment: Moment, rows: &[Row]) -> Result<Vec<Row>, NoMemory>
    requires bounded { All IsBounded rows.now }
    requires movable { All IsMovable rows.now }
    ensures { IfOk result (λ moved. moved.items ≡ map (rule.row_moved (position_of moment)) rows.now) }
{
    let mut moved = Vec::new(alloc);
    for row in rows {
        moved.push(row_moved(alloc, moment, row)?)?;
    }
    Ok(moved)
}

/// A row that is moved.
fn row_moved(alloc: Global, moment: Moment, row: &Row) -> Result<Row, NoMemory>
    requires bounded { IsBounded row.now }
    requires movable { IsMovable row.now }
    ensures { IfOk result (λ moved. moved ≡ rule.row_moved (position_of moment) row.now) }
{
    let mut moved = Row {
        constant: row.constant,
        parts: Seq::new(alloc),
    };
    for part in row.parts.as_slice() {
        put(alloc, &mut moved, moment, *part)?;
    }
    Ok(moved)
}

/// Puts a part into a row that holds those before it.
fn put(alloc: Global, moved: &mut Row, moment: Moment, part: Part) -> Result<(), NoMemory>
    requires constant { IsWithin (2 ^ 45) moved.old.constant }
    requires parts { All (λ p. IsWithin (2 ^ 45) p.coefficient) moved.old.parts }
    requires part { IsWithin (2 ^ 45) part.coefficient }
    ensures constant { OnOk result (moved.new.constant ≡ moved.old.constant +ℤ rule.term_adds (position_of moment) part.coefficient part.term) }
    ensures parts { OnOk result (moved.new.parts ≡ rule.with_term (position_of moment) part.coefficient part.term moved.old.parts) }
{
    let term = match (part.term, moment) {
        (Term::Pos, Moment::Start) => return Ok(()),
        (Term::Pos, Moment::Next) => {
            moved.constant += part.coefficient;
            Term::Pos
        }
        (Term::Pos, Moment::End) => Term::Count,
        (term, _) => term,
    };
    let more = Part {
        coefficient: part.coefficient,
        term,
    };
    let parts = and_part(alloc, moved.parts.as_slice(), more)?;
    moved.parts = Seq::from_vec(parts);
    Ok(())
}
