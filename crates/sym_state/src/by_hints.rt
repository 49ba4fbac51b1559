//! Pieces that are shown by the next hints (docs/STATES.md, "Entailment").

ghost use Rattle.std.specs.Prelude.{◌≡◌, ◌+◌, ◌<◌, ◌≤◌, ◌^◌, length, List, OnErr, OnOk};
ghost use Rattle.std.specs.List.{All};
ghost use Rattle.bv_base.specs.Answers.{Leaves};
ghost use Rattle.sym_state.specs.declared.demand.EffectFault.TheVariants.{NoMemory as WantOfMemory};
ghost use Rattle.sym_state.specs.declared.hint.Hint.{Hint};
ghost use Rattle.sym_state.specs.Demands.{HasFewUses};
ghost use Rattle.sym_state.specs.Matches.{matched_by};
ghost use Rattle.sym_state.specs.Showing as rule;
ghost use Rattle.sym_state.specs.WellMade.{HasBounds, IsBounded};

use crate::demand::EffectFault;
use crate::entails::{first_before_rows, first_row_line};
use crate::hint::{Hint, Hints};
use crate::matching::Matching;
use crate::piece::Piece;
use crate::shows::shows;
use crate::state::State;
use bst_meaning::condition::Cond;
use lin_facts::row::Row;

/// Shows a piece, whose symbols below `kept` are the state's own: each of its rows by the next hint. The hints of a piece
/// that isn't shown stay.
pub fn shown_by(
    state: &State,
    cond: &Cond,
    piece: &Piece,
    kept: u32,
    hints: &mut Hints<'_>,
) -> Result<(), EffectFault>
    requires { rule.CanShow state.now piece.now hints.old }
    ensures shown { Leaves WantOfMemory (rule.piece_by cond.now state.now piece.now kept hints.old) hints.new result }
    ensures few { OnOk result (length piece.now.stack ≤ length state.now.stack) }
    ensures stays { OnErr result (hints.new ≡ hints.old) }
    ensures proofs { All HasFewUses hints.new }
{
    if state.stack().len() < piece.stack.as_slice().len() {
        return Err(EffectFault::NotEntailed(0));
    }
    let matching = Matching::new(state.alloc(), state, piece, kept)?;
    if let Some(line) = first_before_rows(state, piece, &matching) {
        return Err(EffectFault::NotEntailed(line));
    }
    let mut left = Hints::new(hints.rest());
    let first = first_row_line(piece);
    match show_rows(
        state,
        cond,
        &matching,
        first,
        piece.rows.as_slice(),
        &mut left,
    ) {
        Ok(()) => {
            *hints = left;
            Ok(())
        }
        Err(fault) => Err(fault),
    }
}

/// Shows rows in order, whose lines are numbered from here.
fn show_rows(
    state: &State,
    cond: &Cond,
    matching: &Matching,
    first: u32,
    rows: &[Row],
    hints: &mut Hints<'_>,
) -> Result<(), EffectFault>
    requires state { HasBounds state.now }
    requires rows { All IsBounded rows.now }
    requires lines { first + length rows.now < 2 ^ 32 }
    requires proofs { All HasFewUses hints.old }
    ensures shown { Leaves WantOfMemory (rule.rows_by (matched_by matching.now) cond.now state.now first rows.now hints.old) hints.new result }
    ensures proofs { All HasFewUses hints.new }
{
    let mut line = first;
    for row in rows {
        show_row(state, cond, matching, line, row, hints)?;
        line += 1;
    }
    Ok(())
}

/// Shows a row by the next hint.
fn show_row(
    state: &State,
    cond: &Cond,
    matching: &Matching,
    line: u32,
    row: &Row,
    hints: &mut Hints<'_>,
) -> Result<(), EffectFault>
    requires state { HasBounds state.now }
    requires row { IsBounded row.now }
    requires proofs { All HasFewUses hints.old }
    ensures shown { Leaves WantOfMemory (rule.row_by (matched_by matching.now) cond.now state.now line row.now hints.old) hints.new result }
    ensures proofs { All HasFewUses hints.new }
{
    match hints.next_short() {
        Some(hint) => row_shown_by(state, cond, matching, line, row, hint),
        None => Err(EffectFault::HintsShort),
    }
}

/// Shows a row by a hint.
fn row_shown_by(
    state: &State,
    cond: &Cond,
    matching: &Matching,
    line: u32,
    row: &Row,
    hint: &Hint,
) -> Result<(), EffectFault>
    requires state { HasBounds state.now }
    requires row { IsBounded row.now }
    requires proof { HasFewUses hint.now }
    ensures { (left : List Hint) → Leaves WantOfMemory (rule.row_shown_by (matched_by matching.now) cond.now state.now line row.now hint.now left) left result }
{
    let Hint::Step(proof) = hint else {
        return Err(EffectFault::WrongHint);
    };
    let alloc = state.alloc();
    let goal = matching.row(alloc, row)?;
    if shows(alloc, state, cond, proof, &goal)? {
        Ok(())
    } else {
        Err(EffectFault::NotEntailed(line))
    }
}
