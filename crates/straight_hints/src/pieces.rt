//! The hints by which a state shows a piece (docs/ANALYSER.md, "Hints").

ghost use Rattle.std.specs.Prelude.{◌≡◌, ◌≤◌, IfOk, length};
ghost use Rattle.std.specs.List.{All};
ghost use Rattle.straight_hints.specs.Found as rule;
ghost use Rattle.straight_hints.specs.Subjects.{Each, HasBounds, HasFewUses, IsBounded, IsHint};

use crate::at::At;
use crate::finding::Finding;
use crate::steps::step;
use bst_meaning::condition::Cond;
use bv_base::memory::NoMemory;
use sym_state::Matching;
use sym_state::hint::Hint;
use sym_state::piece::Piece;
use sym_state::state::State;

/// The hints by which a state shows a piece with symbols of its own: a step for each of its rows.
pub fn piece_hints(
    finding: Finding,
    state: &State,
    cond: &Cond,
    piece: &Piece,
) -> Result<Vec<Hint>, NoMemory>
    requires state { HasBounds state.now }
    requires stack { length piece.now.stack ≤ length state.now.stack }
    requires rows { All IsBounded piece.now.rows }
    requires few { state.now.next ≤ 4294967296 }
    ensures hints { IfOk result (λ hints. hints.items ≡ rule.piece_hints finding cond.now state.now piece.now) }
    ensures short { IfOk result (λ hints. All HasFewUses hints.items) }
    ensures written { IfOk result (λ hints. Each IsHint hints.items) }
{
    let at = At {
        finding,
        state,
        cond,
    };
    row_steps(&at, piece)
}

/// The steps of its rows.
fn row_steps(at: &At<'_>, piece: &Piece) -> Result<Vec<Hint>, NoMemory>
    requires state { HasBounds at.now.state.now }
    requires stack { length piece.now.stack ≤ length at.now.state.now.stack }
    requires rows { All IsBounded piece.now.rows }
    ensures { IfOk result (λ hints. hints.items ≡ rule.piece_hints at.now.finding at.now.cond.now at.now.state.now piece.now) }
{
    let alloc = at.state.alloc();
    let matching = Matching::new(alloc, at.state, piece, 0)?;
    let mut hints = Vec::new(alloc);
    for row in piece.rows.as_slice() {
        let goal = matching.row(alloc, row)?;
        hints.push(step(at, &goal)?)?;
    }
    Ok(hints)
}
