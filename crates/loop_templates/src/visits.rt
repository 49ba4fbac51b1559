//! Cases of what commands leave (docs/ANALYSER.md, "Commands").

ghost use Rattle.std.specs.Prelude.{◌≡◌, map, length, IfOk};
ghost use Rattle.std.specs.List.{All};
ghost use Rattle.sym_state.specs.Positions.{AtNext, row_moved};
ghost use Rattle.loop_templates.specs.Candidates.{CanMatch, IsCase};
ghost use Rattle.loop_templates.specs.Cases.{IsFrame};
ghost use Rattle.loop_templates.specs.Visits as rule;
ghost use Rattle.loop_templates.specs.Subjects.{IsBounded, WellMade};

use crate::cases::{Frame, bare_case, each, with_rows};
use crate::lowering::{marked_rows, proved_in_all};
use bst_meaning::condition::Cond;
use bv_base::memory::NoMemory;
use lin_facts::row::Row;
use std::alloc::Global;
use sym_state::piece::Piece;
use sym_state::state::State;

/// The case that states have in common, whatever stands on their stacks.
#[tactic(auto, using(crate::proofs::Cased::later_stands, crate::proofs::Made::all_bounded))]
pub fn common_case(alloc: Global, frame: &Frame<'_>, states: &[State]) -> Result<Piece, NoMemory>
    requires frame { IsFrame frame.now }
    requires states { All (WellMade frame.now.style) states.now }
    ensures case { IfOk result (λ case. case ≡ rule.common_case frame.now states.now) }
    ensures stands { IfOk result (IsCase frame.now) }
{
    let entering = each(alloc, frame.entering)?;
    let piece = bare_case(alloc, frame, &[], entering.as_slice(), None)?;
    let those = each(alloc, states)?;
    with_rows(alloc, frame, those.as_slice(), piece)
}

/// The rows of a visit's case that have a straight proof in each of some states at the visit's end, where one entry more was visited. The
/// rows are handed over as they stand there, too.
pub fn rows_left(
    alloc: Global,
    cond: &Cond,
    case: &Piece,
    moved: &[Row],
    states: &[State],
) -> Result<Vec<Row>, NoMemory>
    requires states { All (CanMatch (length case.now.stack)) states.now }
    requires rows { All IsBounded moved.now }
    requires moved { moved.now ≡ map (row_moved AtNext) case.now.rows }
    ensures { IfOk result (λ rows. rows.items ≡ rule.rows_left cond.now case.now states.now case.now.rows) }
{
    let those = each(alloc, states)?;
    let shown = proved_in_all(alloc, cond, case, moved, those.as_slice())?;
    marked_rows(alloc, case.rows.as_slice(), shown.as_slice())
}
