//! The states at the end of a call (docs/CHECKER.md, "Commands").

ghost use Rattle.std.specs.Prelude.{◌≡◌, [], Ok, Err, MatchResult};
ghost use Rattle.cert_check.specs.Units.{none_left};
ghost use Rattle.command_flow.specs.Commands as rule;
ghost use Rattle.command_flow.specs.Subjects.{All, CanEnd, Each, HasBounds, HasFewUses, IsHint, Takes};

use crate::at::At;
use bv_base::place::Place;
use cert_check::refusal::{Reason, Walk};
use cert_check::{placed, refuse};
use sym_state::demand::{Demand, DemandKind};
use sym_state::hint::{Hint, Hints};
use sym_state::piece::Piece;
use sym_state::shown_by;
use sym_state::state::State;

/// Each state at the end of a call, in order, has an empty stack and entails the pieces.
pub(crate) fn call_ends(
    at: &At<'_>,
    pieces: &[Piece],
    states: &[State],
    hints: &mut Hints<'_>,
) -> Walk
    requires pieces { All CanEnd pieces.now }
    requires states { All HasBounds states.now }
    requires proofs { All HasFewUses hints.old }
    ensures ends { Takes (rule.call_ends at.now.cond.now at.now.command.place pieces.now states.now hints.old) hints.new result }
    ensures proofs { All HasFewUses hints.new }
{
    for state in states {
        state_ends(at, pieces, state, hints)?;
    }
    Ok(())
}

/// Each state at the end of a call has an empty stack, and no hint is taken there.
pub(crate) fn all_emptied(at: &At<'_>, states: &[State], hints: &[Hint]) -> Walk
    requires states { All HasBounds states.now }
    requires written { Each IsHint hints.now }
    ensures { Takes (rule.call_ends at.now.cond.now at.now.command.place [] states.now hints.now) hints.now result }
{
    call_ends(at, &[], states, &mut Hints::new(hints))
}

/// A state has an empty stack and entails the pieces, one after the other.
fn state_ends(at: &At<'_>, pieces: &[Piece], state: &State, hints: &mut Hints<'_>) -> Walk
    requires pieces { All CanEnd pieces.now }
    requires state { HasBounds state.now }
    requires proofs { All HasFewUses hints.old }
    ensures ends { Takes (rule.state_ends at.now.cond.now at.now.command.place pieces.now state.now hints.old) hints.new result }
    ensures proofs { All HasFewUses hints.new }
{
    if state.stack_len() > 0 {
        return refuse(
            at.command.place,
            Reason::Demand(Demand {
                kind: DemandKind::StackLeft,
                operand: 0,
            }),
        );
    }
    for piece in pieces {
        piece_shown(at, state, piece, hints)?;
    }
    Ok(())
}

/// A state entails a piece, whose symbols are its own.
pub(crate) fn piece_shown(at: &At<'_>, state: &State, piece: &Piece, hints: &mut Hints<'_>) -> Walk
    requires piece { CanEnd piece.now }
    requires state { HasBounds state.now }
    requires proofs { All HasFewUses hints.old }
    ensures shown { Takes (rule.piece_shown at.now.cond.now at.now.command.place state.now piece.now hints.old) hints.new result }
    ensures proofs { All HasFewUses hints.new }
{
    placed(at.command.place, shown_by(state, at.cond, piece, 0, hints))
}

/// No hint is left where a unit ends.
pub(crate) fn ends_there(place: Place, hints: &Hints<'_>) -> Walk
    ensures { MatchResult result (λ _. none_left place hints.now ≡ Ok []) (λ refusal. none_left place hints.now ≡ Err refusal) }
{
    if hints.rest().is_empty() {
        Ok(())
    } else {
        refuse(place, Reason::HintsLeft)
    }
}
