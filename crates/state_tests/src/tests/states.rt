//! References, pieces and states, worked out by hand from docs/STATES.md.

ghost use Rattle.std.specs.Prelude.{◌≡◌, true, ◌≤◌, length, IfOk};
ghost use Rattle.std.specs.List.{All};
ghost use Rattle.sym_state.specs.Entailing.{line_count};
ghost use Rattle.sym_state.specs.WellMade.{HasBounds, IsBounded};

mod changes;
mod claims;
pub mod example;
mod greatest;
mod places;
mod references;

use crate::tests::hints::proof;
use crate::tests::known::{Shape, condition, piece, state_of};
use crate::tests::lines::{Answers, add_truth};
use crate::tests::reading::{Unread, halves};
use crate::tests::rows::{is_shown, row};
use crate::tests::states::changes::{add_changed, add_last};
use crate::tests::states::claims::add_claim;
use crate::tests::states::example::{add_entailed, add_example_shown, add_started};
use crate::tests::states::greatest::add_greatest;
use crate::tests::states::places::add_place;
use crate::tests::states::references::add_reference;
use lin_facts::row::Row;
use std::alloc::Global;
use sym_state::entails::entails;
use sym_state::piece::Piece;
use sym_state::proof::Proof;
use sym_state::shows::shows;
use sym_state::state::State;

/// What the rows of a table ask.
pub enum Asked {
    /// Whether a fact is known.
    Claim,
    /// Which line of a stack or of names fails first.
    Place,
    /// Whether a reference shows a row.
    Reference,
    /// What the worked example begins with.
    Started,
    /// Whether a proof shows a row in the worked example.
    Shown,
    /// Which line of a piece fails first in the worked example.
    Entailed,
    /// What the calls do that change a state.
    Changed,
    /// Which symbols come last.
    Last,
    /// Whether so many uses of a row show a constant and values.
    Greatest,
    /// Whether a step shows a row.
    Step,
}

impl Answers for Asked {
    fn add_answer(&self, line: &mut String, given: &'static str) -> Result<(), Unread> {
        let (_, given) = halves(given, ": ");
        match self {
            Asked::Claim => add_claim(line, given),
            Asked::Place => add_place(line, given),
            Asked::Reference => add_reference(line, given),
            Asked::Started => add_started(line, given),
            Asked::Shown => add_example_shown(line, given),
            Asked::Entailed => add_entailed(line, given),
            Asked::Changed => add_changed(line, given),
            Asked::Last => add_last(line, given),
            Asked::Greatest => add_greatest(line, given),
            Asked::Step => add_truth(line, is_shown(*line.allocator(), given)?),
        }
    }
}

/// A state of 7 symbols, which binds the names 41, 42 and 37 to the symbols 1, 2 and 6.
fn known_state(alloc: Global, at_entry: bool) -> Result<State, Unread>
    ensures { IfOk result HasBounds }
{
    let shape = Shape {
        whole: false,
        at_entry,
        vars: "41=1; 42=2",
        fields: "37=6",
        next: 7,
    };
    state_of(alloc, shape, KNOWN)
}

/// The symbols 1 and 2 are exactly 5 and `ab`.
const KNOWN: &str =
    "0 1 2; -3 1v0; int 1 5; text 2 [97, 98]; nonblank 3; blank 4; nonblank 4; is 5 Str; is 6 Missing";

/// The first line of a piece that fails, where so many symbols are kept, by proofs of its rows.
fn failing(state: &State, piece: &Piece, kept: u32, proofs: &[Proof]) -> Result<Option<u32>, Unread>
    requires state { HasBounds state.now }
    requires rows { All IsBounded piece.now.rows }
    requires proofs { All (λ proof. length proof.uses ≤ 64) proofs.now }
{
    if !is_short(piece) {
        return Err(Unread::At("a piece of many lines"));
    }
    let cond = condition(state.alloc());
    Ok(entails(state.alloc(), state, &cond, piece, kept, proofs)?)
}

/// Whether a piece has few lines.
fn is_short(piece: &Piece) -> bool
    ensures { result ≡ true → line_count piece.now ≤ 2147483648 }
{
    piece.vars.as_slice().len() < 100
        && piece.fields.as_slice().len() < 100
        && piece.facts.as_slice().len() < 100
        && piece.rows.as_slice().len() < 100
}

/// Adds whether each line of a piece holds, where the state's symbols are its own.
fn add_known(line: &mut String, state: &State, given: &'static str) -> Result<(), Unread>
    requires { HasBounds state.now }
{
    let piece = piece(state.alloc(), given, "", "")?;
    let failing = failing(state, &piece, 7, &[])?;
    add_truth(line, failing.is_none())
}

/// Adds the first line of a piece that fails.
pub fn add_failing(
    line: &mut String,
    state: &State,
    piece: &Piece,
    kept: u32,
    proofs: &[Proof],
) -> Result<(), Unread>
    requires state { HasBounds state.now }
    requires rows { All IsBounded piece.now.rows }
    requires proofs { All (λ proof. length proof.uses ≤ 64) proofs.now }
{
    let failing = failing(state, piece, kept, proofs)?;
    Ok(write!(line, "{failing:?}")?)
}

/// Adds whether a proof shows a row.
fn add_shown(
    line: &mut String,
    state: &State,
    uses: &'static str,
    goal: &'static str,
) -> Result<(), Unread>
    requires { HasBounds state.now }
{
    let proof = proof(state.alloc(), uses)?;
    add_row_shown(line, state, &proof, goal)
}

fn add_row_shown(
    line: &mut String,
    state: &State,
    proof: &Proof,
    goal: &'static str,
) -> Result<(), Unread>
    requires state { HasBounds state.now }
    requires proof { length proof.now.uses ≤ 64 }
{
    let goal = row(state.alloc(), goal)?;
    add_goal_shown(line, state, proof, &goal)
}

fn add_goal_shown(line: &mut String, state: &State, proof: &Proof, goal: &Row) -> Result<(), Unread>
    requires state { HasBounds state.now }
    requires proof { length proof.now.uses ≤ 64 }
    requires goal { IsBounded goal.now }
{
    let cond = condition(state.alloc());
    let shown = shows(state.alloc(), state, &cond, proof, goal)?;
    add_truth(line, shown)
}
