//! Rows of added cases that have no proof are left out (docs/ANALYSER.md, "Loops").

ghost use Rattle.std.specs.Prelude.{◌≡◌, Bool, true, ◌&&◌, ◌||◌, ◌++◌, ◌∷◌, [], ◌≤◌, is_some, length, map, IfOk, OnOk};
ghost use Rattle.std.specs.List.{All, filter, list_all, list_any};
ghost use Rattle.sym_state.specs.Entailing.{line_count};
ghost use Rattle.sym_state.specs.Matches.{matched_by};
ghost use Rattle.straight_proofs.specs.Straight as straight;
ghost use Rattle.loop_templates.specs.Candidates as rule;
ghost use Rattle.loop_templates.specs.Skeletons.{skeleton as skeleton_of, same_skeleton};
ghost use Rattle.loop_templates.specs.Subjects.{HasBounds, IsBounded, row_renamed};

use crate::candidates::Added;
use crate::copies::{added_with, case_with};
use crate::skeletons::{has_skeleton, states_of};
use bst_meaning::condition::Cond;
use bv_base::copied::Copied;
use bv_base::memory::NoMemory;
use bv_base::seq::Seq;
use lin_facts::row::Row;
use std::alloc::Global;
use straight_proofs::Search;
use sym_state::Matching;
use sym_state::entails::entails;
use sym_state::piece::Piece;
use sym_state::state::State;

/// Whether a case has fewer rows than before, and the cases.
#[derive(Drop)]
pub struct Lowered {
    pub lower: bool,
    pub added: Seq<Added>,
}

/// Added cases without the rows that have no proof in some of the states of their skeletons.
pub(crate) fn lower_all(
    alloc: Global,
    cond: &Cond,
    turned: &[State],
    added: &[Added],
) -> Result<Lowered, NoMemory>
    requires turned { All HasBounds turned.now }
    requires made { All rule.IsMade added.now }
    ensures after { IfOk result (λ after. after ≡ record {
      lower = list_any (rule.is_lower cond.now turned.now) added.now;
      added = map (rule.lowered cond.now turned.now) added.now;
    }) }
    ensures made { IfOk result (λ after. All rule.IsMade after.added) }
{
    let mut after = Lowered {
        lower: false,
        added: Seq::new(alloc),
    };
    for one in added {
        lower(alloc, cond, turned, &mut after, one)?;
    }
    Ok(after)
}

/// Adds one of them.
fn lower(
    alloc: Global,
    cond: &Cond,
    turned: &[State],
    after: &mut Lowered,
    one: &Added,
) -> Result<(), NoMemory>
    requires turned { All HasBounds turned.now }
    requires made { rule.IsMade one.now }
    ensures { OnOk result (after.new ≡ record {
      lower = after.old.lower || rule.is_lower cond.now turned.now one.now;
      added = after.old.added ++ rule.lowered cond.now turned.now one.now ∷ [];
    }) }
{
    let rows = rows_left(alloc, cond, turned, one)?;
    after.lower = after.lower || rows.len() < one.case.rows.as_slice().len();
    after.added.push(added_with(alloc, one, rows)?)?;
    Ok(())
}

/// The rows of an added case that have a straight proof in each of the states of its skeleton.
fn rows_left(
    alloc: Global,
    cond: &Cond,
    turned: &[State],
    one: &Added,
) -> Result<Vec<Row>, NoMemory>
    requires turned { All HasBounds turned.now }
    requires made { rule.IsMade one.now }
    ensures { IfOk result (λ rows. rows.items ≡ (rule.lowered cond.now turned.now one.now).case.rows) }
{
    let states = states_of(alloc, one.bones.as_slice(), turned)?;
    proved_rows(alloc, cond, &one.case, states.as_slice())
}

/// The rows of a case that have a straight proof in each of some states.
fn proved_rows(
    alloc: Global,
    cond: &Cond,
    case: &Piece,
    states: &[&State],
) -> Result<Vec<Row>, NoMemory>
    requires states { All (rule.CanMatch (length case.now.stack)) (map (λ state. state.now) states.now) }
    requires rows { All IsBounded case.now.rows }
    ensures { IfOk result (λ rows. rows.items ≡ rule.proved_rows cond.now case.now (map (λ state. state.now) states.now) case.now.rows) }
{
    let rows = case.rows.as_slice();
    let proved = proved_in_all(alloc, cond, case, rows, states)?;
    marked_rows(alloc, rows, proved.as_slice())
}

/// Whether each of some rows over the symbols of a case has a straight proof in each of some states. It takes one state after the
/// other, with one search for all rows.
pub(crate) fn proved_in_all(
    alloc: Global,
    cond: &Cond,
    case: &Piece,
    rows: &[Row],
    states: &[&State],
) -> Result<Vec<bool>, NoMemory>
    requires states { All (rule.CanMatch (length case.now.stack)) (map (λ state. state.now) states.now) }
    requires rows { All IsBounded rows.now }
    ensures { IfOk result (λ proved. proved.items
        ≡ map (λ row. list_all (rule.is_proved cond.now case.now row) (map (λ state. state.now) states.now)) rows.now) }
{
    let mut proved = all_marked(alloc, rows)?;
    for state in states {
        mark_proved(alloc, cond, case, state, rows, proved.as_mut_slice())?;
    }
    Ok(proved)
}

/// A mark for each of some rows.
fn all_marked(alloc: Global, rows: &[Row]) -> Result<Vec<bool>, NoMemory>
    ensures { IfOk result (λ marks. marks.items ≡ map (λ _. true) rows.now) }
{
    Ok(rows.iter().map(|_| true).collect(alloc)?)
}

/// Keeps the marks of the rows that have a straight proof in a state. A row without a mark isn't looked at.
fn mark_proved(
    alloc: Global,
    cond: &Cond,
    case: &Piece,
    state: &State,
    rows: &[Row],
    marks: &mut [bool],
) -> Result<(), NoMemory>
    requires state { HasBounds state.now }
    requires stack { length case.now.stack ≤ length state.now.stack }
    requires rows { All IsBounded rows.now }
    requires marks { length marks.old ≡ length rows.now }
    ensures { (before : Row → Bool) → marks.old ≡ map before rows.now
        → OnOk result (marks.new ≡ map (λ row. before row && rule.is_proved cond.now case.now row state.now) rows.now) }
{
    let matching = Matching::new(alloc, state, case, 0)?;
    let mut search = Search::new(alloc, state, cond)?;
    for (k, row) in rows.iter().enumerate() {
        marks[k] = is_still_proved(alloc, &mut search, &matching, row, marks[k])?;
    }
    Ok(())
}

/// Whether a row with a mark has a straight proof in a state, its symbols matched.
fn is_still_proved(
    alloc: Global,
    search: &mut Search<'_>,
    matching: &Matching,
    row: &Row,
    marked: bool,
) -> Result<bool, NoMemory>
    requires { IsBounded row.now }
    ensures proved { IfOk result (λ proved. proved
        ≡ (marked && is_some (straight.straight_proof search.old.cond search.old.state (row_renamed (matched_by matching.now) row.now)))) }
    ensures stays { search.new ≡ search.old }
{
    if !marked {
        return Ok(false);
    }
    let goal = matching.row(alloc, row)?;
    let found = search.straight_proof(&goal)?;
    Ok(found.is_some())
}

/// The rows that have a mark.
pub(crate) fn marked_rows(alloc: Global, rows: &[Row], marks: &[bool]) -> Result<Vec<Row>, NoMemory>
    requires { length marks.now ≡ length rows.now }
    ensures { (test : Row → Bool) → marks.now ≡ map test rows.now → IfOk result (λ left. left.items ≡ filter test rows.now) }
{
    let mut left = Vec::new(alloc);
    for (k, row) in rows.iter().enumerate() {
        if marks[k] {
            left.push(row.copied(alloc)?)?;
        }
    }
    Ok(left)
}

/// Whether a state entails, but for the rows, an added case of its skeleton.
pub(crate) fn is_met(cond: &Cond, added: &[Added], state: &State) -> Result<bool, NoMemory>
    requires state { HasBounds state.now }
    requires made { All rule.IsMade added.now }
    ensures { IfOk result (λ met. met ≡ rule.is_met cond.now added.now state.now) }
{
    for one in added {
        if is_met_by(cond, one, state)? {
            return Ok(true);
        }
    }
    Ok(false)
}

/// Whether it does so by one of them.
fn is_met_by(cond: &Cond, one: &Added, state: &State) -> Result<bool, NoMemory>
    requires state { HasBounds state.now }
    requires made { rule.IsMade one.now }
    ensures { IfOk result (λ met. met ≡ (same_skeleton one.now.bones (skeleton_of state.now) && rule.agrees_with cond.now state.now one.now.case)) }
{
    let alloc = state.alloc();
    if has_skeleton(alloc, state, one.bones.as_slice())? {
        agrees_with(alloc, cond, state, &one.case)
    } else {
        Ok(false)
    }
}

/// Whether the places and facts of a case hold in a state.
fn agrees_with(alloc: Global, cond: &Cond, state: &State, case: &Piece) -> Result<bool, NoMemory>
    requires state { HasBounds state.now }
    requires lines { line_count case.now ≤ 2147483648 }
    ensures { IfOk result (λ agrees. agrees ≡ rule.agrees_with cond.now state.now case.now) }
{
    let bare = case_with(alloc, case, Vec::new(alloc))?;
    let line = entails(alloc, state, cond, &bare, 0, &[])?;
    Ok(line.is_none())
}
