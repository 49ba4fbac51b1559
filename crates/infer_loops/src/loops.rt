//! The loop of a candidate that passes, with its exits and its hints.

ghost use Rattle.std.specs.Prelude.{◌≡◌, ◌+◌, ◌≤◌, ◌++◌, flat_map, length, map, IfOk, OnOk};
ghost use Rattle.std.specs.List.{All, list_all};
ghost use Rattle.name_table.specs.Sound.{Each};
ghost use Rattle.cert_format.specs.CertText.{IsHint};
ghost use Rattle.cert_check.specs.Tours.{HasEnds, IsEnded};
ghost use Rattle.loop_templates.specs.Candidates.{IsMade, is_short};
ghost use Rattle.loop_templates.specs.Cases.{IsFrame};
ghost use Rattle.infer_loops.specs.Invariants as rule;

use crate::ends::ended_states;
use bv_base::memory::NoMemory;
use bv_base::seq::Seq;
use cert_check::{Ended, Tour, Turning};
use cert_format::cert::Loop;
use loop_templates::limits::{MOST_ITEMS, MOST_PIECES};
use loop_templates::{Added, Candidate, Frame, entailing_one, exits_of};
use name_table::names::NameId;
use std::alloc::Global;
use std::marker::Model;
use sym_state::hint::Hint;
use sym_state::piece::Piece;

/// The loop of a candidate that passes, where it is within the limits.
#[tactic(auto, using(crate::proofs::FewCases::few_cases))]
pub(crate) fn loop_of(
    alloc: Global,
    frame: &Frame<'_>,
    one: Turning,
    candidate: Candidate,
    tour: Tour<'_>,
) -> Result<Option<Loop>, NoMemory>
    requires frame { IsFrame frame.now }
    requires made { All IsMade candidate.added }
    requires ends { HasEnds frame.now.style tour }
    ensures { IfOk result (λ found. found ≡ rule.loop_of frame.now one candidate tour.entry) }
{
    let left = ended_states(alloc, false, tour.ends.as_slice())?;
    let exits = exits_of(alloc, frame, left.as_slice())?;
    let shown = exits.as_slice();
    if may_be_written(&candidate, shown) {
        let hints = hints_of(alloc, frame, &candidate, shown, tour)?;
        Ok(Some(loop_with(alloc, frame, one, candidate, exits, hints)?))
    } else {
        Ok(None)
    }
}

/// Whether cases and exits may be written together.
fn may_be_written(candidate: &Candidate, exits: &[Added]) -> bool
    ensures { result ≡ rule.may_be_written candidate.now exits.now }
{
    let cases = candidate
        .first
        .as_slice()
        .len()
        .saturating_add(candidate.added.as_slice().len());
    cases.saturating_add(exits.len()) <= MOST_PIECES && are_short(exits)
}

/// Whether the stacks of cases are no longer than those of pieces.
fn are_short(added: &[Added]) -> bool
    ensures { result ≡ list_all (λ one. is_short one.case.stack) added.now }
{
    added
        .iter()
        .all(|one| one.case.stack.as_slice().len() <= MOST_ITEMS)
}

/// The loop of a candidate with these exits and hints.
fn loop_with(
    alloc: Global,
    frame: &Frame<'_>,
    one: Turning,
    candidate: Candidate,
    exits: Vec<Added>,
    hints: Vec<Hint>,
) -> Result<Loop, NoMemory>
    ensures { IfOk result (λ found. found ≡ rule.loop_with frame.now one candidate exits.items hints.items) }
{
    Ok(Loop {
        test: one.test,
        body: one.body,
        entry: one.entry,
        whole: one.whole,
        writes: Seq::from_vec(frame.writes.to_vec(alloc)?),
        cases: Seq::from_vec(cases_of(candidate)?),
        exits: Seq::from_vec(pieces_of(alloc, exits)?),
        hints: Seq::from_vec(hints),
    })
}

/// The cases of a candidate, in their order.
fn cases_of(candidate: Candidate) -> Result<Vec<Piece>, NoMemory>
    ensures { IfOk result (λ cases. cases.items ≡ rule.cases_of candidate) }
{
    let Candidate { first, added } = candidate;
    let mut cases = first.into_vec();
    for one in added.into_vec() {
        cases.push(one.case)?;
    }
    Ok(cases)
}

/// The cases that were added.
fn pieces_of(alloc: Global, added: Vec<Added>) -> Result<Vec<Piece>, NoMemory>
    ensures { IfOk result (λ pieces. pieces.items ≡ map (λ one. one.case) added.items) }
{
    let mut pieces = Vec::new(alloc);
    for one in added {
        pieces.push(one.case)?;
    }
    Ok(pieces)
}

/// The hints of the loop, in the order in which its check takes them.
fn hints_of(
    alloc: Global,
    frame: &Frame<'_>,
    candidate: &Candidate,
    exits: &[Added],
    tour: Tour<'_>,
) -> Result<Vec<Hint>, NoMemory>
    requires made { All IsMade candidate.now.added }
    requires exits { All IsMade exits.now }
    requires few { (length candidate.now.first + length candidate.now.added) + length exits.now ≤ MOST_PIECES }
    requires ends { HasEnds frame.now.style tour }
    ensures hints { IfOk result (λ hints. hints.items ≡ rule.hints_of frame.now candidate.now exits.now tour.entry) }
    ensures written { IfOk result (λ hints. Each IsHint hints.items) }
{
    let mut tour = tour;
    let mut last = tour.take_found();
    let mut hints = Vec::new(alloc);
    for end in tour.ends.into_vec() {
        push_hints(alloc, &mut hints, frame, candidate, exits, end)?;
    }
    hints.append(&mut last)?;
    Ok(hints)
}

/// Adds the hints at an end: those found before it, and those by which its state entails a case or an exit.
fn push_hints(
    alloc: Global,
    hints: &mut Vec<Hint>,
    frame: &Frame<'_>,
    candidate: &Candidate,
    exits: &[Added],
    end: Ended,
) -> Result<(), NoMemory>
    requires made { All IsMade candidate.now.added }
    requires exits { All IsMade exits.now }
    requires few { (length candidate.now.first + length candidate.now.added) + length exits.now ≤ MOST_PIECES }
    requires end { IsEnded frame.now.style end }
    requires written { Each IsHint hints.old.items }
    ensures hints { OnOk result (hints.new.items ≡ hints.old.items ++ rule.hints_at_end frame.now candidate.now exits.now end) }
    ensures written { OnOk result (Each IsHint hints.new.items) }
{
    let mut shown = shown_at_end(alloc, frame, candidate, exits, &end)?;
    let mut found = end.hints.into_vec();
    hints.append(&mut found)?;
    hints.append(&mut shown)?;
    Ok(())
}

/// The hints by which the state at an end entails a case or an exit.
fn shown_at_end(
    alloc: Global,
    frame: &Frame<'_>,
    candidate: &Candidate,
    exits: &[Added],
    end: &Ended,
) -> Result<Vec<Hint>, NoMemory>
    requires made { All IsMade candidate.now.added }
    requires exits { All IsMade exits.now }
    requires few { (length candidate.now.first + length candidate.now.added) + length exits.now ≤ MOST_PIECES }
    requires end { IsEnded frame.now.style end.now }
    ensures hints { IfOk result (λ hints. hints.items ≡ rule.shown_at_end frame.now candidate.now exits.now end.now) }
    ensures written { IfOk result (λ hints. Each IsHint hints.items) }
{
    if end.turned {
        let first = candidate.first.as_slice().len() as u32;
        entailing_one(
            alloc,
            frame.admits,
            &end.state,
            first,
            candidate.added.as_slice(),
        )
    } else {
        entailing_one(alloc, frame.admits, &end.state, 0, exits)
    }
}
