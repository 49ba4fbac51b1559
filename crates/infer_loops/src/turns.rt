//! Turns of a loop from the cases of a candidate.

ghost use Rattle.std.specs.Prelude.{◌≡◌, ◌≢◌, None, IfOk, IfSome, OnOk};
ghost use Rattle.std.specs.List.{All};
ghost use Rattle.cert_check.specs.Certified.{IsPieceOf};
ghost use Rattle.cert_check.specs.Given.{Takes};
ghost use Rattle.cert_check.specs.Tours as tours;
ghost use Rattle.cert_check.specs.Units as units;
ghost use Rattle.cert_check.specs.declared.refusal.Reason.TheVariants.{NoMemory as WantOfMemory};
ghost use Rattle.infer_loops.specs.Invariants as rule;

use bv_base::memory::NoMemory;
use cert_check::refusal::{Reason, Refusal, Walk};
use cert_check::{Checker, Tour, Turning};
use loop_templates::{Added, Candidate};
use std::alloc::Global;
use std::marker::Model;
use straight_hints::Finding;
use sym_state::piece::Piece;

/// A candidate is walked. `None` comes where its walk fails.
#[tactic(auto, using(crate::proofs::NextTurns::none_toured, crate::proofs::NextTurns::none_ends))]
pub(crate) fn toured<'t>(
    alloc: Global,
    checker: &Checker<'_>,
    one: Turning,
    candidate: &Candidate,
) -> Result<Option<Tour<'t>>, NoMemory>
    requires first { All (IsPieceOf checker.now.style one.entry) candidate.now.first }
    requires added { All (λ added. IsPieceOf checker.now.style one.entry added.case) candidate.now.added }
    ensures tour { IfOk result (λ tour. tour ≡ rule.toured checker.now.style checker.now.cert one candidate.now) }
    ensures ends { IfOk result (λ tour. IfSome tour (tours.HasEnds checker.now.style)) }
{
    let mut tour = Tour::new(alloc, Finding::Straight);
    match turns_from(checker, one, candidate, &mut tour) {
        Ok(()) => Ok(Some(tour)),
        Err(refusal) => ended(refusal),
    }
}

/// Where a walk fails the sequence ends, but for want of memory.
fn ended<'t>(refusal: Refusal) -> Result<Option<Tour<'t>>, NoMemory>
    ensures { IfOk result (λ tour. (tour ≡ None) × (refusal.reason ≢ WantOfMemory)) }
{
    match refusal.reason {
        Reason::NoMemory => Err(NoMemory),
        _ => Ok(None),
    }
}

/// A turn from each case of a candidate.
fn turns_from(
    checker: &Checker<'_>,
    one: Turning,
    candidate: &Candidate,
    tour: &mut Tour<'_>,
) -> Walk
    requires first { All (IsPieceOf checker.now.style one.entry) candidate.now.first }
    requires added { All (λ added. IsPieceOf checker.now.style one.entry added.case) candidate.now.added }
    requires none { tours.GivesNone tour.old }
    ensures takes { Takes (tours.turns_of (units.everywhere checker.now.style checker.now.cert) one (rule.cases_of candidate.now) tour.old) tour.new result }
    ensures keeps { OnOk result (tours.KeepsTour checker.now.style tour.old tour.new) }
{
    turns_of(checker, one, candidate.first.as_slice(), tour)?;
    turns_added(checker, one, candidate.added.as_slice(), tour)
}

/// A turn from each of these cases.
fn turns_of(checker: &Checker<'_>, one: Turning, cases: &[Piece], tour: &mut Tour<'_>) -> Walk
    requires cases { All (IsPieceOf checker.now.style one.entry) cases.now }
    requires none { tours.GivesNone tour.old }
    ensures takes { Takes (tours.turns_of (units.everywhere checker.now.style checker.now.cert) one cases.now tour.old) tour.new result }
    ensures keeps { OnOk result (tours.KeepsTour checker.now.style tour.old tour.new) }
{
    for case in cases {
        checker.find_turn(one, case, tour)?;
    }
    Ok(())
}

/// A turn from each of these cases, which were added.
fn turns_added(checker: &Checker<'_>, one: Turning, added: &[Added], tour: &mut Tour<'_>) -> Walk
    requires added { All (λ added. IsPieceOf checker.now.style one.entry added.case) added.now }
    requires none { tours.GivesNone tour.old }
    ensures takes { Takes (tours.turns_of (units.everywhere checker.now.style checker.now.cert) one (rule.added_cases added.now) tour.old) tour.new result }
    ensures keeps { OnOk result (tours.KeepsTour checker.now.style tour.old tour.new) }
{
    for one_added in added {
        checker.find_turn(one, &one_added.case, tour)?;
    }
    Ok(())
}
