//! Candidates in sequence, until one passes (docs/ANALYSER.md, "Loops").

ghost use Rattle.std.specs.Prelude.{◌≡◌, ◌≤◌, Option, length, IfOk};
ghost use Rattle.std.specs.List.{All};
ghost use Rattle.cert_check.specs.Tours.{HasEnds};
ghost use Rattle.cert_format.specs.declared.cert.Loop.{Loop as LoopOf};
ghost use Rattle.loop_templates.specs.Candidates.{HasCases};
ghost use Rattle.loop_templates.specs.Cases.{IsFrame};
ghost use Rattle.loop_templates.specs.declared.candidates.Candidate.{Candidate as CandidateOf};
ghost use Rattle.sym_state.specs.WellMade.{WellMade};
ghost use Rattle.infer_loops.specs.Invariants as rule;

use crate::ends::ended_states;
use crate::frames::{occurring_in, sums_in, turning, written_in};
use crate::limits::MOST_CANDIDATES;
use crate::loops::loop_of;
use crate::turns::toured;
use bst_meaning::value::Target;
use bv_base::memory::NoMemory;
use cert_check::{Checker, Tour, Turning};
use cert_format::cert::Loop;
use loop_templates::{Bound, Candidate, Frame, Next, first_candidate, next_after};
use std::alloc::Global;
use std::marker::Model;
use sym_state::state::State;

/// What comes of a candidate that was walked.
#[derive(Drop)]
pub(crate) enum Step {
    /// The sequence ends, with a loop where the candidate passes.
    Settled(Option<Loop>),
    /// The next candidate is walked.
    Onward(Candidate),
}

/// The invariant of the loop on two functions that some states enter: its cases, its exits and the hints by which they are shown, where
/// one is found. `None` comes exactly where the sequence of candidates ends without one that passes. The checker is that of a
/// certificate which has the condition and no unit: a `while$` or a function with a summary ends the sequence.
pub fn invariant(
    alloc: Global,
    checker: &Checker<'_>,
    test: Target,
    body: Target,
    entering: &[State],
) -> Result<Option<Loop>, NoMemory>
    requires some { 1 ≤ length entering.now }
    requires made { All (WellMade checker.now.style) entering.now }
    ensures { IfOk result (λ found. found ≡ rule.invariant_of checker.now.style checker.now.cert test body entering.now) }
{
    let one = turning(test, body, entering);
    let style = checker.style();
    let admits = checker.cond();
    let found = occurring_in(alloc, style, admits, one)?;
    let writes = written_in(alloc, style, one, &found)?;
    let sums = sums_in(alloc, style, one, &found)?;
    let frame = Frame {
        style,
        admits,
        whole: one.whole,
        at_entry: one.entry,
        has_pos: one.entry,
        bound: Bound {
            globals: true,
            entry: one.entry,
        },
        writes: writes.as_slice(),
        sums: sums.as_slice(),
        entering,
    };
    found_in(alloc, checker, &frame, one)
}

/// The loop that is found in a frame: that of the first candidate that passes.
fn found_in(
    alloc: Global,
    checker: &Checker<'_>,
    frame: &Frame<'_>,
    one: Turning,
) -> Result<Option<Loop>, NoMemory>
    requires style { frame.now.style ≡ checker.now.style }
    requires entry { frame.now.at_entry ≡ one.entry }
    requires frame { IsFrame frame.now }
    ensures { IfOk result (λ found. found ≡ rule.found_in checker.now.cert frame.now one) }
{
    let Some(first) = first_candidate(alloc, frame)? else {
        return Ok(None);
    };
    let mut candidate = first;
    for _ in 0..MOST_CANDIDATES {
        match stepped(alloc, checker, frame, one, candidate)? {
            Step::Settled(found) => return Ok(found),
            Step::Onward(next) => candidate = next,
        }
    }
    Ok(None)
}

/// What comes of a candidate, which is walked.
fn stepped(
    alloc: Global,
    checker: &Checker<'_>,
    frame: &Frame<'_>,
    one: Turning,
    candidate: Candidate,
) -> Result<Step, NoMemory>
    requires style { frame.now.style ≡ checker.now.style }
    requires entry { frame.now.at_entry ≡ one.entry }
    requires frame { IsFrame frame.now }
    requires candidate { HasCases frame.now candidate }
    ensures comes { (later : CandidateOf → Option LoopOf)
        → IfOk result (λ step. rule.walked_by frame.now one candidate later (rule.toured frame.now.style checker.now.cert one candidate) ≡ rule.gone_on later step) }
    ensures goes { IfOk result (rule.CanGoOn frame.now) }
{
    match toured(alloc, checker, one, &candidate)? {
        Some(tour) => settled(alloc, frame, one, candidate, tour),
        None => Ok(Step::Settled(None)),
    }
}

/// What comes of one that was walked to its end.
fn settled(
    alloc: Global,
    frame: &Frame<'_>,
    one: Turning,
    candidate: Candidate,
    tour: Tour<'_>,
) -> Result<Step, NoMemory>
    requires frame { IsFrame frame.now }
    requires candidate { HasCases frame.now candidate }
    requires ends { HasEnds frame.now.style tour }
    ensures comes { (later : CandidateOf → Option LoopOf)
        → IfOk result (λ step. rule.settled_by frame.now one candidate tour.entry later (rule.next_of frame.now candidate tour.entry) ≡ rule.gone_on later step) }
    ensures goes { IfOk result (rule.CanGoOn frame.now) }
{
    let turned = ended_states(alloc, true, tour.ends.as_slice())?;
    match next_after(alloc, frame, &candidate, turned.as_slice())? {
        Next::Passes => Ok(Step::Settled(loop_of(alloc, frame, one, candidate, tour)?)),
        Next::Ends => Ok(Step::Settled(None)),
        Next::Goes(next) => Ok(Step::Onward(next)),
    }
}
