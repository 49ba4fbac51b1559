//! Candidates of a loop (docs/ANALYSER.md, "Loops").

ghost use Rattle.std.specs.Prelude.{◌≡◌, ◌<◌, ◌++◌, [], map, true, IfOk, IfSome, OnOk};
ghost use Rattle.std.specs.List.{All, list_all};
ghost use Rattle.loop_templates.specs.Candidates as rule;
ghost use Rattle.loop_templates.specs.Cases as cases;
ghost use Rattle.loop_templates.specs.Skeletons as skeletons;
ghost use Rattle.loop_templates.specs.Subjects.{HasBounds, WellMade};

use crate::cases::{Frame, case_of, entering_case};
use crate::copies::cases_copied;
use crate::limits::{MOST_ADDED, MOST_ITEMS, MOST_PIECES};
use crate::lowering::{Lowered, is_met, lower_all};
use crate::skeletons::{Bone, same_skeleton, skeleton};
use bst_meaning::condition::Cond;
use bv_base::copied::Copied;
use bv_base::memory::NoMemory;
use bv_base::seq::Seq;
use std::alloc::Global;
use sym_state::piece::Piece;
use sym_state::state::State;

/// A case that was added for a skeleton.
#[derive(Drop)]
pub struct Added {
    pub bones: Seq<Bone>,
    pub case: Piece,
}

/// The cases of the states that enter, and behind them those that were added.
#[derive(Drop)]
pub struct Candidate {
    pub first: Seq<Piece>,
    pub added: Seq<Added>,
}

/// What follows a candidate that was walked.
#[derive(Drop)]
pub enum Next {
    /// It is the loop's.
    Passes,
    /// There is none.
    Ends,
    /// This one is walked.
    Goes(Candidate),
}

/// The first candidate: a case for each state that enters. `None` comes exactly where these are too many, or the stack of one is
/// too long, for a certificate.
pub fn first_candidate(alloc: Global, frame: &Frame<'_>) -> Result<Option<Candidate>, NoMemory>
    requires frame { cases.IsFrame frame.now }
    ensures found { IfOk result (λ found. found ≡ rule.first_candidate frame.now) }
    ensures stand { IfOk result (λ found. IfSome found (rule.HasCases frame.now)) }
{
    first_of(alloc, frame)
}

/// The same.
fn first_of(alloc: Global, frame: &Frame<'_>) -> Result<Option<Candidate>, NoMemory>
    requires frame { cases.IsFrame frame.now }
    ensures { IfOk result (λ found. found ≡ rule.first_candidate frame.now) }
{
    if may_enter(frame.entering) {
        Ok(Some(Candidate {
            first: Seq::from_vec(entering_cases(alloc, frame, frame.entering)?),
            added: Seq::new(alloc),
        }))
    } else {
        Ok(None)
    }
}

/// Whether a certificate may have a case for each of these states.
fn may_enter(states: &[State]) -> bool
    ensures { result ≡ rule.may_enter states.now }
{
    states.len() <= MOST_PIECES && are_short(states)
}

/// Whether the stacks of states are no longer than those of pieces.
fn are_short(states: &[State]) -> bool
    ensures { result ≡ list_all (λ state. rule.is_short state.stack) states.now }
{
    states
        .iter()
        .all(|state| state.stack_len() <= MOST_ITEMS as u64)
}

/// The cases of states that enter.
fn entering_cases(
    alloc: Global,
    frame: &Frame<'_>,
    states: &[State],
) -> Result<Vec<Piece>, NoMemory>
    requires frame { cases.IsFrame frame.now }
    requires states { All (WellMade frame.now.style) states.now }
    ensures { IfOk result (λ pieces. pieces.items ≡ map (cases.entering_case frame.now) states.now) }
{
    let mut pieces = Vec::new(alloc);
    for state in states {
        pieces.push(entering_case(alloc, frame, state)?)?;
    }
    Ok(pieces)
}

/// What follows a candidate, by the states behind its turns.
pub fn next_after(
    alloc: Global,
    frame: &Frame<'_>,
    candidate: &Candidate,
    turned: &[State],
) -> Result<Next, NoMemory>
    requires frame { cases.IsFrame frame.now }
    requires turned { All (WellMade frame.now.style) turned.now }
    requires stand { rule.HasCases frame.now candidate.now }
    ensures next { IfOk result (λ next. next ≡ rule.next_after frame.now candidate.now turned.now) }
    ensures stand { IfOk result (rule.HasNextCases frame.now) }
{
    let new = new_skeletons(alloc, candidate.added.as_slice(), turned)?;
    next_by(alloc, frame, candidate, turned, new)
}

/// What follows a candidate where these skeletons are new.
#[tactic(auto, using(crate::proofs::Made::all_bounded, crate::proofs::Made::by_none, crate::proofs::Made::by_some))]
fn next_by(
    alloc: Global,
    frame: &Frame<'_>,
    candidate: &Candidate,
    turned: &[State],
    new: Vec<Seq<Bone>>,
) -> Result<Next, NoMemory>
    requires frame { cases.IsFrame frame.now }
    requires turned { All (WellMade frame.now.style) turned.now }
    requires made { All rule.IsMade candidate.now.added }
    requires bones { All (All (skeletons.IsBoneOf frame.now.style)) new.items }
    ensures { IfOk result (λ next. next ≡ rule.next_by frame.now candidate.now turned.now new.items) }
{
    if new.len() == 0 {
        settled(alloc, frame.admits, candidate, turned)
    } else {
        grown(alloc, frame, new, turned, candidate)
    }
}

/// A case is added for each of these skeletons, where they may stand.
fn grown(
    alloc: Global,
    frame: &Frame<'_>,
    new: Vec<Seq<Bone>>,
    turned: &[State],
    candidate: &Candidate,
) -> Result<Next, NoMemory>
    requires frame { cases.IsFrame frame.now }
    requires turned { All (WellMade frame.now.style) turned.now }
    requires bones { All (All (skeletons.IsBoneOf frame.now.style)) new.items }
    ensures { IfOk result (λ next. next ≡ rule.grown frame.now candidate.now turned.now new.items) }
{
    if may_grow(candidate, new.as_slice()) {
        let mut added = candidate.added.copied(alloc)?.into_vec();
        push_added(alloc, &mut added, frame, turned, new)?;
        goes(alloc, candidate, Seq::from_vec(added))
    } else {
        Ok(Next::Ends)
    }
}

/// The candidate with these added cases is walked.
fn goes(alloc: Global, candidate: &Candidate, added: Seq<Added>) -> Result<Next, NoMemory>
    ensures { IfOk result (λ next. next ≡ rule.goes candidate.now added) }
{
    let first = cases_copied(alloc, candidate.first.as_slice())?;
    Ok(Next::Goes(Candidate {
        first: Seq::from_vec(first),
        added,
    }))
}

/// Whether these skeletons may have cases.
fn may_grow(candidate: &Candidate, new: &[Seq<Bone>]) -> bool
    ensures { result ≡ rule.may_grow candidate.now new.now }
{
    has_room(candidate, new.len()) && are_all_short(new)
}

/// Whether a candidate has room for so many more.
fn has_room(candidate: &Candidate, more: usize) -> bool
    ensures { result ≡ rule.has_room candidate.now more }
{
    let first = candidate.first.as_slice().len();
    let added = candidate.added.as_slice().len();
    let left = MOST_PIECES.saturating_sub(first).saturating_sub(added);
    more <= MOST_ADDED.saturating_sub(added) && more <= left
}

/// Whether skeletons are no longer than the stacks of pieces.
fn are_all_short(new: &[Seq<Bone>]) -> bool
    ensures { result ≡ list_all rule.is_short new.now }
{
    new.iter().all(|bones| bones.as_slice().len() <= MOST_ITEMS)
}

/// Adds a case for each of these skeletons.
fn push_added(
    alloc: Global,
    added: &mut Vec<Added>,
    frame: &Frame<'_>,
    states: &[State],
    new: Vec<Seq<Bone>>,
) -> Result<(), NoMemory>
    requires frame { cases.IsFrame frame.now }
    requires states { All (WellMade frame.now.style) states.now }
    requires bones { All (All (skeletons.IsBoneOf frame.now.style)) new.items }
    ensures { OnOk result (added.new.items ≡ added.old.items ++ map (rule.added_for frame.now states.now) new.items) }
{
    for bones in new {
        added.push(added_for(alloc, frame, states, bones)?)?;
    }
    Ok(())
}

/// A case of some states for a skeleton.
fn added_for(
    alloc: Global,
    frame: &Frame<'_>,
    states: &[State],
    bones: Seq<Bone>,
) -> Result<Added, NoMemory>
    requires frame { cases.IsFrame frame.now }
    requires states { All (WellMade frame.now.style) states.now }
    requires bones { All (skeletons.IsBoneOf frame.now.style) bones }
    ensures { IfOk result (λ one. one ≡ rule.added_for frame.now states.now bones) }
{
    let case = case_of(alloc, frame, states, bones.as_slice())?;
    Ok(Added { bones, case })
}

/// The skeletons of states that no added case has, each once.
fn new_skeletons(
    alloc: Global,
    added: &[Added],
    states: &[State],
) -> Result<Vec<Seq<Bone>>, NoMemory>
    ensures { IfOk result (λ new. new.items ≡ skeletons.new_skeletons (map (λ one. one.bones) added.now) states.now) }
{
    let mut new = Vec::new(alloc);
    for state in states {
        let bones = skeleton(alloc, state)?;
        push_new(&mut new, added, Seq::from_vec(bones))?;
    }
    Ok(new)
}

/// Adds a skeleton that no added case has and that isn't there.
fn push_new(new: &mut Vec<Seq<Bone>>, added: &[Added], bones: Seq<Bone>) -> Result<(), NoMemory>
    ensures { OnOk result (new.new.items ≡ skeletons.with_new (map (λ one. one.bones) added.now) new.old.items bones) }
{
    if is_known(added, bones.as_slice()) || is_among(new.as_slice(), bones.as_slice()) {
        Ok(())
    } else {
        Ok(new.push(bones)?)
    }
}

/// Whether an added case has a skeleton.
fn is_known(added: &[Added], bones: &[Bone]) -> bool
    ensures { result ≡ skeletons.is_among (map (λ one. one.bones) added.now) bones.now }
{
    for one in added {
        if same_skeleton(bones, one.bones.as_slice()) {
            return true;
        }
    }
    false
}

/// Whether a skeleton is among these.
fn is_among(all: &[Seq<Bone>], bones: &[Bone]) -> bool
    ensures { result ≡ skeletons.is_among all.now bones.now }
{
    for other in all {
        if same_skeleton(bones, other.as_slice()) {
            return true;
        }
    }
    false
}

/// Where no skeleton is new: rows without a proof are left out, and where none is, the candidate passes or ends.
fn settled(
    alloc: Global,
    cond: &Cond,
    candidate: &Candidate,
    turned: &[State],
) -> Result<Next, NoMemory>
    requires turned { All HasBounds turned.now }
    requires made { All rule.IsMade candidate.now.added }
    ensures { IfOk result (λ next. next ≡ rule.settled cond.now candidate.now turned.now) }
{
    let Lowered { lower, added } = lower_all(alloc, cond, turned, candidate.added.as_slice())?;
    if lower {
        goes(alloc, candidate, added)
    } else {
        passes(cond, added.as_slice(), turned)
    }
}

/// The candidate passes where each state behind a turn entails an added case of its skeleton.
fn passes(cond: &Cond, added: &[Added], turned: &[State]) -> Result<Next, NoMemory>
    requires turned { All HasBounds turned.now }
    requires made { All rule.IsMade added.now }
    ensures { IfOk result (λ next. next ≡ rule.passes cond.now added.now turned.now) }
{
    for state in turned {
        if !is_met(cond, added, state)? {
            return Ok(Next::Ends);
        }
    }
    Ok(Next::Passes)
}

/// The exits: a case for each skeleton of the states that leave.
pub fn exits_of(alloc: Global, frame: &Frame<'_>, left: &[State]) -> Result<Vec<Added>, NoMemory>
    requires frame { cases.IsFrame frame.now }
    requires left { All (WellMade frame.now.style) left.now }
    ensures exits { IfOk result (λ exits. exits.items ≡ rule.exits_of frame.now left.now) }
    ensures made { IfOk result (λ exits. All rule.IsMade exits.items) }
    ensures stand { IfOk result (λ exits. All (λ one. rule.is_short one.bones ≡ true → rule.IsCase frame.now one.case) exits.items) }
{
    let new = new_skeletons(alloc, &[], left)?;
    let mut exits = Vec::new(alloc);
    push_added(alloc, &mut exits, frame, left, new)?;
    Ok(exits)
}
