//! How a target is entered: by a summary, or by a walk (docs/CHECKER.md, "The walk" and "Use of a summary").

ghost use Rattle.std.specs.Prelude.{◌≡◌, ◌<◌, ◌≤◌, ◌+◌, if◌then◌else◌, Ok, IfOk, IsTrue, length, slice_get};
ghost use Rattle.std.specs.List.{All, list_all};
ghost use Rattle.sym_state.specs.Starting.{symbols_of as count_of};
ghost use Rattle.cert_check.specs.Subjects.{CanWalk, GoesOn, HasBounds, HasRoom, IsSummaryOf, Takes, here};
ghost use Rattle.cert_check.specs.Walks as rule;

use crate::at::At;
use crate::course::{Course, held, refuse};
use crate::making::Loops;
use crate::refusal::{Reason, Refusal, Walk};
use crate::scope::{Scope, is_target};
use crate::uses::{Came, Passage, left_states};
use bst_meaning::value::Target;
use cert_format::cert::Summary;
use name_table::names::NameId;
use sym_state::hint::Hint;
use sym_state::piece::Piece;
use sym_state::state::State;
use sym_state::symbols_of;

/// Whether a target that is entered is walked. Where it has a summary the next hint tells, and one that is used gives the
/// states of its posts.
pub(crate) fn comes_in<M: Loops>(
    at: &At<'_, M>,
    target: Target,
    state: &State,
    course: &mut Course<'_>,
) -> Result<bool, Refusal>
    requires sound { CanWalk at.now.scope.now (M.style at.now.maker.now) (M.made at.now.maker.now) }
    requires room { HasRoom at.now.scope.now.style 64 course.old.count state.now }
    ensures count { IfOk result (λ walks. IsTrue walks → course.new.count ≡ course.old.count) }
    ensures takes { (walk : rule.Onward) → GoesOn (rule.entered (here M.made at.now) at.now.place target walk state.now course.old)
        (λ walks. if walks then walk state.now course.new else Ok course.new) result }
{
    if !at.scope.has_summary(target) {
        return Ok(true);
    }
    match course.next_hint() {
        Some(Hint::Apply(k)) => {
            use_of(at, target, *k, state, course)?;
            Ok(false)
        }
        Some(Hint::Walk) => Ok(true),
        Some(_) => refuse(at.place, Reason::WrongHint),
        None => refuse(at.place, Reason::HintsShort),
    }
}

/// The summary of a number is used, where it is one of the target.
fn use_of<M: Loops>(
    at: &At<'_, M>,
    target: Target,
    k: u32,
    state: &State,
    course: &mut Course<'_>,
) -> Walk
    requires sound { CanWalk at.now.scope.now (M.style at.now.maker.now) (M.made at.now.maker.now) }
    requires bounds { HasBounds state.now }
    requires room { state.now.next ≤ 2212483648 }
    ensures takes { Takes (rule.use_of (here M.made at.now) at.now.place target (slice_get at.now.scope.now.cert.summaries k) state.now course.old) course.new result }
{
    match at.scope.summary(k) {
        Some(summary) => {
            if is_target(summary.body, target) {
                summary_used(at, summary, state, course)
            } else {
                refuse(at.place, Reason::NoSummary)
            }
        }
        None => refuse(at.place, Reason::NoSummary),
    }
}

/// A summary is used: its pre is entailed first.
fn summary_used<M: Loops>(
    at: &At<'_, M>,
    summary: &Summary,
    state: &State,
    course: &mut Course<'_>,
) -> Walk
    requires summary { IsSummaryOf at.now.scope.now.style summary.now }
    requires bounds { HasBounds state.now }
    requires room { state.now.next ≤ 2212483648 }
    ensures takes { Takes (rule.summary_used (here M.made at.now) at.now.place summary.now state.now course.old) course.new result }
{
    let unit = Passage {
        entry: summary.entry,
        whole: summary.whole,
        writes: summary.writes.as_slice(),
    };
    course.comes(at, &unit, &summary.pre, state)?;
    let came = Came {
        style: at.scope.style(),
        cond: at.scope.cond(),
        unit: &unit,
        pre: &summary.pre,
        kept: symbols_of(&summary.pre) as u32,
        state,
    };
    leaves(at, &came, summary.posts.as_slice(), course)
}

/// A unit is used that a state came to: the unit which is checked may write what this one writes, each of these variables
/// counts, and each of its posts gives one state.
pub(crate) fn leaves<M: Loops>(
    at: &At<'_, M>,
    came: &Came<'_>,
    posts: &[Piece],
    course: &mut Course<'_>,
) -> Walk
    requires style { came.now.style.now ≡ at.now.scope.now.style }
    requires cond { came.now.cond.now ≡ at.now.scope.now.cert.cond }
    requires few { length came.now.unit.now.writes ≤ 65536 }
    requires stack { length came.now.pre.now.stack ≤ length came.now.state.now.stack }
    requires room { All (λ post. came.now.state.now.next + (count_of post + length came.now.unit.now.writes) < 4294967296) posts.now }
    requires names { All (λ name. name.0 < length came.now.style.now.names) came.now.unit.now.writes }
    ensures takes { Takes (rule.leaves (here M.made at.now) at.now.place came.now.unit.now came.now.pre.now posts.now came.now.kept came.now.state.now course.old)
        course.new result }
{
    let unit = came.unit;
    if !may_write_all(at.scope, unit.writes) {
        return refuse(at.place, Reason::NotEntailed(0));
    }
    course.counts(unit.writes.len() as u32, at.place)?;
    let states = held(at.place, left_states(came, posts))?;
    course.gives_all(at.place, states)
}

/// Whether the unit may write all of these variables.
fn may_write_all(scope: &Scope<'_>, writes: &[NameId]) -> bool
    ensures { result ≡ list_all (rule.may_write scope.now.writes) writes.now }
{
    writes.iter().all(|name| scope.may_write(*name))
}
