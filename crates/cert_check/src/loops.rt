//! `while$`: a loop is used (docs/CHECKER.md, "The walk").

ghost use Rattle.std.specs.Prelude.{◌≡◌, ◌≤◌, ◌+◌, ◌*◌, ◌&&◌, Ok, IfOk, IfSome, OnOk, length, option_map, slice_get};
ghost use Rattle.sym_state.specs.Demands.{two_of, without};
ghost use Rattle.sym_state.specs.declared.symbol.Kinds.TheVariants.{Func as FuncKind};
ghost use Rattle.cert_check.specs.Courses as courses;
ghost use Rattle.cert_check.specs.Subjects.{All, AnswersAt, CanEnd, CanWalk, GoesOn, HasBounds, HasRoom, IsLoopOf, Takes, here};
ghost use Rattle.cert_check.specs.Uses.{around};
ghost use Rattle.cert_check.specs.Walks as rule;

use crate::at::At;
use crate::choice::While;
use crate::course::{Course, held, placed, refuse};
use crate::making::Loops;
use crate::refusal::{Reason, Refusal, Walk};
use crate::scope::is_target;
use crate::summaries::leaves;
use crate::targets::exact_target;
use crate::uses::{Came, Passage};
use bst_meaning::value::Target;
use bv_base::place::Place;
use cert_format::cert::Loop;
use sym_state::hint::Hint;
use sym_state::operands::two;
use sym_state::piece::Piece;
use sym_state::state::State;
use sym_state::symbol::{Kinds, Sym};

/// `while$`: the test and, on top of it, the body. Both have to be known exactly, before the hint is looked at.
pub(crate) fn repeated<M: Loops>(at: &At<'_, M>, state: &State, course: &mut Course<'_>) -> Walk
    requires sound { CanWalk at.now.scope.now (M.style at.now.maker.now) (M.made at.now.maker.now) }
    requires room { HasRoom at.now.scope.now.style 65 course.old.count state.now }
    ensures takes { Takes (rule.repeated (here M.made at.now) at.now.place state.now course.old) course.new result }
{
    let (lower, upper, rest) = two_functions(at.place, state)?;
    let test = exact_target(at.scope, state, lower);
    let body = exact_target(at.scope, state, upper);
    loop_around(at, test, body, rest, course)
}

/// The two functions, the lower one first, and the state without them.
pub(crate) fn two_functions(place: Place, state: &State) -> Result<(Sym, Sym, State), Refusal>
    ensures two { GoesOn (courses.placed place (two_of FuncKind FuncKind state.now)) (λ p. Ok (record { lower = p.0; upper = p.1; rest = p.2 })) result }
    ensures rest { IfOk result (λ p. p.2 ≡ without 2 state.now) }
{
    let (lower, upper) = placed(place, two(state, Kinds::Func, Kinds::Func))?;
    let rest = held(place, state.without(2))?;
    Ok((lower, upper, rest))
}

/// Both functions have to be known exactly, before the hint is looked at.
fn loop_around<M: Loops>(
    at: &At<'_, M>,
    test: Option<Target>,
    body: Option<Target>,
    rest: State,
    course: &mut Course<'_>,
) -> Walk
    requires sound { CanWalk at.now.scope.now (M.style at.now.maker.now) (M.made at.now.maker.now) }
    requires bounds { HasBounds rest }
    requires room { rest.next + 65 ≤ 2147483648 + 65 * course.old.count }
    ensures takes { Takes (rule.loop_around (here M.made at.now) at.now.place test body rest course.old) course.new result }
{
    match (test, body) {
        (Some(test), Some(body)) => loop_by(at, &While { test, body, rest }, course),
        _ => refuse(at.place, Reason::UnknownFunction),
    }
}

/// The next hint names a loop.
fn loop_by<M: Loops>(at: &At<'_, M>, one: &While, course: &mut Course<'_>) -> Walk
    requires sound { CanWalk at.now.scope.now (M.style at.now.maker.now) (M.made at.now.maker.now) }
    requires bounds { HasBounds one.now.rest }
    requires room { one.now.rest.next + 65 ≤ 2147483648 + 65 * course.old.count }
    ensures takes { Takes (rule.loop_by (here M.made at.now) at.now.place one.now.test one.now.body one.now.rest course.old course.old.hints) course.new result }
{
    match course.next_hint() {
        Some(Hint::Loop(k)) => loop_of(at, one, *k, course),
        Some(_) => refuse(at.place, Reason::WrongHint),
        None => refuse(at.place, Reason::HintsShort),
    }
}

/// The loop of a number is used, where it is one of the two functions.
fn loop_of<M: Loops>(at: &At<'_, M>, one: &While, k: u32, course: &mut Course<'_>) -> Walk
    requires sound { CanWalk at.now.scope.now (M.style at.now.maker.now) (M.made at.now.maker.now) }
    requires bounds { HasBounds one.now.rest }
    requires room { one.now.rest.next ≤ 2212483648 }
    ensures takes { Takes (rule.loop_of (here M.made at.now) at.now.place one.now.test one.now.body (slice_get at.now.scope.now.cert.loops k) one.now.rest course.old)
        course.new result }
{
    match at.scope.repetition(k) {
        Some(found) if is_loop_of(one, found) => loop_used(at, found, &one.rest, course),
        _ => refuse(at.place, Reason::NoInvariant),
    }
}

/// Whether a loop is that of two functions.
pub(crate) fn is_loop_of(one: &While, found: &Loop) -> bool
    ensures { result ≡ (rule.is_target found.now.test one.now.test && rule.is_target found.now.body one.now.body) }
{
    is_target(found.test, one.test) && is_target(found.body, one.body)
}

/// A loop is used in a state without its two functions: a case is entailed, and the exits act as posts that share no symbol
/// with it.
fn loop_used<M: Loops>(at: &At<'_, M>, one: &Loop, state: &State, course: &mut Course<'_>) -> Walk
    requires one { IsLoopOf at.now.scope.now.style one.now }
    requires bounds { HasBounds state.now }
    requires room { state.now.next ≤ 2212483648 }
    ensures takes { Takes (rule.loop_used (here M.made at.now) at.now.place one.now state.now course.old) course.new result }
{
    let unit = Passage::around(one);
    let case = comes_to(at, &unit, one.cases.as_slice(), state, course)?;
    leaves_loop(at, one, case, state, course)
}

/// A loop is left that a state came to by a case.
pub(crate) fn leaves_loop<M: Loops>(
    at: &At<'_, M>,
    one: &Loop,
    case: &Piece,
    state: &State,
    course: &mut Course<'_>,
) -> Walk
    requires one { IsLoopOf at.now.scope.now.style one.now }
    requires stack { length case.now.stack ≤ length state.now.stack }
    requires room { state.now.next ≤ 2212483648 }
    ensures takes { Takes (rule.leaves (here M.made at.now) at.now.place (around one.now) case.now one.now.exits 0 state.now course.old) course.new result }
{
    let unit = Passage::around(one);
    let came = Came {
        style: at.scope.style(),
        cond: at.scope.cond(),
        unit: &unit,
        pre: case,
        kept: 0,
        state,
    };
    leaves(at, &came, one.exits.as_slice(), course)
}

/// A state comes to a loop by a case, whose number among those of the loop is the next hint.
fn comes_to<'p, M: Loops>(
    at: &At<'_, M>,
    unit: &Passage<'_>,
    cases: &'p [Piece],
    state: &State,
    course: &mut Course<'_>,
) -> Result<&'p Piece, Refusal>
    requires cases { All CanEnd cases.now }
    requires bounds { HasBounds state.now }
    ensures comes { AnswersAt at.now.place (rule.comes_to unit.now at.now.scope.now.cert.cond cases.now state.now course.old.hints)
        (λ case. record { case = case.now; hints = course.new.hints }) result }
    ensures rest { OnOk result (course.new ≡ record course.old { hints = course.new.hints }) }
    ensures few { IfOk result (λ case. length case.now.stack ≤ length state.now.stack) }
{
    match course.next_hint() {
        Some(Hint::Case(k)) => comes_by_case(at, unit, cases.get(*k as usize), state, course),
        Some(_) => refuse(at.place, Reason::WrongHint),
        None => refuse(at.place, Reason::HintsShort),
    }
}

/// A state comes to a loop by a case.
fn comes_by_case<'p, M: Loops>(
    at: &At<'_, M>,
    unit: &Passage<'_>,
    case: Option<&'p Piece>,
    state: &State,
    course: &mut Course<'_>,
) -> Result<&'p Piece, Refusal>
    requires case { IfSome case (λ found. CanEnd found.now) }
    requires bounds { HasBounds state.now }
    ensures comes { AnswersAt at.now.place (rule.comes_by_case unit.now at.now.scope.now.cert.cond (option_map (λ found. found.now) case.entry) state.now course.old.hints)
        (λ come. record { case = come.now; hints = course.new.hints }) result }
    ensures rest { OnOk result (course.new ≡ record course.old { hints = course.new.hints }) }
    ensures few { IfOk result (λ come. length come.now.stack ≤ length state.now.stack) }
{
    match case {
        Some(case) => {
            course.comes(at, unit, case, state)?;
            Ok(case)
        }
        None => refuse(at.place, Reason::NotEntailed(0)),
    }
}
