//! A loop's own check (docs/CHECKER.md, "Units").

ghost use Rattle.std.specs.Prelude.{◌≡◌, ◌≤◌, [], ◌∷◌, Ok, Some, IfOk, MatchResult, OnOk};
ghost use Rattle.sym_state.specs.Starting.{started};
ghost use Rattle.cert_check.specs.Subjects.{All, AreSound, CanWalk, HasRoom, IsLoopOf, IsPieceOf, Takes, here};
ghost use Rattle.cert_check.specs.Units as rule;
ghost use Rattle.cert_check.specs.declared.refusal.Reason.TheVariants.{NoMemory as WantOfMemory};

use crate::at::At;
use crate::course::{Course, held};
use crate::limits::MOST_DEPTH;
use crate::making::{Loops, Unmade};
use crate::refusal::{Refusal, Walk};
use crate::scope::Scope;
use crate::units::{body_of, place_of, target_entered};
use bv_base::place::Place;
use cert_format::cert::Loop;
use std::alloc::Global;
use std::slice::from_ref;
use sym_state::piece::Piece;
use sym_state::start::start;
use sym_state::state::State;

/// A loop is checked from each of its cases, and no hint is left. Its place is that of its body.
pub(crate) fn loop_checked(scope: &Scope<'_>, alloc: Global, one: &Loop) -> Walk
    requires sound { AreSound scope.now.style scope.now.cert }
    requires one { IsLoopOf scope.now.style one.now }
    requires writes { scope.now.writes ≡ Some one.now.writes }
    ensures { Takes (rule.loop_checked scope.now.style scope.now.cert one.now) [] result }
{
    let place = place_of(scope.style(), body_of(scope.style(), one.body));
    let mut course = Course::new(alloc, one.hints.as_slice());
    let maker = Unmade::of(scope);
    let at = At {
        scope,
        maker: &maker,
        place,
        more: MOST_DEPTH,
        known: 0,
    };
    turned_from(&at, alloc, one, one.cases.as_slice(), &mut course)?;
    course.none_left(place)
}

/// A turn from each case.
fn turned_from<M: Loops>(
    at: &At<'_, M>,
    alloc: Global,
    one: &Loop,
    cases: &[Piece],
    course: &mut Course<'_>,
) -> Walk
    requires sound { CanWalk at.now.scope.now (M.style at.now.maker.now) (M.made at.now.maker.now) }
    requires one { IsLoopOf at.now.scope.now.style one.now }
    requires cases { All (IsPieceOf at.now.scope.now.style one.now.entry) cases.now }
    requires none { course.old.given ≡ [] }
    ensures takes { Takes (rule.turned_from (here M.made at.now) at.now.place one.now cases.now course.old) course.new result }
{
    for case in cases {
        turn(at, alloc, one, case, course)?;
    }
    Ok(())
}

/// The state with which a turn starts from a case.
pub(crate) fn case_state<M: Loops>(
    at: &At<'_, M>,
    alloc: Global,
    whole: bool,
    entry: bool,
    case: &Piece,
) -> Result<State, Refusal>
    requires sound { CanWalk at.now.scope.now (M.style at.now.maker.now) (M.made at.now.maker.now) }
    requires case { IsPieceOf at.now.scope.now.style entry case.now }
    ensures state { MatchResult result (λ state. state ≡ started at.now.scope.now.style at.now.scope.now.cert.cond (case.now ∷ []) whole entry)
        (λ refusal. refusal.reason ≡ WantOfMemory) }
    ensures room { IfOk result (HasRoom at.now.scope.now.style 129 0) }
{
    let pieces = from_ref(case);
    held(
        at.place,
        start(
            alloc,
            at.scope.style(),
            at.scope.cond(),
            pieces,
            whole,
            entry,
        ),
    )
}

/// A turn from a case: the test is entered first.
fn turn<M: Loops>(
    at: &At<'_, M>,
    alloc: Global,
    one: &Loop,
    case: &Piece,
    course: &mut Course<'_>,
) -> Walk
    requires sound { CanWalk at.now.scope.now (M.style at.now.maker.now) (M.made at.now.maker.now) }
    requires one { IsLoopOf at.now.scope.now.style one.now }
    requires case { IsPieceOf at.now.scope.now.style one.now.entry case.now }
    requires none { course.old.given ≡ [] }
    ensures takes { Takes (rule.turn (here M.made at.now) at.now.place one.now (rule.turn_state (here M.made at.now) one.now case.now) course.old) course.new result }
    ensures none { OnOk result (course.new.given ≡ []) }
{
    let state = case_state(at, alloc, one.whole, one.entry, case)?;
    target_entered(at.scope, at.maker, at.place, one.test, state, course)?;
    let states = course.take_given();
    all_tested(at, one, states, course)
}

/// Each state at the test's end, in order.
fn all_tested<M: Loops>(
    at: &At<'_, M>,
    one: &Loop,
    states: Vec<State>,
    course: &mut Course<'_>,
) -> Walk
    requires sound { CanWalk at.now.scope.now (M.style at.now.maker.now) (M.made at.now.maker.now) }
    requires one { IsLoopOf at.now.scope.now.style one.now }
    requires room { All (HasRoom at.now.scope.now.style 65 course.old.count) states.items }
    requires none { course.old.given ≡ [] }
    ensures takes { Takes (rule.all_tested (here M.made at.now) at.now.place one.now states.items course.old) course.new result }
    ensures none { OnOk result (course.new.given ≡ []) }
{
    for state in states {
        tested(at, one, &state, course)?;
    }
    Ok(())
}

/// At the test's end a state gives up an integer, and is split on it.
fn tested<M: Loops>(at: &At<'_, M>, one: &Loop, state: &State, course: &mut Course<'_>) -> Walk
    requires sound { CanWalk at.now.scope.now (M.style at.now.maker.now) (M.made at.now.maker.now) }
    requires one { IsLoopOf at.now.scope.now.style one.now }
    requires room { HasRoom at.now.scope.now.style 65 course.old.count state.now }
    requires none { course.old.given ≡ [] }
    ensures takes { Takes (rule.tested (here M.made at.now) at.now.place one.now state.now course.old) course.new result }
    ensures none { OnOk result (course.new.given ≡ []) }
    ensures rises { OnOk result (course.old.count ≤ course.new.count) }
{
    let cases = course.signs(at, state)?;
    all_turned(at, one, cases, course)
}

/// The cases of the test's integer, in order.
fn all_turned<M: Loops>(
    at: &At<'_, M>,
    one: &Loop,
    cases: Vec<(bool, State)>,
    course: &mut Course<'_>,
) -> Walk
    requires sound { CanWalk at.now.scope.now (M.style at.now.maker.now) (M.made at.now.maker.now) }
    requires one { IsLoopOf at.now.scope.now.style one.now }
    requires cases { All (λ case. HasRoom at.now.scope.now.style 64 course.old.count case.1) cases.items }
    requires none { course.old.given ≡ [] }
    ensures takes { Takes (rule.all_turned (here M.made at.now) at.now.place one.now cases.items course.old) course.new result }
    ensures none { OnOk result (course.new.given ≡ []) }
    ensures rises { OnOk result (course.old.count ≤ course.new.count) }
{
    for (above, state) in cases {
        turned(at, one, above, state, course)?;
    }
    Ok(())
}

/// Above 0 the body of the loop is entered, and each state at its end entails a case. Else the loop ends, and the state entails
/// an exit.
fn turned<M: Loops>(
    at: &At<'_, M>,
    one: &Loop,
    above: bool,
    state: State,
    course: &mut Course<'_>,
) -> Walk
    requires sound { CanWalk at.now.scope.now (M.style at.now.maker.now) (M.made at.now.maker.now) }
    requires one { IsLoopOf at.now.scope.now.style one.now }
    requires room { HasRoom at.now.scope.now.style 64 course.old.count state }
    requires none { course.old.given ≡ [] }
    ensures takes { Takes (rule.turned (here M.made at.now) at.now.place one.now above state course.old) course.new result }
    ensures none { OnOk result (course.new.given ≡ []) }
    ensures rises { OnOk result (course.old.count ≤ course.new.count) }
{
    if above {
        target_entered(at.scope, at.maker, at.place, one.body, state, course)?;
        let states = course.take_given();
        course.all_entail(at, one.cases.as_slice(), states.as_slice())
    } else {
        course.all_entail(at, one.exits.as_slice(), from_ref(&state))
    }
}
