//! Turns of a loop of which the cases alone are known (docs/ANALYSER.md, "Loops").

ghost use Rattle.std.specs.Prelude.{◌≡◌, ◌≤◌, [], ◌∷◌, ◌++◌, true, false, None, Ok, IfOk, MatchResult, OnOk};
ghost use Rattle.cert_check.specs.Subjects.{All, AreSound, CanWalk, Each, HasRoom, IsHint, IsPieceOf, Takes, here};
ghost use Rattle.cert_check.specs.Tours as rule;
ghost use Rattle.cert_check.specs.Walks as walks;
ghost use Rattle.cert_check.specs.declared.refusal.Reason.TheVariants.{NoMemory as WantOfMemory};

use crate::at::At;
use crate::course::{Course, integer, refuse};
use crate::limits::{MOST_COUNT, MOST_DEPTH};
use crate::making::{Loops, Unmade};
use crate::refusal::{Reason, Walk};
use crate::scope::Scope;
use crate::turns::case_state;
use crate::units::{body_of, place_of, target_entered};
use bst_meaning::value::Target;
use bv_base::place::Place;
use bv_base::seq::Seq;
use std::alloc::Global;
use straight_hints::Finding;
use sym_state::hint::Hint;
use sym_state::piece::Piece;
use sym_state::state::State;

/// The two functions of a loop, whether an entry is visited, and whether the stacks of its cases are the whole stack.
#[derive(Clone, Copy, Debug, PartialEq, Eq)]
pub struct Turning {
    pub test: Target,
    pub body: Target,
    pub entry: bool,
    pub whole: bool,
}

/// A state that came to the end of a turn or leaves the loop, and the hints that were found since the one before it.
#[derive(Drop)]
pub struct Ended {
    pub hints: Seq<Hint>,
    pub turned: bool,
    pub state: State,
}

/// How far turns have come: the course, which has the hints since the last end, and the ends.
#[derive(Drop)]
pub struct Tour<'a> {
    pub(crate) course: Course<'a>,
    pub ends: Seq<Ended>,
}

impl<'a> Tour<'a> {
    /// A tour that begins.
    pub fn new(alloc: Global, finding: Finding) -> Tour<'a>
        ensures begins { result ≡ rule.setting_out finding }
        ensures none { rule.GivesNone result }
    {
        Tour {
            course: Course::searching(alloc, finding),
            ends: Seq::new(alloc),
        }
    }

    /// The hints that were found since the last end.
    pub fn take_found(&mut self) -> Vec<Hint>
        ensures found { result.items ≡ rule.found_since self.old }
        ensures written { Each IsHint result.items }
        ensures ends { self.new.ends ≡ self.old.ends }
    {
        self.course.take_found()
    }

    /// A state comes to an end.
    fn ended(&mut self, place: Place, turned: bool, state: State) -> Walk
        ensures ended { MatchResult result (λ _. self.new ≡ rule.ended turned state self.old) (λ refusal. refusal.reason ≡ WantOfMemory) }
        ensures counted { self.old.course.count ≤ MOST_COUNT }
        ensures written { Each IsHint self.old.course.found }
    {
        let end = Ended {
            hints: Seq::from_vec(self.course.take_found()),
            turned,
            state,
        };
        match self.ends.push(end) {
            Ok(()) => Ok(()),
            Err(_) => refuse(place, Reason::NoMemory),
        }
    }

    /// The states that a walk gave come to the end of a turn.
    fn turn_ended(&mut self, place: Place) -> Walk
        ensures ended { MatchResult result (λ _. self.new ≡ rule.turn_ended self.old.ends self.old.course) (λ refusal. refusal.reason ≡ WantOfMemory) }
        ensures counted { self.old.course.count ≤ MOST_COUNT }
        ensures written { Each IsHint self.old.course.found }
    {
        for state in self.course.take_given() {
            self.ended(place, true, state)?;
        }
        Ok(())
    }
}

/// A turn from a case of the loop, at the place of its body.
pub(crate) fn turn_of(
    scope: &Scope<'_>,
    alloc: Global,
    one: Turning,
    case: &Piece,
    tour: &mut Tour<'_>,
) -> Walk
    requires sound { AreSound scope.now.style scope.now.cert }
    requires case { IsPieceOf scope.now.style one.entry case.now }
    requires none { rule.GivesNone tour.old }
    ensures takes { Takes (rule.turn_of (walks.scope_of scope.now None) one case.now tour.old) tour.new result }
    ensures keeps { OnOk result (rule.KeepsTour scope.now.style tour.old tour.new) }
{
    let maker = Unmade::of(scope);
    let at = At {
        scope,
        maker: &maker,
        place: place_of(scope.style(), body_of(scope.style(), one.body)),
        more: MOST_DEPTH,
        known: 0,
    };
    let state = case_state(&at, alloc, one.whole, one.entry, case)?;
    turn_from(&at, one, state, tour)
}

/// A turn from a state: the test is entered first.
fn turn_from<M: Loops>(at: &At<'_, M>, one: Turning, state: State, tour: &mut Tour<'_>) -> Walk
    requires sound { CanWalk at.now.scope.now (M.style at.now.maker.now) (M.made at.now.maker.now) }
    requires room { HasRoom at.now.scope.now.style 129 0 state }
    requires none { rule.GivesNone tour.old }
    ensures takes { Takes (rule.turn_from (here M.made at.now) at.now.place one state tour.old) tour.new result }
    ensures keeps { OnOk result (rule.KeepsTour at.now.scope.now.style tour.old tour.new) }
{
    target_entered(
        at.scope,
        at.maker,
        at.place,
        one.test,
        state,
        &mut tour.course,
    )?;
    let states = tour.course.take_given();
    all_tests_ended(at, one, states, tour)
}

/// Each state at the test's end, in order.
fn all_tests_ended<M: Loops>(
    at: &At<'_, M>,
    one: Turning,
    states: Vec<State>,
    tour: &mut Tour<'_>,
) -> Walk
    requires sound { CanWalk at.now.scope.now (M.style at.now.maker.now) (M.made at.now.maker.now) }
    requires room { All (HasRoom at.now.scope.now.style 65 tour.old.course.count) states.items }
    requires none { rule.GivesNone tour.old }
    ensures takes { Takes (rule.all_tests_ended (here M.made at.now) at.now.place one states.items tour.old) tour.new result }
    ensures keeps { OnOk result (rule.KeepsTour at.now.scope.now.style tour.old tour.new) }
{
    for state in states {
        test_ended(at, one, &state, tour)?;
    }
    Ok(())
}

/// At the test's end a state gives up an integer, and is split on it.
fn test_ended<M: Loops>(at: &At<'_, M>, one: Turning, state: &State, tour: &mut Tour<'_>) -> Walk
    requires sound { CanWalk at.now.scope.now (M.style at.now.maker.now) (M.made at.now.maker.now) }
    requires room { HasRoom at.now.scope.now.style 65 tour.old.course.count state.now }
    requires none { rule.GivesNone tour.old }
    ensures takes { Takes (rule.test_ended (here M.made at.now) at.now.place one state.now tour.old) tour.new result }
    ensures keeps { OnOk result (rule.KeepsTour at.now.scope.now.style tour.old tour.new) }
{
    let (operand, rest) = integer(at.place, state)?;
    let cases = tour.course.sign(at, &rest, operand)?;
    all_turned_or_left(at, one, cases, tour)
}

/// The cases of the test's integer, in order.
fn all_turned_or_left<M: Loops>(
    at: &At<'_, M>,
    one: Turning,
    cases: Vec<(bool, State)>,
    tour: &mut Tour<'_>,
) -> Walk
    requires sound { CanWalk at.now.scope.now (M.style at.now.maker.now) (M.made at.now.maker.now) }
    requires cases { All (λ case. HasRoom at.now.scope.now.style 64 tour.old.course.count case.1) cases.items }
    requires none { rule.GivesNone tour.old }
    ensures takes { Takes (rule.all_turned_or_left (here M.made at.now) at.now.place one cases.items tour.old) tour.new result }
    ensures keeps { OnOk result (rule.KeepsTour at.now.scope.now.style tour.old tour.new) }
{
    for case in cases {
        turned_or_left(at, one, case, tour)?;
    }
    Ok(())
}

/// Above 0 the body is entered, and each state at its end has turned. Else the state leaves.
fn turned_or_left<M: Loops>(
    at: &At<'_, M>,
    one: Turning,
    case: (bool, State),
    tour: &mut Tour<'_>,
) -> Walk
    requires sound { CanWalk at.now.scope.now (M.style at.now.maker.now) (M.made at.now.maker.now) }
    requires room { HasRoom at.now.scope.now.style 64 tour.old.course.count case.1 }
    requires none { rule.GivesNone tour.old }
    ensures takes { Takes (rule.turned_or_left (here M.made at.now) at.now.place one case.0 case.1 tour.old) tour.new result }
    ensures keeps { OnOk result (rule.KeepsTour at.now.scope.now.style tour.old tour.new) }
{
    let (above, state) = case;
    if above {
        target_entered(
            at.scope,
            at.maker,
            at.place,
            one.body,
            state,
            &mut tour.course,
        )?;
        tour.turn_ended(at.place)
    } else {
        tour.ended(at.place, false, state)
    }
}
