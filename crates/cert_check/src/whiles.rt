//! `while$`, where loops are made: one for the states of the token in hand that hold the same functions (docs/ANALYSER.md, "Loops").

ghost use Rattle.std.specs.Prelude.{◌≡◌, ◌≤◌, ◌<◌, ◌+◌, ◌*◌, ◌++◌, ◌∷◌, List, [], if◌then◌else◌, Some, None, Option, IfOk, IfSome, OnOk, is_some, option_map, MatchOption, MatchResult, ℕ, length, slice_get, take};
ghost use Rattle.std.specs.Option.{option_and_then};
ghost use Rattle.bst_meaning.specs.declared.condition.Cond.{Cond as CondValue};
ghost use Rattle.name_table.specs.declared.style.Style.{Style as StyleValue};
ghost use Rattle.refinements.specs.Covered.{IsAmong};
ghost use Rattle.sym_state.specs.Demands.{without};
ghost use Rattle.sym_state.specs.State.{State as StateValue};
ghost use Rattle.sym_state.specs.declared.hint.Hint.{Hint as HintValue};
ghost use Rattle.sym_state.specs.declared.hint.Hint.TheVariants.{Case as CaseHint};
ghost use Rattle.cert_check.specs.Courses as courses;
ghost use Rattle.cert_check.specs.Subjects.{All, AreMade, CanWalk, GoesOn, HasBounds, HasRoom, IsLoopOf, Takes, WellMade, here};
ghost use Rattle.cert_check.specs.Uses.{Passage as Passed};
ghost use Rattle.cert_check.specs.Walks as rule;
ghost use Rattle.cert_check.specs.Walks.{Make, made_by};
ghost use Rattle.cert_check.specs.declared.refusal.Reason.TheVariants.{NoMemory as WantOfMemory};

use crate::at::At;
use crate::choice::While;
use crate::course::{Course, held, placed, refuse};
use crate::limits::MOST_LOOPS;
use crate::loops::{is_loop_of, leaves_loop, repeated, two_functions};
use crate::making::Loops;
use crate::refusal::{Reason, Refusal, Walk};
use crate::scope::{Scope, is_target};
use crate::targets::exact_target;
use crate::uses::{Passage, comes_by};
use bst_meaning::style_parts::kind_of;
use bst_meaning::value::Target;
use bv_base::memory::NoMemory;
use bv_base::place::Place;
use cert_format::cert::Loop;
use name_table::builtin::Builtin;
use name_table::names::Kind;
use name_table::style::{MOST_BODIES, Style, Token};
use std::alloc::Global;
use std::slice::from_ref;
use straight_hints::{Finding, piece_hints};
use sym_state::hint::Hints;
use sym_state::operands::two;
use sym_state::piece::Piece;
use sym_state::state::State;
use sym_state::symbol::Kinds;

/// Whether loops are made for a token: it may be `while$`.
pub(crate) fn makes_for<M: Loops>(at: &At<'_, M>, token: Token) -> bool
    ensures { result ≡ is_some (rule.making_for (here M.made at.now) token) }
{
    is_while(at.scope.style(), token) && at.maker.makes()
}

/// Whether a token is `while$`.
fn is_while(style: &Style, token: Token) -> bool
    ensures { result ≡ rule.is_while_token style.now token }
{
    match token {
        Token::Call(name) => matches!(kind_of(style, name), Some(Kind::Builtin(Builtin::WhileDo))),
        _ => false,
    }
}

/// `while$` in a state: its loop is read or made.
pub(crate) fn while_in<M: Loops>(at: &At<'_, M>, state: &State, course: &mut Course<'_>) -> Walk
    requires sound { CanWalk at.now.scope.now (M.style at.now.maker.now) (M.made at.now.maker.now) }
    requires room { HasRoom at.now.scope.now.style 65 course.old.count state.now }
    ensures takes { Takes (rule.while_by_make (M.made at.now.maker.now) (here M.made at.now) at.now.place state.now course.old) course.new result }
{
    if at.maker.makes() {
        while_alone(at, state, course)
    } else {
        repeated(at, state, course)
    }
}

/// `while$` in one state whose loop is made.
fn while_alone<M: Loops>(at: &At<'_, M>, state: &State, course: &mut Course<'_>) -> Walk
    requires sound { CanWalk at.now.scope.now (M.style at.now.maker.now) (M.made at.now.maker.now) }
    requires room { HasRoom at.now.scope.now.style 65 course.old.count state.now }
    ensures takes { Takes (rule.while_alone (made_by (M.made at.now.maker.now)) (here M.made at.now) at.now.place state.now course.old) course.new result }
{
    let mut made = none_made(at, course);
    while_taken(at, from_ref(state), 0, state, &mut made, course)?;
    course.makes(at.place, made)
}

/// `while$` in the states of a token, one after the other: each counts.
pub(crate) fn whiles<M: Loops>(at: &At<'_, M>, states: &[State], course: &mut Course<'_>) -> Walk
    requires sound { CanWalk at.now.scope.now (M.style at.now.maker.now) (M.made at.now.maker.now) }
    requires room { All (HasRoom at.now.scope.now.style 0 course.old.count) states.now }
    ensures takes { Takes (rule.whiles_from (made_by (M.made at.now.maker.now)) (here M.made at.now) at.now.place states.now course.old) course.new result }
{
    let mut made = none_made(at, course);
    whiles_taken(at, states, &mut made, course)?;
    course.makes(at.place, made)
}

/// No loop was made yet for the token in hand.
fn none_made<M: Loops>(at: &At<'_, M>, course: &Course<'_>) -> Vec<Loop>
    ensures none { result.items ≡ [] }
    ensures made { AreMade at.now.scope.now.style (record { made = result.items; course = course.now }) }
{
    let _ = course.loop_count();
    Vec::new(course.alloc())
}

/// The states are taken, one after the other.
fn whiles_taken<M: Loops>(
    at: &At<'_, M>,
    states: &[State],
    made: &mut Vec<Loop>,
    course: &mut Course<'_>,
) -> Walk
    requires sound { CanWalk at.now.scope.now (M.style at.now.maker.now) (M.made at.now.maker.now) }
    requires room { All (HasRoom at.now.scope.now.style 0 course.old.count) states.now }
    requires made { AreMade at.now.scope.now.style (record { made = made.old.items; course = course.old }) }
    ensures takes { Takes (rule.whiles_taken (made_by (M.made at.now.maker.now)) (here M.made at.now) at.now.place states.now [] states.now
        (record { made = made.old.items; course = course.old })) (record { made = made.new.items; course = course.new }) result }
    ensures made { OnOk result (AreMade at.now.scope.now.style (record { made = made.new.items; course = course.new })) }
{
    for (k, state) in states.iter().enumerate() {
        course.counts(1, at.place)?;
        while_taken(at, states, k, state, made, course)?;
    }
    Ok(())
}

/// `while$` in a state of a list, of which so many were taken.
fn while_taken<M: Loops>(
    at: &At<'_, M>,
    states: &[State],
    earlier: usize,
    state: &State,
    made: &mut Vec<Loop>,
    course: &mut Course<'_>,
) -> Walk
    requires sound { CanWalk at.now.scope.now (M.style at.now.maker.now) (M.made at.now.maker.now) }
    requires room { HasRoom at.now.scope.now.style 64 course.old.count state.now }
    requires states { All (WellMade at.now.scope.now.style) states.now }
    requires among { IsAmong state.now states.now }
    requires earlier { earlier ≤ length states.now }
    requires made { AreMade at.now.scope.now.style (record { made = made.old.items; course = course.old }) }
    ensures takes { Takes (rule.while_taken (made_by (M.made at.now.maker.now)) (here M.made at.now) at.now.place states.now (take earlier states.now) state.now
        (record { made = made.old.items; course = course.old })) (record { made = made.new.items; course = course.new }) result }
    ensures made { OnOk result (AreMade at.now.scope.now.style (record { made = made.new.items; course = course.new })) }
    ensures rises { OnOk result (course.old.count ≤ course.new.count) }
{
    let (lower, upper, rest) = two_functions(at.place, state)?;
    let test = exact_target(at.scope, state, lower);
    let body = exact_target(at.scope, state, upper);
    match (test, body) {
        (Some(test), Some(body)) => {
            let one = While { test, body, rest };
            while_made(at, states, earlier, &one, made, course)
        }
        _ => refuse(at.place, Reason::UnknownFunction),
    }
}

/// `while$` of two functions that are known exactly: by the loop that was made for them, or a new one.
fn while_made<M: Loops>(
    at: &At<'_, M>,
    states: &[State],
    earlier: usize,
    one: &While,
    made: &mut Vec<Loop>,
    course: &mut Course<'_>,
) -> Walk
    requires sound { CanWalk at.now.scope.now (M.style at.now.maker.now) (M.made at.now.maker.now) }
    requires bounds { HasBounds one.now.rest }
    requires room { one.now.rest.next + 64 ≤ 2147483648 + 65 * course.old.count }
    requires states { All (WellMade at.now.scope.now.style) states.now }
    requires enters { 1 ≤ length (rule.entering_with (here M.made at.now) one.now states.now) }
    requires earlier { earlier ≤ length states.now }
    requires made { AreMade at.now.scope.now.style (record { made = made.old.items; course = course.old }) }
    ensures takes { Takes (rule.while_made (made_by (M.made at.now.maker.now)) (here M.made at.now) at.now.place states.now (take earlier states.now) (Some one.now)
        (record { made = made.old.items; course = course.old })) (record { made = made.new.items; course = course.new }) result }
{
    let k = loop_for(at, states, one, made, course)?;
    let case = count_entering(at.scope, one, &states[..earlier]);
    let found = loop_at(made.as_slice(), k);
    made_used(at, found, course.loop_count() + k, case, &one.rest, course)
}

/// The loop at a place.
fn loop_at(made: &[Loop], k: usize) -> &Loop
    requires { k < length made.now }
    ensures { slice_get made.now k ≡ Some result.now }
{
    &made[k]
}

/// The place among those that were made for the token of the loop of two functions: one that is there, or a new one.
fn loop_for<M: Loops>(
    at: &At<'_, M>,
    states: &[State],
    one: &While,
    made: &mut Vec<Loop>,
    course: &Course<'_>,
) -> Result<usize, Refusal>
    requires sound { CanWalk at.now.scope.now (M.style at.now.maker.now) (M.made at.now.maker.now) }
    requires states { All (WellMade at.now.scope.now.style) states.now }
    requires enters { 1 ≤ length (rule.entering_with (here M.made at.now) one.now states.now) }
    requires made { AreMade at.now.scope.now.style (record { made = made.old.items; course = course.now }) }
    ensures takes { GoesOn (rule.loop_made at.now.place (rule.numbered one.now (courses.first_number course.now) made.old.items)
        (made_by (M.made at.now.maker.now) one.now.test one.now.body (rule.entering_with (here M.made at.now) one.now states.now))
        (record { made = made.old.items; course = course.now }))
        (λ k. rule.loop_made at.now.place (rule.numbered_at (courses.first_number course.now) k made.new.items) None (record { made = made.new.items; course = course.now })) result }
    ensures made { IfOk result (λ _. AreMade at.now.scope.now.style (record { made = made.new.items; course = course.now })) }
    ensures there { IfOk result (λ k. k < length made.new.items) }
{
    match place_among(one, made.as_slice()) {
        Some(k) => Ok(k),
        None => {
            let found = loop_found(at, states, one, course.alloc())?;
            loop_made(at.place, found, made, course)
        }
    }
}

/// The place of the loop of two functions among those that were made for the token.
fn place_among(one: &While, made: &[Loop]) -> Option<usize>
    ensures found { (first : ℕ) → MatchOption result (rule.numbered one.now first made.now ≡ None)
        (λ k. rule.numbered one.now first made.now ≡ rule.numbered_at first k made.now) }
    ensures there { IfSome result (λ k. k < length made.now) }
{
    for (k, found) in made.iter().enumerate() {
        if is_loop_of(one, found) {
            return Some(k);
        }
    }
    None
}

/// The loop that is made of two functions for the states of a list that enter it, where there is one.
fn loop_found<M: Loops>(
    at: &At<'_, M>,
    states: &[State],
    one: &While,
    alloc: Global,
) -> Result<Option<Loop>, Refusal>
    requires sound { CanWalk at.now.scope.now (M.style at.now.maker.now) (M.made at.now.maker.now) }
    requires states { All (WellMade at.now.scope.now.style) states.now }
    requires enters { 1 ≤ length (rule.entering_with (here M.made at.now) one.now states.now) }
    ensures found { MatchResult result
        (λ found. found ≡ made_by (M.made at.now.maker.now) one.now.test one.now.body (rule.entering_with (here M.made at.now) one.now states.now))
        (λ refusal. refusal.reason ≡ WantOfMemory) }
    ensures sound { IfOk result (λ found. IfSome found (IsLoopOf at.now.scope.now.style)) }
{
    let entering = held(at.place, entering_with(alloc, at.scope, one, states))?;
    held(
        at.place,
        at.maker.make(one.test, one.body, entering.as_slice()),
    )
}

/// What is made of two functions for which there is none, among those that were made for the token.
fn loop_made(
    place: Place,
    found: Option<Loop>,
    made: &mut Vec<Loop>,
    course: &Course<'_>,
) -> Result<usize, Refusal>
    ensures takes { GoesOn (rule.loop_made place None found (record { made = made.old.items; course = course.now }))
        (λ k. rule.loop_made place (rule.numbered_at (courses.first_number course.now) k made.new.items) None (record { made = made.new.items; course = course.now })) result }
    ensures made { (style : StyleValue) → AreMade style (record { made = made.old.items; course = course.now }) → IfSome found (IsLoopOf style)
        → IfOk result (λ _. AreMade style (record { made = made.new.items; course = course.now })) }
    ensures there { IfOk result (λ k. k < length made.new.items) }
{
    match found {
        Some(found) => put_loop(place, found, made, course),
        None => refuse(place, Reason::NoInvariant),
    }
}

/// A loop comes behind those that were made for the token, where a certificate may have so many.
fn put_loop(
    place: Place,
    found: Loop,
    made: &mut Vec<Loop>,
    course: &Course<'_>,
) -> Result<usize, Refusal>
    ensures takes { GoesOn (rule.loop_made place None (Some found) (record { made = made.old.items; course = course.now }))
        (λ k. rule.loop_made place (rule.numbered_at (courses.first_number course.now) k made.new.items) None (record { made = made.new.items; course = course.now })) result }
    ensures made { (style : StyleValue) → AreMade style (record { made = made.old.items; course = course.now }) → IsLoopOf style found
        → IfOk result (λ _. AreMade style (record { made = made.new.items; course = course.now })) }
    ensures there { IfOk result (λ k. k < length made.new.items) }
{
    let k = made.len();
    if k >= MOST_LOOPS - course.loop_count() {
        return refuse(place, Reason::NoInvariant);
    }
    match made.push(found) {
        Ok(()) => Ok(k),
        Err(_) => refuse(place, Reason::NoMemory),
    }
}

/// The states of a list that hold the same functions, without them.
fn entering_with(
    alloc: Global,
    scope: &Scope<'_>,
    one: &While,
    states: &[State],
) -> Result<Vec<State>, NoMemory>
    requires { length scope.now.style.bodies ≤ MOST_BODIES }
    ensures { (make : Option Make) → IfOk result (λ entering. entering.items ≡ rule.entering_with (rule.scope_of scope.now make) one.now states.now) }
{
    let mut entering = Vec::new(alloc);
    for state in states {
        if holds(scope, one, state) {
            push_rest(&mut entering, state)?;
        }
    }
    Ok(entering)
}

/// Puts a state without its two functions behind others.
fn push_rest(entering: &mut Vec<State>, state: &State) -> Result<(), NoMemory>
    ensures { OnOk result (entering.new.items ≡ entering.old.items ++ without 2 state.now ∷ []) }
{
    entering.push(state.without(2)?)?;
    Ok(())
}

/// How many states of a list hold the same functions.
fn count_entering(scope: &Scope<'_>, one: &While, states: &[State]) -> usize
    requires { length scope.now.style.bodies ≤ MOST_BODIES }
    ensures { (make : Option Make) → result ≡ length (rule.entering_with (rule.scope_of scope.now make) one.now states.now) }
{
    let mut count = 0;
    for state in states {
        if holds(scope, one, state) {
            count += 1;
        }
    }
    count
}

/// Whether a state holds these two functions on top.
fn holds(scope: &Scope<'_>, one: &While, state: &State) -> bool
    requires { length scope.now.style.bodies ≤ MOST_BODIES }
    ensures { (make : Option Make) → option_and_then (rule.rest_of one.now) (rule.while_in (rule.scope_of scope.now make) state.now)
        ≡ (if result then Some (without 2 state.now) else None) }
{
    match two(state, Kinds::Func, Kinds::Func) {
        Ok((lower, upper)) => {
            let test = exact_target(scope, state, lower);
            let body = exact_target(scope, state, upper);
            are_same(one, test, body)
        }
        Err(_) => false,
    }
}

/// Whether two functions are known, and are these.
fn are_same(one: &While, test: Option<Target>, body: Option<Target>) -> bool
    ensures { (rest : StateValue) → option_and_then (rule.rest_of one.now) (rule.while_by test body rest) ≡ (if result then Some rest else None) }
{
    match (test, body) {
        (Some(test), Some(body)) => is_target(one.test, test) && is_target(one.body, body),
        _ => false,
    }
}

/// A loop that was made is used in a state, by the case of a number.
fn made_used<M: Loops>(
    at: &At<'_, M>,
    one: &Loop,
    number: usize,
    k: usize,
    state: &State,
    course: &mut Course<'_>,
) -> Walk
    requires one { IsLoopOf at.now.scope.now.style one.now }
    requires number { number ≤ 65536 }
    requires bounds { HasBounds state.now }
    requires room { state.now.next ≤ 2212483648 }
    ensures takes { Takes (rule.made_used (here M.made at.now) at.now.place (record { number = number; one = one.now }) k state.now course.old) course.new result }
{
    let unit = Passage::around(one);
    let case = case_within(at.place, one.cases.as_slice(), k, state)?;
    let steps = held(
        at.place,
        piece_hints(Finding::Straight, state, at.scope.cond(), case),
    )?;
    let mut left = Hints::new(steps.as_slice());
    placed(
        at.place,
        comes_by(&unit, at.scope.cond(), case, state, &mut left),
    )?;
    course.finds_loop(at.place, number, k, steps)?;
    leaves_loop(at, one, case, state, course)
}

/// The case of a number, whose stack is no longer than the state's.
fn case_within<'p>(
    place: Place,
    cases: &'p [Piece],
    k: usize,
    state: &State,
) -> Result<&'p Piece, Refusal>
    ensures comes { (unit : Passed) (cond : CondValue) (hints : List HintValue)
        → GoesOn (courses.placed place (rule.comes_to unit cond cases.now state.now (CaseHint k ∷ hints)))
        (λ case. courses.placed place (rule.comes_by_case unit cond (Some case.now) state.now hints)) result }
    ensures there { IfOk result (λ case. slice_get cases.now k ≡ Some case.now) }
    ensures within { IfOk result (λ case. length case.now.stack ≤ length state.now.stack) }
{
    match case_at(cases, k) {
        Some(case) => {
            if case.stack.as_slice().len() as u64 <= state.stack_len() {
                Ok(case)
            } else {
                refuse(place, Reason::NotEntailed(0))
            }
        }
        None => refuse(place, Reason::NotEntailed(0)),
    }
}

/// The case of a number.
fn case_at(cases: &[Piece], k: usize) -> Option<&Piece>
    ensures { option_map (λ case. case.now) result ≡ slice_get cases.now k }
{
    cases.get(k)
}
