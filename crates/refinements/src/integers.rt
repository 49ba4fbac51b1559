//! The cases of tests on integers, each of which takes a hint where the test isn't decided.

ghost use Rattle.std.specs.Prelude.{◌≡◌, ◌<◌, ◌++◌, [], ◌∷◌, true, false, None, IfOk};
ghost use Rattle.std.specs.List.{All};
ghost use Rattle.std.specs.Option.{option_to_list};
ghost use Rattle.sym_state.specs.Cases as rule;
ghost use Rattle.sym_state.specs.WellMade.{HasBounds, IsBounded};
ghost use Rattle.sym_state.specs.Demands.{IsReady, without};
ghost use Rattle.refinements.specs.Given.{Gives, GivesLabelled, GivesTwo};

use crate::cases::{States, decided, with_truth};
use crate::deciding::{equal_decided, less_decided};
use crate::strings::equal_texts;
use crate::weighing::{both_kept, weighed, weighed_both};
use bst_meaning::condition::Cond;
use bv_base::memory::NoMemory;
use lin_facts::row::{Row, Term};
use std::alloc::Global;
use sym_state::demand::{DemandKind, EffectFault};
use sym_state::hint::Hints;
use sym_state::operands::two;
use sym_state::references::{at_least, at_most, exceeds};
use sym_state::state::State;
use sym_state::symbol::{Kinds, Sym};

/// The cases of `<`.
pub fn less(state: &State, cond: &Cond, hints: &mut Hints<'_>) -> States
    requires { IsReady state.now hints.old }
    ensures { Gives result hints.new (rule.less cond.now state.now hints.old) }
{
    let (a, b) = two(state, Kinds::Int, Kinds::Int)?;
    ordered(state, cond, a, b, hints)
}

/// The cases of `>`.
pub fn greater(state: &State, cond: &Cond, hints: &mut Hints<'_>) -> States
    requires { IsReady state.now hints.old }
    ensures { Gives result hints.new (rule.greater cond.now state.now hints.old) }
{
    let (a, b) = two(state, Kinds::Int, Kinds::Int)?;
    ordered(state, cond, b, a, hints)
}

/// The cases of whether the first of the two integers on top of the stack, in either order, is less than the second.
fn ordered(state: &State, cond: &Cond, a: Sym, b: Sym, hints: &mut Hints<'_>) -> States
    requires { IsReady state.now hints.old }
    ensures { Gives result hints.new (rule.less_cases cond.now state.now.facts a b (without 2 state.now) hints.old) }
{
    let rest = state.without(2)?;
    match less_decided(state, a, b) {
        Some(answer) => Ok(decided(answer, rest)?),
        None => less_or_not(cond, a, b, rest, hints),
    }
}

/// The cases of an undecided test on integers: the first is less than the second, or it is at least that.
fn less_or_not(cond: &Cond, a: Sym, b: Sym, rest: State, hints: &mut Hints<'_>) -> States
    requires { IsReady rest hints.old }
    ensures { Gives result hints.new (rule.integer_cases cond.now None (rule.less_rows a b) (rule.at_least_rows a b) rest hints.old) }
{
    let alloc = rest.alloc();
    let holds = one_row(
        exceeds(alloc, Term::Value(b.0), Term::Value(a.0), 1)?,
        alloc,
    )?;
    let fails = one_row(
        exceeds(alloc, Term::Value(a.0), Term::Value(b.0), 0)?,
        alloc,
    )?;
    truths(cond, holds, fails, rest, hints)
}

/// The cases of an undecided test on integers, with the rows of each.
fn truths(
    cond: &Cond,
    holds: Vec<Row>,
    fails: Vec<Row>,
    rest: State,
    hints: &mut Hints<'_>,
) -> States
    requires ready { IsReady rest hints.old }
    requires holds { All IsBounded holds.items }
    requires fails { All IsBounded fails.items }
    ensures { Gives result hints.new (rule.integer_cases cond.now None holds.items fails.items rest hints.old) }
{
    let second = truth_case(false, fails, rest.branch()?)?;
    let first = truth_case(true, holds, rest)?;
    weighed_both(cond, first, second, hints)
}

/// The state of a case of a built-in function that tests integers.
fn truth_case(answer: bool, rows: Vec<Row>, rest: State) -> Result<State, NoMemory>
    requires bounds { HasBounds rest }
    requires room { rest.next < 4294967295 }
    requires rows { All IsBounded rows.items }
    ensures after { IfOk result (λ after. after ≡ rule.with_truth answer (rule.with_case [] rows.items rest)) }
    ensures bounds { IfOk result HasBounds }
{
    let alloc = rest.alloc();
    let shown = rest.with_case(Vec::new(alloc), rows)?;
    with_truth(answer, shown)
}

/// One row.
fn one_row(row: Row, alloc: Global) -> Result<Vec<Row>, NoMemory>
    ensures { IfOk result (λ rows. rows.items ≡ row ∷ []) }
{
    let mut rows = Vec::new(alloc);
    rows.push(row)?;
    Ok(rows)
}

/// The cases of `=`, which compares two integers or two strings.
pub fn equal(state: &State, cond: &Cond, hints: &mut Hints<'_>) -> States
    requires { IsReady state.now hints.old }
    ensures { Gives result hints.new (rule.equal cond.now state.now hints.old) }
{
    let (a, b) = two(state, Kinds::Any, Kinds::Any)?;
    let rest = state.without(2)?;
    match state.known_kind(b) {
        Kinds::Int => {
            if !state.is_of_kind(Kinds::Int, a) {
                return Err(EffectFault::unmet(DemandKind::WrongKind, 2));
            }
            equal_integers(state, cond, a, b, rest, hints)
        }
        Kinds::Str => {
            if !state.is_of_kind(Kinds::Str, a) {
                return Err(EffectFault::unmet(DemandKind::WrongKind, 2));
            }
            Ok(equal_texts(state, a, b, rest)?)
        }
        _ => Err(EffectFault::unmet(DemandKind::WrongKind, 1)),
    }
}

/// The cases of `=` of two integers.
fn equal_integers(
    state: &State,
    cond: &Cond,
    a: Sym,
    b: Sym,
    rest: State,
    hints: &mut Hints<'_>,
) -> States
    requires { IsReady rest hints.old }
    ensures { Gives result hints.new (rule.integer_cases cond.now (rule.equal_decided state.now.facts a b) (rule.equal_rows a b) [] rest hints.old) }
{
    match equal_decided(state, a, b) {
        Some(answer) => Ok(decided(answer, rest)?),
        None => {
            let alloc = rest.alloc();
            truths(cond, equal_rows(alloc, a, b)?, Vec::new(alloc), rest, hints)
        }
    }
}

/// The rows of two equal integers.
fn equal_rows(alloc: Global, a: Sym, b: Sym) -> Result<Vec<Row>, NoMemory>
    ensures rows { IfOk result (λ rows. rows.items ≡ rule.equal_rows a b) }
    ensures bounded { IfOk result (λ rows. All IsBounded rows.items) }
{
    let mut rows = Vec::new(alloc);
    rows.push(exceeds(alloc, Term::Value(a.0), Term::Value(b.0), 0)?)?;
    rows.push(exceeds(alloc, Term::Value(b.0), Term::Value(a.0), 0)?)?;
    Ok(rows)
}

/// The cases of whether an integer is above 0, without their labels.
pub fn above(state: &State, cond: &Cond, sym: Sym, hints: &mut Hints<'_>) -> States
    requires { IsReady state.now hints.old }
    ensures { Gives result hints.new (rule.without_labels (rule.above_of cond.now state.now sym hints.old)) }
{
    let alloc = state.alloc();
    let (positive, other) = signs(state, cond, sym, hints)?;
    Ok(both_kept(alloc, positive, other)?)
}

/// The states of the cases with their labels, or why the test can't be taken.
pub type Labelled = Result<Vec<(bool, State)>, EffectFault>;

/// The cases of whether an integer is above 0, each with its label.
pub fn labelled(state: &State, cond: &Cond, sym: Sym, hints: &mut Hints<'_>) -> Labelled
    requires { IsReady state.now hints.old }
    ensures { GivesLabelled result hints.new (rule.above_of cond.now state.now sym hints.old) }
{
    let alloc = state.alloc();
    let (positive, other) = signs(state, cond, sym, hints)?;
    Ok(with_labels(alloc, positive, other)?)
}

/// The states that are there, with their labels.
fn with_labels(
    alloc: Global,
    positive: Option<State>,
    other: Option<State>,
) -> Result<Vec<(bool, State)>, NoMemory>
    ensures { IfOk result (λ cases. cases.items
        ≡ rule.with_label true (option_to_list positive) ++ rule.with_label false (option_to_list other)) }
{
    let mut cases = Vec::new(alloc);
    if let Some(state) = positive {
        cases.push((true, state))?;
    }
    if let Some(state) = other {
        cases.push((false, state))?;
    }
    Ok(cases)
}

/// The state of an integer above 0 and that of another, where they are there, or why the test can't be taken.
type Signs = Result<(Option<State>, Option<State>), EffectFault>;

/// The case of an integer above 0, and that of another: one where the integer is known, and else those that are kept.
fn signs(state: &State, cond: &Cond, sym: Sym, hints: &mut Hints<'_>) -> Signs
    requires { IsReady state.now hints.old }
    ensures { GivesTwo result hints.new (rule.above_of cond.now state.now sym hints.old) }
{
    match state.exact_integer(sym) {
        Some(n) if n > 0 => Ok((Some(state.branch()?), None)),
        Some(_) => Ok((None, Some(state.branch()?))),
        None => unknown_signs(state, cond, sym, hints),
    }
}

/// The same of an integer that isn't known.
fn unknown_signs(state: &State, cond: &Cond, sym: Sym, hints: &mut Hints<'_>) -> Signs
    requires { IsReady state.now hints.old }
    ensures { GivesTwo result hints.new (rule.above_cases cond.now state.now sym None hints.old) }
{
    let alloc = state.alloc();
    let first = sign_case(state, at_least(alloc, Term::Value(sym.0), 1)?)?;
    let second = sign_case(state, at_most(alloc, Term::Value(sym.0), 0)?)?;
    let positive = weighed(cond, first, hints)?;
    let other = weighed(cond, second, hints)?;
    Ok((positive, other))
}

/// The state of a case of whether an integer is above 0.
fn sign_case(state: &State, row: Row) -> Result<State, NoMemory>
    requires bounds { HasBounds state.now }
    requires row { IsBounded row }
    ensures after { IfOk result (λ after. after ≡ rule.with_case [] (row ∷ []) state.now) }
    ensures bounds { IfOk result HasBounds }
{
    let alloc = state.alloc();
    let rows = one_row(row, alloc)?;
    state.branch()?.with_case(Vec::new(alloc), rows)
}
