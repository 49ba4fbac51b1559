//! Cases, worked out by hand from docs/EFFECTS.md, "Cases". A row has a stack and what is known of symbols, a test, and
//! hints. What comes of it is how many hints are needed, as `needs 2: ` where any are, and the states that are given, one
//! after the other: the stack of each, and then what isn't as it was: the next symbol, new facts, new rows (the terms of
//! older symbols first). It is `none` where both cases are dropped. It ends with how many hints are left, where any are. Or
//! it is the fault, and how many hints are left, where it took any.

mod faults;
mod integers;
mod strings;

use crate::tests::cases::faults::{DEMANDS, HINTS, LEFT, MIXED, ORDERED};
use crate::tests::cases::integers::{ABOVE, EQUAL, GREATER, LESS};
use crate::tests::cases::strings::{EMPTY, MISSING, TEXTS};
use crate::tests::known::{Setting, condition};
use crate::tests::lines::{Answers, add_fault, add_state, compare};
use crate::tests::outcomes::{Given, Rule, add_outcome};
use crate::tests::reading::{Unread, halves, natural};
use bst_meaning::condition::Cond;
use bv_base::memory::NoMemory;
use refinements::{Test, needs, split};
use std::alloc::Global;
use std::process::Abort;
use sym_state::demand::EffectFault;
use sym_state::hint::Hints;
use sym_state::state::State;
use sym_state::symbol::Sym;

#[test]
fn strings_that_may_be_empty(rt: HostRuntime) {
    compare_cases(&rt, rt.alloc(), &EMPTY);
}

#[test]
fn fields_that_may_be_missing(rt: HostRuntime) {
    compare_cases(&rt, rt.alloc(), &MISSING);
}

#[test]
fn equal_strings(rt: HostRuntime) {
    compare_cases(&rt, rt.alloc(), &TEXTS);
}

#[test]
fn equal_integers(rt: HostRuntime) {
    compare_cases(&rt, rt.alloc(), &EQUAL);
}

#[test]
fn integers_that_are_less(rt: HostRuntime) {
    compare_cases(&rt, rt.alloc(), &LESS);
}

#[test]
fn integers_that_are_greater(rt: HostRuntime) {
    compare_cases(&rt, rt.alloc(), &GREATER);
}

#[test]
fn integers_above_0(rt: HostRuntime) {
    compare_cases(&rt, rt.alloc(), &ABOVE);
}

#[test]
fn hints_that_do_not_serve(rt: HostRuntime) {
    compare_cases(&rt, rt.alloc(), &HINTS);
}

#[test]
fn hints_that_are_left(rt: HostRuntime) {
    compare_cases(&rt, rt.alloc(), &LEFT);
}

#[test]
fn demands_that_are_not_met(rt: HostRuntime) {
    compare_cases(&rt, rt.alloc(), &DEMANDS);
}

#[test]
fn equal_values_of_mixed_kinds(rt: HostRuntime) {
    compare_cases(&rt, rt.alloc(), &MIXED);
}

#[test]
fn ordered_values_that_are_no_integers(rt: HostRuntime) {
    compare_cases(&rt, rt.alloc(), &ORDERED);
}

fn compare_cases(rt: &impl Abort, alloc: Global, rows: &[&'static str]) {
    let cond = condition(alloc);
    compare(rt, alloc, &Cases { cond }, rows);
}

/// Tests under a condition.
#[derive(Drop)]
struct Cases {
    cond: Cond,
}

impl Answers for Cases {
    fn add_answer(&self, line: &mut String, given: &'static str) -> Result<(), Unread> {
        add_outcome(line, self, Setting::Entry, given)
    }
}

impl Rule for Cases {
    fn add(&self, line: &mut String, given: &Given, left: &mut Hints<'_>) -> Result<bool, Unread> {
        let test = test_of(given.name)?;
        add_needed(line, needs(&given.state, test))?;
        let answer = split(&given.state, &self.cond, test, left);
        add_cases(line, &given.state, &answer)?;
        Ok(answer.is_ok())
    }
}

fn test_of(text: &'static str) -> Result<Test, Unread> {
    let (word, symbol) = halves(text, " ");
    if word == "above" {
        return Ok(Test::Above(Sym(natural(symbol)?)));
    }
    Ok(match text {
        "empty$" => Test::Empty,
        "missing$" => Test::Missing,
        "=" => Test::Equal,
        "<" => Test::Less,
        ">" => Test::Greater,
        _ => return Err(Unread::At(text)),
    })
}

/// Adds how many hints are needed, where any are.
fn add_needed(line: &mut String, needed: u32) -> Result<(), NoMemory> {
    if needed != 0 {
        write!(line, "needs {needed}: ")?;
    }
    Ok(())
}

fn add_cases(
    line: &mut String,
    before: &State,
    answer: &Result<Vec<State>, EffectFault>,
) -> Result<(), NoMemory> {
    match answer {
        Ok(states) => add_states(line, before, states.as_slice()),
        Err(fault) => add_fault(line, *fault),
    }
}

fn add_states(line: &mut String, before: &State, states: &[State]) -> Result<(), NoMemory> {
    if states.is_empty() {
        line.push_str("none")?;
    }
    for (k, state) in states.iter().enumerate() {
        line.push_str(if k == 0 { "" } else { " | " })?;
        add_state(line, before, state)?;
    }
    Ok(())
}
