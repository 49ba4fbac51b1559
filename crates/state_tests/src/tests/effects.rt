//! Effects, worked out by hand from the tables of docs/EFFECTS.md. A row has a stack and what is known of symbols, a
//! built-in function, and hints. What comes of it is the stack, and then what isn't as it was: the next symbol, new facts,
//! new rows (the terms of older symbols first), names that are bound anew, and how many hints are left, where any are. Or
//! it is the fault, and how many hints are left, where it took any.

mod faults;
mod results;

ghost use Rattle.std.specs.Prelude.{◌≡◌, true, IfOk};
ghost use Rattle.sym_state.specs.Effects as rule;

use crate::tests::effects::faults::{
    DEMAND_OF_A_WHOLE_STACK, DEMANDS, DEMANDS_OF_AN_ENTRY, HINTS, VALUES,
};
use crate::tests::effects::results::{INTEGERS, MOVES, STRINGS, SYMBOLS};
use crate::tests::known::{Named, Setting, condition, style};
use crate::tests::lines::{Answers, add_fault, add_state, compare};
use crate::tests::outcomes::{Given, Rule, add_outcome};
use crate::tests::reading::Unread;
use bst_meaning::condition::Cond;
use builtin_effects::effect::effect;
use bv_base::memory::NoMemory;
use name_table::builtin::Builtin;
use name_table::names::Kind;
use name_table::style::{BodyId, Style};
use std::alloc::Global;
use std::process::Abort;
use sym_state::demand::EffectFault;
use sym_state::hint::Hints;
use sym_state::state::State;

/// A global string, an integer of entries and a function.
static NAMES: [Named; 3] = [
    Named {
        name: b"s",
        kind: Kind::StrGlobal,
    },
    Named {
        name: b"i",
        kind: Kind::IntEntry,
    },
    Named {
        name: b"f",
        kind: Kind::Wizard(BodyId(0)),
    },
];

/// Whether what comes of each row is what is wanted, at an entry with the whole stack known.
fn compare_effects(rt: &impl Abort, alloc: Global, rows: &[&'static str]) {
    compare_at(rt, alloc, Setting::Entry, rows);
}

/// The same at states of a setting.
fn compare_at(rt: &impl Abort, alloc: Global, setting: Setting, rows: &[&'static str]) {
    match effects_at(alloc, setting) {
        Ok(effects) => compare(rt, alloc, &effects, rows),
        Err(_) => assert!(rt; false, "no memory"),
    }
}

#[test]
fn effects_on_integers(rt: HostRuntime) {
    compare_effects(&rt, rt.alloc(), &INTEGERS);
}

#[test]
fn effects_on_strings(rt: HostRuntime) {
    compare_effects(&rt, rt.alloc(), &STRINGS);
}

#[test]
fn effects_on_stacks_and_variables(rt: HostRuntime) {
    compare_effects(&rt, rt.alloc(), &MOVES);
}

#[test]
fn demands_on_operands(rt: HostRuntime) {
    compare_effects(&rt, rt.alloc(), &DEMANDS);
}

#[test]
fn demands_on_values(rt: HostRuntime) {
    compare_effects(&rt, rt.alloc(), &VALUES);
}

#[test]
fn hints_that_do_not_serve(rt: HostRuntime) {
    compare_effects(&rt, rt.alloc(), &HINTS);
}

#[test]
fn one_symbol_in_two_places(rt: HostRuntime) {
    compare_effects(&rt, rt.alloc(), &SYMBOLS);
}

#[test]
fn demands_of_an_entry(rt: HostRuntime) {
    compare_at(&rt, rt.alloc(), Setting::NoEntry, &DEMANDS_OF_AN_ENTRY);
}

#[test]
fn demand_of_a_whole_stack(rt: HostRuntime) {
    compare_at(
        &rt,
        rt.alloc(),
        Setting::TopOfStack,
        &DEMAND_OF_A_WHOLE_STACK,
    );
}

/// Built-in functions under a condition, at states of one setting.
#[derive(Drop)]
struct Effects {
    style: Style,
    cond: Cond,
    setting: Setting,
}

fn effects_at(alloc: Global, setting: Setting) -> Result<Effects, NoMemory> {
    Ok(Effects {
        style: style(alloc, &NAMES)?,
        cond: condition(alloc),
        setting,
    })
}

impl Answers for Effects {
    fn add_answer(&self, line: &mut String, given: &'static str) -> Result<(), Unread> {
        add_outcome(line, self, self.setting, given)
    }
}

impl Rule for Effects {
    fn add(&self, line: &mut String, given: &Given, left: &mut Hints<'_>) -> Result<bool, Unread> {
        let op = built_in(&self.style, given.name)?;
        let answer = effect(&self.style, &given.state, &self.cond, op, left);
        add_effect(line, &given.state, &answer)?;
        Ok(answer.is_ok())
    }
}

/// The built-in function of a name, where it has an effect.
fn built_in(style: &Style, name: &'static str) -> Result<Builtin, Unread>
    ensures { IfOk result (λ op. rule.is_plain op ≡ true) }
{
    if let Some(id) = style.names.find(name.as_bytes()) {
        if let Kind::Builtin(op) = style.names.kind(id) {
            if is_plain(op) {
                return Ok(op);
            }
        }
    }
    Err(Unread::At(name))
}

fn add_effect(
    line: &mut String,
    before: &State,
    answer: &Result<State, EffectFault>,
) -> Result<(), NoMemory> {
    match answer {
        Ok(after) => add_state(line, before, after),
        Err(fault) => add_fault(line, *fault),
    }
}

/// Whether a built-in function has an effect.
fn is_plain(op: Builtin) -> bool
    ensures { result ≡ rule.is_plain op }
{
    !matches!(
        op,
        Builtin::Equal
            | Builtin::Greater
            | Builtin::Less
            | Builtin::Empty
            | Builtin::Missing
            | Builtin::CallType
            | Builtin::IfElse
            | Builtin::WhileDo
    )
}
