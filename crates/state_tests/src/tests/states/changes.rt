//! The calls that change a state, and the cursor on hints.

ghost use Rattle.std.specs.Prelude.{◌≡◌};

use crate::tests::known::{Shape, state_of};
use crate::tests::lines::compare;
use crate::tests::reading::Unread;
use crate::tests::states::Asked;
use crate::tests::states::example::{binds, started};
use bv_base::memory::NoMemory;
use name_table::names::NameId;
use sym_state::hint::{Hint, Hints};
use sym_state::state::State;
use sym_state::symbol::{Bind, Kinds, Sym};

/// What comes off the stack before and after, and whether the state and a branch of it are as they have to be.
static CHANGES: [&str; 1] = ["pop, push twice, pop, bind: 42 => None Some(Sym(3)) true true"];

#[test]
fn states_change(rt: HostRuntime) {
    compare(&rt, rt.alloc(), &Asked::Changed, &CHANGES);
}

/// Adds what the changes give.
pub fn add_changed(line: &mut String, _given: &'static str) -> Result<(), Unread> {
    let mut state = started(*line.allocator())?;
    add_changes(line, &mut state)
}

fn add_changes(line: &mut String, state: &mut State) -> Result<(), Unread> {
    let [before, after] = change(state)?;
    let (is_so, is_alike) = (is_changed(state), is_branched_alike(state)?);
    Ok(write!(line, "{before:?} {after:?} {is_so} {is_alike}")?)
}

/// What comes off the stack before two symbols are put on it, and after.
fn change(state: &mut State) -> Result<[Option<Sym>; 2], NoMemory> {
    let before = state.pop();
    state.push(Sym(0))?;
    state.push(Sym(3))?;
    let after = state.pop();
    state.bind(NameId(42), Sym(0))?;
    Ok([before, after])
}

/// Whether a branch of the state has what the state has.
fn is_branched_alike(state: &State) -> Result<bool, NoMemory> {
    let branch = state.branch()?;
    Ok(is_changed(&branch))
}

/// Whether the stack and the variables are as they are after the changes.
fn is_changed(state: &State) -> bool {
    state.stack_len() == 1 && state.at(0) == Some(Sym(0)) && binds(state, &CHANGED)
}

static CHANGED: [Bind; 4] = [bind!(39, 1), bind!(40, 2), bind!(41, 0), bind!(42, 0)];

/// A state with two symbols to come.
static LAST: Shape = Shape {
    whole: true,
    at_entry: false,
    vars: "",
    fields: "",
    next: 4294967293,
};

/// The two symbols, how many facts there are, and what is on top of a stack on which no symbol is known.
static SYMBOLS: [&str; 1] = ["of any kind, a string: 2 => Sym(4294967293) Sym(4294967294) 1 None"];

#[test]
fn symbols_come_in_order(rt: HostRuntime) {
    compare(&rt, rt.alloc(), &Asked::Last, &SYMBOLS);
}

/// Adds the symbols that come.
pub fn add_last(line: &mut String, _given: &'static str) -> Result<(), Unread> {
    let mut state = state_of(*line.allocator(), LAST, "empty")?;
    add_symbols(line, &mut state)
}

fn add_symbols(line: &mut String, state: &mut State) -> Result<(), Unread>
    requires { state.old.next ≡ 4294967293 }
{
    let [any, string] = next_two(state)?;
    let (facts, top) = (state.facts(), state.at(0));
    Ok(write!(line, "{any:?} {string:?} {facts} {top:?}")?)
}

/// The next symbol, of any kind, and the string after it.
fn next_two(state: &mut State) -> Result<[Sym; 2], NoMemory>
    requires { state.old.next ≡ 4294967293 }
{
    let any = state.fresh(Kinds::Any)?;
    let string = state.fresh(Kinds::Str)?;
    Ok([any, string])
}

#[test]
fn hints_come_in_order(rt: HostRuntime) {
    assert!(rt; come_in_order(&[Hint::Walk, Hint::Keep]));
}

/// Whether a walk comes first, then what keeps a case, and then nothing.
fn come_in_order(list: &[Hint]) -> bool {
    let mut hints = Hints::new(list);
    matches!(hints.next(), Some(Hint::Walk))
        && matches!(hints.next(), Some(Hint::Keep))
        && hints.next().is_none()
}
