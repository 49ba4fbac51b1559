//! The places of cases (docs/ANALYSER.md, "Loops").

ghost use Rattle.std.specs.Prelude.{◌≡◌, ◌+◌, ◌<◌, ◌≤◌, ◌++◌, ◌||◌, filter_map, length, nat_eq, IfOk, OnOk};
ghost use Rattle.std.specs.List.{list_any};
ghost use Rattle.sym_state.specs.Changes.{bound};
ghost use Rattle.loop_templates.specs.Cases as rule;

use crate::facts::{is_written, symbol_in};
use crate::skeletons::{push_there, stack_of};
use bv_base::memory::NoMemory;
use bv_base::seq::Seq;
use name_table::names::NameId;
use std::alloc::Global;
use sym_state::state::State;
use sym_state::symbol::{Bind, Sym};

/// Places that have their symbols, the symbols of a state that have one here, each with that, and the next new symbol.
#[derive(Drop)]
pub struct Seats {
    pub places: Seq<Bind>,
    pub seen: Seq<(Sym, Sym)>,
    pub next: u32,
}

/// The places of names behind a stack of this length, shared as in a state.
pub(crate) fn places_behind(
    alloc: Global,
    writes: &[NameId],
    n: u32,
    state: &State,
    names: &[NameId],
) -> Result<Vec<Bind>, NoMemory>
    requires { n + length names.now < 4294967296 }
    ensures { IfOk result (λ places. places.items ≡ rule.places_behind writes.now n state.now names.now) }
{
    let taken = taken_symbols(alloc, writes, state)?;
    let mut seats = Seats {
        places: Seq::new(alloc),
        seen: Seq::new(alloc),
        next: n,
    };
    seat_all(&mut seats, writes, taken.as_slice(), state, names)?;
    Ok(seats.places.into_vec())
}

/// Gives names their places.
fn seat_all(
    seats: &mut Seats,
    writes: &[NameId],
    taken: &[Sym],
    state: &State,
    names: &[NameId],
) -> Result<(), NoMemory>
    requires { seats.old.next + length names.now < 4294967296 }
    ensures { OnOk result (seats.new ≡ rule.seated writes.now taken.now state.now seats.old names.now) }
{
    for name in names {
        seat(seats, writes, taken, state, *name)?;
    }
    Ok(())
}

/// The symbols of the stack and of the written variables.
fn taken_symbols(alloc: Global, writes: &[NameId], state: &State) -> Result<Vec<Sym>, NoMemory>
    ensures { IfOk result (λ taken. taken.items ≡ rule.taken_symbols writes.now state.now) }
{
    let mut taken = stack_of(alloc, state)?;
    push_bound(&mut taken, writes, state)?;
    Ok(taken)
}

/// Adds the symbols that are bound to names.
fn push_bound(taken: &mut Vec<Sym>, names: &[NameId], state: &State) -> Result<(), NoMemory>
    ensures { OnOk result (taken.new.items ≡ taken.old.items ++ filter_map (λ name. bound name state.now) names.now) }
{
    for name in names {
        push_there(taken, state.bound(*name))?;
    }
    Ok(())
}

/// Gives a name its place.
fn seat(
    seats: &mut Seats,
    writes: &[NameId],
    taken: &[Sym],
    state: &State,
    name: NameId,
) -> Result<(), NoMemory>
    requires { seats.old.next + 1 < 4294967296 }
    ensures seat { OnOk result (seats.new ≡ rule.seat writes.now taken.now state.now seats.old name) }
    ensures next { OnOk result (seats.new.next ≤ seats.old.next + 1) }
{
    let s = symbol_in(state, name);
    if is_own(writes, taken, s, name) {
        put_own(seats, name)
    } else {
        put_shared(seats, s, name)
    }
}

/// Whether a name gets a symbol of its own: a written variable, and what shares its symbol with these.
fn is_own(writes: &[NameId], taken: &[Sym], s: u32, name: NameId) -> bool
    ensures { result ≡ (rule.is_written writes.now name || list_any (λ other. nat_eq other.0 s) taken.now) }
{
    is_written(writes, name) || is_taken(taken, s)
}

/// Whether a symbol is among these.
fn is_taken(taken: &[Sym], s: u32) -> bool
    ensures { result ≡ list_any (λ other. nat_eq other.0 s) taken.now }
{
    taken.iter().any(|other| other.0 == s)
}

/// A place with the next symbol.
fn put_own(seats: &mut Seats, name: NameId) -> Result<(), NoMemory>
    requires { seats.old.next + 1 < 4294967296 }
    ensures { OnOk result (seats.new ≡ rule.with_own name seats.old) }
{
    let sym = Sym(seats.next);
    seats.places.push(Bind { name, sym })?;
    seats.next += 1;
    Ok(())
}

/// A place that shares its symbol as in a state.
fn put_shared(seats: &mut Seats, s: u32, name: NameId) -> Result<(), NoMemory>
    requires { seats.old.next + 1 < 4294967296 }
    ensures place { OnOk result (seats.new ≡ rule.with_place (rule.shared s seats.old.seen) s name seats.old) }
    ensures next { OnOk result (seats.new.next ≤ seats.old.next + 1) }
{
    match shared(s, seats.seen.as_slice()) {
        Some(sym) => seats.places.push(Bind { name, sym }),
        None => put_first(seats, s, name),
    }
}

/// A place with the next symbol, which stands for a state's from here on.
fn put_first(seats: &mut Seats, s: u32, name: NameId) -> Result<(), NoMemory>
    requires { seats.old.next + 1 < 4294967296 }
    ensures { OnOk result (seats.new ≡ rule.with_first s name seats.old) }
{
    let sym = Sym(seats.next);
    seats.seen.push((Sym(s), sym))?;
    put_own(seats, name)
}

/// The case's symbol for a state's, where a place before has it.
fn shared(s: u32, seen: &[(Sym, Sym)]) -> Option<Sym>
    ensures { result ≡ rule.shared s seen.now }
{
    for (of_state, of_case) in seen {
        if of_state.0 == s {
            return Some(*of_case);
        }
    }
    None
}
