//! Uses of units (docs/CHECKER.md, "Use of a summary").

ghost use Rattle.std.specs.Prelude.{◌≡◌, ◌+◌, ◌<◌, ◌≤◌, ◌++◌, nat_eq, length, map, IfOk, OnErr, OnOk};
ghost use Rattle.std.specs.List.{All, list_any};
ghost use Rattle.bv_base.specs.Answers.{Leaves};
ghost use Rattle.cert_check.specs.Uses as rule;
ghost use Rattle.sym_state.specs.declared.demand.EffectFault.TheVariants.{NoMemory as WantOfMemory};
ghost use Rattle.sym_state.specs.Demands.{HasFewUses};
ghost use Rattle.sym_state.specs.Entailing.{places};
ghost use Rattle.sym_state.specs.Matches.{matched_by};
ghost use Rattle.sym_state.specs.Renaming.{bind_renamed, fact_renamed, row_renamed, sym_renamed};
ghost use Rattle.sym_state.specs.Showing.{CanShow};
ghost use Rattle.sym_state.specs.Starting.{symbols_of as count_of};

use crate::scope::is_among;
use bst_meaning::condition::Cond;
use bv_base::memory::NoMemory;
use cert_format::cert::Loop;
use lin_facts::row::Row;
use name_table::names::NameId;
use name_table::style::Style;
use std::alloc::Global;
use std::marker::Model;
use sym_state::demand::EffectFault;
use sym_state::hint::Hints;
use sym_state::piece::Piece;
use sym_state::start::{add_own_facts, add_own_rows, seats};
use sym_state::state::State;
use sym_state::symbol::{Bind, Fact, Sym};
use sym_state::{Matching, shown_by, symbols_of};

/// What is said of every way through a unit. Contracts see the record of `specs/Uses.antt`.
#[derive(Drop)]
pub(crate) struct Passage<'a> {
    /// Whether it is entered at an entry alone.
    pub(crate) entry: bool,
    /// Whether the stacks of its pieces are the whole stack.
    pub(crate) whole: bool,
    /// The variables that it may write.
    pub(crate) writes: &'a [NameId],
}

impl<'a> Model for Passage<'a> {
    ghost use Rattle.cert_check.specs.Uses as uses;

    ghost Value = { uses.Passage };

    ghost view = { λ p. record { entry = p.entry; whole = p.whole; writes = p.writes.now } };
}

impl<'a> Passage<'a> {
    /// That of a loop.
    pub(crate) fn around(one: &'a Loop) -> Passage<'a>
        ensures { result ≡ rule.around one.now }
    {
        Passage {
            entry: one.entry,
            whole: one.whole,
            writes: one.writes.as_slice(),
        }
    }
}

/// A state comes to a unit by the piece that stands before it, which the next hints show. The hints of a piece that isn't
/// shown stay.
pub(crate) fn comes_by(
    unit: &Passage<'_>,
    cond: &Cond,
    piece: &Piece,
    state: &State,
    hints: &mut Hints<'_>,
) -> Result<(), EffectFault>
    requires { CanShow state.now piece.now hints.old }
    ensures shown { Leaves WantOfMemory (rule.comes_by unit.now cond.now piece.now state.now hints.old) hints.new result }
    ensures few { OnOk result (length piece.now.stack ≤ length state.now.stack) }
    ensures stays { OnErr result (hints.new ≡ hints.old) }
    ensures proofs { All HasFewUses hints.new }
{
    if fits(unit, piece, state) {
        shown_by(state, cond, piece, 0, hints)
    } else {
        Err(EffectFault::NotEntailed(0))
    }
}

/// Whether a state may come to a unit.
fn fits(unit: &Passage<'_>, piece: &Piece, state: &State) -> bool
    ensures { result ≡ rule.fits unit.now piece.now state.now }
{
    fits_stack(unit, piece, state) && (!unit.entry || state.is_at_entry())
}

/// Whether the state's stack is whole where those of the unit's pieces are.
fn fits_stack(unit: &Passage<'_>, piece: &Piece, state: &State) -> bool
    ensures { result ≡ rule.fits_stack unit.now piece.now state.now }
{
    let many = piece.stack.as_slice().len() as u64;
    !unit.whole || (state.is_whole() && state.stack_len() == many)
}

/// A unit that a state came to.
#[derive(Clone, Copy)]
pub(crate) struct Came<'a> {
    pub(crate) style: &'a Style,
    pub(crate) cond: &'a Cond,
    pub(crate) unit: &'a Passage<'a>,
    /// The piece by which it came.
    pub(crate) pre: &'a Piece,
    /// The unit's pieces share the symbols of that piece below this one.
    pub(crate) kept: u32,
    pub(crate) state: &'a State,
}

/// The states after a unit that a state came to, one for each post.
pub(crate) fn left_states(came: &Came<'_>, posts: &[Piece]) -> Result<Vec<State>, NoMemory>
    requires stack { length came.now.pre.now.stack ≤ length came.now.state.now.stack }
    requires room { All (λ post. came.now.state.now.next + (count_of post + length came.now.unit.now.writes) < 4294967296) posts.now }
    requires names { All (λ name. name.0 < length came.now.style.now.names) came.now.unit.now.writes }
    ensures { IfOk result (λ states. states.items
        ≡ map (rule.left_state came.now.style.now came.now.cond.now came.now.unit.now came.now.pre.now came.now.kept came.now.state.now) posts.now) }
{
    let alloc = came.state.alloc();
    let matching = Matching::new(alloc, came.state, came.pre, 0)?;
    let mut states = Vec::new(alloc);
    for post in posts {
        states.push(left_state(came, &matching, post)?)?;
    }
    Ok(states)
}

/// The state after a unit that leaves by a post, where this is the match of its pre.
fn left_state(came: &Came<'_>, matching: &Matching, post: &Piece) -> Result<State, NoMemory>
    requires stack { length came.now.pre.now.stack ≤ length came.now.state.now.stack }
    requires room { came.now.state.now.next + (count_of post.now + length came.now.unit.now.writes) < 4294967296 }
    requires names { All (λ name. name.0 < length came.now.style.now.names) came.now.unit.now.writes }
    requires whole { matching.now.kept ≡ 0 }
    requires places { matching.now.places.items ≡ places came.now.state.now came.now.pre.now }
    ensures { IfOk result (λ state. state
        ≡ rule.left_state came.now.style.now came.now.cond.now came.now.unit.now came.now.pre.now came.now.kept came.now.state.now post.now) }
{
    let alloc = came.state.alloc();
    let unit = came.unit;
    let (own, first) = own_places(alloc, unit, came.state, post, came.kept)?;
    let all = matching.behind(alloc, own)?;
    let binds = renamed_binds(alloc, &all, post.vars.as_slice())?;
    let (written, next) = seats(alloc, binds.as_slice(), first, unit.writes)?;
    let below = came.state.without(came.pre.stack.as_slice().len())?;
    let more = next - came.state.next();
    left_by(
        came.style,
        came.cond,
        &all,
        written.as_slice(),
        more,
        post,
        below,
    )
}

/// Each of a post's own symbols with the state's, and the symbol after the new ones.
fn own_places(
    alloc: Global,
    unit: &Passage<'_>,
    state: &State,
    post: &Piece,
    kept: u32,
) -> Result<(Vec<(Sym, Sym)>, u32), NoMemory>
    requires { state.now.next + count_of post.now < 4294967296 }
    ensures places { IfOk result (λ found. found.0.items ≡ rule.own_places unit.now state.now post.now kept (rule.own_count post.now kept) state.now.next) }
    ensures next { IfOk result (λ found. found.1 ≡ state.now.next + rule.new_symbols unit.now state.now post.now kept (rule.own_count post.now kept)) }
{
    let count = symbols_of(post) as u32;
    let mut places = Vec::new(alloc);
    let mut next = state.next();
    for s in kept..count {
        let found = unchanged(unit, state, post, Sym(s));
        places.push((Sym(s), found.unwrap_or(Sym(next))))?;
        next += new_one(found);
    }
    Ok((places, next))
}

/// How many symbols are new where this one stands for another.
fn new_one(found: Option<Sym>) -> u32
    ensures new { result ≡ rule.new_one found }
    ensures few { result ≤ 1 }
{
    match found {
        Some(_) => 0,
        None => 1,
    }
}

/// The state's symbol for a post's own symbol, where that stands for a variable or field that isn't written.
fn unchanged(unit: &Passage<'_>, state: &State, post: &Piece, sym: Sym) -> Option<Sym>
    ensures { result ≡ rule.unchanged unit.now state.now post.now sym.0 }
{
    match first_name(sym, post) {
        Some(name) => unwritten(unit, state, name),
        None => None,
    }
}

/// The symbol that a name keeps where it isn't written.
fn unwritten(unit: &Passage<'_>, state: &State, name: NameId) -> Option<Sym>
    ensures { result ≡ rule.unwritten unit.now state.now name }
{
    if is_among(unit.writes, name) {
        None
    } else {
        state.bound(name)
    }
}

/// The name at a symbol's first place in a piece, which is none where that is on the stack.
fn first_name(sym: Sym, piece: &Piece) -> Option<NameId>
    ensures { result ≡ rule.first_name sym.0 piece.now }
{
    if is_on(piece.stack.as_slice(), sym) {
        return None;
    }
    match name_at(sym, piece.vars.as_slice()) {
        Some(name) => Some(name),
        None => name_at(sym, piece.fields.as_slice()),
    }
}

/// Whether a symbol is on a stack.
fn is_on(stack: &[Sym], sym: Sym) -> bool
    ensures { result ≡ list_any (λ other. nat_eq other.0 sym.0) stack.now }
{
    stack.iter().any(|other| other.0 == sym.0)
}

/// The first name that is bound to a symbol.
fn name_at(sym: Sym, binds: &[Bind]) -> Option<NameId>
    ensures { result ≡ rule.name_at sym.0 binds.now }
{
    for bind in binds {
        if bind.sym.0 == sym.0 {
            return Some(bind.name);
        }
    }
    None
}

/// Bindings with their symbols matched.
fn renamed_binds(alloc: Global, matching: &Matching, binds: &[Bind]) -> Result<Vec<Bind>, NoMemory>
    ensures { IfOk result (λ all. all.items ≡ map (bind_renamed (matched_by matching.now)) binds.now) }
{
    let mut all = Vec::new(alloc);
    for bind in binds {
        all.push(matching.bind(*bind))?;
    }
    Ok(all)
}

/// The state after a post, over a state without the stack of the pre.
fn left_by(
    style: &Style,
    cond: &Cond,
    matching: &Matching,
    written: &[Bind],
    more: u32,
    post: &Piece,
    below: State,
) -> Result<State, NoMemory>
    requires room { below.next + more < 4294967296 }
    requires names { All (λ bind. bind.name.0 < length style.now.names) written.now }
    ensures { IfOk result (λ state. state ≡ rule.left_by style.now cond.now (matched_by matching.now) written.now (below.next + more) post.now below) }
{
    let (facts, rows) = added(style, cond, matching, written, post, below.alloc())?;
    let stacked = with_stack(below, matching, post.stack.as_slice())?;
    let told = stacked.with_case(facts, rows)?;
    with_binds(told.with_symbols(more), written)
}

/// The facts and rows that a post adds: first the own ones of the written variables.
fn added(
    style: &Style,
    cond: &Cond,
    matching: &Matching,
    written: &[Bind],
    post: &Piece,
    alloc: Global,
) -> Result<(Vec<Fact>, Vec<Row>), NoMemory>
    requires { All (λ bind. bind.name.0 < length style.now.names) written.now }
    ensures facts { IfOk result (λ more. more.0.items ≡ rule.facts_left style.now cond.now (matched_by matching.now) written.now post.now) }
    ensures rows { IfOk result (λ more. more.1.items ≡ rule.rows_left style.now cond.now (matched_by matching.now) written.now post.now) }
{
    let mut facts = Vec::new(alloc);
    add_own_facts(&mut facts, style, cond, written)?;
    add_facts(&mut facts, matching, post.facts.as_slice(), alloc)?;
    let mut rows = Vec::new(alloc);
    add_own_rows(alloc, &mut rows, style, cond, written)?;
    add_rows(&mut rows, matching, post.rows.as_slice(), alloc)?;
    Ok((facts, rows))
}

/// Adds facts with their symbols matched.
fn add_facts(
    all: &mut Vec<Fact>,
    matching: &Matching,
    facts: &[Fact],
    alloc: Global,
) -> Result<(), NoMemory>
    ensures { OnOk result (all.new.items ≡ all.old.items ++ map (fact_renamed (matched_by matching.now)) facts.now) }
{
    for fact in facts {
        all.push(matching.fact(alloc, fact)?)?;
    }
    Ok(())
}

/// Adds rows with their symbols matched.
fn add_rows(
    all: &mut Vec<Row>,
    matching: &Matching,
    rows: &[Row],
    alloc: Global,
) -> Result<(), NoMemory>
    ensures { OnOk result (all.new.items ≡ all.old.items ++ map (row_renamed (matched_by matching.now)) rows.now) }
{
    for row in rows {
        all.push(matching.row(alloc, row)?)?;
    }
    Ok(())
}

/// The state with a stack on its own, whose symbols are matched.
fn with_stack(below: State, matching: &Matching, stack: &[Sym]) -> Result<State, NoMemory>
    ensures { IfOk result (λ after. after ≡ record below { stack = below.stack ++ map (sym_renamed (matched_by matching.now)) stack.now }) }
{
    let mut after = below;
    for sym in stack {
        after.push(matching.symbol(*sym))?;
    }
    Ok(after)
}

/// The state where bindings take the place of those of their names.
fn with_binds(state: State, binds: &[Bind]) -> Result<State, NoMemory>
    ensures { IfOk result (λ after. after ≡ rule.with_binds binds.now state) }
{
    let mut after = state;
    for bind in binds {
        after.bind(bind.name, bind.sym)?;
    }
    Ok(after)
}
