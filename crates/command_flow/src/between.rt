//! What stands between commands (docs/CHECKER.md, "Commands").

ghost use Rattle.std.specs.Prelude.{◌≡◌, ◌+◌, ◌<◌, ◌≤◌, List, [], ◌∷◌, ◌++◌, option_map, IfOk, OnOk};
ghost use Rattle.bst_meaning.specs.Config as config;
ghost use Rattle.command_flow.specs.Between as rule;
ghost use Rattle.command_flow.specs.Commands as commands;

use bst_meaning::value::{ENTRY_SIZE, GLOBAL_SIZE};
use bv_base::copied::Copied;
use bv_base::memory::NoMemory;
use bv_base::seq::Seq;
use bv_base::text::Text;
use cert_check::refusal::Refusal;
use cert_format::cert::CommandPart;
use name_table::names::{Kind, NameId, Names};
use name_table::opening::{ENTRY_MAX, GLOBAL_MAX};
use name_table::style::Style;
use std::alloc::Global;
use sym_state::hint::Hints;
use sym_state::piece::Piece;
use sym_state::symbol::{Bind, Fact, Sym};

/// What is known between two commands.
#[derive(Drop)]
pub struct Between {
    /// Of the global variables.
    pub globals: Piece,
    /// Of each entry.
    pub entry: Piece,
}

/// Whose variables: the style's, which are global, or an entry's.
#[derive(Clone, Copy)]
pub(crate) enum Owner {
    Style,
    Entry,
}

/// What stands after a command, or the rule that fails.
pub(crate) type Flow = Result<Between, Refusal>;

/// What the record of a command gives: its pieces, of which one that it doesn't give says nothing, and its hints.
#[derive(Drop)]
pub struct Parts<'a> {
    /// What holds of the global variables after it.
    pub after: Piece,
    /// What holds of them before each visit.
    pub visit: Piece,
    /// What holds of each entry after its visit.
    pub keeps: Piece,
    pub hints: Hints<'a>,
}

/// What a command's record gives: without one it has no pieces and no hints.
pub(crate) fn parts_of<'a>(
    alloc: Global,
    part: Option<&'a CommandPart>,
) -> Result<Parts<'a>, NoMemory>
    ensures { IfOk result (λ parts. parts ≡ commands.parts_of (option_map (λ p. p.now) part.entry)) }
{
    match part {
        Some(part) => Ok(Parts {
            after: given(alloc, part.after.as_ref())?,
            visit: given(alloc, part.visit.as_ref())?,
            keeps: given(alloc, part.keeps.as_ref())?,
            hints: Hints::new(part.hints.as_slice()),
        }),
        None => Ok(Parts {
            after: nothing(alloc),
            visit: nothing(alloc),
            keeps: nothing(alloc),
            hints: Hints::new(&[]),
        }),
    }
}

/// Before the first command each variable has the value with which it opens.
pub(crate) fn opened(alloc: Global, style: &Style) -> Result<Between, NoMemory>
    ensures { IfOk result (λ between. between ≡ rule.opened style.now) }
{
    Ok(Between {
        globals: variables(alloc, &style.names, Owner::Style)?,
        entry: variables(alloc, &style.names, Owner::Entry)?,
    })
}

/// Variables so far, each with a symbol of its own and its exact fact.
#[derive(Drop)]
struct Exact {
    vars: Vec<Bind>,
    facts: Vec<Fact>,
    next: u32,
}

/// The piece on the global variables, or on an entry's.
fn variables(alloc: Global, names: &Names, owner: Owner) -> Result<Piece, NoMemory>
    ensures { IfOk result (λ piece. piece ≡ rule.exactly (config.opening_variables (rule.opening_of owner) 0 names.now)) }
{
    let mut exact = Exact {
        vars: Vec::new(alloc),
        facts: Vec::new(alloc),
        next: 0,
    };
    for id in 0..names.len() {
        let name = NameId(id);
        push_variable(&mut exact, owner, name, names.kind(name), alloc)?;
    }
    Ok(piece_of(alloc, exact))
}

/// A piece of variables.
fn piece_of(alloc: Global, exact: Exact) -> Piece
    ensures { result ≡ record { stack = []; vars = exact.vars.items; fields = []; facts = exact.facts.items; rows = [] } }
{
    Piece {
        stack: Seq::new(alloc),
        vars: Seq::from_vec(exact.vars),
        fields: Seq::new(alloc),
        facts: Seq::from_vec(exact.facts),
        rows: Seq::new(alloc),
    }
}

/// Appends the variable that a name of a kind is, if it is one of these.
fn push_variable(
    exact: &mut Exact,
    owner: Owner,
    name: NameId,
    kind: Kind,
    alloc: Global,
) -> Result<(), NoMemory>
    requires { exact.old.next < 4294967295 }
    ensures vars { OnOk result ((later : List config.Variable) → exact.new.vars.items ++ rule.own_symbols exact.new.next later
        ≡ exact.old.vars.items ++ rule.own_symbols exact.old.next (rule.opening_of owner name.0 kind later)) }
    ensures facts { OnOk result ((later : List config.Variable) → exact.new.facts.items ++ rule.exact_facts exact.new.next later
        ≡ exact.old.facts.items ++ rule.exact_facts exact.old.next (rule.opening_of owner name.0 kind later)) }
    ensures next { OnOk result (exact.new.next ≤ exact.old.next + 1) }
{
    let sym = Sym(exact.next);
    let fact = match (owner, kind) {
        (Owner::Style, Kind::IntGlobal) => Fact::Int(sym, opening_integer(name)),
        (Owner::Entry, Kind::IntEntry) => Fact::Int(sym, 0),
        (Owner::Style, Kind::StrGlobal) | (Owner::Entry, Kind::StrEntry) => {
            Fact::Text(sym, Text::from_vec(Vec::new(alloc)))
        }
        _ => return Ok(()),
    };
    push(exact, name, fact)
}

/// Appends a variable with the fact on its symbol.
fn push(exact: &mut Exact, name: NameId, fact: Fact) -> Result<(), NoMemory>
    requires { exact.old.next < 4294967295 }
    ensures vars { OnOk result (exact.new.vars.items ≡ exact.old.vars.items ++ record { name = name; sym = record { 0 = exact.old.next } } ∷ []) }
    ensures facts { OnOk result (exact.new.facts.items ≡ exact.old.facts.items ++ fact ∷ []) }
    ensures next { OnOk result (exact.new.next ≡ exact.old.next + 1) }
{
    let sym = Sym(exact.next);
    exact.vars.push(Bind { name, sym })?;
    exact.facts.push(fact)?;
    exact.next += 1;
    Ok(())
}

/// The value with which a global integer opens.
fn opening_integer(name: NameId) -> i32
    ensures { result ≡ config.opening_integer name.0 }
{
    if name.0 == ENTRY_MAX.0 {
        ENTRY_SIZE as i32
    } else if name.0 == GLOBAL_MAX.0 {
        GLOBAL_SIZE as i32
    } else {
        0
    }
}

/// The piece that a record gives; one that it doesn't give says nothing.
pub(crate) fn given(alloc: Global, piece: Option<&Piece>) -> Result<Piece, NoMemory>
    ensures { IfOk result (λ copy. copy ≡ commands.given (option_map (λ p. p.now) piece.entry)) }
{
    match piece {
        Some(piece) => copied(alloc, piece),
        None => Ok(nothing(alloc)),
    }
}

/// A copy of a piece.
pub(crate) fn copied(alloc: Global, piece: &Piece) -> Result<Piece, NoMemory>
    ensures { IfOk result (λ copy. copy ≡ piece.now) }
{
    Ok(Piece {
        stack: Seq::from_vec(piece.stack.as_slice().to_vec(alloc)?),
        vars: Seq::from_vec(piece.vars.as_slice().to_vec(alloc)?),
        fields: Seq::from_vec(piece.fields.as_slice().to_vec(alloc)?),
        facts: piece.facts.copied(alloc)?,
        rows: piece.rows.copied(alloc)?,
    })
}

/// The piece that says nothing.
pub(crate) fn nothing(alloc: Global) -> Piece
    ensures { result ≡ rule.nothing }
{
    Piece {
        stack: Seq::new(alloc),
        vars: Seq::new(alloc),
        fields: Seq::new(alloc),
        facts: Seq::new(alloc),
        rows: Seq::new(alloc),
    }
}
