//! Pieces whose symbols are numbered on (docs/STATES.md, "Start from pieces").

ghost use Rattle.std.specs.Prelude.{◌≡◌, ◌+◌, ◌-◌, ◌<◌, ◌++◌, map, max, OnOk, IfOk};
ghost use Rattle.std.specs.List.{All, flat_map};
ghost use Rattle.sym_state.specs.Facts.{subject};
ghost use Rattle.sym_state.specs.Renaming as renaming;
ghost use Rattle.sym_state.specs.Starting as rule;
ghost use Rattle.sym_state.specs.WellMade.{IsTermBelow};

use crate::facts::{renamed_to, subject};
use crate::piece::Piece;
use crate::symbol::{Bind, Fact, Sym};
use bv_base::memory::NoMemory;
use bv_base::seq::Seq;
use lin_facts::row::{Part, Row, Term};
use std::alloc::Global;

/// What pieces say together, with their symbols numbered on.
#[derive(Drop)]
pub struct Contents {
    pub stack: Vec<Sym>,
    pub binds: Vec<Bind>,
    pub facts: Vec<Fact>,
    pub rows: Vec<Row>,
    /// How many symbols they have.
    pub next: u32,
}

/// The pieces, one after the other.
pub fn joined(alloc: Global, pieces: &[Piece]) -> Result<Contents, NoMemory>
    requires numbered { All rule.IsNumbered pieces.now }
    requires few { rule.all_symbols pieces.now < 4294967296 }
    ensures stack { IfOk result (λ joined. joined.stack.items ≡ flat_map (λ piece. piece.stack) (rule.numbered_on 0 pieces.now)) }
    ensures binds { IfOk result (λ joined. joined.binds.items ≡ rule.bound_by (rule.numbered_on 0 pieces.now)) }
    ensures facts { IfOk result (λ joined. joined.facts.items ≡ flat_map (λ piece. piece.facts) (rule.numbered_on 0 pieces.now)) }
    ensures rows { IfOk result (λ joined. joined.rows.items ≡ flat_map (λ piece. piece.rows) (rule.numbered_on 0 pieces.now)) }
    ensures next { IfOk result (λ joined. joined.next ≡ rule.all_symbols pieces.now) }
{
    let mut joined = Contents {
        stack: Vec::new(alloc),
        binds: Vec::new(alloc),
        facts: Vec::new(alloc),
        rows: Vec::new(alloc),
        next: 0,
    };
    for piece in pieces {
        add_piece(alloc, &mut joined, piece)?;
    }
    Ok(joined)
}

/// Adds a piece.
fn add_piece(alloc: Global, contents: &mut Contents, piece: &Piece) -> Result<(), NoMemory>
    requires numbered { rule.IsNumbered piece.now }
    requires few { contents.old.next + rule.symbols_of piece.now < 4294967296 }
    ensures stack { OnOk result (contents.new.stack.items ≡ contents.old.stack.items ++ (renaming.piece_renamed (rule.raised contents.old.next) piece.now).stack) }
    ensures binds { OnOk result (contents.new.binds.items ≡ contents.old.binds.items
        ++ ((renaming.piece_renamed (rule.raised contents.old.next) piece.now).vars ++ (renaming.piece_renamed (rule.raised contents.old.next) piece.now).fields)) }
    ensures facts { OnOk result (contents.new.facts.items ≡ contents.old.facts.items ++ (renaming.piece_renamed (rule.raised contents.old.next) piece.now).facts) }
    ensures rows { OnOk result (contents.new.rows.items ≡ contents.old.rows.items ++ (renaming.piece_renamed (rule.raised contents.old.next) piece.now).rows) }
    ensures next { OnOk result (contents.new.next ≡ contents.old.next + rule.symbols_of piece.now) }
{
    let from = contents.next;
    add_stack(&mut contents.stack, from, piece.stack.as_slice())?;
    add_binds(&mut contents.binds, from, piece.vars.as_slice())?;
    add_binds(&mut contents.binds, from, piece.fields.as_slice())?;
    add_facts(alloc, &mut contents.facts, from, piece.facts.as_slice())?;
    add_rows(alloc, &mut contents.rows, from, piece.rows.as_slice())?;
    contents.next = from + symbols_of(piece) as u32;
    Ok(())
}

/// How many symbols a piece has.
pub fn symbols_of(piece: &Piece) -> u64
    ensures { result ≡ rule.symbols_of piece.now }
{
    let placed = symbols_bound(piece.vars.as_slice()).max(symbols_bound(piece.fields.as_slice()));
    symbols_on(piece.stack.as_slice()).max(placed)
}

/// One more than the greatest symbol of a stack.
fn symbols_on(stack: &[Sym]) -> u64
    ensures { result ≡ rule.symbol_count stack.now }
{
    let mut count = 0u64;
    for sym in stack {
        count = count.max(sym.0 as u64 + 1);
    }
    count
}

/// One more than the greatest symbol that is bound.
fn symbols_bound(binds: &[Bind]) -> u64
    ensures { result ≡ rule.symbol_count (map (λ bind. bind.sym) binds.now) }
{
    let mut count = 0u64;
    for bind in binds {
        count = count.max(bind.sym.0 as u64 + 1);
    }
    count
}

/// Adds a stack whose symbols are numbered on.
fn add_stack(all: &mut Vec<Sym>, from: u32, stack: &[Sym]) -> Result<(), NoMemory>
    requires { All (λ sym. sym.0 < 4294967296 - from) stack.now }
    ensures { OnOk result (all.new.items ≡ all.old.items ++ map (renaming.sym_renamed (rule.raised from)) stack.now) }
{
    for sym in stack {
        all.push(Sym(from + sym.0))?;
    }
    Ok(())
}

/// Adds bindings whose symbols are numbered on.
fn add_binds(all: &mut Vec<Bind>, from: u32, binds: &[Bind]) -> Result<(), NoMemory>
    requires { All (λ bind. bind.sym.0 < 4294967296 - from) binds.now }
    ensures { OnOk result (all.new.items ≡ all.old.items ++ map (renaming.bind_renamed (rule.raised from)) binds.now) }
{
    for bind in binds {
        all.push(Bind {
            name: bind.name,
            sym: Sym(from + bind.sym.0),
        })?;
    }
    Ok(())
}

/// Adds facts whose symbols are numbered on.
fn add_facts(alloc: Global, all: &mut Vec<Fact>, from: u32, facts: &[Fact]) -> Result<(), NoMemory>
    requires { All (λ fact. subject fact < 4294967296 - from) facts.now }
    ensures { OnOk result (all.new.items ≡ all.old.items ++ map (renaming.fact_renamed (rule.raised from)) facts.now) }
{
    for fact in facts {
        all.push(raised_fact(alloc, from, fact)?)?;
    }
    Ok(())
}

/// A fact whose symbol is numbered on.
fn raised_fact(alloc: Global, from: u32, fact: &Fact) -> Result<Fact, NoMemory>
    requires { subject fact.now < 4294967296 - from }
    ensures { IfOk result (λ new. new ≡ renaming.fact_renamed (rule.raised from) fact.now) }
{
    renamed_to(alloc, Sym(from + subject(fact).0), fact)
}

/// Adds rows whose symbols are numbered on.
fn add_rows(alloc: Global, all: &mut Vec<Row>, from: u32, rows: &[Row]) -> Result<(), NoMemory>
    requires { All (λ row. All (λ part. IsTermBelow (4294967296 - from) part.term) row.parts) rows.now }
    ensures { OnOk result (all.new.items ≡ all.old.items ++ map (renaming.row_renamed (rule.raised from)) rows.now) }
{
    for row in rows {
        all.push(raised_row(alloc, from, row)?)?;
    }
    Ok(())
}

/// A row whose symbols are numbered on.
fn raised_row(alloc: Global, from: u32, row: &Row) -> Result<Row, NoMemory>
    requires { All (λ part. IsTermBelow (4294967296 - from) part.term) row.now.parts }
    ensures { IfOk result (λ new. new ≡ renaming.row_renamed (rule.raised from) row.now) }
{
    let mut parts = Vec::new(alloc);
    for part in row.parts.as_slice() {
        parts.push(Part {
            coefficient: part.coefficient,
            term: raised_term(from, part.term),
        })?;
    }
    Ok(Row {
        constant: row.constant,
        parts: Seq::from_vec(parts),
    })
}

/// A term whose symbol is numbered on.
fn raised_term(from: u32, term: Term) -> Term
    requires { IsTermBelow (4294967296 - from) term }
    ensures { result ≡ renaming.term_renamed (rule.raised from) term }
{
    match term {
        Term::Value(s) => Term::Value(from + s),
        Term::Length(s) => Term::Length(from + s),
        Term::Names(s) => Term::Names(from + s),
        Term::Pos => Term::Pos,
        Term::Count => Term::Count,
    }
}
