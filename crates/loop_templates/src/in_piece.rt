//! Rows as a piece has them (docs/ANALYSER.md, "Loops").

ghost use Rattle.std.specs.Prelude.{◌≡◌, ◌++◌, IfOk, OnOk};
ghost use Rattle.std.specs.List.{All};
ghost use Rattle.loop_templates.specs.Rows as rule;
ghost use Rattle.loop_templates.specs.Sums.{IsSmallSum};
ghost use Rattle.loop_templates.specs.Subjects.{IsWithin, symbol_at, term_renamed};

use bv_base::memory::NoMemory;
use bv_base::seq::Seq;
use cert_format::is_before;
use lin_facts::follows::same_term;
use lin_facts::row::{Part, Row, Term};
use name_table::names::NameId;
use std::alloc::Global;
use sym_state::piece::Piece;
use sym_state::symbol::{Bind, Sym};

/// A row over names as a piece has it, its parts in the order of terms.
pub(crate) fn row_in_piece(alloc: Global, piece: &Piece, row: &Row) -> Result<Row, NoMemory>
    requires { IsSmallSum row.now.parts }
    ensures { IfOk result (λ found. found ≡ rule.row_in_piece piece.now row.now) }
{
    let parts = parts_in_piece(alloc, piece, row.parts.as_slice())?;
    Ok(Row {
        constant: row.constant,
        parts: Seq::from_vec(parts),
    })
}

/// The parts of a row over names as a piece has them, in the order of terms.
fn parts_in_piece(alloc: Global, piece: &Piece, parts: &[Part]) -> Result<Vec<Part>, NoMemory>
    requires { IsSmallSum parts.now }
    ensures { IfOk result (λ all. all.items ≡ (rule.row_in_piece piece.now (rule.row_of_parts parts.now)).parts) }
{
    let mut all = Vec::new(alloc);
    for part in parts {
        let placed = part_in_piece(piece, *part);
        let next = with_part(alloc, placed, all.as_slice())?;
        all = next;
    }
    Ok(all)
}

/// A part over a name as a piece has it.
fn part_in_piece(piece: &Piece, part: Part) -> Part
    ensures { result ≡ rule.part_in_piece piece.now part }
{
    Part {
        coefficient: part.coefficient,
        term: term_in_piece(piece, part.term),
    }
}

/// A part among parts in the order of terms.
fn with_part(alloc: Global, part: Part, parts: &[Part]) -> Result<Vec<Part>, NoMemory>
    requires one { IsWithin 1 part.coefficient }
    requires small { All (λ other. IsWithin 4 other.coefficient) parts.now }
    ensures placed { IfOk result (λ all. all.items ≡ rule.with_part part parts.now) }
{
    let mut all = Vec::new(alloc);
    let mut left = parts;
    while let [first, rest @ ..] = left {
        if is_before(part.term, first.term) {
            all.push(part)?;
            all.extend_from_slice(left)?;
            return Ok(all);
        }
        if same_term(part.term, first.term) {
            push_sum(&mut all, part, *first)?;
            all.extend_from_slice(rest)?;
            return Ok(all);
        }
        all.push(*first)?;
        left = rest;
    }
    all.push(part)?;
    Ok(all)
}

/// Adds the sum of two parts of one term, unless their coefficients come to 0.
fn push_sum(all: &mut Vec<Part>, part: Part, first: Part) -> Result<(), NoMemory>
    requires one { IsWithin 1 part.coefficient }
    requires small { IsWithin 4 first.coefficient }
    ensures { OnOk result (all.new.items ≡ all.old.items ++ rule.summed part first) }
{
    let sum = part.coefficient + first.coefficient;
    if sum != 0 {
        all.push(Part {
            coefficient: sum,
            term: first.term,
        })?;
    }
    Ok(())
}

/// A term over a name, by the symbol that a piece binds to it.
fn term_in_piece(piece: &Piece, term: Term) -> Term
    ensures { result ≡ term_renamed (rule.symbol_of piece.now) term }
{
    match term {
        Term::Value(id) => Term::Value(symbol_of(piece, id)),
        Term::Length(id) => Term::Length(symbol_of(piece, id)),
        Term::Names(id) => Term::Names(symbol_of(piece, id)),
        term => term,
    }
}

/// The symbol that a piece binds to a name.
fn symbol_of(piece: &Piece, id: u32) -> u32
    ensures { result ≡ rule.symbol_of piece.now id }
{
    match bound_in(NameId(id), piece.vars.as_slice()) {
        Some(sym) => sym.0,
        None => match bound_in(NameId(id), piece.fields.as_slice()) {
            Some(sym) => sym.0,
            None => 0,
        },
    }
}

/// The symbol that bindings have for a name.
fn bound_in(name: NameId, binds: &[Bind]) -> Option<Sym>
    ensures { result ≡ symbol_at name binds.now }
{
    for bind in binds {
        if bind.name.0 == name.0 {
            return Some(bind.sym);
        }
    }
    None
}
