//! The references that a search goes over.

ghost use Rattle.std.specs.Prelude.{◌≡◌, ◌≤◌, ◌++◌, ◌^◌, length, map, option_map, IfOk, OnOk};
ghost use Rattle.std.specs.List.{All, flat_map, range_with_len};
ghost use Rattle.std.specs.Option.{option_to_list};
ghost use Rattle.straight_proofs.specs.Subjects.{HasBounds, IsSmall};
ghost use Rattle.straight_proofs.specs.Lookup as rule;
ghost use Rattle.straight_proofs.specs.Remainders.{HasRoom};
ghost use Rattle.straight_proofs.specs.Straight as order;

use crate::known::Known;
use crate::remainders::fits;
use bv_base::copied::Copied;
use bv_base::memory::NoMemory;
use lin_facts::row::{Row, Term};
use std::alloc::Global;
use sym_state::proof::Reference;
use sym_state::state::State;
use sym_state::symbol::Sym;

/// The rows of a state that references can name, copied once for a search that goes over them again and again.
#[tactic(auto, using(crate::proofs::Numbered::row_added))]
pub(crate) fn rows_in_reach(alloc: Global, state: &State) -> Result<Vec<Row>, NoMemory>
    ensures { IfOk result (λ rows. rows.items ≡ rule.rows_in_reach state.now) }
{
    let mut rows = Vec::new(alloc);
    for k in 0..named(state) {
        push_copy(alloc, &mut rows, state.row(k))?;
    }
    Ok(rows)
}

/// Adds a copy of a row, where there is one.
fn push_copy(alloc: Global, rows: &mut Vec<Row>, row: Option<&Row>) -> Result<(), NoMemory>
    ensures { OnOk result (rows.new.items ≡ rows.old.items ++ option_to_list (option_map (λ row. row.now) row.entry)) }
{
    if let Some(row) = row {
        rows.push(row.copied(alloc)?)?;
    }
    Ok(())
}

/// The references whose rows may be subtracted from a remainder where this term leads, in order.
pub(crate) fn references_to(
    known: &Known,
    remainder: &Row,
    term: Term,
) -> Result<Vec<Reference>, NoMemory>
    requires state { HasBounds known.now.state.now }
    requires rows { known.now.rows.items ≡ rule.rows_in_reach known.now.state.now }
    requires room { HasRoom 0 remainder.now }
    ensures { IfOk result (λ all. all.items ≡ rule.references_to known.now.state.now remainder.now term) }
{
    let mut all = Vec::new(known.alloc);
    push_rows_on(&mut all, known.rows.as_slice(), remainder, term)?;
    push_on_term(&mut all, term)?;
    Ok(all)
}

/// Adds those of some rows that may be subtracted from a remainder where this term leads.
fn push_rows_on(
    all: &mut Vec<Reference>,
    rows: &[Row],
    remainder: &Row,
    term: Term,
) -> Result<(), NoMemory>
    requires few { length rows.now ≤ 2 ^ 32 }
    requires small { All IsSmall rows.now }
    requires room { HasRoom 0 remainder.now }
    ensures { OnOk result (all.new.items ≡ all.old.items ++ rule.rows_on term remainder.now 0 rows.now) }
{
    for (k, row) in rows.iter().enumerate() {
        push_row_on(all, row, remainder, term, k as u32)?;
    }
    Ok(())
}

/// Adds a row that may be subtracted from a remainder where this term leads.
fn push_row_on(
    all: &mut Vec<Reference>,
    row: &Row,
    remainder: &Row,
    term: Term,
    k: u32,
) -> Result<(), NoMemory>
    requires small { IsSmall row.now }
    requires room { HasRoom 0 remainder.now }
    ensures { OnOk result (all.new.items ≡ all.old.items ++ rule.row_on term remainder.now k row.now) }
{
    if fits(Some(term), remainder, row) {
        all.push(Reference::Row(k))?;
    }
    Ok(())
}

/// How many rows of a state references can name.
fn named(state: &State) -> u64
    ensures value { result ≡ order.rows_named state.now }
    ensures few { result ≤ 2 ^ 32 }
{
    state.rows().min(1 << 32)
}

/// Adds the references that say something of a term.
pub(crate) fn push_on_term(all: &mut Vec<Reference>, term: Term) -> Result<(), NoMemory>
    ensures { OnOk result (all.new.items ≡ all.old.items ++ rule.on_term term) }
{
    match term {
        Term::Value(s) => Ok(all.extend_from_slice(&[
            Reference::ValueLow(Sym(s)),
            Reference::ValueHigh(Sym(s)),
            Reference::ExactLow(Sym(s)),
            Reference::ExactHigh(Sym(s)),
        ])?),
        Term::Length(s) => Ok(all.extend_from_slice(&[
            Reference::LengthLow(Sym(s)),
            Reference::NamesHigh(Sym(s)),
            Reference::NonblankLength(Sym(s)),
            Reference::TextLow(Sym(s)),
            Reference::TextHigh(Sym(s)),
        ])?),
        Term::Names(s) => Ok(all.extend_from_slice(&[
            Reference::NamesLow(Sym(s)),
            Reference::NamesHigh(Sym(s)),
            Reference::NonblankNames(Sym(s)),
        ])?),
        Term::Pos => Ok(all.extend_from_slice(&[Reference::PosLow, Reference::PosHigh])?),
        Term::Count => Ok(all.extend_from_slice(&[
            Reference::PosHigh,
            Reference::CountLow,
            Reference::CountHigh,
        ])?),
    }
}

/// All references to a state, in order.
pub(crate) fn references(alloc: Global, state: &State) -> Result<Vec<Reference>, NoMemory>
    ensures { IfOk result (λ all. all.items ≡ order.references state.now) }
{
    let mut all = Vec::new(alloc);
    push_rows(&mut all, named(state))?;
    push_kinds(&mut all, &KINDS, state.next())?;
    push_on_entries(&mut all)?;
    Ok(all)
}

/// Adds the rows of a state, so many.
#[tactic(auto, using(crate::proofs::Numbered::number_added))]
fn push_rows(all: &mut Vec<Reference>, rows: u64) -> Result<(), NoMemory>
    requires { rows ≤ 2 ^ 32 }
    ensures { OnOk result (all.new.items ≡ all.old.items ++ map Reference.Row (range_with_len 0 rows)) }
{
    for k in 0..rows {
        all.push(Reference::Row(k as u32))?;
    }
    Ok(())
}

/// The kinds of references to symbols.
#[derive(Clone, Copy)]
enum Kind {
    ValueLow,
    ValueHigh,
    LengthLow,
    NamesLow,
    NamesHigh,
    ExactLow,
    ExactHigh,
    NonblankLength,
    NonblankNames,
    TextLow,
    TextHigh,
}

/// All of them, in their order.
const KINDS: [Kind; 11] = [
    Kind::ValueLow,
    Kind::ValueHigh,
    Kind::LengthLow,
    Kind::NamesLow,
    Kind::NamesHigh,
    Kind::ExactLow,
    Kind::ExactHigh,
    Kind::NonblankLength,
    Kind::NonblankNames,
    Kind::TextLow,
    Kind::TextHigh,
];

/// Adds the references of some kinds to the symbols below a number, kind after kind.
fn push_kinds(all: &mut Vec<Reference>, kinds: &[Kind], next: u32) -> Result<(), NoMemory>
    ensures { OnOk result (all.new.items ≡ all.old.items ++ flat_map (rule.each_below next) kinds.now) }
{
    for kind in kinds {
        push_each(all, *kind, next)?;
    }
    Ok(())
}

/// Adds the references of one kind to the symbols below a number.
#[tactic(auto, using(crate::proofs::Numbered::number_added))]
fn push_each(all: &mut Vec<Reference>, kind: Kind, next: u32) -> Result<(), NoMemory>
    ensures { OnOk result (all.new.items ≡ all.old.items ++ rule.each_below next kind) }
{
    for s in 0..next {
        all.push(reference_of(kind, Sym(s)))?;
    }
    Ok(())
}

/// The reference of a kind to a symbol.
fn reference_of(kind: Kind, s: Sym) -> Reference
    ensures { result ≡ rule.reference_of kind s }
{
    match kind {
        Kind::ValueLow => Reference::ValueLow(s),
        Kind::ValueHigh => Reference::ValueHigh(s),
        Kind::LengthLow => Reference::LengthLow(s),
        Kind::NamesLow => Reference::NamesLow(s),
        Kind::NamesHigh => Reference::NamesHigh(s),
        Kind::ExactLow => Reference::ExactLow(s),
        Kind::ExactHigh => Reference::ExactHigh(s),
        Kind::NonblankLength => Reference::NonblankLength(s),
        Kind::NonblankNames => Reference::NonblankNames(s),
        Kind::TextLow => Reference::TextLow(s),
        Kind::TextHigh => Reference::TextHigh(s),
    }
}

/// Adds the references to no symbol and no row.
fn push_on_entries(all: &mut Vec<Reference>) -> Result<(), NoMemory>
    ensures { OnOk result (all.new.items ≡ all.old.items ++ order.on_entries) }
{
    all.extend_from_slice(&[
        Reference::PosLow,
        Reference::PosHigh,
        Reference::CountLow,
        Reference::CountHigh,
    ])?;
    Ok(())
}
