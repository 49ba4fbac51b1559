//! The rows that references say (docs/STATES.md, "References").

ghost use Rattle.std.specs.Prelude.{◌≡◌, ◌^◌, [], ◌∷◌, None, Some, length, pos, slice_get, option_map, if◌then◌else◌, IfOk, IfSome};
ghost use Rattle.lin_facts.specs.Rows.{IsSmall, IsWithin};
ghost use Rattle.sym_state.specs.Decided as decided;
ghost use Rattle.sym_state.specs.References as rule;
ghost use Rattle.sym_state.specs.Results.{part};
ghost use Rattle.sym_state.specs.WellMade.{HasBounds, IsBounded};

use crate::proof::Reference;
use crate::state::State;
use crate::symbol::Sym;
use bst_meaning::condition::Cond;
use bv_base::copied::Copied;
use bv_base::limits::GREATEST_INTEGER;
use bv_base::memory::NoMemory;
use bv_base::seq::Seq;
use lin_facts::row::{Part, Row, Term};
use std::alloc::Global;

/// The least integer of the style language.
const LEAST_INTEGER: i64 = -2147483648;

/// A term that is at least a number, or at most.
#[derive(Clone, Copy, Debug, PartialEq, Eq)]
enum Bound {
    Least(Term),
    Most(Term),
}

/// The row that a reference says, where it is there.
pub fn row_said(
    alloc: Global,
    state: &State,
    cond: &Cond,
    reference: Reference,
) -> Result<Option<Row>, NoMemory>
    requires { HasBounds state.now }
    ensures said { IfOk result (λ row. row ≡ rule.row_said cond.now state.now reference) }
    ensures small { IfOk result (λ row. IfSome row IsSmall) }
{
    use Bound::{Least, Most};
    match reference {
        Reference::Row(k) => row_at(alloc, state, k),
        Reference::ValueLow(s) => bounded(state, s, Least(Term::Value(s.0)), Some(LEAST_INTEGER)),
        Reference::ValueHigh(s) => bounded(
            state,
            s,
            Most(Term::Value(s.0)),
            Some(GREATEST_INTEGER as i64),
        ),
        Reference::LengthLow(s) => bounded(state, s, Least(Term::Length(s.0)), Some(0)),
        Reference::NamesLow(s) => bounded(state, s, Least(Term::Names(s.0)), Some(0)),
        Reference::NamesHigh(s) => names_high(alloc, state, s),
        Reference::ExactLow(s) => bounded(state, s, Least(Term::Value(s.0)), integer(state, s)),
        Reference::ExactHigh(s) => bounded(state, s, Most(Term::Value(s.0)), integer(state, s)),
        Reference::NonblankLength(s) => bounded(state, s, Least(Term::Length(s.0)), ink(state, s)),
        Reference::NonblankNames(s) => bounded(state, s, Least(Term::Names(s.0)), ink(state, s)),
        Reference::TextLow(s) => bounded(state, s, Least(Term::Length(s.0)), text_length(state, s)),
        Reference::TextHigh(s) => bounded(state, s, Most(Term::Length(s.0)), text_length(state, s)),
        Reference::PosLow => Ok(at_entry(state, at_least(alloc, Term::Pos, 0)?)),
        Reference::PosHigh => Ok(at_entry(state, exceeds(alloc, Term::Count, Term::Pos, 1)?)),
        Reference::CountLow => Ok(Some(at_least(alloc, Term::Count, 0)?)),
        Reference::CountHigh => Ok(Some(at_most(alloc, Term::Count, cond.entries as i64)?)),
    }
}

/// A row of the state, by its number.
fn row_at(alloc: Global, state: &State, k: u32) -> Result<Option<Row>, NoMemory>
    requires { HasBounds state.now }
    ensures said { IfOk result (λ row. row ≡ slice_get state.now.rows k) }
    ensures small { IfOk result (λ row. IfSome row IsSmall) }
{
    match state.row(k as u64) {
        Some(row) => Ok(Some(row.copied(alloc)?)),
        None => Ok(None),
    }
}

/// A bound on a term of a symbol of the state, where there is a number.
fn bounded(
    state: &State,
    s: Sym,
    bound: Bound,
    number: Option<i64>,
) -> Result<Option<Row>, NoMemory>
    requires { IfSome number (IsWithin (2 ^ 45)) }
    ensures said { IfOk result (λ row. row ≡ rule.on_symbol state.now s (option_map (rule.bound_row bound) number)) }
    ensures small { IfOk result (λ row. IfSome row IsSmall) }
{
    match number {
        Some(n) => Ok(on_symbol(state, s, bound_row(state.alloc(), bound, n)?)),
        None => Ok(None),
    }
}

/// The row of a bound.
fn bound_row(alloc: Global, bound: Bound, n: i64) -> Result<Row, NoMemory>
    requires { IsWithin (2 ^ 45) n }
    ensures said { IfOk result (λ row. row ≡ rule.bound_row bound n) }
    ensures small { IfOk result IsSmall }
{
    match bound {
        Bound::Least(term) => at_least(alloc, term, n),
        Bound::Most(term) => at_most(alloc, term, n),
    }
}

/// A string has no more names than bytes.
fn names_high(alloc: Global, state: &State, s: Sym) -> Result<Option<Row>, NoMemory>
    ensures said { IfOk result (λ row. row ≡ rule.on_symbol state.now s
        (Some (rule.exceeds (Term.Length s.0) (Term.Names s.0) (pos 0)))) }
    ensures small { IfOk result (λ row. IfSome row IsSmall) }
{
    let row = exceeds(alloc, Term::Length(s.0), Term::Names(s.0), 0)?;
    Ok(on_symbol(state, s, row))
}

/// A row on a symbol, where it is the state's.
fn on_symbol(state: &State, s: Sym, row: Row) -> Option<Row>
    requires { IsSmall row }
    ensures said { result ≡ rule.on_symbol state.now s (Some row) }
    ensures small { IfSome result IsSmall }
{
    if s.0 < state.next() { Some(row) } else { None }
}

/// A row on the visits, where an entry is visited.
fn at_entry(state: &State, row: Row) -> Option<Row>
    requires { IsSmall row }
    ensures said { result ≡ (if state.now.at_entry then Some row else None) }
    ensures small { IfSome result IsSmall }
{
    if state.is_at_entry() { Some(row) } else { None }
}

/// The exact integer of a symbol.
fn integer(state: &State, s: Sym) -> Option<i64>
    ensures said { result ≡ decided.exact_integer state.now.facts s.0 }
    ensures small { IfSome result (IsWithin (2 ^ 45)) }
{
    match state.exact_integer(s) {
        Some(n) => Some(n as i64),
        None => None,
    }
}

/// The least length of a string known nonblank, and its least number of names.
fn ink(state: &State, s: Sym) -> Option<i64>
    ensures said { result ≡ (if decided.is_known_nonblank state.now.facts s.0 then Some (pos 1) else None) }
    ensures small { IfSome result (IsWithin (2 ^ 45)) }
{
    if state.is_known_nonblank(s) {
        Some(1)
    } else {
        None
    }
}

/// The length of an exact text.
fn text_length(state: &State, s: Sym) -> Option<i64>
    requires { HasBounds state.now }
    ensures said { result ≡ option_map (λ text. pos (length text)) (decided.exact_text state.now.facts s.0) }
    ensures small { IfSome result (IsWithin (2 ^ 45)) }
{
    match state.exact_text(s) {
        Some(text) => Some(text.len() as i64),
        None => None,
    }
}

/// A term is at least a number.
pub fn at_least(alloc: Global, term: Term, n: i64) -> Result<Row, NoMemory>
    requires { IsWithin (2 ^ 45) n }
    ensures said { IfOk result (λ row. row ≡ rule.at_least term n) }
    ensures small { IfOk result IsSmall }
    ensures bounded { IfOk result IsBounded }
{
    of_term(alloc, -n, 1, term)
}

/// A term is at most a number.
pub fn at_most(alloc: Global, term: Term, n: i64) -> Result<Row, NoMemory>
    requires { IsWithin (2 ^ 45) n }
    ensures said { IfOk result (λ row. row ≡ rule.at_most term n) }
    ensures small { IfOk result IsSmall }
    ensures bounded { IfOk result IsBounded }
{
    of_term(alloc, n, -1, term)
}

/// A number and a term, of which a bound takes the one and leaves the other.
fn of_term(alloc: Global, constant: i64, sign: i64, term: Term) -> Result<Row, NoMemory>
    requires constant { IsWithin (2 ^ 45) constant }
    requires sign { IsWithin 1 sign }
    ensures said { IfOk result (λ row. row ≡ record { constant = constant; parts = part sign term ∷ [] }) }
    ensures small { IfOk result IsSmall }
    ensures bounded { IfOk result IsBounded }
{
    let part = Part {
        coefficient: sign,
        term,
    };
    Ok(Row {
        constant,
        parts: Seq::from_vec([part].to_vec(alloc)?),
    })
}

/// A term is at least a number more than another.
pub fn exceeds(alloc: Global, greater: Term, less: Term, n: i64) -> Result<Row, NoMemory>
    requires { IsWithin (2 ^ 45) n }
    ensures said { IfOk result (λ row. row ≡ rule.exceeds greater less n) }
    ensures small { IfOk result IsSmall }
    ensures bounded { IfOk result IsBounded }
{
    let parts = [
        Part {
            coefficient: 1,
            term: greater,
        },
        Part {
            coefficient: -1,
            term: less,
        },
    ];
    Ok(Row {
        constant: -n,
        parts: Seq::from_vec(parts.to_vec(alloc)?),
    })
}
