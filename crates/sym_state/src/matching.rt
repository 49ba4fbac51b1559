//! The match of a piece's symbols to a state's (docs/STATES.md, "Entailment").

ghost use Rattle.std.specs.Prelude.{◌≡◌, ◌≤◌, ◌++◌, length, IfOk, OnOk};
ghost use Rattle.sym_state.specs.Entailing as rule;
ghost use Rattle.sym_state.specs.Matches.{matched_by};
ghost use Rattle.sym_state.specs.Renaming as renaming;
ghost use Rattle.sym_state.specs.WellMade.{IsBounded};

use crate::bindings::Bindings;
use crate::facts::{renamed_to, subject};
use crate::piece::Piece;
use crate::state::State;
use crate::symbol::{Bind, Fact, Sym};
use bv_base::memory::NoMemory;
use bv_base::seq::Seq;
use lin_facts::row::{Part, Row, Term};
use std::alloc::Global;

/// The match of a piece's symbols to a state's: those below `kept` to the same, and each other one to the state's symbol
/// at its first place.
#[derive(Drop)]
pub struct Matching {
    kept: u32,
    places: Vec<(Sym, Sym)>,
}

impl Matching {
    /// The match of a piece that lies on the top of a state's stack.
    pub fn new(alloc: Global, state: &State, piece: &Piece, kept: u32) -> Result<Matching, NoMemory>
        requires { length piece.now.stack ≤ length state.now.stack }
        ensures matched { IfOk result (λ matching. matched_by matching ≡ rule.match_of state.now piece.now kept) }
        ensures kept { IfOk result (λ matching. matching.kept ≡ kept) }
        ensures places { IfOk result (λ matching. matching.places.items ≡ rule.places state.now piece.now) }
    {
        let mut places = stack_places(alloc, state.stack(), piece.stack.as_slice())?;
        add_binds(&mut places, state.vars(), piece.vars.as_slice())?;
        add_binds(&mut places, state.fields(), piece.fields.as_slice())?;
        Ok(Matching { kept, places })
    }

    /// A match that these places come before: all its symbols have places.
    pub fn behind(&self, alloc: Global, places: Vec<(Sym, Sym)>) -> Result<Matching, NoMemory>
        requires { self.now.kept ≡ 0 }
        ensures { IfOk result (λ matching. matched_by matching ≡ rule.matched 0 (places.items ++ self.now.places.items)) }
    {
        let mut places = places;
        places.extend_from_slice(self.places.as_slice())?;
        Ok(Matching { kept: 0, places })
    }

    /// The state's symbol that one of the piece's is matched to.
    pub fn symbol(&self, sym: Sym) -> Sym
        ensures { result.0 ≡ matched_by self.now sym.0 }
    {
        if sym.0 < self.kept {
            sym
        } else {
            at_first_place(self.places.as_slice(), sym)
        }
    }

    /// A binding with its symbol matched.
    pub fn bind(&self, bind: Bind) -> Bind
        ensures { result ≡ renaming.bind_renamed (matched_by self.now) bind }
    {
        Bind {
            name: bind.name,
            sym: self.symbol(bind.sym),
        }
    }

    /// A fact with its symbol matched.
    pub fn fact(&self, alloc: Global, fact: &Fact) -> Result<Fact, NoMemory>
        ensures { IfOk result (λ new. new ≡ renaming.fact_renamed (matched_by self.now) fact.now) }
    {
        renamed_to(alloc, self.symbol(subject(fact)), fact)
    }

    /// A row with its symbols matched.
    pub fn row(&self, alloc: Global, row: &Row) -> Result<Row, NoMemory>
        ensures matched { IfOk result (λ new. new ≡ renaming.row_renamed (matched_by self.now) row.now) }
        ensures bounded { IsBounded row.now → IfOk result IsBounded }
    {
        let mut parts = Vec::new(alloc);
        for part in row.parts.as_slice() {
            parts.push(Part {
                coefficient: part.coefficient,
                term: self.term(part.term),
            })?;
        }
        Ok(Row {
            constant: row.constant,
            parts: Seq::from_vec(parts),
        })
    }

    /// A term with its symbol matched.
    fn term(&self, term: Term) -> Term
        ensures { result ≡ renaming.term_renamed (matched_by self.now) term }
    {
        match term {
            Term::Value(s) => Term::Value(self.symbol(Sym(s)).0),
            Term::Length(s) => Term::Length(self.symbol(Sym(s)).0),
            Term::Names(s) => Term::Names(self.symbol(Sym(s)).0),
            Term::Pos => Term::Pos,
            Term::Count => Term::Count,
        }
    }
}

/// The places on the stack, which lies on the top of the state's.
fn stack_places(alloc: Global, known: &[Sym], stack: &[Sym]) -> Result<Vec<(Sym, Sym)>, NoMemory>
    requires { length stack.now ≤ length known.now }
    ensures { IfOk result (λ places. places.items ≡ rule.stack_places known.now stack.now) }
{
    let under = known.len() - stack.len();
    let mut places = Vec::new(alloc);
    for (k, sym) in stack.iter().enumerate() {
        places.push((*sym, known[under + k]))?;
    }
    Ok(places)
}

/// Adds the places where names are bound.
fn add_binds(places: &mut Vec<(Sym, Sym)>, known: &Bindings, binds: &[Bind]) -> Result<(), NoMemory>
    ensures { OnOk result (places.new.items ≡ places.old.items ++ rule.bind_places known.now binds.now) }
{
    for bind in binds {
        if let Some(there) = known.symbol(bind.name) {
            places.push((bind.sym, there))?;
        }
    }
    Ok(())
}

/// The state's symbol at the first place of one of the piece's.
fn at_first_place(places: &[(Sym, Sym)], sym: Sym) -> Sym
    ensures { result.0 ≡ rule.at_first_place places.now sym.0 }
{
    for (placed, there) in places {
        if placed.0 == sym.0 {
            return *there;
        }
    }
    sym
}
