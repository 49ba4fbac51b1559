//! Results (docs/EFFECTS.md, "Results"): states with a new symbol, with what is said of it.

ghost use Rattle.std.specs.Prelude.{◌≡◌, ◌<◌, ◌++◌, None, Some, OnOk, IfOk};
ghost use Rattle.std.specs.Option.{option_to_list};
ghost use Rattle.sym_state.specs.Results as rule;
ghost use Rattle.builtin_effects.specs.Given.{facts_of, rows_of};
ghost use Rattle.sym_state.specs.Demands.{without};

use bv_base::memory::NoMemory;
use lin_facts::row::{Part, Row, Term};
use sym_state::state::State;
use sym_state::symbol::{Fact, Kinds, Sym};

/// What is said of a new symbol beside its kind: a fact, and rows in this order.
#[derive(Debug, Drop)]
pub struct Said {
    pub fact: Option<Fact>,
    pub first: Option<Row>,
    pub second: Option<Row>,
}

impl Said {
    /// A fact alone.
    pub fn fact(fact: Fact) -> Said
        ensures { result ≡ record { fact = Some fact; first = None; second = None } }
    {
        Said {
            fact: Some(fact),
            first: None,
            second: None,
        }
    }

    /// Two rows alone.
    pub fn rows(first: Row, second: Row) -> Said
        ensures { result ≡ record { fact = None; first = Some first; second = Some second } }
    {
        Said {
            fact: None,
            first: Some(first),
            second: Some(second),
        }
    }

    /// One row alone, where there is one.
    pub fn row(first: Option<Row>) -> Said
        ensures { result ≡ record { fact = None; first = first; second = None } }
    {
        Said {
            fact: None,
            first,
            second: None,
        }
    }
}

/// A state without so many of its topmost operands, and with a new symbol on top.
pub fn with_result(state: &State, taken: usize, kind: Kinds, said: Said) -> Result<State, NoMemory>
    requires { state.now.next < 4294967295 }
    ensures { IfOk result (λ after. after ≡ rule.with_result kind (facts_of said) (rows_of said) (without taken state.now)) }
{
    let mut after = with_symbol(state, taken, kind, said)?;
    after.push(Sym(state.next()))?;
    Ok(after)
}

/// The same without the symbol on top.
pub fn with_symbol(state: &State, taken: usize, kind: Kinds, said: Said) -> Result<State, NoMemory>
    requires { state.now.next < 4294967295 }
    ensures { IfOk result (λ after. after ≡ rule.with_symbol kind (facts_of said) (rows_of said) (without taken state.now)) }
{
    let mut after = state.without(taken)?;
    after.fresh(kind)?;
    add_fact(&mut after, said.fact)?;
    add_row(&mut after, said.first)?;
    add_row(&mut after, said.second)?;
    Ok(after)
}

/// Adds a fact.
fn add_fact(state: &mut State, fact: Option<Fact>) -> Result<(), NoMemory>
    ensures { OnOk result (state.new ≡ record state.old { facts = state.old.facts ++ option_to_list fact }) }
{
    if let Some(fact) = fact {
        state.add_fact(fact)?;
    }
    Ok(())
}

/// Adds a row.
fn add_row(state: &mut State, row: Option<Row>) -> Result<(), NoMemory>
    ensures { OnOk result (state.new ≡ record state.old { rows = state.old.rows ++ option_to_list row }) }
{
    if let Some(row) = row {
        state.add_row(row)?;
    }
    Ok(())
}

/// A term with a number before it.
pub fn part(coefficient: i64, term: Term) -> Part
    ensures { result ≡ rule.part coefficient term }
{
    Part { coefficient, term }
}
