//! The rows that a search goes over where a term leads.

ghost use Rattle.std.specs.Prelude.{◌≡◌, ◌++◌, IfOk, OnOk};
ghost use Rattle.std.specs.List.{All, filter};
ghost use Rattle.straight_proofs.specs.Subjects.{HasBounds, IsSmall};
ghost use Rattle.straight_proofs.specs.Lookup as rule;
ghost use Rattle.straight_proofs.specs.Remembered.{AreWith, HaveRows};

use crate::known::Known;
use crate::on_term::rows_on;
use crate::remembered::{Remembered, signed};
use bv_base::copied::Copied;
use bv_base::memory::NoMemory;
use lin_facts::follows::coefficient_of;
use lin_facts::row::{Row, Term};
use std::alloc::Global;
use std::rc::Rc;

/// The rows that have a term with a sign. They are gathered once and then remembered.
pub(crate) fn rows_with(
    known: &Known,
    remembered: &mut Remembered<Rc<Vec<Row>>>,
    above: bool,
    term: Term,
) -> Result<Rc<Vec<Row>>, NoMemory>
    requires state { HasBounds known.now.state.now }
    requires rows { known.now.rows.items ≡ rule.rows_in_reach known.now.state.now }
    requires have { HaveRows (λ rows. rows.value.items) known.now.cond.now known.now.state.now remembered.old }
    ensures with { IfOk result (λ rows. AreWith known.now.cond.now known.now.state.now above term rows.value.items) }
    ensures have { HaveRows (λ rows. rows.value.items) known.now.cond.now known.now.state.now remembered.new }
{
    let key = signed(known.alloc, above, term)?;
    if let Some(rows) = remembered.find(key.as_slice()) {
        return Ok(rows.clone()?);
    }
    let rows = Rc::new(known.alloc, gathered(known, above, term)?)?;
    remembered.add(key, rows.clone()?)?;
    Ok(rows)
}

/// The rows that have a term with a sign, gathered.
fn gathered(known: &Known, above: bool, term: Term) -> Result<Vec<Row>, NoMemory>
    requires state { HasBounds known.now.state.now }
    requires rows { known.now.rows.items ≡ rule.rows_in_reach known.now.state.now }
    ensures { IfOk result (λ rows. AreWith known.now.cond.now known.now.state.now above term rows.items) }
{
    let alloc = known.alloc;
    let mut rows = Vec::new(alloc);
    push_with(alloc, &mut rows, known.rows.as_slice(), above, term)?;
    let said = rows_on(alloc, known.state, known.cond, term)?;
    push_with(alloc, &mut rows, said.as_slice(), above, term)?;
    Ok(rows)
}

/// Adds copies of those rows that have a term with a sign.
fn push_with(
    alloc: Global,
    all: &mut Vec<Row>,
    rows: &[Row],
    above: bool,
    term: Term,
) -> Result<(), NoMemory>
    requires small { All IsSmall rows.now }
    ensures { OnOk result (all.new.items ≡ all.old.items ++ filter (rule.has above term) rows.now) }
{
    for row in rows {
        if has(row, above, term) {
            all.push(row.copied(alloc)?)?;
        }
    }
    Ok(())
}

/// Whether a row has a term with a sign, above 0 or below.
fn has(row: &Row, above: bool, term: Term) -> bool
    requires { IsSmall row.now }
    ensures { result ≡ rule.has above term row.now }
{
    let n = coefficient_of(row.parts.as_slice(), term);
    if above { 0 < n } else { n < 0 }
}
