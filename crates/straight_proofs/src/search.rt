//! The search for the first list of references that shows a remainder.

ghost use Rattle.std.specs.Prelude.{◌≡◌, ℕ, ◌+◌, ◌<◌, ◌^◌, ◌-ℤ◌, Some, reverse, option_map, IfOk, IfSome, OnOk};
ghost use Rattle.std.specs.Option.{option_and_then};
ghost use Rattle.straight_proofs.specs.Subjects.{HasBounds, IsSmall, IsWithin};
ghost use Rattle.straight_proofs.specs.Asked.{IsReady};
ghost use Rattle.straight_proofs.specs.Lookup.{rows_in_reach};
ghost use Rattle.straight_proofs.specs.Remainders as subtracting;
ghost use Rattle.straight_proofs.specs.Remainders.{AreAlike, HasRoom};
ghost use Rattle.straight_proofs.specs.Straight as rule;

use crate::floors::floor_within;
use crate::known::Known;
use crate::learnt::Learnt;
use crate::lookup::references_to;
use crate::remainders::{fits, lead, minus};
use bv_base::memory::NoMemory;
use lin_facts::row::{Row, Term};
use std::alloc::Global;
use sym_state::proof::Reference;
use sym_state::references::row_said;

/// The first list of at most so many references that shows a remainder, its last reference first. Where a term leads there is one if
/// the floor is at least 0.
#[cycle(search)]
pub(crate) fn list_within(
    known: &Known,
    learnt: &mut Learnt,
    remainder: &Row,
    most: u32,
) -> Result<Option<Vec<Reference>>, NoMemory>
    requires ready { IsReady known.now.cond.now known.now.state.now known.now.rows.items learnt.old }
    requires room { HasRoom most remainder.now }
    ensures found { IfOk result (λ found. option_map (λ list. reverse list.items) found
        ≡ rule.list_within most known.now.cond.now known.now.state.now remainder.now) }
    ensures ready { IsReady known.now.cond.now known.now.state.now known.now.rows.items learnt.new }
{
    let Some(term) = lead(remainder) else {
        return Ok(ended(known.alloc, remainder));
    };
    if most == 0 {
        return Ok(None);
    }
    let Some(floor) = floor_within(known, learnt, remainder, most)? else {
        return Ok(None);
    };
    if floor < 0 {
        return Ok(None);
    }
    let there = references_to(known, remainder, term)?;
    first_list(
        known,
        learnt,
        Some(term),
        remainder,
        most - 1,
        there.as_slice(),
    )
}

/// The list of the first of some references behind which a list goes on, its last reference first.
#[cycle(search)]
pub(crate) fn first_list(
    known: &Known,
    learnt: &mut Learnt,
    leads: Option<Term>,
    remainder: &Row,
    most: u32,
    references: &[Reference],
) -> Result<Option<Vec<Reference>>, NoMemory>
    requires ready { IsReady known.now.cond.now known.now.state.now known.now.rows.items learnt.old }
    requires room { HasRoom (most + 1) remainder.now }
    ensures found { IfOk result (λ found. option_map (λ list. reverse list.items) found
        ≡ rule.first_list (λ r. option_and_then (rule.list_within most known.now.cond.now known.now.state.now)
        (rule.left_behind known.now.cond.now known.now.state.now leads remainder.now r)) references.now) }
    ensures ready { IsReady known.now.cond.now known.now.state.now known.now.rows.items learnt.new }
{
    for reference in references {
        if let Some(list) = list_behind(known, learnt, leads, remainder, most, *reference)? {
            let mut list = list;
            list.push(*reference)?;
            return Ok(Some(list));
        }
    }
    Ok(None)
}

/// The list that goes on behind a reference.
#[cycle(search)]
fn list_behind(
    known: &Known,
    learnt: &mut Learnt,
    leads: Option<Term>,
    remainder: &Row,
    most: u32,
    reference: Reference,
) -> Result<Option<Vec<Reference>>, NoMemory>
    requires ready { IsReady known.now.cond.now known.now.state.now known.now.rows.items learnt.old }
    requires room { HasRoom (most + 1) remainder.now }
    ensures found { IfOk result (λ found. option_map (λ list. reverse list.items) found
        ≡ option_and_then (rule.list_within most known.now.cond.now known.now.state.now)
        (rule.left_behind known.now.cond.now known.now.state.now leads remainder.now reference)) }
    ensures ready { IsReady known.now.cond.now known.now.state.now known.now.rows.items learnt.new }
{
    match left_behind(known, leads, remainder, reference)? {
        Some(left) => list_within(known, learnt, &left, most),
        None => Ok(None),
    }
}

/// The empty list, where a remainder without a lead holds.
fn ended(alloc: Global, remainder: &Row) -> Option<Vec<Reference>>
    ensures { option_map (λ list. reverse list.items) result ≡ rule.ended remainder.now }
{
    if remainder.constant < 0 {
        None
    } else {
        Some(Vec::new(alloc))
    }
}

/// What is left of a remainder behind a reference.
pub(crate) fn left_behind(
    known: &Known,
    leads: Option<Term>,
    remainder: &Row,
    reference: Reference,
) -> Result<Option<Row>, NoMemory>
    requires state { HasBounds known.now.state.now }
    requires rows { known.now.rows.items ≡ rows_in_reach known.now.state.now }
    requires room { HasRoom 1 remainder.now }
    ensures said { IfOk result (λ left. AreAlike left (rule.left_behind known.now.cond.now known.now.state.now leads remainder.now reference)) }
    ensures near { IfOk result (λ left. IfSome left (λ row. IsWithin (2 ^ 45) (row.constant -ℤ remainder.now.constant))) }
    ensures room { (more : ℕ) → HasRoom (more + 1) remainder.now → IfOk result (λ left. IfSome left (HasRoom more)) }
{
    match row_said(known.alloc, known.state, known.cond, reference)? {
        Some(row) => left_of(known.alloc, leads, remainder, &row),
        None => Ok(None),
    }
}

/// What is left of a remainder where a row may be subtracted.
pub(crate) fn left_of(
    alloc: Global,
    leads: Option<Term>,
    remainder: &Row,
    row: &Row,
) -> Result<Option<Row>, NoMemory>
    requires remainder { HasRoom 1 remainder.now }
    requires row { IsSmall row.now }
    ensures said { IfOk result (λ left. AreAlike left (subtracting.left_of leads remainder.now row.now)) }
    ensures near { IfOk result (λ left. IfSome left (λ row. IsWithin (2 ^ 45) (row.constant -ℤ remainder.now.constant))) }
    ensures room { (more : ℕ) → HasRoom (more + 1) remainder.now → IfOk result (λ left. IfSome left (HasRoom more)) }
{
    if fits(leads, remainder, row) {
        Ok(Some(minus(alloc, remainder, row)?))
    } else {
        Ok(None)
    }
}
