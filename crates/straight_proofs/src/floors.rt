//! The floor of a sum: the greatest number that straight proofs show it to be at least (docs/STATES.md, "Straight proofs").

ghost use Rattle.std.specs.Prelude.{◌≡◌, ℕ, ◌+◌, ◌<◌, ◌^◌, ◌+ℤ◌, ◌-ℤ◌, Some, option_map, IfOk, IfSome};
ghost use Rattle.std.specs.List.{All};
ghost use Rattle.std.specs.Option.{option_and_then};
ghost use Rattle.lin_facts.specs.declared.row.Row.{Row};
ghost use Rattle.straight_proofs.specs.Subjects.{HasBounds, IsBounded, IsSmall, IsWithin};
ghost use Rattle.straight_proofs.specs.Asked.{IsReady};
ghost use Rattle.straight_proofs.specs.Floors as rule;
ghost use Rattle.straight_proofs.specs.Remainders as subtracting;
ghost use Rattle.straight_proofs.specs.Remainders.{HasRoom};
ghost use Rattle.straight_proofs.specs.Remembered.{IsNear};

use crate::asked::Search;
use crate::known::Known;
use crate::learnt::Learnt;
use crate::remainders::{is_above, lead};
use crate::remembered::numbers;
use crate::search::left_of;
use crate::with_term::rows_with;
use bst_meaning::condition::Cond;
use bv_base::memory::NoMemory;
use lin_facts::row::{Row, Term};
use sym_state::state::State;

/// The floor of a sum in a state: the greatest number for which a straight proof shows that the sum is at least it. `None`
/// comes exactly where no number has one. It goes once over what each list of at most eight references leaves.
pub fn floor(state: &State, cond: &Cond, sum: &Row) -> Result<Option<i64>, NoMemory>
    requires state { HasBounds state.now }
    requires sum { IsBounded sum.now }
    ensures greatest { IfOk result (λ found. found ≡ rule.floor cond.now state.now sum.now) }
    ensures small { IfOk result (λ found. IfSome found (IsWithin (2 ^ 49))) }
{
    let mut search = Search::new(state.alloc(), state, cond)?;
    search.floor(sum)
}

/// The floor of a remainder by at most so many references. Parts whose floor was found before aren't tried again.
#[cycle(floors)]
pub(crate) fn floor_within(
    known: &Known,
    learnt: &mut Learnt,
    remainder: &Row,
    most: u32,
) -> Result<Option<i64>, NoMemory>
    requires ready { IsReady known.now.cond.now known.now.state.now known.now.rows.items learnt.old }
    requires room { HasRoom most remainder.now }
    ensures greatest { IfOk result (λ found. found ≡ rule.floor_within most known.now.cond.now known.now.state.now remainder.now) }
    ensures near { IfOk result (IsNear most remainder.now) }
    ensures ready { IsReady known.now.cond.now known.now.state.now known.now.rows.items learnt.new }
{
    match lead(remainder) {
        None => Ok(ended(remainder)),
        Some(term) => {
            if most == 0 {
                Ok(None)
            } else {
                floor_if_new(known, learnt, remainder, term, most)
            }
        }
    }
}

/// The same where a term leads and a reference may follow.
#[cycle(floors)]
fn floor_if_new(
    known: &Known,
    learnt: &mut Learnt,
    remainder: &Row,
    term: Term,
    most: u32,
) -> Result<Option<i64>, NoMemory>
    requires ready { IsReady known.now.cond.now known.now.state.now known.now.rows.items learnt.old }
    requires room { HasRoom most remainder.now }
    requires leads { subtracting.lead remainder.now ≡ Some term }
    requires more { 0 < most }
    ensures greatest { IfOk result (λ found. found ≡ rule.floor_within most known.now.cond.now known.now.state.now remainder.now) }
    ensures near { IfOk result (IsNear most remainder.now) }
    ensures ready { IsReady known.now.cond.now known.now.state.now known.now.rows.items learnt.new }
{
    let key = numbers(known.alloc, most, remainder.parts.as_slice())?;
    if let Some(floor) = learnt.floors.find(key.as_slice()) {
        return Ok(with_constant(*floor, remainder));
    }
    let above = is_above(remainder, term);
    let rows = rows_with(known, &mut learnt.rows, above, term)?;
    let rows = rows.as_ref().as_slice();
    let floor = greatest_behind(known, learnt, term, remainder, most - 1, rows)?;
    learnt.floors.add(key, without_constant(floor, remainder))?;
    Ok(floor)
}

/// The greatest of the floors behind some rows.
#[cycle(floors)]
fn greatest_behind(
    known: &Known,
    learnt: &mut Learnt,
    term: Term,
    remainder: &Row,
    most: u32,
    rows: &[Row],
) -> Result<Option<i64>, NoMemory>
    requires ready { IsReady known.now.cond.now known.now.state.now known.now.rows.items learnt.old }
    requires room { HasRoom (most + 1) remainder.now }
    requires small { All IsSmall rows.now }
    ensures greatest { IfOk result (λ found. found
        ≡ rule.greatest_behind (λ row. option_and_then (rule.floor_within most known.now.cond.now known.now.state.now)
        (subtracting.left_of (Some term) remainder.now row)) rows.now) }
    ensures near { IfOk result (IsNear (most + 1) remainder.now) }
    ensures ready { IsReady known.now.cond.now known.now.state.now known.now.rows.items learnt.new }
{
    let mut found = None;
    for row in rows {
        let floor = floor_behind(known, learnt, term, remainder, most, row)?;
        found = greatest(found, floor);
    }
    Ok(found)
}

/// The floor of what is left behind a row.
#[cycle(floors)]
fn floor_behind(
    known: &Known,
    learnt: &mut Learnt,
    term: Term,
    remainder: &Row,
    most: u32,
    row: &Row,
) -> Result<Option<i64>, NoMemory>
    requires ready { IsReady known.now.cond.now known.now.state.now known.now.rows.items learnt.old }
    requires room { HasRoom (most + 1) remainder.now }
    requires small { IsSmall row.now }
    ensures greatest { IfOk result (λ found. found ≡ option_and_then (rule.floor_within most known.now.cond.now known.now.state.now)
        (subtracting.left_of (Some term) remainder.now row.now)) }
    ensures near { IfOk result (IsNear (most + 1) remainder.now) }
    ensures ready { IsReady known.now.cond.now known.now.state.now known.now.rows.items learnt.new }
{
    match left_of(known.alloc, Some(term), remainder, row)? {
        Some(left) => floor_within(known, learnt, &left, most),
        None => Ok(None),
    }
}

/// The floor of a remainder by that of its parts: its constant is added.
fn with_constant(floor: Option<i64>, remainder: &Row) -> Option<i64>
    requires floor { IfSome floor (IsWithin (2 ^ 49)) }
    requires room { HasRoom 0 remainder.now }
    ensures { result ≡ option_map (λ n. n +ℤ remainder.now.constant) floor }
{
    match floor {
        Some(n) => Some(n + remainder.constant),
        None => None,
    }
}

/// The floor of a remainder's parts by its own: its constant is taken away.
fn without_constant(floor: Option<i64>, remainder: &Row) -> Option<i64>
    requires floor { IfSome floor (IsWithin (2 ^ 49)) }
    requires room { HasRoom 0 remainder.now }
    ensures { result ≡ option_map (λ n. n -ℤ remainder.now.constant) floor }
{
    match floor {
        Some(n) => Some(n - remainder.constant),
        None => None,
    }
}

/// The floor of a remainder without a lead: its constant.
fn ended(remainder: &Row) -> Option<i64>
    ensures value { result ≡ Some remainder.now.constant }
    ensures near { (most : ℕ) → IsNear most remainder.now result }
{
    Some(remainder.constant)
}

/// The greater of two floors, where both are there.
fn greatest(floor: Option<i64>, other: Option<i64>) -> Option<i64>
    ensures value { result ≡ rule.greatest floor other }
    ensures near { (most : ℕ) (remainder : Row) → IsNear most remainder floor → IsNear most remainder other → IsNear most remainder result }
{
    match (floor, other) {
        (Some(m), Some(n)) => Some(m.max(n)),
        (Some(m), None) => Some(m),
        (None, other) => other,
    }
}
