//! What sums come to in a list of states, each behind a search (docs/ANALYSER.md, "Loops").

ghost use Rattle.std.specs.Prelude.{◌≡◌, ◌<◌, ◌++◌, ◌^◌, Some, false, drop, length, map, option_map, IfOk, IfSome, OnOk};
ghost use Rattle.std.specs.List.{All, list_all};
ghost use Rattle.std.specs.Option.{option_map_or};
ghost use Rattle.std.specs.Ordering.{int_eq};
ghost use Rattle.loop_templates.specs.Rows as rule;
ghost use Rattle.loop_templates.specs.Sums.{IsSmallSum};
ghost use Rattle.loop_templates.specs.Subjects.{IsBounded, IsWithin, row_renamed, term_renamed};

use crate::facts::symbol_in;
use bst_meaning::condition::Cond;
use bv_base::memory::NoMemory;
use bv_base::seq::Seq;
use lin_facts::row::{Part, Row, Term};
use name_table::names::NameId;
use std::alloc::Global;
use straight_proofs::Search;
use sym_state::state::State;

/// The rows that a sum gives for a list of states: one term what it is at least and at most in all of them, a longer sum what
/// it is exactly in all of them.
pub(crate) fn rows_of_sum(
    alloc: Global,
    cond: &Cond,
    searches: &mut [Search<'_>],
    sum: &[Part],
) -> Result<Vec<Row>, NoMemory>
    requires searches { All (λ search. search.cond ≡ cond.now) searches.old }
    requires sum { IsSmallSum sum.now }
    ensures rows { IfOk result (λ rows. rows.items ≡ rule.rows_of_sum cond.now (map (λ search. search.state) searches.old) sum.now) }
    ensures stays { searches.new ≡ searches.old }
{
    match sum {
        [] => Ok(Vec::new(alloc)),
        [_] => rows_of_term(alloc, cond, searches, sum),
        _ => exact_rows(alloc, cond, searches, sum),
    }
}

/// What a term is at least and at most in some states.
fn rows_of_term(
    alloc: Global,
    cond: &Cond,
    searches: &mut [Search<'_>],
    sum: &[Part],
) -> Result<Vec<Row>, NoMemory>
    requires searches { All (λ search. search.cond ≡ cond.now) searches.old }
    requires sum { IsSmallSum sum.now }
    ensures rows { IfOk result (λ rows. rows.items
        ≡ rule.claim sum.now (rule.least_floor cond.now sum.now (map (λ search. search.state) searches.old))
        ++ rule.claim (rule.negated sum.now) (rule.least_floor cond.now (rule.negated sum.now) (map (λ search. search.state) searches.old))) }
    ensures stays { searches.new ≡ searches.old }
{
    let negative = negated(alloc, sum)?;
    let mut rows = Vec::new(alloc);
    let least = least_floor(alloc, cond, searches, sum)?;
    push_claim(alloc, &mut rows, sum, least)?;
    let least = least_floor(alloc, cond, searches, negative.as_slice())?;
    push_claim(alloc, &mut rows, negative.as_slice(), least)?;
    Ok(rows)
}

/// What a sum is exactly in some states.
fn exact_rows(
    alloc: Global,
    cond: &Cond,
    searches: &mut [Search<'_>],
    sum: &[Part],
) -> Result<Vec<Row>, NoMemory>
    requires searches { All (λ search. search.cond ≡ cond.now) searches.old }
    requires sum { IsSmallSum sum.now }
    ensures rows { IfOk result (λ rows. rows.items ≡ rule.exact_rows cond.now (map (λ search. search.state) searches.old) sum.now) }
    ensures stays { searches.new ≡ searches.old }
{
    if searches.is_empty() {
        return Ok(Vec::new(alloc));
    }
    match floor_in(alloc, &mut searches[0], sum)? {
        Some(c) => exact_claims(alloc, cond, searches, sum, c),
        None => Ok(Vec::new(alloc)),
    }
}

/// Both claims for a number, where a sum exactly is that number in each state.
fn exact_claims(
    alloc: Global,
    cond: &Cond,
    searches: &mut [Search<'_>],
    sum: &[Part],
    c: i64,
) -> Result<Vec<Row>, NoMemory>
    requires searches { All (λ search. search.cond ≡ cond.now) searches.old }
    requires sum { IsSmallSum sum.now }
    requires small { IsWithin (2 ^ 49) c }
    ensures rows { IfOk result (λ rows. rows.items ≡ rule.exact_claims cond.now (map (λ search. search.state) searches.old) sum.now (Some c)) }
    ensures stays { searches.new ≡ searches.old }
{
    let negative = negated(alloc, sum)?;
    let mut rows = Vec::new(alloc);
    if all_exactly(alloc, cond, searches, sum, negative.as_slice(), c)? {
        push_claim(alloc, &mut rows, sum, Some(c))?;
        push_claim(alloc, &mut rows, negative.as_slice(), Some(-c))?;
    }
    Ok(rows)
}

/// Whether a sum exactly is a number in each state.
fn all_exactly(
    alloc: Global,
    cond: &Cond,
    searches: &mut [Search<'_>],
    sum: &[Part],
    negative: &[Part],
    c: i64,
) -> Result<bool, NoMemory>
    requires searches { All (λ search. search.cond ≡ cond.now) searches.old }
    requires sum { IsSmallSum sum.now }
    requires small { IsWithin (2 ^ 49) c }
    requires negative { negative.now ≡ rule.negated sum.now }
    ensures all { IfOk result (λ all. all ≡ list_all (rule.is_exactly cond.now sum.now c) (map (λ search. search.state) searches.old)) }
    ensures stays { searches.new ≡ searches.old }
{
    for k in 0..searches.len() {
        if !is_exactly(alloc, &mut searches[k], sum, negative, c)? {
            return Ok(false);
        }
    }
    Ok(true)
}

/// Whether a sum exactly is a number in a state.
fn is_exactly(
    alloc: Global,
    search: &mut Search<'_>,
    sum: &[Part],
    negative: &[Part],
    c: i64,
) -> Result<bool, NoMemory>
    requires sum { IsSmallSum sum.now }
    requires small { IsWithin (2 ^ 49) c }
    requires negative { negative.now ≡ rule.negated sum.now }
    ensures exactly { IfOk result (λ is. is ≡ rule.is_exactly search.old.cond sum.now c search.old.state) }
    ensures stays { search.new ≡ search.old }
{
    if !is_floor(alloc, search, sum, c)? {
        return Ok(false);
    }
    is_floor(alloc, search, negative, -c)
}

/// Whether a number is the floor of a sum in a state.
fn is_floor(alloc: Global, search: &mut Search<'_>, sum: &[Part], c: i64) -> Result<bool, NoMemory>
    requires sum { IsSmallSum sum.now }
    ensures floor { IfOk result (λ is. is ≡ rule.is_floor search.old.cond sum.now c search.old.state) }
    ensures stays { search.new ≡ search.old }
{
    Ok(is_number(floor_in(alloc, search, sum)?, c))
}

/// Whether a number is there and is this one.
fn is_number(found: Option<i64>, c: i64) -> bool
    ensures { result ≡ option_map_or (int_eq c) found false }
{
    match found {
        Some(d) => c == d,
        None => false,
    }
}

/// The least floor of a sum over states, where it has one in each.
fn least_floor(
    alloc: Global,
    cond: &Cond,
    searches: &mut [Search<'_>],
    sum: &[Part],
) -> Result<Option<i64>, NoMemory>
    requires searches { All (λ search. search.cond ≡ cond.now) searches.old }
    requires sum { IsSmallSum sum.now }
    ensures least { IfOk result (λ found. found ≡ rule.least_floor cond.now sum.now (map (λ search. search.state) searches.old)) }
    ensures small { IfOk result (λ found. IfSome found (IsWithin (2 ^ 49))) }
    ensures stays { searches.new ≡ searches.old }
{
    if searches.is_empty() {
        return Ok(None);
    }
    least_from(alloc, cond, searches, sum, 0)
}

/// The same of the states from one on.
fn least_from(
    alloc: Global,
    cond: &Cond,
    searches: &mut [Search<'_>],
    sum: &[Part],
    k: usize,
) -> Result<Option<i64>, NoMemory>
    requires searches { All (λ search. search.cond ≡ cond.now) searches.old }
    requires sum { IsSmallSum sum.now }
    requires one { k < length searches.old }
    ensures least { IfOk result (λ found. found ≡ rule.least_floor cond.now sum.now (map (λ search. search.state) (drop k searches.old))) }
    ensures small { IfOk result (λ found. IfSome found (IsWithin (2 ^ 49))) }
    ensures stays { searches.new ≡ searches.old }
{
    let Some(c) = floor_in(alloc, &mut searches[k], sum)? else {
        return Ok(None);
    };
    if k + 1 == searches.len() {
        return Ok(Some(c));
    }
    Ok(lesser(c, least_from(alloc, cond, searches, sum, k + 1)?))
}

/// The lesser of two numbers, where the second is there.
fn lesser(c: i64, other: Option<i64>) -> Option<i64>
    ensures least { result ≡ option_map (rule.lesser c) other }
    ensures small { IsWithin (2 ^ 49) c → IfSome other (IsWithin (2 ^ 49)) → IfSome result (IsWithin (2 ^ 49)) }
{
    match other {
        Some(d) => { if d < c { Some(d) } else { Some(c) } }
        None => None,
    }
}

/// Adds the claim for a floor that is there.
fn push_claim(
    alloc: Global,
    rows: &mut Vec<Row>,
    sum: &[Part],
    floor: Option<i64>,
) -> Result<(), NoMemory>
    requires { IfSome floor (IsWithin (2 ^ 49)) }
    ensures { OnOk result (rows.new.items ≡ rows.old.items ++ rule.claim sum.now floor) }
{
    if let Some(c) = floor {
        rows.push(Row {
            constant: -c,
            parts: Seq::from_vec(sum.to_vec(alloc)?),
        })?;
    }
    Ok(())
}

/// A sum with each sign turned.
fn negated(alloc: Global, sum: &[Part]) -> Result<Vec<Part>, NoMemory>
    requires { IsSmallSum sum.now }
    ensures said { IfOk result (λ all. all.items ≡ rule.negated sum.now) }
    ensures small { IfOk result (λ all. IsSmallSum all.items) }
{
    let mut all = Vec::new(alloc);
    for part in sum {
        all.push(Part {
            coefficient: -part.coefficient,
            term: part.term,
        })?;
    }
    Ok(all)
}

/// The floor of a sum over names in a state.
fn floor_in(alloc: Global, search: &mut Search<'_>, sum: &[Part]) -> Result<Option<i64>, NoMemory>
    requires { IsSmallSum sum.now }
    ensures floor { IfOk result (λ found. found ≡ rule.floor_in search.old.cond search.old.state sum.now) }
    ensures small { IfOk result (λ found. IfSome found (IsWithin (2 ^ 49))) }
    ensures stays { search.new ≡ search.old }
{
    let row = row_in_state(alloc, search.state(), sum)?;
    search.floor(&row)
}

/// A row of what a sum is in a state, by the symbols that the state binds to its names.
fn row_in_state(alloc: Global, state: &State, sum: &[Part]) -> Result<Row, NoMemory>
    requires { IsSmallSum sum.now }
    ensures said { IfOk result (λ row. row ≡ row_renamed (rule.symbol_in state.now) (rule.row_of_parts (rule.seen_in state.now sum.now))) }
    ensures bounded { IfOk result IsBounded }
{
    if state.is_at_entry() {
        row_over(alloc, state, sum)
    } else {
        let left = without_pos(alloc, sum)?;
        row_over(alloc, state, left.as_slice())
    }
}

/// A sum without the number of visited entries.
fn without_pos(alloc: Global, sum: &[Part]) -> Result<Vec<Part>, NoMemory>
    requires { IsSmallSum sum.now }
    ensures said { IfOk result (λ left. left.items ≡ rule.without_pos sum.now) }
    ensures small { IfOk result (λ left. IsSmallSum left.items) }
{
    let mut left = Vec::new(alloc);
    for part in sum {
        if !is_pos(part.term) {
            left.push(*part)?;
        }
    }
    Ok(left)
}

/// Whether a term is the number of visited entries.
fn is_pos(term: Term) -> bool
    ensures { result ≡ rule.is_pos term }
{
    matches!(term, Term::Pos)
}

/// A row of a sum over names, by the symbols that a state binds to them.
fn row_over(alloc: Global, state: &State, sum: &[Part]) -> Result<Row, NoMemory>
    requires { IsSmallSum sum.now }
    ensures said { IfOk result (λ row. row ≡ row_renamed (rule.symbol_in state.now) (rule.row_of_parts sum.now)) }
    ensures bounded { IfOk result IsBounded }
{
    let mut parts = Vec::new(alloc);
    for part in sum {
        parts.push(Part {
            coefficient: part.coefficient,
            term: term_in_state(state, part.term),
        })?;
    }
    Ok(Row {
        constant: 0,
        parts: Seq::from_vec(parts),
    })
}

/// A term over a name, by the symbol that a state binds to it.
fn term_in_state(state: &State, term: Term) -> Term
    ensures { result ≡ term_renamed (rule.symbol_in state.now) term }
{
    match term {
        Term::Value(id) => Term::Value(symbol_in(state, NameId(id))),
        Term::Length(id) => Term::Length(symbol_in(state, NameId(id))),
        Term::Names(id) => Term::Names(symbol_in(state, NameId(id))),
        term => term,
    }
}
