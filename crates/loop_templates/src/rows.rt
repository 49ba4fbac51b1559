//! The rows that a list of states has in common (docs/ANALYSER.md, "Loops").

ghost use Rattle.std.specs.Prelude.{◌≡◌, ◌+◌, ◌<◌, ◌≤◌, false, [], ◌∷◌, ◌++◌, length, map, not, option_map, take, IfOk, OnOk};
ghost use Rattle.std.specs.List.{All, filter, list_any};
ghost use Rattle.std.specs.Option.{option_map_or};
ghost use Rattle.std.specs.Cmp.Lexicographic.{pointwise};
ghost use Rattle.cert_format.specs.CertText.{is_within};
ghost use Rattle.sym_state.specs.Starting as begin;
ghost use Rattle.loop_templates.specs.Rows as rule;
ghost use Rattle.loop_templates.specs.Sums.{IsSmallSum};
ghost use Rattle.loop_templates.specs.Subjects.{HasBounds};

use crate::claims::rows_of_sum;
use crate::in_piece::row_in_piece;
use crate::limits::{MOST_ITEMS, ROW_SIZE};
use bst_meaning::condition::Cond;
use bv_base::memory::NoMemory;
use bv_base::seq::Seq;
use lin_facts::follows::same_term;
use lin_facts::row::{Part, Row};
use name_table::style::Style;
use std::alloc::Global;
use std::slice::from_ref;
use straight_proofs::{Search, rows_on};
use sym_state::piece::Piece;
use sym_state::start::start;
use sym_state::state::State;

/// The rows of a list of states for a piece that has none yet: by the sums in their order, the first of them that may stand
/// there. It looks at no sum behind the last of them.
pub fn rows_over(
    alloc: Global,
    style: &Style,
    cond: &Cond,
    whole: bool,
    at_entry: bool,
    sums: &[Seq<Part>],
    states: &[&State],
    piece: &Piece,
) -> Result<Vec<Row>, NoMemory>
    requires states { All HasBounds (map (λ state. state.now) states.now) }
    requires sums { All IsSmallSum sums.now }
    requires numbered { begin.IsNumbered piece.now }
    requires fit { begin.IsFit style.now piece.now }
    requires few { begin.symbols_of piece.now + length style.now.names < 4294967296 }
    ensures rows { IfOk result (λ rows. rows.items
        ≡ rule.rows_over style.now cond.now whole at_entry sums.now (map (λ state. state.now) states.now) piece.now) }
    ensures few { IfOk result (λ rows. length rows.items ≤ MOST_ITEMS) }
{
    let start = started(alloc, style, cond, whole, at_entry, piece)?;
    let mut all = searches(alloc, cond, states)?;
    let searches = all.as_mut_slice();
    gathered(alloc, cond, &start, piece, sums, searches)
}

/// A search for each of some states: what it finds for one sum, it has at hand for the next.
fn searches<'a>(
    alloc: Global,
    cond: &'a Cond,
    states: &[&'a State],
) -> Result<Vec<Search<'a>>, NoMemory>
    requires { All HasBounds (map (λ state. state.now) states.now) }
    ensures states { IfOk result (λ all. map (λ search. search.state) all.items ≡ map (λ state. state.now) states.now) }
    ensures cond { IfOk result (λ all. All (λ search. search.cond ≡ cond.now) all.items) }
{
    let mut all = Vec::new(alloc);
    for state in states {
        all.push(Search::new(alloc, *state, cond)?)?;
    }
    Ok(all)
}

/// The rows of sums that may stand in a piece, the first of them.
fn gathered(
    alloc: Global,
    cond: &Cond,
    start: &State,
    piece: &Piece,
    sums: &[Seq<Part>],
    searches: &mut [Search<'_>],
) -> Result<Vec<Row>, NoMemory>
    requires searches { All (λ search. search.cond ≡ cond.now) searches.old }
    requires sums { All IsSmallSum sums.now }
    requires bounds { HasBounds start.now }
    ensures rows { IfOk result (λ rows. rows.items
        ≡ rule.gathered cond.now start.now piece.now sums.now (map (λ search. search.state) searches.old)) }
    ensures few { IfOk result (λ rows. length rows.items ≤ MOST_ITEMS) }
{
    let mut rows = Vec::new(alloc);
    for sum in sums {
        if rows.len() >= MOST_ITEMS {
            return Ok(rows);
        }
        let found = rows_of_sum(alloc, cond, searches, sum.as_slice())?;
        keep_wanted(alloc, &mut rows, cond, start, piece, found.as_slice())?;
    }
    Ok(rows)
}

/// The state that starts from a piece.
fn started(
    alloc: Global,
    style: &Style,
    cond: &Cond,
    whole: bool,
    at_entry: bool,
    piece: &Piece,
) -> Result<State, NoMemory>
    requires numbered { begin.IsNumbered piece.now }
    requires fit { begin.IsFit style.now piece.now }
    requires few { begin.symbols_of piece.now + length style.now.names < 4294967296 }
    ensures started { IfOk result (λ state. state ≡ begin.started style.now cond.now (piece.now ∷ []) whole at_entry) }
    ensures bounds { IfOk result HasBounds }
{
    let pieces = from_ref(piece);
    start(alloc, style, cond, pieces, whole, at_entry)
}

/// Adds those of some rows over names that may stand in a piece, as long as there is room.
fn keep_wanted(
    alloc: Global,
    rows: &mut Vec<Row>,
    cond: &Cond,
    start: &State,
    piece: &Piece,
    found: &[Row],
) -> Result<(), NoMemory>
    requires bounds { HasBounds start.now }
    requires small { All (λ row. IsSmallSum row.parts) found.now }
    requires few { length rows.old.items ≤ MOST_ITEMS }
    ensures kept { OnOk result (rows.new.items
        ≡ take MOST_ITEMS (rows.old.items ++ filter (rule.is_wanted cond.now start.now) (map (rule.row_in_piece piece.now) found.now))) }
    ensures few { OnOk result (length rows.new.items ≤ MOST_ITEMS) }
{
    for row in found {
        let placed = row_in_piece(alloc, piece, row)?;
        keep_one(alloc, rows, cond, start, placed)?;
    }
    Ok(())
}

/// Adds a row that may stand in a piece, as long as there is room.
fn keep_one(
    alloc: Global,
    rows: &mut Vec<Row>,
    cond: &Cond,
    start: &State,
    row: Row,
) -> Result<(), NoMemory>
    requires bounds { HasBounds start.now }
    requires few { length rows.old.items ≤ MOST_ITEMS }
    ensures kept { OnOk result (rows.new.items ≡ take MOST_ITEMS (rows.old.items ++ filter (rule.is_wanted cond.now start.now) (row ∷ []))) }
    ensures few { OnOk result (length rows.new.items ≤ MOST_ITEMS) }
{
    if rows.len() >= MOST_ITEMS {
        return Ok(());
    }
    if is_wanted(alloc, cond, start, &row)? {
        rows.push(row)?;
    }
    Ok(())
}

/// Whether a row may stand in a piece: its constant is within the limit, and no reference in the state that starts without it
/// says it.
fn is_wanted(alloc: Global, cond: &Cond, start: &State, row: &Row) -> Result<bool, NoMemory>
    requires { HasBounds start.now }
    ensures { IfOk result (λ is. is ≡ rule.is_wanted cond.now start.now row.now) }
{
    if is_large(row.constant) {
        return Ok(false);
    }
    Ok(!is_said(alloc, cond, start, row)?)
}

/// Whether a number is past the limit of a row.
fn is_large(n: i64) -> bool
    ensures { result ≡ not (is_within ROW_SIZE ROW_SIZE n) }
{
    n < -(ROW_SIZE as i64) || (ROW_SIZE as i64) < n
}

/// Whether a reference in a state says a row.
fn is_said(alloc: Global, cond: &Cond, state: &State, row: &Row) -> Result<bool, NoMemory>
    requires { HasBounds state.now }
    ensures { IfOk result (λ is. is ≡ rule.is_said cond.now state.now row.now) }
{
    if is_row_of(state, row) {
        return Ok(true);
    }
    is_said_of_first(alloc, cond, state, row)
}

/// Whether a reference in a state says a row of the row's first term.
fn is_said_of_first(alloc: Global, cond: &Cond, state: &State, row: &Row) -> Result<bool, NoMemory>
    requires { HasBounds state.now }
    ensures { IfOk result (λ is. is ≡ list_any (rule.same_row row.now) (rule.said_of_first cond.now state.now row.now.parts)) }
{
    match row.parts.as_slice() {
        [] => Ok(false),
        [first, ..] => {
            let said = rows_on(alloc, state, cond, first.term)?;
            Ok(is_among(row, said.as_slice()))
        }
    }
}

/// Whether a row is one of a state's.
fn is_row_of(state: &State, row: &Row) -> bool
    ensures { result ≡ list_any (rule.same_row row.now) state.now.rows }
{
    for k in 0..state.rows() {
        if is_same(row, state.row(k)) {
            return true;
        }
    }
    false
}

/// Whether a row is there and is this one.
fn is_same(row: &Row, other: Option<&Row>) -> bool
    ensures { result ≡ option_map_or (rule.same_row row.now) (option_map (λ other. other.now) other.entry) false }
{
    match other {
        Some(other) => same_row(row, other),
        None => false,
    }
}

/// Whether a row is among some.
fn is_among(row: &Row, rows: &[Row]) -> bool
    ensures { result ≡ list_any (rule.same_row row.now) rows.now }
{
    for other in rows {
        if same_row(row, other) {
            return true;
        }
    }
    false
}

/// Whether two rows are one.
fn same_row(a: &Row, b: &Row) -> bool
    ensures { result ≡ rule.same_row a.now b.now }
{
    a.constant == b.constant && same_parts(a.parts.as_slice(), b.parts.as_slice())
}

/// Whether the parts of two rows are the same.
fn same_parts(a: &[Part], b: &[Part]) -> bool
    ensures { result ≡ pointwise rule.same_part a.now b.now }
{
    match (a, b) {
        ([], []) => true,
        ([x, xs @ ..], [y, ys @ ..]) => same_part(*x, *y) && same_parts(xs, ys),
        _ => false,
    }
}

/// Whether two parts are one.
fn same_part(a: Part, b: Part) -> bool
    ensures { result ≡ rule.same_part a b }
{
    a.coefficient == b.coefficient && same_term(a.term, b.term)
}
