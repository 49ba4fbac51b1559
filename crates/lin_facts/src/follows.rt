//! Whether a step shows a row.

ghost use Rattle.std.specs.Prelude.{◌≡◌, ◌<◌, ◌≤◌, ◌*◌, ◌^◌, ◌↔◌, IsTrue, length, nat_lt, pos, ◌*ℤ◌};
ghost use Rattle.std.specs.List.{All, list_all};
ghost use Rattle.lin_facts.specs.Rows.{same_term, coefficient_of, IsWithin, IsSmall, Assignment, Holds};
ghost use Rattle.lin_facts.specs.Follows.{row_at, entry, summed, left_over, cancel, follows, Follows, UsedHold, IsInBounds};

use crate::row::{Part, Row, Step, StepUse, Term};

/// Where rows are compared: at their constants, or at a term.
#[derive(Clone, Copy)]
enum Column {
    Constant,
    At(Term),
}

/// Whether a step shows a row: the divisor is at least 1, each used row is there, and the goal, taken as often
/// as the divisor says, is the sum of the used rows, term by term, and a constant greater than minus the divisor.
/// Such a goal holds wherever the used rows hold. It takes no memory, and no sum of 128 bits wraps.
pub fn follows(rows: &[Row], step: &Step, goal: &Row) -> bool
    requires { IsInBounds rows.now step.now goal.now }
    ensures value { result ≡ follows rows.now step.now goal.now }
    ensures means { IsTrue result ↔ Follows rows.now step.now goal.now }
    ensures sound { IsTrue result → (a : Assignment) → UsedHold a rows.now step.now.uses → Holds a goal.now }
{
    shows(rows, step, goal)
}

/// The test at the terms of the goal and of the used rows.
fn shows(rows: &[Row], step: &Step, goal: &Row) -> bool
    requires { IsInBounds rows.now step.now goal.now }
    ensures { result ≡ follows rows.now step.now goal.now }
{
    if step.divisor == 0 || !are_there(step.uses.as_slice(), rows.len()) {
        return false;
    }
    let constant = left_over(rows, step, goal, Column::Constant);
    -(step.divisor as i128) < constant
        && cancel(rows, step, goal, goal.parts.as_slice())
        && uses_cancel(rows, step, goal)
}

/// Whether each used row is below a count.
fn are_there(uses: &[StepUse], count: usize) -> bool
    ensures value { result ≡ list_all (λ u. nat_lt u.row count) uses.now }
    ensures there { IsTrue result → All (λ u. u.row < count) uses.now }
{
    for u in uses {
        if u.row as usize >= count {
            return false;
        }
    }
    true
}

/// Whether the used rows' terms are left over nowhere.
fn uses_cancel(rows: &[Row], step: &Step, goal: &Row) -> bool
    requires bounds { IsInBounds rows.now step.now goal.now }
    requires there { All (λ u. u.row < length rows.now) step.now.uses }
    ensures { result ≡ list_all (λ u. cancel rows.now step.now goal.now (row_at rows.now u.row).parts) step.now.uses }
{
    for u in step.uses.as_slice() {
        if !cancel(rows, step, goal, rows[u.row as usize].parts.as_slice()) {
            return false;
        }
    }
    true
}

/// Whether the terms of these parts are left over nowhere.
fn cancel(rows: &[Row], step: &Step, goal: &Row, parts: &[Part]) -> bool
    requires bounds { IsInBounds rows.now step.now goal.now }
    requires there { All (λ u. u.row < length rows.now) step.now.uses }
    ensures { result ≡ cancel rows.now step.now goal.now parts.now }
{
    for part in parts {
        if left_over(rows, step, goal, Column::At(part.term)) != 0 {
            return false;
        }
    }
    true
}

/// What the goal, taken as often as the divisor says, has in a column beyond the used rows.
fn left_over(rows: &[Row], step: &Step, goal: &Row, column: Column) -> i128
    requires bounds { IsInBounds rows.now step.now goal.now }
    requires there { All (λ u. u.row < length rows.now) step.now.uses }
    ensures { result ≡ left_over rows.now step.now goal.now column }
{
    scaled(step.divisor, entry(goal, column)) - summed(rows, column, step.uses.as_slice())
}

/// The used rows, each taken so many times, added up in a column.
fn summed(rows: &[Row], column: Column, uses: &[StepUse]) -> i128
    requires few { length uses.now ≤ 64 }
    requires there { All (λ u. u.row < length rows.now) uses.now }
    requires small { All IsSmall rows.now }
    ensures value { result ≡ summed rows.now column uses.now }
    ensures size { IsWithin (2 ^ 88) result }
{
    let mut sum = 0i128;
    for u in uses {
        sum += scaled(u.times, entry(&rows[u.row as usize], column));
    }
    sum
}

/// A number taken so many times.
fn scaled(times: u32, number: i64) -> i128
    requires { IsWithin (2 ^ 50) number }
    ensures value { result ≡ pos times *ℤ number }
    ensures size { IsWithin (2 ^ 82) result }
{
    times as i128 * number as i128
}

/// The number of a row in a column.
fn entry(row: &Row, column: Column) -> i64
    requires { IsSmall row.now }
    ensures value { result ≡ entry column row.now }
    ensures size { IsWithin (2 ^ 50) result }
{
    match column {
        Column::Constant => row.constant,
        Column::At(term) => coefficient_of(row.parts.as_slice(), term),
    }
}

/// How often parts take a term.
pub fn coefficient_of(parts: &[Part], term: Term) -> i64
    requires few { length parts.now ≤ 288 }
    requires small { All (λ part. IsWithin (2 ^ 50 * 9) part.coefficient) parts.now }
    ensures value { result ≡ coefficient_of parts.now term }
    ensures size { All (λ part. IsWithin (2 ^ 45) part.coefficient) parts.now → IsWithin (length parts.now * 2 ^ 45) result }
{
    let mut sum = 0i64;
    for part in parts {
        if same_term(part.term, term) {
            sum += part.coefficient;
        }
    }
    sum
}

/// Whether two terms are one.
pub fn same_term(a: Term, b: Term) -> bool
    ensures { result ≡ same_term a b }
{
    match (a, b) {
        (Term::Value(m), Term::Value(n)) => m == n,
        (Term::Length(m), Term::Length(n)) => m == n,
        (Term::Names(m), Term::Names(n)) => m == n,
        (Term::Pos, Term::Pos) => true,
        (Term::Count, Term::Count) => true,
        _ => false,
    }
}
