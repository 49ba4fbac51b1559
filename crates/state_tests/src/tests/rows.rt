//! Rows, and the steps that show them (docs/CHECKER.md, "Rows").

ghost use Rattle.std.specs.Prelude.{◌≤◌, length, IfOk};
ghost use Rattle.std.specs.List.{All};
ghost use Rattle.lin_facts.specs.Rows.{IsSmall};
ghost use Rattle.sym_state.specs.WellMade.{IsBounded};

use crate::tests::lines::compare;
use crate::tests::reading::{Item, Unread, divided, halves, integer, natural, thirds};
use crate::tests::states::Asked;
use bv_base::memory::NoMemory;
use bv_base::seq::Seq;
use lin_facts::follows::follows;
use lin_facts::row::{Part, Row, Step, StepUse, Term};
use std::alloc::Global;

/// A row of one or two terms.
pub fn row(alloc: Global, text: &'static str) -> Result<Row, Unread>
    ensures small { IfOk result IsSmall }
    ensures bounded { IfOk result IsBounded }
{
    let (constant, terms) = halves(text, " ");
    let (first, second) = halves(terms, " ");
    let (constant, first) = (integer(constant)?, term(first)?);
    Ok(if second.is_empty() {
        row_of_one(alloc, constant, first)?
    } else {
        row_of_two(alloc, constant, first, term(second)?)?
    })
}

/// A term, and how often it is taken.
fn term(text: &'static str) -> Result<(i32, Term), Unread> {
    for letter in LETTERS.as_slice() {
        if let Some((times, symbol)) = text.split_once(*letter) {
            return Ok((integer(times)?, term_of(letter, natural(symbol)?)));
        }
    }
    Err(Unread::At(text))
}

static LETTERS: [&str; 5] = ["v", "l", "n", "p", "c"];

fn term_of(letter: &'static str, symbol: u32) -> Term {
    match letter {
        "v" => Term::Value(symbol),
        "l" => Term::Length(symbol),
        "n" => Term::Names(symbol),
        "p" => Term::Pos,
        _ => Term::Count,
    }
}

fn row_of_one(alloc: Global, constant: i32, first: (i32, Term)) -> Result<Row, NoMemory>
    ensures small { IfOk result IsSmall }
    ensures bounded { IfOk result IsBounded }
{
    let parts = [Part {
        coefficient: first.0 as i64,
        term: first.1,
    }];
    Ok(Row {
        constant: constant as i64,
        parts: Seq::from_vec(parts.to_vec(alloc)?),
    })
}

fn row_of_two(
    alloc: Global,
    constant: i32,
    first: (i32, Term),
    second: (i32, Term),
) -> Result<Row, NoMemory>
    ensures small { IfOk result IsSmall }
    ensures bounded { IfOk result IsBounded }
{
    let parts = [
        Part {
            coefficient: first.0 as i64,
            term: first.1,
        },
        Part {
            coefficient: second.0 as i64,
            term: second.1,
        },
    ];
    Ok(Row {
        constant: constant as i64,
        parts: Seq::from_vec(parts.to_vec(alloc)?),
    })
}

/// A row begins with its constant, a fact with a word.
pub fn is_row(text: &'static str) -> bool {
    matches!(text.as_bytes(), [b'0'..=b'9' | b'-', ..])
}

impl Item for Row {
    ghost use Rattle.sym_state.specs.WellMade.{IsBounded};

    ghost holds = { IsBounded };

    fn read(alloc: Global, text: &'static str) -> Result<Option<Row>, Unread> {
        if !is_row(text) {
            return Ok(None);
        }
        Ok(Some(row(alloc, text)?))
    }
}

impl Item for StepUse {
    ghost holds = { λ _. Unit {0} };

    fn read(_alloc: Global, text: &'static str) -> Result<Option<StepUse>, Unread> {
        Ok(Some(StepUse {
            row: natural(text)?,
            times: 1,
        }))
    }
}

/// A row that is there or `empty`, the divisor and the rows of a step, a goal, and whether the step shows it.
static STEPS: [&str; 11] = [
    "length: -1 1l7 0p0 | 1 0 | 0 1l7 0p0 => true",
    "less: -1 1l7 0p0 | 1 0 | -2 1l7 0p0 => false",
    "up: -1 1v7 1v7 | 2 0 | -1 1v7 0p0 => true",
    "up twice: -1 1v7 1v7 | 2 0 | -2 1v7 0p0 => false",
    "no row: empty | 1 0 | 0 0p0 0p0 => false",
    "no divisor: empty | 0 | 0 0p0 0p0 => false",
    "nothing: empty | 1 | 0 0p0 0p0 => true",
    "minus 1: empty | 1 | -1 0p0 0p0 => false",
    "sum: -1 1l7 0p0 | 2 0 0 | -1 1l7 0p0 => true",
    "rest: 0 1l7 1v7 | 1 0 | 0 1l7 0p0 => false",
    "other: 0 1l7 0p0 | 1 0 | 0 1v7 0p0 => false",
];

#[test]
fn steps_show_rows(rt: HostRuntime) {
    compare(&rt, rt.alloc(), &Asked::Step, &STEPS);
}

/// Whether a step that uses the row shows the goal.
pub fn is_shown(alloc: Global, given: &'static str) -> Result<bool, Unread> {
    let (used, step, goal) = thirds(given);
    let rows = rows_there(alloc, used)?;
    let (divisor, uses) = divided(alloc, step)?;
    let goal = row(alloc, goal)?;
    Ok(follows(rows.as_slice(), &Step { uses, divisor }, &goal))
}

/// The row, where it is there.
fn rows_there(alloc: Global, used: &'static str) -> Result<Seq<Row>, Unread>
    ensures few { IfOk result (λ rows. length rows ≤ 64) }
    ensures small { IfOk result (λ rows. All IsSmall rows) }
{
    let mut rows = Seq::new(alloc);
    if used != "empty" {
        rows.push(row(alloc, used)?)?;
    }
    Ok(rows)
}
