//! Tables of rows, and what is told of each. A row is words, ` ->` and what is told; a line that begins with `%` is a
//! heading.

use crate::tests::entries::list;
use crate::tests::marks::add_lent;
use crate::tests::operands::add_kinds;
use crate::tests::program::{add_words, empty_style};
use crate::tests::runs::{add_state, reserved_steps, step_by_step};
use crate::tests::writing::{add_lengths, add_parts};
use bst_meaning::fault::Fault;
use bst_step::machine::{Machine, Site, Turn};
use bv_base::memory::NoMemory;
use bv_base::place::Place;
use bv_base::runs::{after_white, digits_length, number};
use entry_store::entry::EntryList;
use name_table::style::Style;
use std::alloc::Global;
use std::process::Abort;
use std::test::Fail;

/// Rows of one kind.
pub struct Table {
    /// What stands before the words of each row: functions, and then the beginning of another.
    pub functions: &'static str,
    pub front: &'static str,
    /// What stands behind them.
    pub back: &'static str,
    /// What is told of each row.
    pub telling: Telling,
    pub rows: &'static str,
}

/// What is told of a row.
#[derive(Clone, Copy, PartialEq, Eq)]
pub enum Telling {
    /// The log, with `|` for the end of a line.
    Log,
    /// The lines that are written.
    Lines,
    /// The same with each run of equal bytes as its length and the byte.
    Lengths,
    /// The same where they are taken out of the machine every few steps.
    InParts,
    /// The fault of the last token, for the first entry.
    Fault,
    /// The same where no entry is visited.
    FaultWithoutEntry,
    /// The kinds that an operand may be.
    Kinds,
    /// What a style comes to, and the lines that it has written.
    State,
    /// The same after so many steps.
    Steps,
    /// The same with one step at a time.
    StepByStep,
    /// The same where room was made for each step.
    Reserved,
    /// The three topmost values where the stack isn't left empty: the bytes of those that are lent strings, and else `-`.
    Lent,
}

impl Telling {
    /// Whether a log or lines are told.
    fn is_text(self) -> bool {
        matches!(self, Telling::Log | Telling::Lines | Telling::Lengths)
    }
}

/// Steps enough for every run that ends.
pub const ENOUGH: u64 = 1000000;

/// What stands before a body that runs for the first entry alone, and what behind.
pub const FIRST: &str = r#"cite$ "A1" = {"#;

pub const FIRST_END: &str = "} 'skip$ if$ } READ ITERATE f";

/// Expects of each row what is told.
pub fn expect(rt: &impl Abort, alloc: Global, table: &Table) -> Result<(), Fail> {
    for row in table.rows.lines() {
        expect_row(rt, alloc, table, row)?;
    }
    Ok(())
}

/// Expects of a row what is told.
fn expect_row(rt: &impl Abort, alloc: Global, table: &Table, row: &str) -> Result<(), NoMemory> {
    let mut told = String::new(alloc);
    add_row(&mut told, table, row)?;
    assert_eq!(rt; told.as_str().trim_end(), row);
    Ok(())
}

/// Adds the words of a row and what is told of them, or a line with no words.
fn add_row(told: &mut String, table: &Table, row: &str) -> Result<(), NoMemory> {
    if row.is_empty() || row.starts_with("%") {
        return add(told, row);
    }
    let (words, _) = row.split_once(" ->").unwrap_or((row, ""));
    write!(told, "{words} -> ")?;
    add_told(told, table, words)
}

/// Adds what is told of words.
fn add_told(told: &mut String, table: &Table, words: &str) -> Result<(), NoMemory> {
    match table.telling {
        Telling::Kinds => add_kinds(told, table, words),
        Telling::Steps | Telling::StepByStep | Telling::Reserved => {
            add_counted(told, table, words.as_bytes())
        }
        _ => add_after(told, table, ENOUGH, words.as_bytes()),
    }
}

/// Adds what is told of words behind a number of steps.
fn add_counted(told: &mut String, table: &Table, words: &[u8]) -> Result<(), NoMemory> {
    let (digits, words) = words.split_at(digits_length(words));
    add_after(told, table, number(digits), after_white(words))
}

/// Adds what is told of words after so many steps.
pub fn add_after(told: &mut String, table: &Table, n: u64, words: &[u8]) -> Result<(), NoMemory> {
    let mut style = empty_style(*told.allocator())?;
    add_of_style(told, table, n, words, &mut style)
}

/// Adds what is told of words that are put into a style.
fn add_of_style(
    told: &mut String,
    table: &Table,
    n: u64,
    words: &[u8],
    style: &mut Style,
) -> Result<(), NoMemory> {
    add_words(*told.allocator(), style, table, words)?;
    add_run(told, table.telling, n, style, last_place(words))
}

/// The place of the last word of a row.
fn last_place(row: &[u8]) -> Place {
    let mut last = Place::START;
    let mut column = 1u32;
    for b in row {
        column = column.saturating_add(1);
        if *b == b' ' {
            last.column = column;
        }
    }
    last
}

/// Adds what is told of a run of so many steps.
fn add_run(
    told: &mut String,
    telling: Telling,
    n: u64,
    style: &Style,
    last: Place,
) -> Result<(), NoMemory> {
    let alloc = *told.allocator();
    let list = list(alloc)?;
    add_run_over(told, telling, n, style, &list, last)
}

/// Adds what is told of a run of so many steps over a list.
fn add_run_over(
    told: &mut String,
    telling: Telling,
    n: u64,
    style: &Style,
    list: &EntryList,
    last: Place,
) -> Result<(), NoMemory> {
    let mut machine = Machine::new(*told.allocator(), style, list)?;
    add_steps(told, telling, n, &mut machine, last)
}

/// Adds what is told of so many steps of a machine.
fn add_steps(
    told: &mut String,
    telling: Telling,
    n: u64,
    machine: &mut Machine<'_>,
    last: Place,
) -> Result<(), NoMemory> {
    if telling == Telling::InParts {
        return add_parts(told, n, machine);
    }
    let turn = turn_after(telling, n, machine)?;
    add_outcome(told, telling, machine, turn, last)
}

/// What a machine comes to after so many steps.
fn turn_after(telling: Telling, n: u64, machine: &mut Machine<'_>) -> Result<Turn, NoMemory> {
    match telling {
        Telling::StepByStep => step_by_step(machine, n),
        Telling::Reserved => reserved_steps(machine, n),
        _ => machine.run(n),
    }
}

/// Adds what is told of what a machine has come to.
fn add_outcome(
    told: &mut String,
    telling: Telling,
    machine: &Machine<'_>,
    turn: Turn,
    last: Place,
) -> Result<(), NoMemory> {
    match turn {
        Turn::Faulted(Fault::StackLeft, _) if telling == Telling::Lent => add_lent(told, machine),
        Turn::Ended if telling.is_text() => add_text(told, telling, machine),
        Turn::Faulted(fault, site) if is_named(telling, site, last) => add(told, fault.name()),
        _ => add_state(told, machine, turn),
    }
}

/// Whether a fault at a site is told by its name alone, where this is the place of the last token.
fn is_named(telling: Telling, site: Site, last: Place) -> bool {
    let entry = match telling {
        Telling::Fault | Telling::Kinds => Some(0),
        Telling::FaultWithoutEntry => None,
        _ => return false,
    };
    site == Site { place: last, entry }
}

/// Adds what is told of a run that has ended.
fn add_text(told: &mut String, telling: Telling, machine: &Machine<'_>) -> Result<(), NoMemory> {
    let text = text_of(*told.allocator(), telling, machine)?;
    match telling {
        Telling::Lengths => add_lengths(told, text.as_slice()),
        _ => add_bytes(told, text.as_slice()),
    }
}

/// The log or the lines of a machine.
fn text_of(alloc: Global, telling: Telling, machine: &Machine<'_>) -> Result<Vec<u8>, NoMemory> {
    match telling {
        Telling::Log => {
            let mut log = Vec::new(alloc);
            machine.add_log(&mut log)?;
            Ok(log)
        }
        _ => machine.lines(),
    }
}

/// Adds bytes, with `|` for the end of a line.
pub fn add_bytes(told: &mut String, bytes: &[u8]) -> Result<(), NoMemory> {
    for b in bytes {
        told.push(if *b == b'\n' { '|' } else { char::from(*b) })?;
    }
    Ok(())
}

/// Adds a text.
pub fn add(told: &mut String, text: &str) -> Result<(), NoMemory> {
    Ok(told.push_str(text)?)
}
