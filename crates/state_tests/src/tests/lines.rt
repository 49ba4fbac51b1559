//! The lines of tables: whether what comes of each is what is wanted, and what a state says that another doesn't.

use crate::tests::reading::{Unread, halves};
use bv_base::memory::NoMemory;
use lin_facts::row::{Row, Term};
use name_table::names::NameId;
use std::alloc::Global;
use std::fmt::Debug;
use std::process::Abort;
use sym_state::demand::EffectFault;
use sym_state::state::State;
use sym_state::subject;
use sym_state::symbol::Fact;

/// What has an answer to what is given.
pub trait Answers {
    /// Adds what comes of what is given.
    fn add_answer(&self, line: &mut String, given: &'static str) -> Result<(), Unread>;
}

/// Whether what comes of each row is what is wanted.
pub fn compare(rt: &impl Abort, alloc: Global, asked: &impl Answers, rows: &[&'static str]) {
    for row in rows {
        compare_row(rt, alloc, asked, row);
    }
}

fn compare_row(rt: &impl Abort, alloc: Global, asked: &impl Answers, row: &'static str) {
    let mut line = String::new(alloc);
    let (given, want) = halves(row, " => ");
    match asked.add_answer(&mut line, given) {
        Ok(()) => assert_eq!(rt; line.as_str(), want, "{row}"),
        Err(fault) => assert!(rt; false, "{row}: {fault:?}"),
    }
}

/// What a line says in words of its own.
trait Said: Debug {
    fn say(&self, line: &mut String) -> Result<(), NoMemory>;
}

/// Adds the stack of a state, and what isn't as it was before: each fact, row and name that didn't stand at its place, and
/// that there are fewer.
pub fn add_state(line: &mut String, before: &State, after: &State) -> Result<(), NoMemory> {
    add_stack(line, after)?;
    add_setting(line, before, after)?;
    add_facts(line, before, after)?;
    add_rows(line, before, after)?;
    add_binds(line, before, after)
}

/// Adds why a state has no effect.
pub fn add_fault(line: &mut String, fault: EffectFault) -> Result<(), NoMemory> {
    match fault {
        EffectFault::Demand(demand) => {
            let (kind, operand) = (demand.kind, demand.operand);
            write!(line, "{kind:?} {operand}")?;
        }
        _ => write!(line, "{fault:?}")?,
    }
    Ok(())
}

/// Adds whether something is so.
pub fn add_truth(line: &mut String, is_so: bool) -> Result<(), Unread> {
    Ok(write!(line, "{is_so}")?)
}

/// Adds how many hints are left of those that were given: where there is an answer if any are, else if any were taken.
pub fn add_left(line: &mut String, is_ok: bool, given: usize, left: usize) -> Result<(), NoMemory> {
    if left != if is_ok { 0 } else { given } {
        write!(line, "; {left} left")?;
    }
    Ok(())
}

fn add_stack(line: &mut String, state: &State) -> Result<(), NoMemory> {
    let known = state.stack_len();
    if known == 0 {
        line.push_str("empty")?;
    }
    for k in 0..known {
        if let Some(sym) = state.at(known - 1 - k) {
            let (space, s) = (if k == 0 { "" } else { " " }, sym.0);
            write!(line, "{space}{s}")?;
        }
    }
    Ok(())
}

fn add_setting(line: &mut String, before: &State, after: &State) -> Result<(), NoMemory> {
    let (whole, at_entry, next) = (after.is_whole(), after.is_at_entry(), after.next());
    if whole != before.is_whole() {
        write!(line, "; whole {whole}")?;
    }
    if at_entry != before.is_at_entry() {
        write!(line, "; at an entry {at_entry}")?;
    }
    if next != before.next() {
        write!(line, "; next {next}")?;
    }
    Ok(())
}

fn add_facts(line: &mut String, before: &State, after: &State) -> Result<(), NoMemory> {
    for k in 0..after.facts() {
        add_new(line, before.fact(k), after.fact(k))?;
    }
    add_fewer(line, before.facts(), after.facts())
}

fn add_rows(line: &mut String, before: &State, after: &State) -> Result<(), NoMemory> {
    for k in 0..after.rows() {
        add_new(line, before.row(k), after.row(k))?;
    }
    add_fewer(line, before.rows(), after.rows())
}

/// Adds the names of the style of these tests that are bound to other symbols than before.
fn add_binds(line: &mut String, before: &State, after: &State) -> Result<(), NoMemory> {
    for id in 37..43 {
        if let Some(sym) = after.bound(NameId(id)) {
            if before.bound(NameId(id)) != Some(sym) {
                let s = sym.0;
                write!(line, "; {id}={s}")?;
            }
        }
    }
    Ok(())
}

/// Adds an item where another stood before, or none did.
fn add_new<T: Said>(
    line: &mut String,
    before: Option<&T>,
    after: Option<&T>,
) -> Result<(), NoMemory> {
    let Some(item) = after else {
        return Ok(());
    };
    if !looks_like(line, item, before)? {
        line.push_str("; ")?;
        item.say(line)?;
    }
    Ok(())
}

/// Adds that there are fewer than before.
fn add_fewer(line: &mut String, before: u64, after: u64) -> Result<(), NoMemory> {
    if after < before {
        line.push_str("; fewer")?;
    }
    Ok(())
}

/// Whether two items are printed alike.
fn looks_like<T: Debug>(line: &String, one: &T, other: Option<&T>) -> Result<bool, NoMemory> {
    let Some(other) = other else {
        return Ok(false);
    };
    let alloc = *line.allocator();
    Ok(format!(in alloc; "{one:?}")?.as_str() == format!(in alloc; "{other:?}")?.as_str())
}

impl Said for Fact {
    fn say(&self, line: &mut String) -> Result<(), NoMemory> {
        let (word, s) = (word_of(self), subject(self).0);
        write!(line, "{word} {s}")?;
        match self {
            Fact::Is(_, kind) => write!(line, " {kind:?}")?,
            Fact::Int(_, n) => write!(line, " {n}")?,
            Fact::Text(_, text) => {
                let bytes = text.as_slice();
                write!(line, " {bytes:?}")?
            }
            Fact::Call(_, NameId(number)) | Fact::Block(_, number) => write!(line, " {number}")?,
            _ => {}
        }
        Ok(())
    }
}

fn word_of(fact: &Fact) -> &'static str {
    match fact {
        Fact::Is(..) => "is",
        Fact::Int(..) => "int",
        Fact::Text(..) => "text",
        Fact::Call(..) => "call",
        Fact::Block(..) => "block",
        Fact::Blank(_) => "blank",
        Fact::Nonblank(_) => "nonblank",
        Fact::Wellformed(_) => "wellformed",
    }
}

impl Said for Row {
    /// The constant, and the terms of older symbols before those of newer ones.
    fn say(&self, line: &mut String) -> Result<(), NoMemory> {
        let constant = self.constant;
        write!(line, "{constant}")?;
        for s in 0..100 {
            add_terms(line, self, s)?;
        }
        Ok(())
    }
}

/// Adds the terms of one symbol.
fn add_terms(line: &mut String, row: &Row, s: u32) -> Result<(), NoMemory> {
    for part in row.parts.as_slice() {
        let (letter, symbol) = letter_of(part.term);
        let times = part.coefficient;
        if symbol == s {
            write!(line, " {times}{letter}{s}")?;
        }
    }
    Ok(())
}

fn letter_of(term: Term) -> (&'static str, u32) {
    match term {
        Term::Value(s) => ("v", s),
        Term::Length(s) => ("l", s),
        Term::Names(s) => ("n", s),
        Term::Pos => ("p", 0),
        Term::Count => ("c", 0),
    }
}
