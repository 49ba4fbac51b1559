//! Which strings are lent.

use crate::tests::entries::titled;
use crate::tests::program::{add_words, empty_style};
use crate::tests::rows::{Table, Telling, add, add_bytes, expect};
use bst_step::machine::Machine;
use bv_base::memory::NoMemory;
use entry_store::entry::EntryList;
use name_table::style::Style;
use std::alloc::Global;
use std::process::Abort;
use std::test::Fail;

/// Bodies for the first entry, and the values that they leave, the top first.
const LENT_ROWS: &str = r#"
"a" "b" -> [b] [a] -
"a" "b" * -> - - -
title -> [b] - -
cite$ -> [A1] - -
type$ -> [] - -
preamble$ -> [Preamble] - -
quote$ -> ["] - -
% No string.
#1 'skip$ crossref -> - - -
% A part has the mark of its string, and what is moved, doubled or assigned keeps its own.
"abc" #2 #1 substring$ -> [b] - -
"a" "b" * #1 #1 substring$ -> - - -
"a" duplicate$ -> [a] [a] -
"a" "b" * duplicate$ "c" -> [c] - -
"a" "b" swap$ -> [a] [b] -
"a" 't := t "b" 's := s -> [b] [a] -
"a" "b" * 't := t t 's := s "c" -> [c] - -
s t -> [] [] -
% Every other result is made.
"a" add.period$ "a" purify$ "a" "u" change.case$ -> - - -
"A" #1 "{ff}" format.name$ "a" #1 text.prefix$ #97 int.to.chr$ -> - - -
#1 int.to.str$ -> - - -
"#;

#[test]
fn strings_are_lent_or_made(rt: HostRuntime) -> Result<(), Fail> {
    told!(rt, "", "f{", "} READ ITERATE f", Lent, LENT_ROWS)
}

/// Adds the three topmost values: the bytes of those that are lent strings, and else `-`.
pub fn add_lent(told: &mut String, machine: &Machine<'_>) -> Result<(), NoMemory> {
    for depth in 0..3 {
        match machine.lent(depth) {
            Some(bytes) => add_bracketed(told, bytes)?,
            None => add(told, "- ")?,
        }
    }
    Ok(())
}

/// Adds bytes between brackets.
fn add_bracketed(told: &mut String, bytes: &[u8]) -> Result<(), NoMemory> {
    add(told, "[")?;
    add_bytes(told, bytes)?;
    add(told, "] ")
}

/// How many bytes the title of an entry has.
const LENGTH: usize = 10000;

/// A field of 10000 bytes is lent twice where it is doubled, while there is room for three steps and memory is taken for no
/// copy, and what is lent outlives the machine.
#[test]
fn a_field_is_lent_twice(rt: HostRuntime) -> Result<(), Fail> {
    let alloc = rt.alloc();
    let mut title = Vec::new(alloc);
    for _ in 0..LENGTH {
        title.push(b'x')?;
    }
    let list = titled(alloc, title.as_slice())?;
    let style = doubling_style(alloc)?;
    let lent = lent_by(&rt, alloc, &style, &list)?;
    assert_eq!(rt; lent, Some(title.as_slice()));
    Ok(())
}

/// A style that doubles a title.
fn doubling_style(alloc: Global) -> Result<Style, NoMemory> {
    let mut style = empty_style(alloc)?;
    add_words(
        alloc,
        &mut style,
        &Table {
            functions: "",
            front: "",
            back: "",
            telling: Telling::State,
            rows: "",
        },
        b"f{ title duplicate$ missing$ 'pop$ 'write$ if$ } READ ITERATE f",
    )?;
    Ok(style)
}

/// What is lent twice by a machine that has doubled a title.
fn lent_by<'a>(
    rt: &impl Abort,
    alloc: Global,
    style: &'a Style,
    list: &'a EntryList,
) -> Result<Option<&'a [u8]>, NoMemory> {
    let mut machine = Machine::new(alloc, style, list)?;
    machine.run(3)?;
    machine.reserve(3)?;
    machine.step()?;
    machine.step()?;
    let lent = machine.lent(0);
    assert_eq!(rt; machine.lent(1), lent);
    assert_eq!(rt; machine.lent(2), None);
    machine.step()?;
    Ok(lent)
}
