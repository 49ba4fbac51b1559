//! Strings that are cut, and lines that are broken.

use crate::tests::rows::{FIRST, FIRST_END, Table, Telling, expect};
use bst_step::machine::{Machine, Page, Turn};
use bv_base::memory::NoMemory;
use std::test::Fail;

/// What stands before a body: a function that doubles a string, one that does so seven times, functions that give
/// strings of `a`, of `b` and of spaces with so many bytes, and one that writes such a string of `a`.
const BEFORE: &str =
    r#"d{ duplicate$ * } e{ d d d d d d d } cut{ 'i := e e d #1 i substring$ } a{ 'i := "a" i cut } b{ 'i := "b" i cut } sp{ 'i := "_" i cut } f{"#;

/// What is logged where strings of so many bytes are assigned, and then the length and the end of what the variable has.
const ASSIGNED_ROWS: &str = r#"
#250 a 's := s text.length$ top$ -> 250|
#251 a 's := s text.length$ top$ -> Warning--cut s to 250|250|
#249 a "b" * "c" * 's := s #-1 #2 substring$ top$ -> Warning--cut s to 250|ab|
#250 a 'sort.key$ := sort.key$ text.length$ top$ -> 250|
#20001 a 'sort.key$ := sort.key$ text.length$ top$ -> Warning--cut sort.key$ to 250|250|
#251 a 't := t text.length$ top$ -> 251|
#20000 a 't := t text.length$ top$ -> 20000|
#20001 a 't := t text.length$ top$ -> Warning--cut t to 20000|20000|
"xy" #19999 a * 't := t #1 #3 substring$ top$ t text.length$ top$ -> Warning--cut t to 20000|xya|20000|
#20001 a text.length$ top$ -> 20001|
% What the two limits read changes no size.
#9 'entry.max$ := #10 a 's := s text.length$ top$ -> 10|
#300 'entry.max$ := #251 a 's := s text.length$ top$ -> Warning--cut s to 250|250|
#9 'global.max$ := #10 a 't := t text.length$ top$ -> 10|
% A string that is cut twice is logged twice.
#251 a 's := #252 a 's := -> Warning--cut s to 250|Warning--cut s to 250|
"#;

#[test]
fn strings_are_cut_to_their_variables(rt: HostRuntime) -> Result<(), Fail> {
    told!(rt, BEFORE, FIRST, FIRST_END, Log, ASSIGNED_ROWS)
}

/// Lines that bodies write: each run of equal bytes as its length and the byte.
const LINES_ROWS: &str = r#"
newline$ -> |
"a" write$ ->
"a" write$ newline$ newline$ "b" write$ -> 1a||
"__a__" write$ newline$ -> 2 1a|
"_" write$ newline$ ->
"_" write$ newline$ "a" write$ newline$ -> 1a|
"" write$ newline$ -> |
% 79 bytes and 80, without white space.
#79 a write$ newline$ -> 79a|
#80 a write$ newline$ -> 80a|
#200 a write$ newline$ -> 200a|
% With white space in the middle.
#39 a "_" * #39 b * write$ newline$ -> 39a1 39b|
#40 a "_" * #39 b * write$ newline$ -> 40a|2 39b|
#40 a "_" * #40 b * write$ newline$ -> 40a|2 40b|
#40 a "___" * #40 b * write$ newline$ -> 40a|2 40b|
#40 a #9 int.to.chr$ * #40 b * write$ newline$ -> 40a|2 40b|
#40 a #10 int.to.chr$ * #40 b * write$ newline$ -> 40a|2 40b|
#40 a write$ "_" write$ #40 b write$ newline$ -> 40a|2 40b|
#40 a "_" * #40 b * "_" * #40 a * write$ newline$ -> 40a|2 40b|2 40a|
#20 a "_" * #20 a * "_" * #40 b * write$ newline$ -> 20a1 20a|2 40b|
% With white space at the first places, which are none to break at.
#2 a "_" * #77 b * write$ newline$ -> 2a1 77b|
#3 a "_" * #76 b * write$ newline$ -> 3a|2 76b|
#40 a "_" * #78 b * write$ newline$ -> 40a|2 78b|
% With white space from the eightieth byte on.
#79 a "_" * "b" * write$ newline$ -> 79a|2 1b|
#79 a "__" * "b" * write$ newline$ -> 79a|2 1b|
#79 a "_" * write$ newline$ -> 79a|
#80 a "_b_b" * write$ newline$ -> 80a|2 1b1 1b|
#90 a "_" * #90 b * write$ newline$ -> 90a|2 90b|
% With white space only, and before other bytes.
#80 sp write$ newline$ ->
#80 sp "b" * write$ newline$ -> |2 1b|
#200 sp write$ "b" write$ newline$ -> |2 1b|
"#;

#[test]
fn long_lines_are_broken_at_white_space(rt: HostRuntime) -> Result<(), Fail> {
    told!(rt, BEFORE, "", "} READ EXECUTE f", Lengths, LINES_ROWS)
}

/// Calls that leave long strings in variables and overwrite them, and what variables have afterwards.
const CALLS_ROWS: &str = r#"
#1500 a 't := } u{ #1500 b 't := } p{ t write$ newline$ } READ EXECUTE f EXECUTE p EXECUTE u EXECUTE p EXECUTE p -> 1500a|1500b|1500b|
#1500 a 't := } q{ #9 b 's := } p{ s write$ newline$ t #2 #3 substring$ write$ } READ EXECUTE f ITERATE q EXECUTE f REVERSE p -> 9b|3a9b|3a9b|3a9b|3a9b|
#1500 a 't := t #3 #5 substring$ 's := } u{ s t * 't := } p{ s write$ t text.length$ int.to.str$ write$ newline$ } READ ITERATE f ITERATE u SORT ITERATE p -> 5a11151215|5a11151215|5a11151215|5a11151215|5a11151215|
"#;

#[test]
fn strings_stay_from_call_to_call(rt: HostRuntime) -> Result<(), Fail> {
    told!(rt, BEFORE, "", "", Lengths, CALLS_ROWS)
}

#[test]
fn lines_that_are_taken_out_in_parts_are_the_same(rt: HostRuntime) -> Result<(), Fail> {
    told!(rt, BEFORE, "", "} READ EXECUTE f", InParts, LINES_ROWS)?;
    told!(rt, BEFORE, "", "", InParts, CALLS_ROWS)
}

/// Adds the runs of equal bytes of lines that are taken out of a machine after every three steps of so many.
pub fn add_parts(told: &mut String, n: u64, machine: &mut Machine<'_>) -> Result<(), NoMemory> {
    let alloc = *told.allocator();
    let mut lines = Vec::new(alloc);
    let mut page = Page::new(alloc);
    for _ in 0..n {
        let turn = machine.run(3)?;
        machine.write_to(&mut page)?;
        lines.extend_from_slice(page.text())?;
        page.clear_text();
        if turn != Turn::Went {
            break;
        }
    }
    lines.extend_from_slice(page.finish()?.as_slice())?;
    add_lengths(told, lines.as_slice())
}

/// Adds the runs of equal bytes of lines.
pub fn add_lengths(told: &mut String, lines: &[u8]) -> Result<(), NoMemory> {
    let mut last = b'\n';
    let mut count = 0u32;
    for b in lines {
        if *b != last {
            add_length(told, count, last)?;
            count = 0;
        }
        last = *b;
        if last == b'\n' {
            told.push('|')?;
        } else {
            count = count.saturating_add(1);
        }
    }
    add_length(told, count, last)
}

/// Adds a run of equal bytes, where there is one.
fn add_length(told: &mut String, count: u32, byte: u8) -> Result<(), NoMemory> {
    if count > 0 {
        let byte = char::from(byte);
        write!(told, "{count}{byte}")?;
    }
    Ok(())
}
