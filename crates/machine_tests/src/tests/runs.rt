//! How many steps runs take, and in which order they visit entries.

use crate::tests::rows::{Table, Telling, add, add_bytes, expect};
use bst_step::machine::{Machine, Site, Turn};
use bv_base::memory::NoMemory;
use std::test::Fail;

/// Numbers of steps, styles of one line, what they come to, and the lines that are written then.
const STEPS: &str = r#"
0 -> ends
1 -> ends
0 f{ } -> ends
0 READ -> goes on
1 READ -> ends
1 READ SORT -> goes on
2 READ SORT -> ends
0 f{ "a" "b" * write$ newline$ } READ EXECUTE f -> goes on
7 f{ "a" "b" * write$ newline$ } READ EXECUTE f -> goes on
8 f{ "a" "b" * write$ newline$ } READ EXECUTE f -> goes on ab|
10 f{ "a" "b" * write$ newline$ } READ EXECUTE f -> goes on ab|
11 f{ "a" "b" * write$ newline$ } READ EXECUTE f -> ends ab|
12 f{ "a" "b" * write$ newline$ } READ EXECUTE f -> ends ab|
5 f{ #1 pop$ pop$ } READ EXECUTE f -> goes on
6 f{ #1 pop$ pop$ } READ EXECUTE f -> EmptyPop 1:12
7 f{ #1 pop$ pop$ } READ EXECUTE f -> EmptyPop 1:12
6 f{ #1 } READ EXECUTE f -> goes on
7 f{ #1 } READ EXECUTE f -> StackLeft 1:14
8 f{ #1 } READ EXECUTE f -> StackLeft 1:14
22 f{ #1 'i := { i #0 'i := } { } while$ } READ EXECUTE f -> goes on
23 f{ #1 'i := { i #0 'i := } { } while$ } READ EXECUTE f -> ends
12 g{ } f{ #1 'g 'skip$ if$ } READ EXECUTE f -> goes on
13 g{ } f{ #1 'g 'skip$ if$ } READ EXECUTE f -> ends
10 f{ #1 { } 'skip$ if$ } READ EXECUTE f -> goes on
11 f{ #1 { } 'skip$ if$ } READ EXECUTE f -> ends
10 f{ { #0 } { } while$ } READ EXECUTE f -> goes on
11 f{ { #0 } { } while$ } READ EXECUTE f -> ends
26 f{ } READ ITERATE f -> goes on
27 f{ } READ ITERATE f -> ends
21 READ REVERSE skip$ -> goes on
22 READ REVERSE skip$ -> ends
41 f{ call.type$ } READ ITERATE f -> goes on
42 f{ call.type$ } READ ITERATE f -> ends
31 READ f{ pop$ } book{ pop$ } ITERATE call.type$ -> goes on
32 READ f{ pop$ } book{ pop$ } ITERATE call.type$ -> ends
1000 f{ "a" "b" * write$ newline$ } READ EXECUTE f -> ends ab|
"#;

/// Numbers of steps, and what runs come to by them.
#[test]
fn runs_take_so_many_steps(rt: HostRuntime) -> Result<(), Fail> {
    told!(rt, "", "", "", Steps, STEPS)
}

/// The same with one step at a time.
#[test]
fn single_steps_come_to_the_same(rt: HostRuntime) -> Result<(), Fail> {
    told!(rt, "", "", "", StepByStep, STEPS)
}

/// The same where room was made for each step.
#[test]
fn steps_with_room_come_to_the_same(rt: HostRuntime) -> Result<(), Fail> {
    told!(rt, "", "", "", Reserved, STEPS)
}

/// So many steps, one by one, each of which room was made for.
pub fn reserved_steps(machine: &mut Machine<'_>, n: u64) -> Result<Turn, NoMemory> {
    let mut turn = machine.run(0)?;
    for _ in 0..n {
        machine.reserve(40)?;
        turn = machine.step()?;
    }
    Ok(turn)
}

/// So many steps, one by one.
pub fn step_by_step(machine: &mut Machine<'_>, n: u64) -> Result<Turn, NoMemory> {
    let mut turn = machine.run(0)?;
    for _ in 0..n {
        turn = machine.step()?;
    }
    Ok(turn)
}

/// Adds what a machine has come to, and the lines that it has written.
pub fn add_state(told: &mut String, machine: &Machine<'_>, turn: Turn) -> Result<(), NoMemory> {
    add_turn(told, machine, turn)?;
    add_lines(told, machine)
}

/// Adds that a machine goes on, that it ends, or its fault.
fn add_turn(told: &mut String, machine: &Machine<'_>, turn: Turn) -> Result<(), NoMemory> {
    match turn {
        Turn::Went => add(told, "goes on "),
        Turn::Ended => add(told, "ends "),
        Turn::Faulted(fault, site) => add_fault(told, machine, fault.name(), site),
    }
}

/// Adds a fault, its place, and its entry's number and key.
fn add_fault(
    told: &mut String,
    machine: &Machine<'_>,
    fault: &str,
    site: Site,
) -> Result<(), NoMemory> {
    let (line, column) = (site.place.line, site.place.column);
    write!(told, "{fault} {line}:{column} ")?;
    match site.entry {
        Some(entry) => add_entry(told, entry, machine.key(entry)),
        None => Ok(()),
    }
}

/// Adds an entry's number and key.
fn add_entry(told: &mut String, entry: u64, key: &[u8]) -> Result<(), NoMemory> {
    write!(told, "{entry} ")?;
    add_bytes(told, key)?;
    add(told, " ")
}

/// Adds the lines that a machine has written.
fn add_lines(told: &mut String, machine: &Machine<'_>) -> Result<(), NoMemory> {
    let lines = machine.lines()?;
    add_bytes(told, lines.as_slice())
}

/// Functions that give the entries sort keys, and one that writes the key of an entry.
const KEYS: &str =
    r#"title.key{ title missing$ { "" } { title } if$ 'sort.key$ := } no.key{ "" 'sort.key$ := } cite.key{ cite$ 'sort.key$ := } w{ cite$ write$ }"#;

/// Commands, and the line of keys that they write.
const ORDERS_ROWS: &str = r#"
READ ITERATE w -> A1B2C3D4E5|
READ REVERSE w -> E5D4C3B2A1|
READ ITERATE w REVERSE w -> A1B2C3D4E5E5D4C3B2A1|
READ SORT ITERATE w -> A1B2C3D4E5|
% Bytes decide, and equal keys keep their order.
READ ITERATE title.key SORT ITERATE w -> B2E5C3A1D4|
READ ITERATE title.key SORT REVERSE w -> D4A1C3E5B2|
READ SORT REVERSE title.key ITERATE w -> A1B2C3D4E5|
READ ITERATE title.key SORT SORT ITERATE w -> B2E5C3A1D4|
% A second SORT sorts what the first has left.
READ ITERATE title.key SORT ITERATE no.key SORT ITERATE w -> B2E5C3A1D4|
READ ITERATE title.key SORT ITERATE cite.key SORT ITERATE w -> A1B2C3D4E5|
"#;

#[test]
fn entries_are_visited_in_the_order_of_the_list(rt: HostRuntime) -> Result<(), Fail> {
    told!(rt, KEYS, "", "EXECUTE newline$", Lines, ORDERS_ROWS)
}
