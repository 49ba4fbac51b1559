//! The operands of the built-in functions, their faults, and what they give.

use crate::tests::rows::{ENOUGH, FIRST, FIRST_END, Table, Telling, add, add_after, expect};
use bv_base::memory::NoMemory;
use std::alloc::Global;
use std::test::Fail;

/// What stands before a body: a function that doubles a string, one that does so seven times, and the type `book`.
const BEFORE: &str = r#"d{ duplicate$ * } e{ d d d d d d d } book{ "called" top$ } f{"#;

/// Built-in functions with fewer operands than they take, which are of a kind that few take.
const SHORT_ROWS: &str = r#"
= -> EmptyPop
crossref = -> EmptyPop
> -> EmptyPop
crossref > -> EmptyPop
< -> EmptyPop
crossref < -> EmptyPop
+ -> EmptyPop
crossref + -> EmptyPop
- -> EmptyPop
crossref - -> EmptyPop
* -> EmptyPop
crossref * -> EmptyPop
:= -> EmptyPop
crossref := -> EmptyPop
add.period$ -> EmptyPop
change.case$ -> EmptyPop
crossref change.case$ -> EmptyPop
chr.to.int$ -> EmptyPop
duplicate$ -> EmptyPop
empty$ -> EmptyPop
format.name$ -> EmptyPop
crossref format.name$ -> EmptyPop
crossref crossref format.name$ -> EmptyPop
if$ -> EmptyPop
crossref if$ -> EmptyPop
crossref crossref if$ -> EmptyPop
int.to.chr$ -> EmptyPop
int.to.str$ -> EmptyPop
missing$ -> EmptyPop
num.names$ -> EmptyPop
pop$ -> EmptyPop
purify$ -> EmptyPop
substring$ -> EmptyPop
crossref substring$ -> EmptyPop
crossref crossref substring$ -> EmptyPop
swap$ -> EmptyPop
crossref swap$ -> EmptyPop
text.length$ -> EmptyPop
text.prefix$ -> EmptyPop
crossref text.prefix$ -> EmptyPop
top$ -> EmptyPop
warning$ -> EmptyPop
while$ -> EmptyPop
crossref while$ -> EmptyPop
width$ -> EmptyPop
write$ -> EmptyPop
"#;

#[test]
fn too_few_operands_come_before_their_kinds(rt: HostRuntime) -> Result<(), Fail> {
    told!(rt, BEFORE, "", "} READ ITERATE f", Fault, SHORT_ROWS)
}

/// The built-in functions with `?` for one of their operands, and which it may be: `#` an integer, `"` a string, `m` a
/// missing field, `'` a function.
const KINDS_ROWS: &str = r#"
? #1 = -> #
#1 ? = -> #
? "t" = -> "
"t" ? = -> "
? crossref = ->
? 'skip$ = ->
? #1 > -> #
#1 ? > -> #
? #1 < -> #
#1 ? < -> #
? #1 + -> #
#1 ? + -> #
? #1 - -> #
#1 ? - -> #
? "t" * -> "
"t" ? * -> "
#1 ? := -> '
crossref ? := -> '
? 'i := -> #
? 't := -> "
? 'n := -> #
? 's := -> "
? 'sort.key$ := -> "
? 'entry.max$ := -> #
? add.period$ -> "
? "t" change.case$ -> "
"t" ? change.case$ -> "
? chr.to.int$ -> "
? duplicate$ -> #"m'
? empty$ -> "m
? #1 "t" format.name$ -> "
"t" ? "t" format.name$ -> #
"t" #1 ? format.name$ -> "
? 'skip$ 'skip$ if$ -> #
#1 ? 'skip$ if$ -> '
#1 'skip$ ? if$ -> '
? int.to.chr$ -> #
? int.to.str$ -> #
? missing$ -> "m
? num.names$ -> "
? pop$ -> #"m'
? purify$ -> "
? #1 #1 substring$ -> "
"t" ? #1 substring$ -> #
"t" #1 ? substring$ -> #
? #1 swap$ -> #"m'
#1 ? swap$ -> #"m'
? text.length$ -> "
? #1 text.prefix$ -> "
"t" ? text.prefix$ -> #
? top$ -> #"m'
? warning$ -> "
? 'skip$ while$ -> '
{ #0 } ? while$ -> '
? width$ -> "
? write$ -> "
"#;

#[test]
fn operands_are_of_their_kinds(rt: HostRuntime) -> Result<(), Fail> {
    told!(rt, BEFORE, "", "} READ ITERATE f", Kinds, KINDS_ROWS)
}

/// The kinds of operands, each with one of them.
static OPERANDS: [(&str, &str); 4] = [
    ("#", "#1"),
    ("\"", "\"t\""),
    ("m", "crossref"),
    ("'", "{ #0 }"),
];

/// Adds the kinds that an operand may be, which stands at the `?`: those for which the fault isn't WrongKind.
pub fn add_kinds(told: &mut String, table: &Table, words: &str) -> Result<(), NoMemory> {
    for (kind, operand) in &OPERANDS {
        add_kind(told, table, kind, operand, words)?;
    }
    Ok(())
}

/// Adds a kind, unless the fault with such an operand is WrongKind.
fn add_kind(
    told: &mut String,
    table: &Table,
    kind: &str,
    operand: &str,
    words: &str,
) -> Result<(), NoMemory> {
    if is_wrong_kind(*told.allocator(), table, operand, words)? {
        return Ok(());
    }
    add(told, kind)
}

/// Whether the fault with such an operand is WrongKind.
fn is_wrong_kind(
    alloc: Global,
    table: &Table,
    operand: &str,
    words: &str,
) -> Result<bool, NoMemory> {
    let mut fault = String::new(alloc);
    add_fault_with(&mut fault, table, operand, words)?;
    Ok(fault.as_str() == "WrongKind")
}

/// Adds the fault with an operand.
fn add_fault_with(
    fault: &mut String,
    table: &Table,
    operand: &str,
    words: &str,
) -> Result<(), NoMemory> {
    let (before, behind) = words.split_once("?").unwrap_or((words, ""));
    let body = format!(in *fault.allocator(); "{before}{operand}{behind}")?;
    add_after(fault, table, ENOUGH, body.as_bytes())
}

/// The further faults, each of the last token.
const FURTHER_ROWS: &str = r#"
% The order of the faults of an assignment.
#1 'skip$ := -> NotVariable
#1 'title := -> NotVariable
#1 'crossref := -> NotVariable
#1 'book := -> NotVariable
#1 { } := -> NotVariable
crossref { } := -> NotVariable
"t" 'pop$ := -> NotVariable
crossref crossref := -> WrongKind
% Strings and integers out of bounds.
"A" "" change.case$ -> BadCase
"A" "x" change.case$ -> BadCase
"" "tt" change.case$ -> BadCase
"A" "_" change.case$ -> BadCase
#1 "x" change.case$ -> WrongKind
"" chr.to.int$ -> NotOneByte
"ab" chr.to.int$ -> NotOneByte
"é" chr.to.int$ -> NotOneByte
#-1 int.to.chr$ -> NotAscii
#128 int.to.chr$ -> NotAscii
#256 int.to.chr$ -> NotAscii
#2147483647 int.to.chr$ -> NotAscii
#-2147483648 int.to.chr$ -> NotAscii
% Names and patterns.
"A_and_B" #0 "{ff}" format.name$ -> BadNameIndex
"A_and_B" #3 "{ff}" format.name$ -> BadNameIndex
"A_and_B" #-1 "{ff}" format.name$ -> BadNameIndex
"" #1 "{ff}" format.name$ -> BadNameIndex
"A," #2 "{" format.name$ -> BadNameIndex
"A" #0 "{" format.name$ -> BadNameIndex
"A,B,C,D" #1 "{ff}" format.name$ -> BadName
"A," #1 "{ff}" format.name$ -> BadName
"A_and_B,_~" #2 "{ff}" format.name$ -> BadName
"A," #1 "{" format.name$ -> BadName
"A" #1 "{" format.name$ -> BadPattern
"A" #1 "}" format.name$ -> BadPattern
"A" #1 "}{" format.name$ -> BadPattern
"A" #1 "{fv}" format.name$ -> BadPattern
"A" #1 "{a}" format.name$ -> BadPattern
"A" #1 "{f1f}" format.name$ -> BadPattern
"A" #1 "{fff}" format.name$ -> BadPattern
#1 #1 "{" format.name$ -> WrongKind
% Results out of bounds.
#2147483647 #1 + -> IntRange
#1 #2147483647 + -> IntRange
#-2147483648 #-1 + -> IntRange
#-2147483648 #1 - -> IntRange
#2147483647 #-1 - -> IntRange
#0 #-2147483648 - -> IntRange
"W" e e e width$ -> IntRange
crossref #1 + -> WrongKind
"#;

#[test]
fn built_ins_have_their_further_faults(rt: HostRuntime) -> Result<(), Fail> {
    told!(rt, BEFORE, "", "} READ ITERATE f", Fault, FURTHER_ROWS)
}

/// The faults of last tokens where no entry is visited.
const WITHOUT_ENTRY_ROWS: &str = r#"
% The order of the faults of an assignment.
#1 'n := -> NoEntry
"t" 's := -> NoEntry
"t" 'sort.key$ := -> NoEntry
"t" 'n := -> NoEntry
#1 's := -> NoEntry
% Names that want an entry.
title -> NoEntry
crossref -> NoEntry
n -> NoEntry
s -> NoEntry
sort.key$ -> NoEntry
call.type$ -> NoEntry
cite$ -> NoEntry
type$ -> NoEntry
"#;

#[test]
fn some_names_want_an_entry(rt: HostRuntime) -> Result<(), Fail> {
    told!(
        rt,
        BEFORE,
        "",
        "} READ EXECUTE f",
        FaultWithoutEntry,
        WITHOUT_ENTRY_ROWS
    )
}

/// What bodies log for the first entry.
const LOGGED_ROWS: &str = r#"
#2 #2 = top$ -> 1|
#2 #-2 = top$ -> 0|
"a" "a" = top$ -> 1|
"a" "A" = top$ -> 0|
#2 #1 > top$ -> 1|
#2 #2 > top$ -> 0|
#-2147483648 #2147483647 < top$ -> 1|
#2 #2 < top$ -> 0|
#2147483646 #1 + top$ -> 2147483647|
#2 #5 - top$ -> -3|
#-2147483647 #1 - top$ -> -2147483648|
"a" "b" * top$ -> ab|
% Variables, as they open and assigned.
i top$ t top$ n top$ s top$ sort.key$ top$ -> 0||0|||
entry.max$ top$ global.max$ top$ -> 250|20000|
#5 'i := i top$ -> 5|
"x" 't := t top$ -> x|
#7 'n := n top$ -> 7|
"y" 's := s top$ -> y|
"z" 'sort.key$ := sort.key$ top$ -> z|
#9 'entry.max$ := entry.max$ top$ -> 9|
title top$ crossref top$ -> b|missing crossref|
% Texts.
"Hi}" add.period$ top$ -> Hi}.|
"Hi.}" add.period$ top$ -> Hi.}|
"" add.period$ top$ -> |
"The_{TeX}book:_A_Guide" "t" change.case$ top$ -> The {TeX}book: A guide|
"The_{TeX}book:_A_Guide" "U" change.case$ top$ -> THE {TeX}BOOK: A GUIDE|
"{\OE}uvre" "l" change.case$ top$ -> {\oe}uvre|
"{\ss}x" "u" change.case$ top$ -> {SS}X|
"a" chr.to.int$ top$ -> 97|
"^" chr.to.int$ top$ -> 255|
#127 int.to.chr$ chr.to.int$ top$ -> 127|
#0 int.to.chr$ text.length$ top$ -> 1|
#-7 int.to.str$ "!" * top$ -> -7!|
"" empty$ top$ -> 1|
"__" empty$ top$ -> 1|
"a" empty$ top$ -> 0|
crossref empty$ top$ -> 1|
crossref missing$ top$ -> 1|
"" missing$ top$ -> 0|
"{\'E}cole_{TeX}-x" purify$ top$ -> Ecole TeX x|
quote$ top$ -> "|
"abcdef" #2 #3 substring$ top$ -> bcd|
"abcdef" #-1 #2 substring$ top$ -> ef|
"abcdef" #-2 #3 substring$ top$ -> cde|
"abcdef" #7 #1 substring$ top$ -> |
"abcdef" #-7 #1 substring$ top$ -> |
"abcdef" #-6 #9 substring$ top$ -> a|
"abcdef" #0 #9 substring$ top$ -> |
"abcdef" #2 #-1 substring$ top$ -> |
"abcdef" #5 #2147483647 substring$ top$ -> ef|
"abcdef" #-2147483648 #1 substring$ top$ -> |
"{\'E}cole" text.length$ top$ -> 5|
"{TeX}" text.length$ top$ -> 3|
"{\'E}cole" #2 text.prefix$ top$ -> {\'E}c|
"{TeX}book" #2 text.prefix$ top$ -> {Te}|
"ab" #-1 text.prefix$ top$ -> |
"ab" width$ top$ -> 1056|
"{\ss}" width$ top$ -> 500|
"{\'E}" width$ top$ -> 681|
"{a}" width$ top$ -> 1500|
"W" e e d d d d d d width$ top$ -> 1077936128|
% Names.
"A_and_B" num.names$ top$ -> 2|
"A_AND_{B_and_C}" num.names$ top$ -> 2|
"A_and_and_B" num.names$ top$ -> 3|
"" num.names$ top$ -> 0|
"Ann_Lee_and_B," #1 "{ff~}{ll}" format.name$ top$ -> Ann Lee|
"A,_and_Bo_Ray" #2 "{ff~}{ll}" format.name$ top$ -> Bo~Ray|
"A" #1 "x" format.name$ top$ -> x|
% Entries.
cite$ top$ type$ top$ preamble$ top$ -> A1|book|Preamble|
call.type$ -> called|
% Moves and the log.
#1 #2 swap$ stack$ -> 1|2|
#1 duplicate$ stack$ -> 1|1|
crossref duplicate$ stack$ -> missing crossref|missing crossref|
#1 #2 pop$ top$ -> 1|
skip$ stack$ #3 top$ -> 3|
'skip$ 'title 'book stack$ -> function book|function title|function skip$|
{ { } pop$ } pop$ { } top$ -> block 3|
#-5 "a_b" crossref { } stack$ -> block 1|missing crossref|a b|-5|
"w" warning$ "" warning$ -> Warning--w|Warning--|
% Functions that are entered.
#1 { #5 } { #6 } if$ top$ -> 5|
#0 { #5 } { #6 } if$ top$ -> 6|
#-1 { #5 } { #6 } if$ top$ -> 6|
#1 'cite$ 'skip$ if$ top$ -> A1|
#3 'i := { i } { i top$ i #1 - 'i := } while$ -> 3|2|1|
#0 'i := { i } { i top$ } while$ "end" top$ -> end|
#1 'i := 'i { i top$ #0 'i := } while$ i top$ -> 1|0|
"#;

#[test]
fn built_ins_give_their_values(rt: HostRuntime) -> Result<(), Fail> {
    told!(rt, BEFORE, FIRST, FIRST_END, Log, LOGGED_ROWS)
}
