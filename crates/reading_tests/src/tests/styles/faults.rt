//! Texts that are no style, each with its fault.

use bst_parse::fault::StyleFault;
use bst_parse::parse::parse;
use bv_base::limits::STYLE_BYTES;
use bv_base::memory::NoMemory;
use bv_base::place::Place;
use std::alloc::Global;
use std::process::Abort;
use std::test::Fail;

/// Texts, and faults of commands and names.
const COMMANDS: &str = r#"
READ -> ReadBeforeEntry 1:1
INTEGERS{i} READ -> ReadBeforeEntry 1:13
FOO -> UnknownCommand 1:1
ENTRY{}{}{} READ X -> UnknownCommand 1:18
EXECUTE{skip$} -> CommandBeforeRead 1:1
ENTRY{}{}{} sort -> CommandBeforeRead 1:13
ENTRY{}{}{} ENTRY{}{}{} -> SecondEntry 1:13
ENTRY{}{}{} READ Entry -> SecondEntry 1:18
ENTRY{}{}{} READ READ -> SecondRead 1:18
ENTRY{}{}{} READ SORT read -> SecondRead 1:23
ENTRY{}{}{} READ MACRO{a}{"x"} -> MacroAfterRead 1:18
ENTRY{}{}{} READ SORT MACRO -> MacroAfterRead 1:23
ENTRY{}{}{} READ EXECUTE{sort.key$} -> NotCallable 1:26
ENTRY{T}{}{} READ iterate{t} -> NotCallable 1:27
ENTRY{}{}{} READ REVERSE{f} -> UnknownName 1:26
MACRO{a}{"x"} MACRO{a}{"y"} -> AlreadyDefined 1:21
MACRO{a}{"x"} MACRO{b}{""} MACRO{A}{"y"} -> AlreadyDefined 1:34
ENTRY{crossref}{}{} -> AlreadyDefined 1:7
STRINGS{a b A} -> AlreadyDefined 1:13
FUNCTION{skip$}{} -> AlreadyDefined 1:10
ENTRY{a,b}{}{} -> Expected 1:7 Name
FUNCTION{1a}{} -> Expected 1:10 Name
FUNCTION f -> Expected 1:10 OpenBrace
FUNCTION{f g}{} -> Expected 1:12 CloseBrace
MACRO{a}{b} -> Expected 1:10 Text
ENTRY{}{}{} READ EXECUTE{'skip$} -> Expected 1:26 Name
ENTRY{}{}{} { -> Expected 1:13 Name
"#;

/// Texts, and faults of bodies and lexemes.
const BODIES: &str = r#"
FUNCTION{f}{f} -> SelfUse 1:13
FUNCTION{f}{{skip$ 'F}} -> SelfUse 1:20
FUNCTION{f}{g} -> UnknownName 1:13
FUNCTION{f}{' } -> UnknownName 1:13
FUNCTION{f}{f{ -> StuffAfterToken 1:14
FUNCTION{f}{'{ -> StuffAfterToken 1:14
FUNCTION{f}{#} -> BadInteger 1:13
FUNCTION{f}{#2147483648} -> IntegerRange 1:13
FUNCTION{f}{#-2147483649} -> IntegerRange 1:13
FUNCTION{f}{#99999999999x} -> StuffAfterToken 1:25
FUNCTION{f}{"a -> NoEndQuote 1:13
ENTRY{}{} -> EndOfFile 1:10
FUNCTION{f}{{} % } -> EndOfFile 1:19
INTEGERS{ -> EndOfFile 1:10
STRINGS -> EndOfFile 1:8
MACRO{a}{"x" -> EndOfFile 1:13
ENTRY{}{}{} READ EXECUTE -> EndOfFile 1:25
ENTRY{}{}{} READ ITERATE{ -> EndOfFile 1:26
ENTRY{}{}{} READ REVERSE{skip$ -> EndOfFile 1:31
FUNCTION{f} -> EndOfFile 1:12
"#;

/// The same with bytes that aren't printed.
static CONTROLS: [(&[u8], &str); 4] = [
    (b"FUNCTION{f}{\"a\n\"}", "NoEndQuote 1:13"),
    (b"FUNCTION{f}{skip$\x01}", "IllegalByte 1:18"),
    (b"INTEGERS{a\x7f}", "IllegalByte 1:11"),
    (b"FUNCTION{f}{\n", "EndOfFile 2:1"),
];

#[test]
fn faults_of_commands_and_names(rt: HostRuntime) -> Result<(), Fail> {
    Ok(are_refused(&rt, rt.alloc(), COMMANDS)?)
}

#[test]
fn faults_of_bodies_and_lexemes(rt: HostRuntime) -> Result<(), Fail> {
    are_refused(&rt, rt.alloc(), BODIES)?;
    for (source, fault) in &CONTROLS {
        is_refused(&rt, rt.alloc(), source, fault)?;
    }
    Ok(())
}

/// The text of each row has the fault behind its arrow.
fn are_refused(rt: &impl Abort, alloc: Global, rows: &str) -> Result<(), NoMemory> {
    for row in rows.trim().lines() {
        let Some((source, fault)) = row.split_once(" -> ") else {
            panic!(rt; "a row without its fault");
        };
        is_refused(rt, alloc, source.as_bytes(), fault)?;
    }
    Ok(())
}

/// A text has a fault with this name and place. Of a lexeme that is another one, its shape is told too.
pub fn is_refused(
    rt: &impl Abort,
    alloc: Global,
    source: &[u8],
    fault: &str,
) -> Result<(), NoMemory> {
    assert!(rt; source.len() <= STYLE_BYTES);
    let mut told = String::new(alloc);
    add_fault(&mut told, parse(alloc, source).err())?;
    assert_eq!(rt; told.as_str(), fault);
    Ok(())
}

/// Adds the name and the place of a fault, if there is one.
fn add_fault(told: &mut String, fault: Option<StyleFault>) -> Result<(), NoMemory> {
    if let Some(fault) = fault {
        let (name, Place { line, column }) = (fault.name(), fault.place());
        write!(told, "{name} {line}:{column}")?;
        if let StyleFault::Expected(_, shape) = fault {
            write!(told, " {shape:?}")?;
        }
    }
    Ok(())
}
