//! Lexemes and faults of small sources, worked out by hand.

use bst_lex::lexeme::{LexFault, Lexeme};
use bst_lex::lexer::Lexer;
use bv_base::memory::NoMemory;
use bv_base::place::Place;
use std::alloc::Global;
use std::process::Abort;
use std::test::Fail;

/// Sources, and their lexemes in order: how many bytes of the source stand before each, its length, its place and its
/// shape. Then comes the end, or the fault and its place.
static SOURCES: [(&[u8], &str); 25] = [
    (b"", "end"),
    (b" \t\r\n% \"x", "end"),
    (
        b"FUNCTION {f}\n{ #-5 \"a%b\" 'x := }",
        "0+8 1:1 Name, 9+1 1:10 OpenBrace, 10+1 1:11 Name, 11+1 1:12 CloseBrace, 13+1 2:1 OpenBrace, 15+3 2:3 Integer(-5), 19+5 2:7 Text, 25+2 2:13 Quoted, 28+2 2:16 Name, 31+1 2:19 CloseBrace, end",
    ),
    (b"a % {x\r\"\n  b", "0+1 1:1 Name, 11+1 2:3 Name, end"),
    (
        b"a\rb%\n\nc",
        "0+1 1:1 Name, 2+1 1:3 Name, 6+1 3:1 Name, end",
    ),
    (
        b"#2147483647 #-2147483648 #-0 #007",
        "0+11 1:1 Integer(2147483647), 12+12 1:13 Integer(-2147483648), 25+3 1:26 Integer(0), 29+4 1:30 Integer(7), end",
    ),
    (b"#2147483648", "IntegerRange 1:1"),
    (b" #-2147483649", "IntegerRange 1:2"),
    (b"#36893488147419103233 ", "IntegerRange 1:1"),
    (b"#99999999999x", "StuffAfterToken 1:13"),
    (b"#5{", "StuffAfterToken 1:3"),
    (b"#5\x01", "StuffAfterToken 1:3"),
    (
        b"#5}#5%x",
        "0+2 1:1 Integer(5), 2+1 1:3 CloseBrace, 3+2 1:4 Integer(5), end",
    ),
    (b"#", "BadInteger 1:1"),
    (b"\n#-x", "BadInteger 2:1"),
    (b"#\x01", "BadInteger 1:1"),
    (b"\"a\nb\"", "NoEndQuote 1:1"),
    (b"x \"a", "0+1 1:1 Name, NoEndQuote 1:3"),
    (b"\"a\"b", "StuffAfterToken 1:4"),
    (b"\"\x01\"\"\"}", "StuffAfterToken 1:4"),
    (
        b"\"\x01\" \"\"}",
        "0+3 1:1 Text, 4+2 1:5 Text, 6+1 1:7 CloseBrace, end",
    ),
    (b"ab\x7fc d", "IllegalByte 1:3"),
    (b"\n'\x0b", "IllegalByte 2:2"),
    (
        b"a\"b#c'd{'{",
        "0+7 1:1 Name, 7+1 1:8 OpenBrace, 8+1 1:9 Quoted, 9+1 1:10 OpenBrace, end",
    ),
    (b"\xff\x00", "IllegalByte 1:2"),
];

#[test]
fn lexemes_in_order_and_then_the_end_or_the_fault(rt: HostRuntime) -> Result<(), Fail> {
    are_read(&rt, rt.alloc(), &SOURCES)?;
    Ok(())
}

/// These sources have these lexemes, and a further call gives the end or the fault again.
fn are_read(rt: &impl Abort, alloc: Global, rows: &[(&[u8], &str)]) -> Result<(), NoMemory> {
    for (source, lexemes) in rows {
        assert!(rt; source.len() < 1000);
        let mut lexer = Lexer::new(source);
        let told = told(alloc, &mut lexer)?;
        assert_eq!(rt; told.as_str(), *lexemes);
        ends_so(rt, alloc, &mut lexer, lexemes)?;
    }
    Ok(())
}

/// What the lexer gives next ends these lexemes.
fn ends_so(
    rt: &impl Abort,
    alloc: Global,
    lexer: &mut Lexer,
    lexemes: &str,
) -> Result<(), NoMemory> {
    let again = told(alloc, lexer)?;
    assert!(rt; !again.as_str().is_empty() && lexemes.ends_with(again.as_str()));
    Ok(())
}

/// The lexemes of a source and its end.
fn told(alloc: Global, lexer: &mut Lexer) -> Result<String, NoMemory> {
    let mut told = String::new(alloc);
    add_lexemes(&mut told, lexer)?;
    Ok(told)
}

/// Adds the lexemes of a source that has at most ten, and then its end or its fault.
fn add_lexemes(told: &mut String, lexer: &mut Lexer) -> Result<(), NoMemory> {
    for _ in 0..11 {
        match lexer.next() {
            Ok(Some(lexeme)) => add_lexeme(told, &lexeme)?,
            Ok(None) => return Ok(told.push_str("end")?),
            Err(fault) => return add_fault(told, fault),
        }
    }
    Ok(())
}

/// Adds a lexeme.
fn add_lexeme(told: &mut String, lexeme: &Lexeme) -> Result<(), NoMemory> {
    let (start, length, shape) = (lexeme.start, lexeme.text.len(), lexeme.shape);
    let Place { line, column } = lexeme.place;
    write!(told, "{start}+{length} {line}:{column} {shape:?}, ")?;
    Ok(())
}

/// Adds a fault and its place.
fn add_fault(told: &mut String, fault: LexFault) -> Result<(), NoMemory> {
    let (name, Place { line, column }) = (fault.name(), fault.place());
    write!(told, "{name} {line}:{column}")?;
    Ok(())
}

/// Sources, and the places of their ends.
static ENDED: [(&[u8], &str); 3] = [(b"", "1:1"), (b"a\n% b", "2:4"), (b"a\n", "2:1")];

#[test]
fn the_end_has_the_place_of_the_next_byte(rt: HostRuntime) -> Result<(), Fail> {
    for (source, end) in &ENDED {
        assert!(rt; source.len() < 1000);
        let mut lexer = Lexer::new(source);
        has_end(&rt, rt.alloc(), &lexer, end)?;
        let _first = lexer.next();
        has_end(&rt, rt.alloc(), &lexer, end)?;
    }
    Ok(())
}

/// The end has this place.
fn has_end(rt: &impl Abort, alloc: Global, lexer: &Lexer, end: &str) -> Result<(), NoMemory> {
    let Place { line, column } = lexer.end();
    let told = format!(in alloc; "{line}:{column}")?;
    assert_eq!(rt; told.as_str(), end);
    Ok(())
}
