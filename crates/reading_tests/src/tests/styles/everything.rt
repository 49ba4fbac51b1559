//! A style with each kind of command and token.

use bst_parse::parse::parse;
use bv_base::place::Place;
use name_table::names::{Kind, NameId, Names};
use name_table::style::{Body, BodyId, Command, CommandAt, Style, TextId, Token, TokenAt};
use std::process::Abort;
use std::test::Fail;

const SOURCE: &[u8] =
    b"ENTRY{Title}{n}{s} INTEGERS{i} STRINGS{t} MACRO{Jan}{\"January\"}\nFUNCTION{f}{\"A\" {title #-1} 'Skip$ i}\nREAD SORT ITERATE{F}";

/// A name that the style declares, with its id.
#[derive(Clone, Copy)]
struct Declared {
    name: &'static [u8],
    id: u32,
    kind: Kind,
}

macro_rules! declared {
    ($name:literal $id:literal $kind:expr) => {
        Declared {
            name: $name,
            id: $id,
            kind: $kind,
        }
    };
}

static NAMES: [Declared; 6] = [
    declared!(b"title" 41 Kind::Field),
    declared!(b"n" 42 Kind::IntEntry),
    declared!(b"s" 43 Kind::StrEntry),
    declared!(b"i" 44 Kind::IntGlobal),
    declared!(b"t" 45 Kind::StrGlobal),
    declared!(b"f" 46 Kind::Wizard(BodyId(0))),
];

macro_rules! command {
    ($command:expr, $line:literal, $column:literal) => {
        CommandAt {
            command: $command,
            place: Place {
                line: $line,
                column: $column,
            },
        }
    };
}

static COMMANDS: [CommandAt; 8] = [
    command!(Command::Entry, 1, 1),
    command!(Command::Integers, 1, 20),
    command!(Command::Strings, 1, 32),
    command!(Command::Macro, 1, 43),
    command!(Command::Function(NameId(46)), 2, 1),
    command!(Command::Read, 3, 1),
    command!(Command::Sort, 3, 6),
    command!(Command::Iterate(NameId(46)), 3, 11),
];

/// A token in the second line.
macro_rules! token {
    ($token:expr, $column:literal) => {
        TokenAt {
            token: $token,
            place: Place {
                line: 2,
                column: $column,
            },
        }
    };
}

static FUNCTION: [TokenAt; 4] = [
    token!(Token::Str(TextId(0)), 13),
    token!(Token::Block(BodyId(1)), 17),
    token!(Token::Quote(NameId(25)), 29),
    token!(Token::Call(NameId(44)), 36),
];

static BLOCK: [TokenAt; 2] = [
    token!(Token::Call(NameId(41)), 18),
    token!(Token::Int(-1), 24),
];

#[test]
fn a_style_with_everything(rt: HostRuntime) -> Result<(), Fail> {
    let style = parse(rt.alloc(), SOURCE)?;
    have_names(&rt, &style.names, &NAMES);
    assert_eq!(rt; style.commands.as_slice(), COMMANDS.as_slice());
    have_bodies(&rt, style.bodies.as_slice());
    have_texts(&rt, &style);
    Ok(())
}

/// These names follow those of every style.
fn have_names(rt: &impl Abort, names: &Names, rows: &[Declared]) {
    assert_eq!(rt; names.len(), 47);
    for row in rows {
        let Some(found) = names.find(row.name) else {
            panic!(rt; "a name is missing");
        };
        assert_eq!(rt; found, NameId(row.id));
        assert_eq!(rt; names.kind(found), row.kind);
    }
}

fn have_bodies(rt: &impl Abort, bodies: &[Body]) {
    let [function, block] = bodies else {
        panic!(rt; "other bodies");
    };
    assert_eq!(rt; function.tokens.as_slice(), FUNCTION.as_slice());
    assert_eq!(rt; function.block, None);
    assert_eq!(rt; block.tokens.as_slice(), BLOCK.as_slice());
    assert_eq!(rt; block.block, Some(0));
}

fn have_texts(rt: &impl Abort, style: &Style) {
    let ([text], [one]) = (style.texts.as_slice(), style.macros.as_slice()) else {
        panic!(rt; "other texts");
    };
    assert_eq!(rt; text.as_slice(), b"A".as_slice());
    assert_eq!(rt; one.name.as_slice(), b"jan".as_slice());
    assert_eq!(rt; one.value.as_slice(), b"January".as_slice());
}
