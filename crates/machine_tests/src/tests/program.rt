//! Small styles that are written as words.
//!
//! A style declares the field `title`, the variables `n` and `s` of each entry and `i` and `t` of the whole style. What is
//! written are words between single spaces: `f{` begins the function `f`, and all else is as in a style, with the names of
//! commands without braces. In a text `_` stands for a space, and `^` for byte 255.

use crate::tests::rows::Table;
use crate::tests::words::{Word, words_of};
use bv_base::memory::NoMemory;
use bv_base::seq::Seq;
use bv_base::text::Text;
use name_table::names::{Kind, NameId, Names};
use name_table::style::{Body, BodyId, Command, CommandAt, Style, TextId, Token, TokenAt};
use std::alloc::Global;

/// A style with the names of every style alone.
pub fn empty_style(alloc: Global) -> Result<Style, NoMemory> {
    Ok(Style {
        names: Names::opening(alloc)?,
        commands: Seq::new(alloc),
        bodies: Seq::new(alloc),
        texts: Seq::new(alloc),
        macros: Seq::new(alloc),
    })
}

/// Puts the words of a row and those around them into a style.
pub fn add_words(
    alloc: Global,
    style: &mut Style,
    table: &Table,
    row: &[u8],
) -> Result<(), NoMemory> {
    let words = words_of(alloc, table, row)?;
    add_to_style(alloc, style, words.as_slice())
}

/// Puts words into a style.
fn add_to_style(alloc: Global, style: &mut Style, words: &[Word<'_>]) -> Result<(), NoMemory> {
    add_names(&mut style.names, words)?;
    add_commands(&mut style.commands, &style.names, words)?;
    add_bodies(alloc, &mut style.bodies, &style.names, words)?;
    add_texts(alloc, &mut style.texts, words)
}

/// Defines the names that each style declares, and then those of the functions.
fn add_names(names: &mut Names, words: &[Word<'_>]) -> Result<(), NoMemory> {
    define(names, b"title", Kind::Field)?;
    let declared: [(&[u8], Kind); 4] = [
        (b"n", Kind::IntEntry),
        (b"s", Kind::StrEntry),
        (b"i", Kind::IntGlobal),
        (b"t", Kind::StrGlobal),
    ];
    for (name, kind) in declared {
        define(names, name, kind)?;
    }
    add_functions(names, words)
}

/// Defines the names of the functions.
fn add_functions(names: &mut Names, words: &[Word<'_>]) -> Result<(), NoMemory> {
    for word in words {
        if let Some(name) = word.function() {
            define(names, name, Kind::Wizard(BodyId(word.bodies)))?;
        }
    }
    Ok(())
}

/// Defines a name that isn't there.
fn define(names: &mut Names, name: &[u8], kind: Kind) -> Result<(), NoMemory> {
    match names.define(name, kind) {
        Ok(_) => Ok(()),
        Err(_) => Err(NoMemory),
    }
}

/// The id of a name, which is there.
fn id(names: &Names, name: &[u8]) -> Result<NameId, NoMemory> {
    names.find(name).ok_or(NoMemory)
}

/// Adds the commands, which stand outside of all bodies.
fn add_commands(
    commands: &mut Seq<CommandAt>,
    names: &Names,
    words: &[Word<'_>],
) -> Result<(), NoMemory> {
    let mut before = Word::NONE;
    for word in words {
        if word.depth == 0 {
            add_command(commands, names, before, *word)?;
            before = *word;
        }
    }
    Ok(())
}

/// Adds the command that a word ends, behind the word before it.
fn add_command(
    commands: &mut Seq<CommandAt>,
    names: &Names,
    before: Word<'_>,
    word: Word<'_>,
) -> Result<(), NoMemory> {
    let named = named_command(before.bytes, names.find(word.bytes));
    if let Some(command) = named {
        return commands.push(CommandAt {
            command,
            place: before.place,
        });
    }
    match command_of(names, word) {
        Some(command) => commands.push(CommandAt {
            command,
            place: word.place,
        }),
        None if word.is_part() => Ok(()),
        None => Err(NoMemory),
    }
}

/// The command of this word on a function.
fn named_command(word: &[u8], name: Option<NameId>) -> Option<Command> {
    let name = name?;
    if word == b"EXECUTE".as_slice() {
        return Some(Command::Execute(name));
    }
    if word == b"ITERATE".as_slice() {
        return Some(Command::Iterate(name));
    }
    if word == b"REVERSE".as_slice() {
        return Some(Command::Reverse(name));
    }
    None
}

/// The command that is one word, or that begins a function.
fn command_of(names: &Names, word: Word<'_>) -> Option<Command> {
    if word.bytes == b"READ".as_slice() {
        return Some(Command::Read);
    }
    if word.bytes == b"SORT".as_slice() {
        return Some(Command::Sort);
    }
    Some(Command::Function(names.find(word.function()?)?))
}

/// Adds the bodies, in the order in which they begin.
fn add_bodies(
    alloc: Global,
    bodies: &mut Seq<Body>,
    names: &Names,
    words: &[Word<'_>],
) -> Result<(), NoMemory> {
    for (i, word) in words.iter().enumerate() {
        if word.begins_body() {
            let behind = words.get(i.saturating_add(1)..).unwrap_or(&[]);
            add_body(alloc, bodies, names, *word, behind)?;
        }
    }
    Ok(())
}

/// Adds the body that a word begins, before the words behind it.
fn add_body(
    alloc: Global,
    bodies: &mut Seq<Body>,
    names: &Names,
    word: Word<'_>,
    behind: &[Word<'_>],
) -> Result<(), NoMemory> {
    let mut tokens = Seq::new(alloc);
    add_tokens(&mut tokens, names, word.depth.saturating_add(1), behind)?;
    bodies.push(Body {
        tokens,
        block: word.block(),
        place: word.place,
    })
}

/// Adds the tokens of this depth, up to the first word of a lower one.
fn add_tokens(
    tokens: &mut Seq<TokenAt>,
    names: &Names,
    depth: u32,
    words: &[Word<'_>],
) -> Result<(), NoMemory> {
    for word in words {
        if word.depth < depth {
            return Ok(());
        }
        if word.depth == depth && !word.ends_body() {
            let token = token_of(names, *word)?;
            tokens.push(TokenAt {
                token,
                place: word.place,
            })?;
        }
    }
    Ok(())
}

/// The token of a word.
fn token_of(names: &Names, word: Word<'_>) -> Result<Token, NoMemory> {
    match word.bytes {
        [b'{'] => Ok(Token::Block(BodyId(word.bodies))),
        [b'"', ..] => Ok(Token::Str(TextId(word.texts))),
        [b'#', digits @ ..] => Ok(Token::Int(integer(digits))),
        [b'\'', name @ ..] => Ok(Token::Quote(id(names, name)?)),
        name => Ok(Token::Call(id(names, name)?)),
    }
}

/// The integer with these digits.
fn integer(digits: &[u8]) -> i32 {
    let mut below = 0i32;
    for b in digits {
        if *b != b'-' {
            below = below.wrapping_mul(10).wrapping_sub((*b % 48 % 10) as i32);
        }
    }
    match digits {
        [b'-', ..] => below,
        _ => 0i32.wrapping_sub(below),
    }
}

/// Adds the texts.
fn add_texts(alloc: Global, texts: &mut Seq<Text>, words: &[Word<'_>]) -> Result<(), NoMemory> {
    for word in words {
        if word.is_text() {
            add_text(alloc, texts, word.bytes)?;
        }
    }
    Ok(())
}

/// Adds a text.
fn add_text(alloc: Global, texts: &mut Seq<Text>, word: &[u8]) -> Result<(), NoMemory> {
    let mut text = Vec::new(alloc);
    add_bytes(&mut text, word)?;
    texts.push(Text::from_vec(text))
}

/// Adds the bytes of a text without its quotes, and what stands for others.
fn add_bytes(text: &mut Vec<u8>, word: &[u8]) -> Result<(), NoMemory> {
    for b in word {
        if *b != b'"' {
            text.push(byte_of(*b))?;
        }
    }
    Ok(())
}

/// The byte that one in a text stands for.
fn byte_of(b: u8) -> u8 {
    match b {
        b'_' => b' ',
        b'^' => 255,
        _ => b,
    }
}
