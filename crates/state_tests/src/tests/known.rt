//! States and pieces, as they are read, and the condition and the style that they go with.

ghost use Rattle.std.specs.Prelude.{◌≡◌, ◌≤◌, length, IfOk};
ghost use Rattle.std.specs.List.{All};
ghost use Rattle.sym_state.specs.WellMade.{HasBounds, HasShortText, IsBounded};

use crate::tests::reading::{Item, Unread, halves, integer, list, natural};
use crate::tests::rows::is_row;
use bst_meaning::condition::Cond;
use bv_base::memory::NoMemory;
use bv_base::seq::Seq;
use bv_base::text::Text;
use name_table::names::{Kind, NameId, Names};
use name_table::style::Style;
use std::alloc::Global;
use sym_state::piece::Piece;
use sym_state::state::{Parts, State};
use sym_state::symbol::{Bind, Fact, Kinds, Sym};

/// Where a state is, the names that it binds, and its next symbol.
#[derive(Clone, Copy)]
pub struct Shape {
    pub whole: bool,
    pub at_entry: bool,
    pub vars: &'static str,
    pub fields: &'static str,
    pub next: u32,
}

/// Where a state is: at an entry with the whole stack known, at no entry, or at one with the top of the stack known.
#[derive(Clone, Copy, PartialEq, Eq)]
pub enum Setting {
    Entry,
    NoEntry,
    TopOfStack,
}

pub fn condition(alloc: Global) -> Cond {
    Cond {
        entries: 10,
        key: 20,
        preamble: 30,
        length: 40,
        names: Seq::new(alloc),
        nonblank: Seq::new(alloc),
        types: Seq::new(alloc),
        other: true,
    }
}

/// A name of a style.
#[derive(Clone, Copy)]
pub struct Named {
    pub name: &'static [u8],
    pub kind: Kind,
}

/// A style with these names beside those of every style.
pub fn style(alloc: Global, more: &[Named]) -> Result<Style, NoMemory>
    ensures { IfOk result (λ style. length style.names ≤ 65536) }
{
    let mut names = Names::opening(alloc)?;
    define(&mut names, more)?;
    Ok(Style {
        macros: Seq::new(alloc),
        texts: Seq::new(alloc),
        bodies: Seq::new(alloc),
        commands: Seq::new(alloc),
        names,
    })
}

fn define(names: &mut Names, more: &[Named]) -> Result<(), NoMemory> {
    for named in more {
        if names.define(named.name, named.kind).is_err() {
            return Err(NoMemory);
        }
    }
    Ok(())
}

/// A state of 10 symbols with a stack and what is known. Symbols 4 to 8 are the values of variables, 9 is that of a field.
pub fn state(alloc: Global, setting: Setting, text: &'static str) -> Result<State, Unread>
    ensures bounds { IfOk result HasBounds }
    ensures next { IfOk result (λ state. state.next ≡ 10) }
{
    let shape = Shape {
        whole: setting != Setting::TopOfStack,
        at_entry: setting != Setting::NoEntry,
        vars: "38=4; 39=5; 40=6; 41=7; 42=8",
        fields: "37=9",
        next: 10,
    };
    state_of(alloc, shape, text)
}

/// A state of this shape with a stack and what is known.
pub fn state_of(alloc: Global, shape: Shape, text: &'static str) -> Result<State, Unread>
    ensures bounds { IfOk result HasBounds }
    ensures next { IfOk result (λ state. state.next ≡ shape.next) }
{
    let Piece {
        stack,
        vars,
        fields,
        facts,
        rows,
    } = piece(alloc, text, shape.vars, shape.fields)?;
    let parts = Parts {
        stack,
        whole: shape.whole,
        at_entry: shape.at_entry,
        vars,
        fields,
        facts,
        rows,
        next: shape.next,
    };
    Ok(State::from_parts(alloc, parts)?)
}

/// A piece with a stack and what is known, and these variables and fields.
pub fn piece(
    alloc: Global,
    text: &'static str,
    vars: &'static str,
    fields: &'static str,
) -> Result<Piece, Unread>
    ensures facts { IfOk result (λ piece. All HasShortText piece.facts) }
    ensures rows { IfOk result (λ piece. All IsBounded piece.rows) }
{
    let (stack, known) = halves(text, "; ");
    Ok(Piece {
        stack: list(alloc, if stack == "empty" { "" } else { stack }, " ")?,
        vars: list(alloc, vars, "; ")?,
        fields: list(alloc, fields, "; ")?,
        facts: list(alloc, known, "; ")?,
        rows: list(alloc, known, "; ")?,
    })
}

impl Item for Sym {
    ghost holds = { λ _. Unit {0} };

    fn read(_alloc: Global, text: &'static str) -> Result<Option<Sym>, Unread> {
        Ok(Some(Sym(natural(text)?)))
    }
}

impl Item for Bind {
    ghost holds = { λ _. Unit {0} };

    fn read(_alloc: Global, text: &'static str) -> Result<Option<Bind>, Unread> {
        let (name, symbol) = halves(text, "=");
        Ok(Some(Bind {
            name: NameId(natural(name)?),
            sym: Sym(natural(symbol)?),
        }))
    }
}

impl Item for Fact {
    ghost use Rattle.sym_state.specs.WellMade.{HasShortText};

    ghost holds = { HasShortText };

    fn read(alloc: Global, text: &'static str) -> Result<Option<Fact>, Unread> {
        if is_row(text) {
            return Ok(None);
        }
        Ok(Some(fact(alloc, text)?))
    }
}

fn fact(alloc: Global, text: &'static str) -> Result<Fact, Unread>
    ensures { IfOk result HasShortText }
{
    let (word, rest) = halves(text, " ");
    let (number, said) = halves(rest, " ");
    let sym = Sym(natural(number)?);
    Ok(match word {
        "is" => Fact::Is(sym, kind(said)?),
        "int" => Fact::Int(sym, integer(said)?),
        "call" => Fact::Call(sym, NameId(natural(said)?)),
        "block" => Fact::Block(sym, natural(said)?),
        "text" => return text_fact(sym, bytes(alloc, said)),
        "letters" => return text_fact(sym, letters(alloc, said)),
        _ => return plain_fact(word, sym, said),
    })
}

/// The fact that a symbol is a text, where that is read.
fn text_fact(sym: Sym, text: Result<Text, Unread>) -> Result<Fact, Unread>
    requires { IfOk text (λ text. length text ≤ 300) }
    ensures { IfOk result HasShortText }
{
    Ok(Fact::Text(sym, text?))
}

/// A fact that says no more than its word.
fn plain_fact(word: &'static str, sym: Sym, said: &'static str) -> Result<Fact, Unread>
    ensures { IfOk result HasShortText }
{
    if !said.is_empty() {
        return Err(Unread::At(said));
    }
    Ok(match word {
        "blank" => Fact::Blank(sym),
        "nonblank" => Fact::Nonblank(sym),
        "wellformed" => Fact::Wellformed(sym),
        _ => return Err(Unread::At(word)),
    })
}

fn kind(word: &'static str) -> Result<Kinds, Unread> {
    Ok(match word {
        "Int" => Kinds::Int,
        "Str" => Kinds::Str,
        "Missing" => Kinds::Missing,
        "Optional" => Kinds::Optional,
        "Func" => Kinds::Func,
        "Any" => Kinds::Any,
        _ => return Err(Unread::At(word)),
    })
}

/// The text of bytes, of which there are at most 300.
fn bytes(alloc: Global, text: &'static str) -> Result<Text, Unread>
    ensures { IfOk result (λ bytes. length bytes ≤ 300) }
{
    let inner = text.strip_prefix("[").ok_or(Unread::At(text))?;
    let inner = inner.strip_suffix("]").ok_or(Unread::At(text))?;
    let bytes = list::<u8>(alloc, inner, ", ")?;
    if bytes.as_slice().len() > 300 {
        return Err(Unread::At(text));
    }
    Ok(Text::from_vec(bytes.into_vec()))
}

impl Item for u8 {
    ghost holds = { λ _. Unit {0} };

    fn read(_alloc: Global, text: &'static str) -> Result<Option<u8>, Unread> {
        match text.parse::<u8>() {
            Ok(byte) => Ok(Some(byte)),
            Err(_) => Err(Unread::At(text)),
        }
    }
}

/// The text of so many letters `a`, of which there are at most 300.
fn letters(alloc: Global, text: &'static str) -> Result<Text, Unread>
    ensures { IfOk result (λ letters. length letters ≤ 300) }
{
    let count = natural(text)?;
    if count > 300 {
        return Err(Unread::At(text));
    }
    Ok(Text::from_slice(alloc, &[b'a'; 300][..count as usize])?)
}
