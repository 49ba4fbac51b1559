//! The grammar of commands, as a table.

ghost use Rattle.std.specs.Prelude.{◌≡◌, map};
ghost use Rattle.bst_parse.specs.Commands as commands;

use name_table::names::{Kind, NameId};
use name_table::style::Command;

/// The word with which a command begins.
#[derive(Clone, Copy, Debug, PartialEq, Eq)]
pub enum Word {
    Entry,
    Execute,
    Function,
    Integers,
    Iterate,
    Macro,
    Read,
    Reverse,
    Sort,
    Strings,
}

/// What calls a function.
#[derive(Clone, Copy, Debug, PartialEq, Eq)]
pub enum Caller {
    Execute,
    Iterate,
    Reverse,
}

/// A part of a command after its word.
#[derive(Clone, Copy, Debug, PartialEq, Eq)]
pub enum Part {
    /// `{`
    Open,
    /// `}`
    Close,
    /// Names that are defined as this kind, and `}`.
    Names(Kind),
    /// The name of a function, which is called.
    Target(Caller),
    /// The name of a function, which is defined.
    FunctionName,
    /// A body in braces.
    Body,
    /// The name of a macro, which is defined.
    MacroName,
    /// The value of a macro.
    MacroText,
}

/// The words of the commands, in lower case.
pub const WORDS: [(&[u8], Word); 10] = [
    (b"entry", Word::Entry),
    (b"execute", Word::Execute),
    (b"function", Word::Function),
    (b"integers", Word::Integers),
    (b"iterate", Word::Iterate),
    (b"macro", Word::Macro),
    (b"read", Word::Read),
    (b"reverse", Word::Reverse),
    (b"sort", Word::Sort),
    (b"strings", Word::Strings),
];

/// The command that a lowered name begins.
pub(crate) fn word_of(name: &[u8]) -> Option<Word>
    ensures { result ≡ commands.word_of name.now }
{
    word_among(name, &WORDS)
}

/// The command that a lowered name begins, among some words.
fn word_among(name: &[u8], words: &[(&[u8], Word)]) -> Option<Word>
    ensures { result ≡ commands.word_among name.now (map (λ word. (word.0.now, word.1)) words.now) }
{
    for (text, word) in words {
        if name == *text {
            return Some(*word);
        }
    }
    None
}

/// The parts of the fields and the entry variables.
const ENTRY_PARTS: [Part; 6] = [
    Part::Open,
    Part::Names(Kind::Field),
    Part::Open,
    Part::Names(Kind::IntEntry),
    Part::Open,
    Part::Names(Kind::StrEntry),
];

/// The parts of a macro.
const MACRO_PARTS: [Part; 6] = [
    Part::Open,
    Part::MacroName,
    Part::Close,
    Part::Open,
    Part::MacroText,
    Part::Close,
];

/// The command of a word, where it names no function, and the parts that follow the word.
pub(crate) fn begun_by(word: Word) -> (Option<Command>, &'static [Part])
    ensures command { result.0 ≡ commands.declaration_of word }
    ensures parts { result.1.now ≡ commands.parts_of word }
{
    match word {
        Word::Entry => (Some(Command::Entry), &ENTRY_PARTS),
        Word::Execute => (
            None,
            &[Part::Open, Part::Target(Caller::Execute), Part::Close],
        ),
        Word::Function => (
            None,
            &[Part::Open, Part::FunctionName, Part::Close, Part::Body],
        ),
        Word::Integers => (
            Some(Command::Integers),
            &[Part::Open, Part::Names(Kind::IntGlobal)],
        ),
        Word::Iterate => (
            None,
            &[Part::Open, Part::Target(Caller::Iterate), Part::Close],
        ),
        Word::Macro => (Some(Command::Macro), &MACRO_PARTS),
        Word::Read => (Some(Command::Read), &[]),
        Word::Reverse => (
            None,
            &[Part::Open, Part::Target(Caller::Reverse), Part::Close],
        ),
        Word::Sort => (Some(Command::Sort), &[]),
        Word::Strings => (
            Some(Command::Strings),
            &[Part::Open, Part::Names(Kind::StrGlobal)],
        ),
    }
}

/// The command that calls a function.
pub(crate) fn call_of(caller: Caller, id: NameId) -> Command
    ensures { result ≡ commands.call_of caller id }
{
    match caller {
        Caller::Execute => Command::Execute(id),
        Caller::Iterate => Command::Iterate(id),
        Caller::Reverse => Command::Reverse(id),
    }
}
