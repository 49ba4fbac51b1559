//! Why some bytes aren't a style.

ghost use Rattle.std.specs.Prelude.{◌≡◌};
ghost use Rattle.bst_parse.specs.Fault as fault;

use bst_lex::lexeme::{LexFault, Shape};
use bv_base::memory::NoMemory;
use bv_base::place::Place;
use thiserror::Error;

/// The first fault of a style. Where one lexeme has several, a lexical fault comes first, then `Expected`, then
/// `SelfUse`, then the others in the order in which they stand here.
#[derive(Clone, Copy, Debug, PartialEq, Eq, Error)]
pub enum StyleFault {
    /// A lexeme is at fault, or in a body a name or a quoted name is directly followed by `{`.
    #[error("a lexeme is at fault: {0:?}")]
    Lex(LexFault),
    /// A name where a command may begin is no command.
    #[error("unknown command at {0:?}")]
    UnknownCommand(Place),
    /// A name that is used isn't defined before.
    #[error("unknown name at {0:?}")]
    UnknownName(Place),
    /// A function names itself.
    #[error("a function uses itself at {0:?}")]
    SelfUse(Place),
    /// A name is defined for a second time.
    #[error("already defined at {0:?}")]
    AlreadyDefined(Place),
    /// A second ENTRY. It stands at the command's word.
    #[error("second ENTRY at {0:?}")]
    SecondEntry(Place),
    /// A second READ. It stands at the command's word.
    #[error("second READ at {0:?}")]
    SecondRead(Place),
    /// READ stands before ENTRY. It stands at the command's word.
    #[error("READ before ENTRY at {0:?}")]
    ReadBeforeEntry(Place),
    /// MACRO stands after READ. It stands at the command's word.
    #[error("MACRO after READ at {0:?}")]
    MacroAfterRead(Place),
    /// EXECUTE, ITERATE, REVERSE or SORT stands before READ. It stands at the command's word.
    #[error("a command before READ at {0:?}")]
    CommandBeforeRead(Place),
    /// The name of EXECUTE, ITERATE or REVERSE is neither a built-in nor a function of the style.
    #[error("not a function at {0:?}")]
    NotCallable(Place),
    /// The grammar has this shape here. For a name that is defined it also comes where the name has a byte that no
    /// defined name has, or begins with a digit.
    #[error("expected {1:?} at {0:?}")]
    Expected(Place, Shape),
    /// The lexemes end within a command. It stands at the text's end.
    #[error("the text ends within a command at {0:?}")]
    EndOfFile(Place),
    /// A block is nested deeper than blocks may be. It stands at its opening brace.
    #[error("blocks nest too deep at {0:?}")]
    TooDeep(Place),
    /// There are as many names or bodies as a style may have. It stands at the name or the opening brace that is too much.
    #[error("too many names or bodies at {0:?}")]
    TooMany(Place),
    /// Want of memory.
    #[error("no memory")]
    NoMemory,
}

impl StyleFault {
    /// The name of the fault, as answers tell it. A fault of a lexeme has its own.
    pub fn name(&self) -> &'static str
        ensures { result.now ≡ fault.name_of self.now }
    {
        match self {
            StyleFault::Lex(inner) => inner.name(),
            StyleFault::UnknownCommand(_) => "UnknownCommand",
            StyleFault::UnknownName(_) => "UnknownName",
            StyleFault::SelfUse(_) => "SelfUse",
            StyleFault::AlreadyDefined(_) => "AlreadyDefined",
            StyleFault::SecondEntry(_) => "SecondEntry",
            StyleFault::SecondRead(_) => "SecondRead",
            StyleFault::ReadBeforeEntry(_) => "ReadBeforeEntry",
            StyleFault::MacroAfterRead(_) => "MacroAfterRead",
            StyleFault::CommandBeforeRead(_) => "CommandBeforeRead",
            StyleFault::NotCallable(_) => "NotCallable",
            StyleFault::Expected(_, _) => "Expected",
            StyleFault::EndOfFile(_) => "EndOfFile",
            StyleFault::TooDeep(_) => "TooDeep",
            StyleFault::TooMany(_) => "TooMany",
            StyleFault::NoMemory => "NoMemory",
        }
    }

    /// The place of the fault. Want of memory, which no answer tells, has the first.
    pub fn place(&self) -> Place
        ensures { result ≡ fault.place_of self.now }
    {
        match self {
            StyleFault::Lex(inner) => inner.place(),
            StyleFault::UnknownCommand(place)
            | StyleFault::UnknownName(place)
            | StyleFault::SelfUse(place)
            | StyleFault::AlreadyDefined(place)
            | StyleFault::SecondEntry(place)
            | StyleFault::SecondRead(place)
            | StyleFault::ReadBeforeEntry(place)
            | StyleFault::MacroAfterRead(place)
            | StyleFault::CommandBeforeRead(place)
            | StyleFault::NotCallable(place)
            | StyleFault::Expected(place, _)
            | StyleFault::EndOfFile(place)
            | StyleFault::TooDeep(place)
            | StyleFault::TooMany(place) => *place,
            StyleFault::NoMemory => Place::START,
        }
    }
}

impl From<NoMemory> for StyleFault {
    ghost use Rattle.bst_parse.specs.declared.fault.StyleFault.TheVariants.{NoMemory as WantOfMemory};

    ghost from_gives = { λ _ fault. fault ≡ WantOfMemory };

    fn from(_refused: NoMemory) -> StyleFault {
        StyleFault::NoMemory
    }
}
