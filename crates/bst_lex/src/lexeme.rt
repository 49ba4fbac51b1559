//! What a lexeme is, and what is wrong where a text has none.

ghost use Rattle.std.specs.Prelude.{◌≡◌};
ghost use Rattle.bst_lex.specs.Fault as fault;

use bv_base::place::Place;
use thiserror::Error;

/// What kind of lexeme stands in a text, with the value of an integer.
#[derive(Clone, Copy, Debug, PartialEq, Eq)]
pub enum Shape {
    /// `{`
    OpenBrace,
    /// `}`
    CloseBrace,
    /// `#`, an optional `-` and digits.
    Integer(i32),
    /// The bytes between two `"`, which may be none.
    Text,
    /// `'` and a run, which may be empty.
    Quoted,
    /// A run.
    Name,
}

/// A lexeme of a source.
#[derive(Clone, Copy, Debug)]
pub struct Lexeme<'a> {
    /// The lexeme's slice of the source, its marks included.
    pub text: &'a [u8],
    /// How many bytes of the source stand before it.
    pub start: u32,
    /// The place of its first byte.
    pub place: Place,
    /// What it is.
    pub shape: Shape,
}

/// Why a text has no further lexeme. Where several reasons hold of one lexeme, the first in this order is given.
#[derive(Clone, Copy, Debug, PartialEq, Eq, Error)]
pub enum LexFault {
    /// A text isn't closed in its line. It stands at the opening quote.
    #[error("no closing quote at {0:?}")]
    NoEndQuote(Place),
    /// `#` without digits. It stands at the `#`.
    #[error("no digits after # at {0:?}")]
    BadInteger(Place),
    /// An integer or a text is followed by a byte that isn't white space, `}` or `%`. It stands at that byte.
    #[error("stuff after a token at {0:?}")]
    StuffAfterToken(Place),
    /// A control byte that isn't white space, outside texts and comments. It stands at that byte.
    #[error("illegal byte at {0:?}")]
    IllegalByte(Place),
    /// An integer outside -2147483648 to 2147483647. It stands at the `#`.
    #[error("integer out of range at {0:?}")]
    IntegerRange(Place),
}

impl LexFault {
    /// The name of the fault, as answers tell it.
    pub fn name(&self) -> &'static str
        ensures { result.now ≡ fault.name_of self.now }
    {
        match self {
            LexFault::NoEndQuote(_) => "NoEndQuote",
            LexFault::BadInteger(_) => "BadInteger",
            LexFault::StuffAfterToken(_) => "StuffAfterToken",
            LexFault::IllegalByte(_) => "IllegalByte",
            LexFault::IntegerRange(_) => "IntegerRange",
        }
    }

    /// The place of the fault.
    pub fn place(&self) -> Place
        ensures { result ≡ fault.place_of self.now }
    {
        match self {
            LexFault::NoEndQuote(place)
            | LexFault::BadInteger(place)
            | LexFault::StuffAfterToken(place)
            | LexFault::IllegalByte(place)
            | LexFault::IntegerRange(place) => *place,
        }
    }
}

/// How far a lexeme reaches, in bytes, and what it is.
#[derive(Clone, Copy)]
pub(crate) struct Piece {
    pub(crate) length: usize,
    pub(crate) shape: Shape,
}
