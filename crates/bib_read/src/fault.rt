//! Why some bytes aren't a database.

ghost use Rattle.std.specs.Prelude.{◌≡◌};
ghost use Rattle.bib_read.specs.Faults.{name_of, place_of};

use bv_base::place::Place;
use thiserror::Error;

/// The first fault that the reading of a text meets.
#[derive(Clone, Copy, Debug, PartialEq, Eq, Error)]
pub enum BibFault {
    /// The grammar has another byte here.
    #[error("another byte is expected at {0:?}")]
    Expected(Place),
    /// The text ends within what an `@` begins. It stands at the text's end.
    #[error("the text ends too early at {0:?}")]
    EndOfFile(Place),
    /// A `}` in quotes without a `{` before it. It stands at the `}`.
    #[error("unbalanced brace at {0:?}")]
    Unbalanced(Place),
    /// An entry has the key of another, where upper and lower case are the same. It stands at the key.
    #[error("repeated key at {0:?}")]
    RepeatedKey(Place),
    /// Want of memory.
    #[error("no memory")]
    NoMemory,
}

impl BibFault {
    /// The name that a last line tells.
    pub fn name(&self) -> &'static str
        ensures { result.now ≡ name_of self.now }
    {
        match self {
            BibFault::Expected(_) => "Expected",
            BibFault::EndOfFile(_) => "EndOfFile",
            BibFault::Unbalanced(_) => "Unbalanced",
            BibFault::RepeatedKey(_) => "RepeatedKey",
            BibFault::NoMemory => "NoMemory",
        }
    }

    /// The place of the fault. Want of memory, which no answer tells, has the first.
    pub fn place(&self) -> Place
        ensures { result ≡ place_of self.now }
    {
        match *self {
            BibFault::Expected(place)
            | BibFault::EndOfFile(place)
            | BibFault::Unbalanced(place)
            | BibFault::RepeatedKey(place) => place,
            BibFault::NoMemory => Place::START,
        }
    }
}
