//! Why some bytes aren't an `.aux` file.

ghost use Rattle.std.specs.Prelude.{◌≡◌};
ghost use Rattle.aux_read.specs.Faults.{name_of, place_of};

use bv_base::memory::NoMemory;
use bv_base::place::Place;
use thiserror::Error;

/// The fault of the first line that is at fault. Each stands at its line's start. On one line `BadCommand` comes
/// first.
#[derive(Clone, Copy, Debug, PartialEq, Eq, Error)]
pub enum AuxFault {
    /// A line that counts has no `}`, or an item of it is empty, has white space in it, or is the name of a file and
    /// isn't UTF-8.
    #[error("bad command at {0:?}")]
    BadCommand(Place),
    /// A second line that names a style.
    #[error("second style at {0:?}")]
    SecondStyle(Place),
    /// A second line that names databases.
    #[error("second databases at {0:?}")]
    SecondData(Place),
    /// Want of memory.
    #[error("no memory")]
    NoMemory,
}

impl From<NoMemory> for AuxFault {
    ghost use Rattle.aux_read.specs.declared.fault.AuxFault.TheVariants.{NoMemory as WantOfMemory};

    ghost from_gives = { λ _ fault. fault ≡ WantOfMemory };

    fn from(_refused: NoMemory) -> AuxFault {
        AuxFault::NoMemory
    }
}

impl AuxFault {
    /// The name that a last line tells.
    pub fn name(&self) -> &'static str
        ensures { result.now ≡ name_of self.now }
    {
        match self {
            AuxFault::BadCommand(_) => "BadCommand",
            AuxFault::SecondStyle(_) => "SecondStyle",
            AuxFault::SecondData(_) => "SecondData",
            AuxFault::NoMemory => "NoMemory",
        }
    }

    /// The place of the fault. Want of memory, which no answer tells, has the first.
    pub fn place(&self) -> Place
        ensures { result ≡ place_of self.now }
    {
        match *self {
            AuxFault::BadCommand(place)
            | AuxFault::SecondStyle(place)
            | AuxFault::SecondData(place) => place,
            AuxFault::NoMemory => Place::START,
        }
    }
}
