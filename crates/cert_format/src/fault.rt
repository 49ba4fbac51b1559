//! Why some bytes aren't a certificate or a condition.

ghost use Rattle.std.specs.Prelude.{◌≡◌};
ghost use Rattle.cert_format.specs.Faults.{name_of, place_of};

use bv_base::place::Place;
use thiserror::Error;

/// The fault of the first item that is at fault, with its place. Where one item breaks several rules, the fault that
/// stands first here counts.
#[derive(Clone, Copy, Debug, PartialEq, Eq, Error)]
pub enum CertFault {
    /// The grammar has another item here.
    #[error("the grammar has another item at {0:?}")]
    Syntax(Place),
    /// The style has no such name, or it stands for something else than the grammar has here.
    #[error("unknown name at {0:?}")]
    UnknownName(Place),
    /// A number is beyond its limit, or what it names isn't there.
    #[error("out of range at {0:?}")]
    OutOfRange(Place),
    /// What the item says has another spelling, or another place.
    #[error("another spelling at {0:?}")]
    NotCanonical(Place),
    /// There are as many of these as there may be.
    #[error("too many at {0:?}")]
    TooMany(Place),
    /// Want of memory.
    #[error("no memory")]
    NoMemory,
}

impl CertFault {
    /// The place of the fault. Want of memory, which no answer tells, has the first.
    pub fn place(&self) -> Place
        ensures { result ≡ place_of self.now }
    {
        self.told().1
    }

    /// The name that a last line tells.
    pub fn name(&self) -> &'static str
        ensures { result.now ≡ name_of self.now }
    {
        self.told().0
    }

    /// The name and the place.
    fn told(&self) -> (&'static str, Place)
        ensures name { result.0.now ≡ name_of self.now }
        ensures place { result.1 ≡ place_of self.now }
    {
        match *self {
            CertFault::Syntax(place) => ("Syntax", place),
            CertFault::UnknownName(place) => ("UnknownName", place),
            CertFault::OutOfRange(place) => ("OutOfRange", place),
            CertFault::NotCanonical(place) => ("NotCanonical", place),
            CertFault::TooMany(place) => ("TooMany", place),
            CertFault::NoMemory => ("NoMemory", Place::START),
        }
    }
}
