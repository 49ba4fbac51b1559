//! Why the reader stops, by how many bytes are left there.

ghost use Rattle.std.specs.Prelude.{◌≡◌, ◌≤◌, length};
ghost use Rattle.cert_format.specs.Faults.{fault_of};

use crate::fault::CertFault;
use bv_base::limits::DATA_BYTES;
use bv_base::memory::NoMemory;
use bv_base::place::Place;

/// Why the reader stops. Each number says how many bytes of the text are left there.
#[derive(Clone, Copy)]
pub(crate) enum Stop {
    Syntax(usize),
    UnknownName(usize),
    OutOfRange(usize),
    NotCanonical(usize),
    TooMany(usize),
    NoMemory,
}

impl From<NoMemory> for Stop {
    ghost use Rattle.std.specs.Prelude.{◌≡◌};
    ghost use Rattle.cert_format.specs.declared.stop.Stop.TheVariants.{NoMemory as WantOfMemory};

    ghost from_gives = { λ _ stop. stop ≡ WantOfMemory };

    fn from(_refused: NoMemory) -> Stop {
        Stop::NoMemory
    }
}

/// The fault of a text for which the reader stops.
pub(crate) fn fault_of(source: &[u8], stop: Stop) -> CertFault
    requires { length source.now ≤ DATA_BYTES }
    ensures { result ≡ fault_of source.now stop }
{
    match stop {
        Stop::Syntax(left) => CertFault::Syntax(Place::before(source, left)),
        Stop::UnknownName(left) => CertFault::UnknownName(Place::before(source, left)),
        Stop::OutOfRange(left) => CertFault::OutOfRange(Place::before(source, left)),
        Stop::NotCanonical(left) => CertFault::NotCanonical(Place::before(source, left)),
        Stop::TooMany(left) => CertFault::TooMany(Place::before(source, left)),
        Stop::NoMemory => CertFault::NoMemory,
    }
}
