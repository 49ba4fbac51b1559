//! Why the reader stops, by how many bytes are left there.

ghost use Rattle.std.specs.Prelude.{◌≡◌, ◌≤◌, length};
ghost use Rattle.bib_read.specs.Stops as stops;

use crate::fault::BibFault;
use bv_base::limits::DATA_BYTES;
use bv_base::memory::NoMemory;
use bv_base::place::Place;

/// Why the reader stops. Each number says how many bytes of the text are left there.
#[derive(Clone, Copy)]
pub(crate) enum Stop {
    Expected(usize),
    EndOfFile,
    Unbalanced(usize),
    RepeatedKey(usize),
    NoMemory,
}

impl From<NoMemory> for Stop {
    ghost use Rattle.std.specs.Prelude.{◌≡◌};
    ghost use Rattle.bib_read.specs.declared.stop.Stop.TheVariants.{NoMemory as WantOfMemory};

    ghost from_gives = { λ _ stop. stop ≡ WantOfMemory };

    fn from(_refused: NoMemory) -> Stop {
        Stop::NoMemory
    }
}

/// What stops the reader at a byte that isn't wanted: the byte, or the text's end.
pub(crate) fn unexpected(rest: &[u8]) -> Stop
    ensures { result ≡ stops.unexpected rest.now }
{
    match rest {
        [] => Stop::EndOfFile,
        _ => Stop::Expected(rest.len()),
    }
}

/// The fault of a text for which the reader stops.
pub(crate) fn fault_of(source: &[u8], stop: Stop) -> BibFault
    requires { length source.now ≤ DATA_BYTES }
    ensures { result ≡ stops.fault_of source.now stop }
{
    match stop {
        Stop::Expected(left) => BibFault::Expected(Place::before(source, left)),
        Stop::EndOfFile => BibFault::EndOfFile(Place::before(source, 0)),
        Stop::Unbalanced(left) => BibFault::Unbalanced(Place::before(source, left)),
        Stop::RepeatedKey(left) => BibFault::RepeatedKey(Place::before(source, left)),
        Stop::NoMemory => BibFault::NoMemory,
    }
}
