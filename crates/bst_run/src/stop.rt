//! Where a command stops before it has done what it is for.

ghost use Rattle.std.specs.Prelude.{◌≡◌};

use crate::outcome::Outcome;
use bv_base::memory::NoMemory;
use std::alloc::AllocError;

/// Why a command stops: the files decide what is told, or the cause lies outside. The name of a file is the one that was
/// begun.
#[derive(Drop)]
pub enum Stop {
    /// The bytes of the files decide this outcome, which is a last line alone.
    Told(Outcome),
    /// No file has this name.
    Absent(String),
    /// The file couldn't be begun or read.
    Failed(String),
    /// The file has more bytes than its limit.
    TooLong(String),
    /// Want of memory.
    NoMemory,
}

impl From<NoMemory> for Stop {
    ghost use Rattle.bst_run.specs.declared.stop.Stop.TheVariants.{NoMemory as WantOfMemory};

    ghost from_gives = { λ _ stop. stop ≡ WantOfMemory };

    fn from(_refused: NoMemory) -> Stop {
        Stop::NoMemory
    }
}

impl From<AllocError> for Stop {
    ghost use Rattle.bst_run.specs.declared.stop.Stop.TheVariants.{NoMemory as WantOfMemory};

    ghost from_gives = { λ _ stop. stop ≡ WantOfMemory };

    fn from(_refused: AllocError) -> Stop {
        Stop::NoMemory
    }
}
