//! Why a built-in function has no effect.

ghost use Rattle.std.specs.Prelude.{◌≡◌};

use bst_meaning::fault::Fault;
use bv_base::memory::NoMemory;
use std::alloc::{AllocError, AllocFailed};

/// Why a built-in function has no effect.
#[derive(Clone, Copy)]
pub enum Stop {
    /// An execution error.
    Fault(Fault),
    /// An allocation was refused.
    NoMemory,
}

impl From<Fault> for Stop {
    ghost use Rattle.bst_step.specs.declared.stop.Stop.{Stop};

    ghost from_gives = { λ fault stop. stop ≡ Stop.Fault fault };

    fn from(fault: Fault) -> Stop {
        Stop::Fault(fault)
    }
}

impl From<NoMemory> for Stop {
    ghost use Rattle.bst_step.specs.declared.stop.Stop.{Stop};

    ghost from_gives = { λ _ stop. stop ≡ Stop.NoMemory };

    fn from(_refused: NoMemory) -> Stop {
        Stop::NoMemory
    }
}

impl From<AllocError> for Stop {
    ghost use Rattle.bst_step.specs.declared.stop.Stop.{Stop};

    ghost from_gives = { λ _ stop. stop ≡ Stop.NoMemory };

    fn from(_refused: AllocError) -> Stop {
        Stop::NoMemory
    }
}

impl<T: Drop> From<AllocFailed<T>> for Stop {
    ghost use Rattle.bst_step.specs.declared.stop.Stop.{Stop};

    ghost from_gives = { λ _ stop. stop ≡ Stop.NoMemory };

    fn from(_refused: AllocFailed<T>) -> Stop {
        Stop::NoMemory
    }
}
