//! What a token demands of a state, and why a state has no effect.

ghost use Rattle.std.specs.Prelude.{◌≡◌};

use bv_base::memory::NoMemory;

/// What a built-in function demands of its operands or its surroundings. Each is an execution error that it would
/// come to, but the last: a whole stack is known.
#[derive(Clone, Copy, Debug, PartialEq, Eq)]
pub enum DemandKind {
    EmptyPop,
    WrongKind,
    NotVariable,
    NoEntry,
    BadCase,
    NotOneByte,
    NotAscii,
    BadNameIndex,
    BadName,
    BadPattern,
    IntRange,
    StackLeft,
    WholeStack,
}

/// A demand, and the operand that it is about: operands are numbered from 1, the top first, and 0 stands where the
/// demand is about none.
#[derive(Clone, Copy, Debug, PartialEq, Eq)]
pub struct Demand {
    pub kind: DemandKind,
    pub operand: u8,
}

/// Why a token has no effect on a state.
#[derive(Clone, Copy, Debug, PartialEq, Eq)]
pub enum EffectFault {
    /// A demand isn't met.
    Demand(Demand),
    /// A line of a piece, by its number from 1, isn't shown; 0 for what comes before the lines.
    NotEntailed(u32),
    /// No hint is left where one is taken.
    HintsShort,
    /// The hint is none of those that the token takes.
    WrongHint,
    /// Want of memory.
    NoMemory,
}

impl EffectFault {
    ghost use Rattle.sym_state.specs.Demands.{fails};

    /// A demand that isn't met.
    pub fn unmet(kind: DemandKind, operand: u8) -> EffectFault
        ensures { result ≡ fails kind operand }
    {
        EffectFault::Demand(Demand { kind, operand })
    }
}

impl From<NoMemory> for EffectFault {
    ghost use Rattle.sym_state.specs.declared.demand.EffectFault.TheVariants.{NoMemory as WantOfMemory};

    ghost from_gives = { λ _ fault. fault ≡ WantOfMemory };

    fn from(_refused: NoMemory) -> EffectFault {
        EffectFault::NoMemory
    }
}
