//! What a search has learnt of a state, and takes up again.

ghost use Rattle.std.specs.Prelude.{◌≡◌, []};

use crate::remembered::Remembered;
use lin_facts::row::Row;
use std::alloc::Global;
use std::rc::Rc;

/// Floors of remainders without their constants, and the rows that have a term.
#[derive(Drop)]
pub(crate) struct Learnt {
    pub floors: Remembered<Option<i64>>,
    pub rows: Remembered<Rc<Vec<Row>>>,
}

/// Nothing yet.
pub(crate) fn nothing(alloc: Global) -> Learnt
    ensures floors { result.floors ≡ [] }
    ensures rows { result.rows ≡ [] }
{
    Learnt {
        floors: Remembered::new(alloc),
        rows: Remembered::new(alloc),
    }
}
