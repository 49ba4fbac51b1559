//! What a run writes to, as a trait: the same code writes to real streams and to memory.

ghost use Rattle.std.specs.Prelude.{◌≡◌, ℕ, ◌<◌, ◌≤◌, List, take, length, Option, OnErr, IfOk, IsErrOf};
ghost use Rattle.bv_base.specs.Outside.{Rose, appended};

/// Why a piece wasn't taken.
#[derive(Clone, Copy, Debug, PartialEq, Eq)]
pub enum PutAnswer {
    /// The sink failed, and the faults rose.
    Failed,
    /// Want of memory.
    NoMemory,
}

/// A sink that takes bytes in order.
///
/// `written` has the bytes that were taken so far, where they are told. `faults` counts failures, up to
/// 18446744073709551615.
pub trait Sink {
    ghost written: { Self → Option (List ℕ) };

    ghost faults: { Self → ℕ };

    /// Takes the first bytes of a piece and answers how many. 0 for a piece that isn't empty is a failure.
    fn put(&mut self, piece: &[u8]) -> Result<usize, PutAnswer>
        ensures within { IfOk result (λ n. n ≤ length piece.now) }
        ensures taken { IfOk result (λ n. written self.new ≡ appended (written self.old) (take n piece.now)) }
        ensures stuck { IfOk result (λ n. n ≡ 0 → 0 < length piece.now → Rose (faults self.old) (faults self.new)) }
        ensures kept { OnErr result (written self.new ≡ written self.old) }
        ensures failed { IsErrOf result PutAnswer.Failed → Rose (faults self.old) (faults self.new) }
        ensures wanting { IsErrOf result PutAnswer.NoMemory → faults self.new ≡ faults self.old }
        ensures steady { IfOk result (λ n. 0 < n → faults self.new ≡ faults self.old) }
        ensures count { faults self.old ≤ faults self.new };
}
