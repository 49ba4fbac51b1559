//! A sink in memory, whose listed calls fail and no other.

ghost use Rattle.std.specs.Prelude.{◌≡◌, ◌<◌, ◌≤◌, [], ◌∷◌, ◌++◌, true, false, Some, length, OnOk, OnErr, IfOk, IsErrOf};

use crate::memory::NoMemory;
use crate::sink::{PutAnswer, Sink};
use std::alloc::Global;
use std::marker::Model;

/// A sink in memory. It tells its bytes, and its calls of `put` are counted from 1.
#[derive(Drop)]
pub struct MemSink {
    written: Vec<u8>,
    calls: u64,
    failing: Vec<u64>,
    faults: u64,
}

impl Model for MemSink {
    ghost use Rattle.bv_base.specs.Memory.{SinkMemory};

    ghost Value = { SinkMemory };

    ghost view = { λ m. record { written = m.written.items; calls = m.calls; failing = m.failing.items; faults = m.faults } };
}

impl MemSink {
    /// Nothing written, no failing calls, and no call made.
    pub fn new(alloc: Global) -> MemSink
        ensures { result ≡ record { written = []; calls = 0; failing = []; faults = 0 } }
    {
        MemSink {
            written: Vec::new(alloc),
            calls: 0,
            failing: Vec::new(alloc),
            faults: 0,
        }
    }

    /// Lets the call of that number fail. A refusal changes nothing.
    pub fn fail_at(&mut self, call: u64) -> Result<(), NoMemory>
        ensures ok { OnOk result (self.new ≡ record self.old { failing = self.old.failing ++ call ∷ [] }) }
        ensures err { OnErr result (self.new ≡ self.old) }
    {
        self.failing.push(call)?;
        Ok(())
    }

    /// The bytes that were taken, in order.
    pub fn bytes(&self) -> &[u8]
        ensures { result.now ≡ self.now.written }
    {
        self.written.as_slice()
    }
}

impl Sink for MemSink {
    ghost use Rattle.bv_base.specs.Outside.{Rose};
    ghost use Rattle.bv_base.specs.Memory.{fails_after, after_put};

    ghost written = { λ m. Some m.written };

    ghost faults = { λ m. m.faults };

    fn put(&mut self, piece: &[u8]) -> Result<usize, PutAnswer>
        ensures listed { IsErrOf result PutAnswer.Failed → fails_after self.old.failing self.old.calls ≡ true }
        ensures unlisted { OnOk result (fails_after self.old.failing self.old.calls ≡ false) }
        ensures whole { IfOk result (λ n. n ≡ length piece.now) }
        ensures after { self.new ≡ after_put self.old piece.now result }
        ensures failed { IsErrOf result PutAnswer.Failed → Rose self.old.faults self.new.faults }
        ensures wanting { IsErrOf result PutAnswer.NoMemory → self.new.faults ≡ self.old.faults }
        ensures steady { IfOk result (λ n. 0 < n → self.new.faults ≡ self.old.faults) }
        ensures count { self.old.faults ≤ self.new.faults }
    {
        self.calls = self.calls.saturating_add(1);
        if self.failing.contains(&self.calls) {
            self.faults = self.faults.saturating_add(1);
            return Err(PutAnswer::Failed);
        }
        if self.written.extend_from_slice(piece).is_err() {
            return Err(PutAnswer::NoMemory);
        }
        Ok(piece.len())
    }
}
