//! A writer of the machine that the program runs on.

ghost use Rattle.std.specs.Prelude.{◌≡◌, None};

use crate::sink::{PutAnswer, Sink};
use std::io::Write;

/// A sink over a writer. Nothing is told of what was written.
#[derive(Drop)]
pub struct HostSink<W: Write + Drop> {
    writer: W,
    faults: u64,
}

impl<W: Write + Drop> HostSink<W> {
    /// A sink over this writer, which hasn't failed.
    pub fn new(writer: W) -> HostSink<W>
        ensures writer { result.writer ≡ writer }
        ensures faults { result.faults ≡ 0 }
    {
        HostSink { writer, faults: 0 }
    }
}

impl<W: Write + Drop> Sink for HostSink<W> {
    ghost written = { λ _. None };

    ghost faults = { λ h. h.faults };

    /// Failed is every error of the writer.
    fn put(&mut self, piece: &[u8]) -> Result<usize, PutAnswer> {
        match self.writer.write(piece) {
            Ok(count) => {
                if count == 0 {
                    self.faults = self.faults.saturating_add(1);
                }
                Ok(count)
            }
            Err(_) => {
                self.faults = self.faults.saturating_add(1);
                Err(PutAnswer::Failed)
            }
        }
    }
}
