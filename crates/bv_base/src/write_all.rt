//! Writing a whole text.

ghost use Rattle.std.specs.Prelude.{◌≡◌, ◌≢◌, ◌≤◌, ℕ, length, take, OnOk, OnErr, IsErrOf};
ghost use Rattle.bv_base.specs.Outside.{Rose, appended};

use crate::sink::{PutAnswer, Sink};

/// Puts a whole text, piece by piece. After a refusal a prefix of the text was taken.
pub fn write_all<S: Sink>(sink: &mut S, text: &[u8]) -> Result<(), PutAnswer>
    ensures done { OnOk result (S.written sink.new ≡ appended (S.written sink.old) text.now) }
    ensures prefix { OnErr result ((n : ℕ) × (n ≤ length text.now) × (S.written sink.new ≡ appended (S.written sink.old) (take n text.now))) }
    ensures failed { IsErrOf result PutAnswer.Failed → Rose (S.faults sink.old) (S.faults sink.new) }
    ensures steady { S.faults sink.new ≢ S.faults sink.old → IsErrOf result PutAnswer.Failed }
    ensures count { S.faults sink.old ≤ S.faults sink.new }
{
    let mut done = 0;
    while done < text.len() {
        let (_, rest) = text.split_at(done);
        let count = sink.put(rest)?;
        if count == 0 {
            return Err(PutAnswer::Failed);
        }
        done += count;
    }
    Ok(())
}
