//! How an outcome is delivered.

ghost use Rattle.std.specs.Prelude.{OnOk, IsErrOf};
ghost use Rattle.bst_run.specs.Delivery.{sunk, IsPut, IsCut, IsHeld, IsDelivered, Delivers};

use crate::outcome::Outcome;
use bv_base::memory::NoMemory;
use bv_base::sink::{PutAnswer, Sink};
use bv_base::status::Status;
use bv_base::write_all::write_all;

/// Puts the texts of an outcome, and answers its status. Where memory was wanting for it nothing is put.
pub fn deliver<O: Sink, E: Sink>(
    outcome: Result<Outcome, NoMemory>,
    out: &mut O,
    err: &mut E,
) -> Status
    ensures { Delivers outcome result (sunk ⟦<O as Sink>⟧ out.old out.new) (sunk ⟦<E as Sink>⟧ err.old err.new) }
{
    match outcome {
        Ok(outcome) => put_texts(&outcome, out, err),
        Err(NoMemory) => Status::NoMemory,
    }
}

/// Puts the text for standard output, and where that was put the text for standard error.
fn put_texts<O: Sink, E: Sink>(outcome: &Outcome, out: &mut O, err: &mut E) -> Status
    ensures { IsDelivered outcome.now result (sunk ⟦<O as Sink>⟧ out.old out.new) (sunk ⟦<E as Sink>⟧ err.old err.new) }
{
    match put(out, outcome.out.as_slice()) {
        Ok(()) => {}
        Err(PutAnswer::Failed) => return Status::WriteFailed,
        Err(PutAnswer::NoMemory) => return Status::NoMemory,
    }
    match put(err, outcome.err.as_slice()) {
        Ok(()) => outcome.status,
        Err(PutAnswer::Failed) => Status::WriteFailed,
        Err(PutAnswer::NoMemory) => Status::NoMemory,
    }
}

/// Puts a text. One without bytes leaves the sink alone, so that it can't fail there.
pub fn put<S: Sink>(sink: &mut S, text: &[u8]) -> Result<(), PutAnswer>
    ensures done { OnOk result (IsPut text.now (sunk ⟦<S as Sink>⟧ sink.old sink.new)) }
    ensures failed { IsErrOf result PutAnswer.Failed → IsCut text.now (sunk ⟦<S as Sink>⟧ sink.old sink.new) }
    ensures wanting { IsErrOf result PutAnswer.NoMemory → IsHeld text.now (sunk ⟦<S as Sink>⟧ sink.old sink.new) }
{
    if text.is_empty() {
        return Ok(());
    }
    write_all(sink, text)
}
