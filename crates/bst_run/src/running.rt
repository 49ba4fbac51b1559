//! A run that is delivered while it goes: its lines are put part by part.

ghost use Rattle.std.specs.Prelude.{◌≡◌, ◌+◌, ◌≤◌, ◌++◌, ℕ, [], IfOk, OnOk, IsErrOf};
ghost use Rattle.bst_run.specs.Answers as answers;
ghost use Rattle.bst_run.specs.Delivery.{sunk, IsPut, IsCut, IsHeld, IsDelivered, Delivers};
ghost use Rattle.bst_run.specs.Putting.{AreSoFar, HasEnding, unwritten};
ghost use Rattle.bst_run.specs.Ran as rule;
ghost use Rattle.bst_run.specs.Subjects.{Config, added, configuration, first, lines_of, page_in, steps, turn_of};
ghost use Rattle.bst_step.specs.Machine.{style_of};

use crate::answer::{Answer, Given, Run};
use crate::deliver::{deliver, put};
use crate::report::{budget_line, fault_line};
use bst_step::machine::{Machine, Page, Turn};
use bv_base::memory::NoMemory;
use bv_base::sink::{PutAnswer, Sink};
use bv_base::status::Status;
use bv_base::text::Text;
use std::alloc::Global;

/// After so many steps what was written is put.
const PART: u32 = 8_192;

/// Delivers what the words of a command came to, and answers its status. Where memory was wanting for it nothing is put.
pub fn deliver_answer<O: Sink, E: Sink>(
    alloc: Global,
    answer: Result<Answer, NoMemory>,
    out: &mut O,
    err: &mut E,
) -> Status
    ensures { Delivers answer result (sunk ⟦<O as Sink>⟧ out.old out.new) (sunk ⟦<E as Sink>⟧ err.old err.new) }
{
    match answer {
        Ok(answer) => deliver_given(alloc, answer.into_given(), out, err),
        Err(NoMemory) => Status::NoMemory,
    }
}

/// Puts the texts of an outcome that is made, or takes the steps of the run that is asked for.
fn deliver_given<O: Sink, E: Sink>(alloc: Global, given: Given, out: &mut O, err: &mut E) -> Status
    ensures { IsDelivered (answers.outcome_of given) result (sunk ⟦<O as Sink>⟧ out.old out.new) (sunk ⟦<E as Sink>⟧ err.old err.new) }
{
    match given {
        Given::Made(outcome) => deliver(Ok(outcome), out, err),
        Given::Asked(run) => put_run(alloc, &run, out, err),
    }
}

/// Takes the steps of a run, puts its lines while it goes, and then its log.
fn put_run<O: Sink, E: Sink>(alloc: Global, run: &Run, out: &mut O, err: &mut E) -> Status
    ensures { IsDelivered (answers.ran run.now) result (sunk ⟦<O as Sink>⟧ out.old out.new) (sunk ⟦<E as Sink>⟧ err.old err.new) }
{
    let Ok(mut machine) = Machine::new(alloc, &run.style, &run.found.list) else {
        return Status::NoMemory;
    };
    match put_lines(alloc, &mut machine, run.steps, out) {
        Ok(turn) => put_ending(alloc, run, &machine, turn, err),
        Err(PutAnswer::Failed) => Status::WriteFailed,
        Err(PutAnswer::NoMemory) => Status::NoMemory,
    }
}

/// Takes so many steps, or those up to the first that doesn't go on, and puts the lines that are finished. The answer is
/// what the machine then stands at, without what was written. Once a part doesn't go on, the steps that are left are one part.
fn put_lines<O: Sink>(
    alloc: Global,
    machine: &mut Machine<'_>,
    count: u32,
    out: &mut O,
) -> Result<Turn, PutAnswer>
    requires { (configuration machine.now).events ≡ [] }
    ensures moved { OnOk result (configuration machine.new ≡ unwritten (steps (style_of machine.old) count (configuration machine.old))) }
    ensures turn { IfOk result (λ turn. turn ≡ turn_of (configuration machine.new)) }
    ensures done { OnOk result (IsPut (lines_of (steps (style_of machine.old) count (configuration machine.old))) (sunk ⟦<O as Sink>⟧ out.old out.new)) }
    ensures failed { IsErrOf result PutAnswer.Failed
        → IsCut (lines_of (steps (style_of machine.old) count (configuration machine.old))) (sunk ⟦<O as Sink>⟧ out.old out.new) }
    ensures wanting { IsErrOf result PutAnswer.NoMemory
        → IsHeld (lines_of (steps (style_of machine.old) count (configuration machine.old))) (sunk ⟦<O as Sink>⟧ out.old out.new) }
{
    let mut page = Page::new(alloc);
    let mut left = count;
    let mut part = PART;
    while left > part {
        let so_far = put_part(machine, part, &mut page, out)?;
        left -= part;
        part = next_part(&so_far, left);
    }
    let turn = put_part(machine, left, &mut page, out)?;
    put_rest(page, out)?;
    Ok(turn)
}

/// How many steps the next part has: all that are left, where the last one didn't go on, since none of these changes anything.
fn next_part(so_far: &Turn, left: u32) -> u32
    ensures { 1 ≤ result }
{
    match so_far {
        Turn::Went => PART,
        _ => left.max(1),
    }
}

/// Takes so many steps, and puts the lines that they finish.
fn put_part<O: Sink>(
    machine: &mut Machine<'_>,
    count: u32,
    page: &mut Page,
    out: &mut O,
) -> Result<Turn, PutAnswer>
    ensures further { OnOk result ((k : ℕ) (c : Config) (start : O)
        → AreSoFar (style_of machine.old) k c (configuration machine.old) (page_in page.old) (sunk ⟦<O as Sink>⟧ start out.old)
        → AreSoFar (style_of machine.old) (k + count) c (configuration machine.new) (page_in page.new) (sunk ⟦<O as Sink>⟧ start out.new)) }
    ensures turn { IfOk result (λ turn. turn ≡ turn_of (configuration machine.new)) }
    ensures style { style_of machine.new ≡ style_of machine.old }
    ensures failed { IsErrOf result PutAnswer.Failed → (k more : ℕ) (c : Config) (start : O)
        → AreSoFar (style_of machine.old) k c (configuration machine.old) (page_in page.old) (sunk ⟦<O as Sink>⟧ start out.old)
        → IsCut (lines_of (steps (style_of machine.old) (k + count + more) c)) (sunk ⟦<O as Sink>⟧ start out.new) }
    ensures wanting { IsErrOf result PutAnswer.NoMemory → (k more : ℕ) (c : Config) (start : O)
        → AreSoFar (style_of machine.old) k c (configuration machine.old) (page_in page.old) (sunk ⟦<O as Sink>⟧ start out.old)
        → IsHeld (lines_of (steps (style_of machine.old) (k + count + more) c)) (sunk ⟦<O as Sink>⟧ start out.new) }
{
    let turn = match taken(machine, count, page) {
        Ok(turn) => turn,
        Err(NoMemory) => return Err(PutAnswer::NoMemory),
    };
    put(out, page.text())?;
    page.clear_text();
    Ok(turn)
}

/// Takes so many steps, and adds what they write to a page.
fn taken(machine: &mut Machine<'_>, count: u32, page: &mut Page) -> Result<Turn, NoMemory>
    ensures moved { OnOk result (configuration machine.new ≡ unwritten (steps (style_of machine.old) count (configuration machine.old))) }
    ensures page { OnOk result (page_in page.new ≡ added (page_in page.old) (steps (style_of machine.old) count (configuration machine.old)).events) }
    ensures turn { IfOk result (λ turn. turn ≡ turn_of (configuration machine.new)) }
    ensures style { style_of machine.new ≡ style_of machine.old }
{
    let turn = machine.run(u64::from(count))?;
    machine.write_to(page)?;
    Ok(turn)
}

/// Puts the lines that are finished on a page.
fn put_rest<O: Sink>(page: Page, out: &mut O) -> Result<(), PutAnswer>
    ensures done { OnOk result (IsPut (page_in page).text (sunk ⟦<O as Sink>⟧ out.old out.new)) }
    ensures failed { IsErrOf result PutAnswer.Failed → IsCut (page_in page).text (sunk ⟦<O as Sink>⟧ out.old out.new) }
    ensures wanting { IsErrOf result PutAnswer.NoMemory → IsHeld (page_in page).text (sunk ⟦<O as Sink>⟧ out.old out.new) }
{
    match page.finish() {
        Ok(text) => put(out, text.as_slice()),
        Err(NoMemory) => Err(PutAnswer::NoMemory),
    }
}

/// Puts the log of a run whose lines were put, and answers its status.
fn put_ending<E: Sink>(
    alloc: Global,
    run: &Run,
    machine: &Machine<'_>,
    turn: Turn,
    err: &mut E,
) -> Status
    ensures { HasEnding (answers.ran_to run.now turn (configuration machine.now)) result (sunk ⟦<E as Sink>⟧ err.old err.new) }
{
    let Ok((status, log)) = ending_of(alloc, run, machine, turn) else {
        return Status::NoMemory;
    };
    match put(err, log.as_slice()) {
        Ok(()) => status,
        Err(PutAnswer::Failed) => Status::WriteFailed,
        Err(PutAnswer::NoMemory) => Status::NoMemory,
    }
}

/// The status of a run whose machine has come to this, and its log with the last line behind it.
fn ending_of(
    alloc: Global,
    run: &Run,
    machine: &Machine<'_>,
    turn: Turn,
) -> Result<(Status, Vec<u8>), NoMemory>
    ensures status { IfOk result (λ both. both.0 ≡ (answers.ran_to run.now turn (configuration machine.now)).status) }
    ensures err { IfOk result (λ both. both.1.items ≡ (answers.ran_to run.now turn (configuration machine.now)).err) }
{
    let mut log = whole_log(alloc, run, machine)?;
    match turn {
        Turn::Ended => Ok((Status::Done, log)),
        Turn::Went => {
            log.extend_from_slice(budget_line(alloc, run.steps)?.as_bytes())?;
            Ok((Status::Budget, log))
        }
        Turn::Faulted(fault, site) => {
            let key = key_text(machine, site.entry);
            log.extend_from_slice(fault_line(alloc, fault, site.place, key)?.as_slice())?;
            Ok((Status::Fault, log))
        }
    }
}

/// The log: what it begins with, the warnings of the databases, those of the joining, and the lines that the run logged.
fn whole_log(alloc: Global, run: &Run, machine: &Machine<'_>) -> Result<Vec<u8>, NoMemory>
    ensures { IfOk result (λ log. log.items
        ≡ run.now.front ++ rule.log_at run.now.reading run.now.found.warnings (configuration machine.now)) }
{
    let mut log = Vec::new(alloc);
    log.extend_from_slice(run.front.as_slice())?;
    add_lines(&mut log, run.reading.as_slice())?;
    add_lines(&mut log, run.found.warnings.as_slice())?;
    machine.add_log(&mut log)?;
    Ok(log)
}

/// The key of the visited entry, and `-` where none is visited.
fn key_text<'a>(machine: &'a Machine<'_>, entry: Option<u64>) -> &'a [u8]
    ensures { result.now ≡ rule.key_text entry (configuration machine.now) }
{
    match entry {
        Some(position) => machine.key(position),
        None => b"-",
    }
}

/// Adds lines, each with its line end.
fn add_lines(text: &mut Vec<u8>, lines: &[Text]) -> Result<(), NoMemory>
    ensures { OnOk result (text.new.items ≡ text.old.items ++ rule.ended_lines lines.now) }
{
    for line in lines {
        text.extend_from_slice(line.as_slice())?;
        text.push(b'\n')?;
    }
    Ok(())
}
