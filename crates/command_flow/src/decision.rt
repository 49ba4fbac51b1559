//! The checker's decision (docs/CHECKER.md, "Certificates").

ghost use Rattle.std.specs.Prelude.{◌≡◌, ◌+◌, ◌≤◌, ℕ, [], Ok, ◌∷◌, MatchOption, OnOk, option_map};
ghost use Rattle.command_flow.specs.Between as between;
ghost use Rattle.command_flow.specs.Checks as flow;
ghost use Rattle.command_flow.specs.Ready.{AreReady};
ghost use Rattle.command_flow.specs.Records.{AreFrom, record_at};
ghost use Rattle.command_flow.specs.Subjects.{IsCertified, IsSound, Safe, Takes};

use crate::at::At;
use crate::between::opened;
use crate::flow::command_taken;
use crate::laws::accepted_styles_are_safe;
use bst_meaning::laws::runs_are_well_formed;
use bv_base::place::Place;
use cert_check::refusal::Walk;
use cert_check::{Checker, held};
use cert_format::cert::{Cert, CommandPart};
use name_table::style::Style;
use std::alloc::Global;

/// Decides a certificate of a style: it is accepted exactly where every rule holds, and then the style is safe under the
/// certificate's condition; else the first rule that fails is given, with its place.
pub fn check(alloc: Global, style: &Style, cert: &Cert) -> Walk
    requires sound { IsSound style.now }
    requires certified { IsCertified style.now cert.now }
    ensures decides { Takes (flow.checked style.now cert.now) [] result }
    ensures safe { OnOk result (Safe style.now cert.now.cond) }
{
    accepted_styles_are_safe();
    runs_are_well_formed();
    let checker = held(Place::START, Checker::new(alloc, style, cert))?;
    check_summaries(&checker, cert)?;
    check_loops(&checker, cert)?;
    check_commands(&checker, alloc, style, cert)
}

/// Checks the summaries in order.
fn check_summaries(checker: &Checker<'_>, cert: &Cert) -> Walk
    requires cert { cert.now ≡ checker.now.cert }
    ensures { Takes (flow.summaries_checked checker.now.style checker.now.cert checker.now.cert.summaries) [] result }
{
    for index in 0..cert.summaries.as_slice().len() {
        checker.check_summary(index)?;
    }
    Ok(())
}

/// Checks the loops in order.
fn check_loops(checker: &Checker<'_>, cert: &Cert) -> Walk
    requires cert { cert.now ≡ checker.now.cert }
    ensures { Takes (flow.loops_checked checker.now.style checker.now.cert checker.now.cert.loops) [] result }
{
    for index in 0..cert.loops.as_slice().len() {
        checker.check_loop(index)?;
    }
    Ok(())
}

/// Checks the commands in the style's order.
fn check_commands<'a>(
    checker: &'a Checker<'a>,
    alloc: Global,
    style: &'a Style,
    cert: &'a Cert,
) -> Walk
    requires sound { IsSound style.now }
    requires certified { IsCertified style.now cert.now }
    requires style { style.now ≡ checker.now.style }
    requires cert { cert.now ≡ checker.now.cert }
    requires opened { AreReady style.now (between.opened style.now) }
    ensures { Takes (flow.commands_checked style.now cert.now 0 (between.opened style.now) style.now.commands) [] result }
{
    let mut between = held(Place::START, opened(alloc, style))?;
    let mut records = cert.commands.as_slice();
    for (index, command) in style.commands.as_slice().iter().enumerate() {
        let (record, later) = first_record(index, records);
        records = later;
        let at = At {
            checker,
            alloc,
            style,
            cond: &cert.cond,
            command: *command,
        };
        between = command_taken(&at, record, between)?;
    }
    Ok(())
}

/// The record of the command of a number, which is the first or there is none, and the records behind it.
fn first_record(index: usize, records: &[CommandPart]) -> (Option<&CommandPart>, &[CommandPart])
    requires from { AreFrom index records.now }
    ensures record { option_map (λ first. first.now) result.0 ≡ record_at index records.now }
    ensures from { AreFrom (index + 1) result.1.now }
    ensures later { (later : ℕ) → index + 1 ≤ later → record_at later records.now ≡ record_at later result.1.now }
    ensures behind { MatchOption result.0 (result.1.now ≡ records.now) (λ first. records.now ≡ first.now ∷ result.1.now) }
{
    let Some((first, rest)) = records.split_first() else {
        return (None, records);
    };
    if first.index as usize == index {
        (Some(first), rest)
    } else {
        (None, records)
    }
}
