//! The commands of a style whose hints are found (docs/ANALYSER.md, "Commands").

ghost use Rattle.std.specs.Prelude.{◌≡◌, ◌≤◌, Bool, true, [], ◌∷◌, ◌++◌, Ok, IfOk, OnOk, MatchResult, length};
ghost use Rattle.bst_meaning.specs.declared.value.Target.TheVariants.{Named};
ghost use Rattle.cert_check.specs.Given.{Finds, Refused};
ghost use Rattle.cert_check.specs.Units.{call_found};
ghost use Rattle.command_flow.specs.Between as between;
ghost use Rattle.command_flow.specs.Finding as rule;
ghost use Rattle.command_flow.specs.Ready.{Agrees, AreReady, Decides, IsReady};
ghost use Rattle.command_flow.specs.Subjects.{All, Each, GoesOn, HasBounds, HasRoom, HasSmallFields, IsCertified, IsHint, IsSound, started};

use crate::at::At;
use crate::between::{Between, nothing, opened};
use crate::ends::all_emptied;
use crate::flow::{one, state_of};
use bst_meaning::condition::Cond;
use bst_meaning::laws::runs_are_well_formed;
use bst_meaning::value::Target;
use bv_base::memory::NoMemory;
use bv_base::place::Place;
use bv_base::seq::Seq;
use cert_check::refusal::Refusal;
use cert_check::{Checker, held};
use cert_format::cert::{Cert, CommandPart};
use name_table::names::NameId;
use name_table::style::{Command, Style};
use std::alloc::Global;
use std::slice::from_ref;
use straight_hints::Finding;
use sym_state::hint::Hint;
use sym_state::piece::Piece;
use sym_state::state::State;

/// What stands after a command, and the hints that were found for it.
#[derive(Drop)]
pub struct Found {
    pub between: Between,
    pub hints: Seq<Hint>,
}

/// What is found for a command, or the rule that fails.
type FoundHere = Result<Found, Refusal>;

/// The records of a style's commands whose hints are found, or the first rule that fails, with its place. A command for
/// which no hint is found has no record. The certificate is the bare one of the condition under which the style is walked.
pub fn find(
    alloc: Global,
    finding: Finding,
    style: &Style,
    bare: &Cert,
) -> Result<Vec<CommandPart>, Refusal>
    requires sound { IsSound style.now }
    requires certified { IsCertified style.now bare.now }
    ensures finds { GoesOn (rule.records_found finding style.now bare.now) (λ parts. Ok parts.items) result }
    ensures written { IfOk result (λ parts. rule.AreRecords style.now parts.items) }
{
    runs_are_well_formed();
    let checker = held(Place::START, Checker::new(alloc, style, bare))?;
    commands_found(&checker, alloc, finding, style, &bare.cond)
}

/// Commands in the style's order.
fn commands_found<'a>(
    checker: &'a Checker<'a>,
    alloc: Global,
    finding: Finding,
    style: &'a Style,
    cond: &'a Cond,
) -> Result<Vec<CommandPart>, Refusal>
    requires sound { IsSound style.now }
    requires small { HasSmallFields cond.now }
    requires style { style.now ≡ checker.now.style }
    requires cond { cond.now ≡ checker.now.cert.cond }
    requires opened { AreReady style.now (between.opened style.now) }
    ensures finds { GoesOn (rule.records_found finding checker.now.style checker.now.cert) (λ parts. Ok parts.items) result }
    ensures written { IfOk result (λ parts. rule.AreRecords style.now parts.items) }
{
    let mut parts = Vec::new(alloc);
    let mut between = held(Place::START, opened(alloc, style))?;
    for (index, command) in style.commands.as_slice().iter().enumerate() {
        let at = At {
            checker,
            alloc,
            style,
            cond,
            command: *command,
        };
        let found = command_found(&at, finding, between)?;
        held(
            command.place,
            push_record(&mut parts, index as u32, found.hints),
        )?;
        between = found.between;
    }
    Ok(parts)
}

/// Appends the record of the command of a number, where a hint was found.
fn push_record(parts: &mut Vec<CommandPart>, index: u32, hints: Seq<Hint>) -> Result<(), NoMemory>
    ensures { OnOk result (parts.new.items ≡ parts.old.items ++ rule.record_of index hints) }
{
    if !hints.as_slice().is_empty() {
        parts.push(CommandPart {
            index,
            after: None,
            visit: None,
            keeps: None,
            hints,
        })?;
    }
    Ok(())
}

/// A command: READ, SORT and declarations change nothing that is known.
fn command_found(at: &At<'_>, finding: Finding, between: Between) -> FoundHere
    requires at { Agrees at.now }
    requires between { AreReady at.now.style.now between }
    ensures decides { Decides (rule.command_found finding at.now.checker.now.style at.now.checker.now.cert at.now.command.command at.now.command.place between) result }
    ensures found { IfOk result (rule.IsFound at.now.style.now) }
{
    match at.command.command {
        Command::Execute(name) => executed_finding(at, finding, name, between),
        Command::Iterate(name) | Command::Reverse(name) => {
            visited_finding(at, finding, name, between)
        }
        _ => Ok(Found {
            between,
            hints: Seq::new(at.alloc),
        }),
    }
}

/// EXECUTE: nothing is known of the global variables after it.
fn executed_finding(at: &At<'_>, finding: Finding, name: NameId, between: Between) -> FoundHere
    requires at { Agrees at.now }
    requires between { AreReady at.now.style.now between }
    ensures decides { Decides (rule.executed_finding finding at.now.checker.now.style at.now.checker.now.cert name at.now.command.place between) result }
    ensures found { IfOk result (rule.IsFound at.now.style.now) }
{
    let starts = from_ref(&between.globals);
    let hints = called_from(at, finding, name, starts, false)?;
    Ok(Found {
        between: Between {
            globals: nothing(at.alloc),
            entry: between.entry,
        },
        hints,
    })
}

/// ITERATE and REVERSE: nothing is known of the global variables where a visit begins, and of the entries after all visits.
fn visited_finding(at: &At<'_>, finding: Finding, name: NameId, between: Between) -> FoundHere
    requires at { Agrees at.now }
    requires between { AreReady at.now.style.now between }
    ensures decides { Decides (rule.visited_finding finding at.now.checker.now.style at.now.checker.now.cert name at.now.command.place between) result }
    ensures found { IfOk result (rule.IsFound at.now.style.now) }
{
    let starts = [nothing(at.alloc), between.entry];
    let hints = called_from(at, finding, name, &starts, true)?;
    Ok(Found {
        between: Between {
            globals: nothing(at.alloc),
            entry: nothing(at.alloc),
        },
        hints,
    })
}

/// A command's name is called from the state that starts from pieces, of which the stack is whole.
fn called_from(
    at: &At<'_>,
    finding: Finding,
    name: NameId,
    starts: &[Piece],
    at_entry: bool,
) -> Result<Seq<Hint>, Refusal>
    requires at { Agrees at.now }
    requires starts { All (IsReady at.now.style.now) starts.now }
    requires few { length starts.now ≤ 2 }
    ensures decides { Decides (rule.called_finding finding at.now.checker.now.style at.now.checker.now.cert name at.now.command.place
        (started at.now.style.now at.now.cond.now starts.now true at_entry)) result }
    ensures written { IfOk result (λ hints. Each IsHint hints) }
{
    let state = held(at.command.place, state_of(at, starts, at_entry))?;
    called_finding(at, finding, name, state)
}

/// A command's name is called from a state: the hints that are found, where the stack of each state at the end is empty.
fn called_finding(
    at: &At<'_>,
    finding: Finding,
    name: NameId,
    state: State,
) -> Result<Seq<Hint>, Refusal>
    requires cond { at.now.cond.now ≡ at.now.checker.now.cert.cond }
    requires room { HasRoom at.now.checker.now.style 64 0 state }
    ensures decides { Decides (rule.called_finding finding at.now.checker.now.style at.now.checker.now.cert name at.now.command.place state) result }
    ensures written { IfOk result (λ hints. Each IsHint hints) }
{
    let (given, hints) = walked_finding(at, finding, name, state)?;
    all_emptied(at, given.as_slice(), hints.as_slice())?;
    Ok(Seq::from_vec(hints))
}

/// A command's name is called from a state: the states at its end, and the hints that are found on the way.
fn walked_finding(
    at: &At<'_>,
    finding: Finding,
    name: NameId,
    state: State,
) -> Result<(Vec<State>, Vec<Hint>), Refusal>
    requires room { HasRoom at.now.checker.now.style 64 0 state }
    ensures finds { MatchResult result
        (λ p. Finds (call_found finding at.now.checker.now.style at.now.checker.now.cert (state ∷ []) (Named name) at.now.command.place) p.0.items p.1.items)
        (Refused (call_found finding at.now.checker.now.style at.now.checker.now.cert (state ∷ []) (Named name) at.now.command.place)) }
    ensures bounds { IfOk result (λ p. All HasBounds p.0.items) }
    ensures written { IfOk result (λ p. Each IsHint p.1.items) }
{
    let place = at.command.place;
    let states = held(place, one(at.alloc, state))?;
    at.checker
        .find_call(finding, states, Target::Named(name), place)
}
