//! The rules of commands (docs/CHECKER.md, "Commands").

ghost use Rattle.std.specs.Prelude.{◌≡◌, ◌≤◌, Bool, false, true, [], ◌∷◌, Ok, IfOk, MatchResult, length, option_map};
ghost use Rattle.std.specs.List.{All};
ghost use Rattle.std.specs.Option.{ForSome, option_map_or};
ghost use Rattle.bv_base.specs.Answers.{then_do};
ghost use Rattle.bst_meaning.specs.declared.value.Target.TheVariants.{Named};
ghost use Rattle.sym_state.specs.Demands.{HasFewUses};
ghost use Rattle.sym_state.specs.Starting.{started};
ghost use Rattle.sym_state.specs.Positions.{AtEnd, AtNext};
ghost use Rattle.sym_state.specs.WellMade.{HasBounds, IsBounded};
ghost use Rattle.cert_check.specs.Certified.{IsCommandOf, IsMovable};
ghost use Rattle.cert_check.specs.Given.{CanEnd, Leads, Refused, Takes};
ghost use Rattle.cert_check.specs.Room.{HasRoom, IsEnd};
ghost use Rattle.cert_check.specs.Units.{call_walked, none_left};
ghost use Rattle.command_flow.specs.Between.{piece_moved as moved};
ghost use Rattle.command_flow.specs.Commands as rule;
ghost use Rattle.command_flow.specs.Ready.{Agrees, AreReady, ArePartsReady, Decides, IsReady};

use crate::at::At;
use crate::between::{Between, Flow, Parts, copied, parts_of};
use crate::ends::{call_ends, ends_there, piece_shown};
use crate::moving::{Moment, piece_moved};
use crate::shape::is_shaped;
use bst_meaning::value::Target;
use bv_base::memory::NoMemory;
use cert_check::refusal::{Reason, Refusal, Walk};
use cert_check::{held, refuse};
use cert_format::cert::CommandPart;
use name_table::names::NameId;
use name_table::style::{Command, Style};
use std::alloc::Global;
use std::slice::from_ref;
use sym_state::hint::Hints;
use sym_state::piece::Piece;
use sym_state::start::start;
use sym_state::state::State;

/// The state that starts from the pieces of a command, of which the stack is whole.
pub(crate) fn state_of(at: &At<'_>, pieces: &[Piece], at_entry: bool) -> Result<State, NoMemory>
    requires at { Agrees at.now }
    requires ready { All (IsReady at.now.style.now) pieces.now }
    requires few { length pieces.now ≤ 2 }
    ensures started { IfOk result (λ state. state ≡ started at.now.style.now at.now.cond.now pieces.now true at_entry) }
    ensures room { IfOk result (HasRoom at.now.style.now 64 0) }
{
    start(at.alloc, at.style, at.cond, pieces, true, at_entry)
}

/// A command's name is called from a state: the states at its end.
fn walked(
    at: &At<'_>,
    name: NameId,
    state: State,
    hints: &mut Hints<'_>,
) -> Result<Vec<State>, Refusal>
    requires room { HasRoom at.now.checker.now.style 64 0 state }
    requires proofs { All HasFewUses hints.old }
    ensures walked { MatchResult result
        (λ given. Leads (call_walked at.now.checker.now.style at.now.checker.now.cert (state ∷ []) (Named name) at.now.command.place hints.old) given.items hints.new)
        (Refused (call_walked at.now.checker.now.style at.now.checker.now.cert (state ∷ []) (Named name) at.now.command.place hints.old)) }
    ensures bounds { IfOk result (λ given. All HasBounds given.items) }
    ensures proofs { All HasFewUses hints.new }
{
    let place = at.command.place;
    let states = held(place, one(at.alloc, state))?;
    at.checker
        .walk_call(states, Target::Named(name), place, hints)
}

/// One state.
pub(crate) fn one(alloc: Global, state: State) -> Result<Vec<State>, NoMemory>
    ensures { IfOk result (λ states. states.items ≡ state ∷ []) }
{
    let mut states = Vec::new(alloc);
    states.push(state)?;
    Ok(states)
}

/// Each state at the end of a call has an empty stack and entails the pieces, and no hint is left.
fn all_end(at: &At<'_>, pieces: &[Piece], states: &[State], hints: &mut Hints<'_>) -> Walk
    requires pieces { All CanEnd pieces.now }
    requires states { All HasBounds states.now }
    requires proofs { All HasFewUses hints.old }
    ensures { Takes (then_do (rule.call_ends at.now.cond.now at.now.command.place pieces.now states.now hints.old) (none_left at.now.command.place)) [] result }
{
    call_ends(at, pieces, states, hints)?;
    ends_there(at.command.place, hints)
}

/// A command's name is called from a state: each state at the end entails the pieces, and no hint is left.
fn called(at: &At<'_>, name: NameId, state: State, pieces: &[Piece], hints: &mut Hints<'_>) -> Walk
    requires cond { at.now.cond.now ≡ at.now.checker.now.cert.cond }
    requires room { HasRoom at.now.checker.now.style 64 0 state }
    requires pieces { All CanEnd pieces.now }
    requires proofs { All HasFewUses hints.old }
    ensures { Takes (rule.called at.now.checker.now.style at.now.checker.now.cert name at.now.command.place state pieces.now hints.old) [] result }
{
    let given = walked(at, name, state, hints)?;
    all_end(at, pieces, given.as_slice(), hints)
}

/// EXECUTE: `after` holds after the call.
fn executed(at: &At<'_>, name: NameId, parts: Parts<'_>, between: Between) -> Flow
    requires at { Agrees at.now }
    requires parts { ArePartsReady at.now.style.now parts }
    requires between { AreReady at.now.style.now between }
    ensures decides { Decides (rule.executed at.now.checker.now.style at.now.checker.now.cert name at.now.command.place parts.entry between) result }
    ensures ready { IfOk result (AreReady at.now.style.now) }
{
    let Parts {
        after,
        mut hints,
        ..
    } = parts;
    execute_walked(at, name, &between.globals, &after, &mut hints)?;
    Ok(Between {
        globals: after,
        entry: between.entry,
    })
}

/// A call from what is known of the global variables entails the piece.
fn execute_walked(
    at: &At<'_>,
    name: NameId,
    globals: &Piece,
    after: &Piece,
    hints: &mut Hints<'_>,
) -> Walk
    requires at { Agrees at.now }
    requires globals { IsReady at.now.style.now globals.now }
    requires after { IsReady at.now.style.now after.now }
    requires proofs { All HasFewUses hints.old }
    ensures { Takes (rule.called at.now.checker.now.style at.now.checker.now.cert name at.now.command.place
        (started at.now.style.now at.now.cond.now (globals.now ∷ []) true false) (after.now ∷ []) hints.old) [] result }
{
    let state = held(at.command.place, state_of(at, from_ref(globals), false))?;
    called(at, name, state, from_ref(after), hints)
}

/// `visit` holds of the global variables where no entry was visited.
fn visit_begins(at: &At<'_>, globals: &Piece, visit: &Piece, hints: &mut Hints<'_>) -> Walk
    requires at { Agrees at.now }
    requires globals { IsReady at.now.style.now globals.now }
    requires visit { IsReady at.now.style.now visit.now }
    requires movable { All IsMovable visit.now.rows }
    requires proofs { All HasFewUses hints.old }
    ensures begins { Takes (rule.visit_begins at.now.style.now at.now.cond.now at.now.command.place visit.now globals.now hints.old) hints.new result }
    ensures proofs { All HasFewUses hints.new }
{
    let place = at.command.place;
    let state = held(place, state_of(at, from_ref(globals), false))?;
    let first = held(place, piece_moved(at.alloc, Moment::Start, visit))?;
    piece_shown(at, &state, &first, hints)
}

/// A visit is called from the pieces that hold where it begins, and entails those that hold where it ends.
fn visit_walked(
    at: &At<'_>,
    name: NameId,
    starts: &[Piece],
    ends: &[Piece],
    hints: &mut Hints<'_>,
) -> Walk
    requires at { Agrees at.now }
    requires starts { All (IsReady at.now.style.now) starts.now }
    requires few { length starts.now ≤ 2 }
    requires ends { All CanEnd ends.now }
    requires proofs { All HasFewUses hints.old }
    ensures { Takes (rule.called at.now.checker.now.style at.now.checker.now.cert name at.now.command.place
        (started at.now.style.now at.now.cond.now starts.now true true) ends.now hints.old) [] result }
{
    let state = held(at.command.place, state_of(at, starts, true))?;
    called(at, name, state, ends, hints)
}

/// ITERATE and REVERSE: `visit` holds where no entry was visited, and a visit leaves it for the next entry, and `keeps` of
/// its own.
fn visited(at: &At<'_>, name: NameId, parts: Parts<'_>, between: Between) -> Flow
    requires at { Agrees at.now }
    requires parts { ArePartsReady at.now.style.now parts }
    requires between { AreReady at.now.style.now between }
    ensures decides { Decides (rule.visited at.now.checker.now.style at.now.checker.now.cert name at.now.command.place parts.entry between) result }
    ensures ready { IfOk result (AreReady at.now.style.now) }
{
    let Parts {
        visit,
        keeps,
        mut hints,
        ..
    } = parts;
    let Between { globals, entry } = between;
    let place = at.command.place;
    visit_begins(at, &globals, &visit, &mut hints)?;
    let after = held(place, after_visits(at.alloc, &visit, &keeps))?;
    visits_kept(at, name, visit, entry, keeps, &mut hints)?;
    Ok(after)
}

/// A visit from `visit` and what is known of its entry leaves `visit` for the next entry, and `keeps` of its own.
fn visits_kept(
    at: &At<'_>,
    name: NameId,
    visit: Piece,
    entry: Piece,
    keeps: Piece,
    hints: &mut Hints<'_>,
) -> Walk
    requires at { Agrees at.now }
    requires visit { IsReady at.now.style.now visit }
    requires movable { All IsMovable visit.rows }
    requires entry { IsReady at.now.style.now entry }
    requires keeps { IsReady at.now.style.now keeps }
    requires proofs { All HasFewUses hints.old }
    ensures { Takes (rule.called at.now.checker.now.style at.now.checker.now.cert name at.now.command.place
        (started at.now.style.now at.now.cond.now (visit ∷ (entry ∷ [])) true true) (moved AtNext visit ∷ (keeps ∷ [])) hints.old) [] result }
{
    let next = held(
        at.command.place,
        piece_moved(at.alloc, Moment::Next, &visit),
    )?;
    let starts = [visit, entry];
    let ends = [next, keeps];
    visit_walked(at, name, &starts, &ends, hints)
}

/// What stands after all visits: `visit` where none is left, and of each entry what is kept.
fn after_visits(alloc: Global, visit: &Piece, keeps: &Piece) -> Result<Between, NoMemory>
    requires bounded { All IsBounded visit.now.rows }
    requires movable { All IsMovable visit.now.rows }
    ensures { IfOk result (λ after. after ≡ record { globals = moved AtEnd visit.now; entry = keeps.now }) }
{
    Ok(Between {
        globals: piece_moved(alloc, Moment::End, visit)?,
        entry: copied(alloc, keeps)?,
    })
}

/// The rule of a command: READ, SORT and declarations change nothing that is known.
fn command_checked(at: &At<'_>, parts: Parts<'_>, between: Between) -> Flow
    requires at { Agrees at.now }
    requires parts { ArePartsReady at.now.style.now parts }
    requires between { AreReady at.now.style.now between }
    ensures decides { Decides (rule.command_checked at.now.checker.now.style at.now.checker.now.cert at.now.command.command at.now.command.place parts.entry between)
        result }
    ensures ready { IfOk result (AreReady at.now.style.now) }
{
    match at.command.command {
        Command::Execute(name) => executed(at, name, parts, between),
        Command::Iterate(name) | Command::Reverse(name) => visited(at, name, parts, between),
        _ => Ok(between),
    }
}

/// A command with its record, where they fit.
pub(crate) fn command_taken(at: &At<'_>, part: Option<&CommandPart>, between: Between) -> Flow
    requires at { Agrees at.now }
    requires part { ForSome (option_map (λ p. p.now) part) (IsCommandOf at.now.style.now) }
    requires between { AreReady at.now.style.now between }
    ensures decides { Decides (rule.command_taken at.now.checker.now.style at.now.checker.now.cert at.now.command (option_map (λ p. p.now) part.entry) between) result }
    ensures ready { IfOk result (AreReady at.now.style.now) }
{
    let place = at.command.place;
    if !fits(at.style, at.command.command, part) {
        return refuse(place, Reason::CommandShape);
    }
    let parts = held(place, parts_of(at.alloc, part))?;
    command_checked(at, parts, between)
}

/// Whether a command's record fits it, where it has one.
fn fits(style: &Style, command: Command, part: Option<&CommandPart>) -> bool
    ensures { result ≡ option_map_or (rule.is_shaped style.now command) (option_map (λ p. p.now) part.entry) true }
{
    match part {
        Some(part) => is_shaped(style, command, part),
        None => true,
    }
}
