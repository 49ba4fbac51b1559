//! The commands of a style whose hints, loops and pieces are found (docs/ANALYSER.md, "Commands").

ghost use Rattle.std.specs.Prelude.{◌≡◌, ◌≤◌, ◌<◌, ◌++◌, ◌∷◌, [], true, false, IfOk, IfSome, OnOk, length, option_map};
ghost use Rattle.bst_meaning.specs.declared.value.Target.TheVariants.{Named};
ghost use Rattle.straight_hints.specs.Found.{piece_hints as piece_hints_found};
ghost use Rattle.straight_hints.specs.declared.finding.Finding.TheVariants.{Straight};
ghost use Rattle.sym_state.specs.Positions.{AtStart, AtNext, AtEnd};
ghost use Rattle.cert_check.specs.Units.{call_made};
ghost use Rattle.command_flow.specs.Between as between;
ghost use Rattle.command_flow.specs.Between.{piece_moved as piece_moved_to};
ghost use Rattle.command_flow.specs.Commands as commands;
ghost use Rattle.command_flow.specs.Ready.{Agrees, AreReady, Decides, IsReady};
ghost use Rattle.command_flow.specs.Subjects.{All, CanEnd, HasRoom, IsEnd, IsSound, started};
ghost use Rattle.command_flow.specs.Templates as rule;

use crate::at::At;
use crate::between::{Between, copied, given, opened};
use crate::ends::all_emptied;
use crate::flow::{one, state_of};
use crate::kept::{first_visit, left_in, rows_left_by};
use crate::leaving::{AFTER_EXECUTE, AFTER_VISIT};
use crate::moving::{Moment, piece_moved};
use bst_meaning::laws::runs_are_well_formed;
use bst_meaning::value::Target;
use bv_base::memory::NoMemory;
use bv_base::place::Place;
use bv_base::seq::Seq;
use cert_check::limits::MOST_LOOPS;
use cert_check::refusal::{Reason, Refusal};
use cert_check::{Called, Checker, Loops, held, refuse};
use cert_format::cert::{CommandPart, Loop};
use name_table::names::NameId;
use name_table::style::{Command, Style};
use std::alloc::Global;
use std::slice::from_ref;
use straight_hints::{Finding, piece_hints};
use sym_state::hint::Hint;
use sym_state::piece::Piece;
use sym_state::state::State;

/// The most visits of a command that are walked: each but the last leaves out one of at most 64 rows.
const MOST_VISITS: u32 = 65;

/// What stands between commands: what is known there, and the loops that stay.
#[derive(Drop)]
pub struct Lasting {
    pub between: Between,
    pub loops: Seq<Loop>,
}

/// What is made for commands: what stands behind them, and their records.
#[derive(Drop)]
pub struct Made {
    pub lasting: Lasting,
    pub parts: Seq<CommandPart>,
}

/// What is found of a command's visits: what stands before each of them, and the call from there.
#[derive(Drop)]
pub struct Visits {
    pub visit: Piece,
    pub calling: Called,
}

/// What is made for the commands of a style, or the first rule that fails, with its place. The checker is that of the bare certificate of
/// the condition under which the style is walked.
pub fn make<M: Loops>(
    checker: &Checker<'_>,
    alloc: Global,
    style: &Style,
    maker: &M,
) -> Result<Made, Refusal>
    requires sound { IsSound style.now }
    requires style { style.now ≡ checker.now.style }
    requires same { M.style maker.now ≡ checker.now.style }
    ensures makes { Decides (rule.made_in (rule.seeking_by checker.now (M.made maker.now))) result }
    ensures records { IfOk result (λ made. rule.AreMadeBefore style.now (length style.now.commands) made.parts) }
    ensures lasts { IfOk result (λ made. rule.CanLast style.now made.lasting) }
{
    runs_are_well_formed();
    commands_made(checker, alloc, style, maker)
}

/// The commands in the style's order.
fn commands_made<M: Loops>(
    checker: &Checker<'_>,
    alloc: Global,
    style: &Style,
    maker: &M,
) -> Result<Made, Refusal>
    requires sound { IsSound style.now }
    requires style { style.now ≡ checker.now.style }
    requires same { M.style maker.now ≡ checker.now.style }
    requires opened { AreReady style.now (between.opened style.now) }
    ensures makes { Decides (rule.made_in (rule.seeking_by checker.now (M.made maker.now))) result }
    ensures records { IfOk result (λ made. rule.AreMadeBefore style.now (length style.now.commands) made.parts) }
    ensures lasts { IfOk result (λ made. rule.CanLast style.now made.lasting) }
{
    let mut parts = Vec::new(alloc);
    let mut lasting = Lasting {
        between: held(Place::START, opened(alloc, style))?,
        loops: Seq::new(alloc),
    };
    for (index, command) in style.commands.as_slice().iter().enumerate() {
        let at = At {
            checker,
            alloc,
            style,
            cond: checker.cond(),
            command: *command,
        };
        let made = command_made(&at, maker, index as u32, lasting)?;
        held(command.place, append(&mut parts, made.parts))?;
        lasting = made.lasting;
    }
    Ok(Made {
        lasting,
        parts: Seq::from_vec(parts),
    })
}

/// Appends records.
fn append(parts: &mut Vec<CommandPart>, more: Seq<CommandPart>) -> Result<(), NoMemory>
    ensures { OnOk result (parts.new.items ≡ parts.old.items ++ more) }
{
    let mut more = more.into_vec();
    parts.append(&mut more)?;
    Ok(())
}

/// A command: READ, SORT and declarations change nothing that is known.
fn command_made<M: Loops>(
    at: &At<'_>,
    maker: &M,
    index: u32,
    lasting: Lasting,
) -> Result<Made, Refusal>
    requires at { Agrees at.now }
    requires same { M.style maker.now ≡ at.now.checker.now.style }
    requires there { index < length at.now.style.now.commands }
    requires lasts { rule.CanLast at.now.style.now lasting }
    ensures makes { Decides (rule.command_in (rule.seeking_by at.now.checker.now (M.made maker.now))
        index at.now.command.command at.now.command.place lasting) result }
    ensures made { IfOk result (rule.HasMade at.now.style.now index) }
{
    match at.command.command {
        Command::Execute(name) => executed(at, maker, index, name, lasting),
        Command::Iterate(name) | Command::Reverse(name) => visited(at, maker, index, name, lasting),
        _ => Ok(Made {
            lasting,
            parts: Seq::new(at.alloc),
        }),
    }
}

/// EXECUTE: what its end states have in common of the global variables stands behind it.
fn executed<M: Loops>(
    at: &At<'_>,
    maker: &M,
    index: u32,
    name: NameId,
    lasting: Lasting,
) -> Result<Made, Refusal>
    requires at { Agrees at.now }
    requires same { M.style maker.now ≡ at.now.checker.now.style }
    requires there { index < length at.now.style.now.commands }
    requires lasts { rule.CanLast at.now.style.now lasting }
    ensures makes { Decides (rule.executed_in (rule.seeking_by at.now.checker.now (M.made maker.now))
        index name at.now.command.place lasting) result }
    ensures made { IfOk result (rule.HasMade at.now.style.now index) }
{
    let place = at.command.place;
    let starts = from_ref(&lasting.between.globals);
    let start = held(place, state_of(at, starts, false))?;
    let stay = lasting.loops.as_slice().len();
    let calling = called(at, maker, stay, name, start)?;
    held(place, executed_by(at, index, name, lasting, calling))
}

/// EXECUTE, by what its call came to: it leaves what the states at the end have in common.
fn executed_by(
    at: &At<'_>,
    index: u32,
    name: NameId,
    lasting: Lasting,
    calling: Called,
) -> Result<Made, NoMemory>
    requires at { Agrees at.now }
    requires lasts { rule.CanLast at.now.style.now lasting }
    requires called { rule.HasCalled at.now.style.now (length lasting.loops) calling }
    ensures { IfOk result (λ made. made ≡ rule.executed_by at.now.style.now at.now.cond.now index name lasting calling) }
{
    let after = after_left(at, name, &lasting.between.globals, calling.given.as_slice())?;
    executed_with(at, index, lasting, calling, after)
}

/// What an EXECUTE leaves of the global variables.
fn after_left(
    at: &At<'_>,
    name: NameId,
    globals: &Piece,
    states: &[State],
) -> Result<Option<Piece>, NoMemory>
    requires at { Agrees at.now }
    requires globals { IsReady at.now.style.now globals.now }
    requires states { All (IsEnd at.now.style.now) states.now }
    ensures left { IfOk result (λ left. left ≡ rule.left_in (rule.frame_left at.now.style.now at.now.cond.now name rule.after_execute
        (started at.now.style.now at.now.cond.now (globals.now ∷ []) true false)) states.now) }
    ensures stands { IfOk result (λ left. IfSome left (rule.IsLeft at.now.style.now false)) }
{
    let start = state_of(at, from_ref(globals), false)?;
    left_in(at, name, AFTER_EXECUTE, start, states)
}

/// EXECUTE, by what its call came to and by what it leaves.
fn executed_with(
    at: &At<'_>,
    index: u32,
    lasting: Lasting,
    calling: Called,
    after: Option<Piece>,
) -> Result<Made, NoMemory>
    requires at { Agrees at.now }
    requires ends { All (IsEnd at.now.style.now) calling.given }
    requires after { IfSome after (rule.IsLeft at.now.style.now false) }
    ensures { IfOk result (λ made. made ≡ rule.executed_with at.now.cond.now index lasting calling after) }
{
    let Lasting { between, loops } = lasting;
    let known = given(at.alloc, after.as_ref())?;
    let hints = with_ends(
        at,
        calling.found,
        from_ref(&known),
        calling.given.as_slice(),
    )?;
    let parts = executed_parts(at.alloc, index, after, hints)?;
    let between = Between {
        globals: known,
        entry: between.entry,
    };
    let lasting = behind(loops, between, calling.loops)?;
    Ok(Made { lasting, parts })
}

/// What stands behind a command: the loops of its call come behind those that stay.
fn behind(loops: Seq<Loop>, between: Between, more: Seq<Loop>) -> Result<Lasting, NoMemory>
    ensures { IfOk result (λ lasting. lasting ≡ record { between = between; loops = loops ++ more }) }
{
    let mut loops = loops.into_vec();
    let mut more = more.into_vec();
    loops.append(&mut more)?;
    Ok(Lasting {
        between,
        loops: Seq::from_vec(loops),
    })
}

/// The record of an EXECUTE: there is none where it leaves nothing and takes no hint.
fn executed_parts(
    alloc: Global,
    index: u32,
    after: Option<Piece>,
    hints: Vec<Hint>,
) -> Result<Seq<CommandPart>, NoMemory>
    ensures { IfOk result (λ parts. parts ≡ rule.executed_parts index after hints.items) }
{
    let mut parts = Vec::new(alloc);
    if after.is_some() || !hints.as_slice().is_empty() {
        parts.push(CommandPart {
            index,
            after,
            visit: None,
            keeps: None,
            hints: Seq::from_vec(hints),
        })?;
    }
    Ok(Seq::from_vec(parts))
}

/// ITERATE and REVERSE.
fn visited<M: Loops>(
    at: &At<'_>,
    maker: &M,
    index: u32,
    name: NameId,
    lasting: Lasting,
) -> Result<Made, Refusal>
    requires at { Agrees at.now }
    requires same { M.style maker.now ≡ at.now.checker.now.style }
    requires there { index < length at.now.style.now.commands }
    requires lasts { rule.CanLast at.now.style.now lasting }
    ensures makes { Decides (rule.visited_in (rule.seeking_by at.now.checker.now (M.made maker.now))
        index name at.now.command.place lasting) result }
    ensures made { IfOk result (rule.HasMade at.now.style.now index) }
{
    let place = at.command.place;
    let first = held(place, first_visit(at, name, &lasting.between))?;
    let found = visits_found(at, maker, name, &lasting, first)?;
    held(place, visited_by(at, index, name, lasting, found))
}

/// Visits one after the other, from this one on: each next one leaves out the rows that some state at its end doesn't show of the next
/// entry.
fn visits_found<M: Loops>(
    at: &At<'_>,
    maker: &M,
    name: NameId,
    lasting: &Lasting,
    first: Piece,
) -> Result<Visits, Refusal>
    requires at { Agrees at.now }
    requires same { M.style maker.now ≡ at.now.checker.now.style }
    requires lasts { rule.CanLast at.now.style.now lasting.now }
    requires first { rule.IsVisit at.now.style.now first }
    ensures finds { Decides (rule.visits_from 65 (rule.seeking_by at.now.checker.now (M.made maker.now))
        name at.now.command.place lasting.now first) result }
    ensures visit { IfOk result (λ found. rule.IsVisit at.now.style.now found.visit) }
    ensures called { IfOk result (λ found. rule.HasCalled at.now.style.now (length lasting.now.loops) found.calling) }
{
    let place = at.command.place;
    let mut visit = first;
    for _ in 0..MOST_VISITS {
        let calling = visit_walked(at, maker, name, lasting, &visit)?;
        let rows = held(place, rows_left_by(at, &visit, calling.given.as_slice()))?;
        if rows.len() == visit.rows.as_slice().len() {
            return Ok(Visits { visit, calling });
        }
        visit.rows = Seq::from_vec(rows);
    }
    refuse(place, Reason::NoInvariant)
}

/// One visit.
fn visit_walked<M: Loops>(
    at: &At<'_>,
    maker: &M,
    name: NameId,
    lasting: &Lasting,
    visit: &Piece,
) -> Result<Called, Refusal>
    requires at { Agrees at.now }
    requires same { M.style maker.now ≡ at.now.checker.now.style }
    requires lasts { rule.CanLast at.now.style.now lasting.now }
    requires visit { rule.IsVisit at.now.style.now visit.now }
    ensures walks { Decides (rule.called_in (rule.seeking_by at.now.checker.now (M.made maker.now))
        (length lasting.now.loops) name at.now.command.place
        (commands.started_visit at.now.style.now at.now.cond.now visit.now lasting.now.between.entry)) result }
    ensures called { IfOk result (rule.HasCalled at.now.style.now (length lasting.now.loops)) }
{
    let start = held(
        at.command.place,
        visit_start(at, visit, &lasting.between.entry),
    )?;
    called(at, maker, lasting.loops.as_slice().len(), name, start)
}

/// The state where a visit starts.
fn visit_start(at: &At<'_>, visit: &Piece, entry: &Piece) -> Result<State, NoMemory>
    requires at { Agrees at.now }
    requires visit { IsReady at.now.style.now visit.now }
    requires entry { IsReady at.now.style.now entry.now }
    ensures started { IfOk result (λ state. state ≡ commands.started_visit at.now.style.now at.now.cond.now visit.now entry.now) }
    ensures room { IfOk result (HasRoom at.now.style.now 64 0) }
{
    let starts = [copied(at.alloc, visit)?, copied(at.alloc, entry)?];
    state_of(at, &starts, true)
}

/// ITERATE and REVERSE, by what was found of their visits: these keep what the states at the end have in common.
fn visited_by(
    at: &At<'_>,
    index: u32,
    name: NameId,
    lasting: Lasting,
    found: Visits,
) -> Result<Made, NoMemory>
    requires at { Agrees at.now }
    requires lasts { rule.CanLast at.now.style.now lasting }
    requires visit { rule.IsVisit at.now.style.now found.visit }
    requires called { rule.HasCalled at.now.style.now (length lasting.loops) found.calling }
    ensures { IfOk result (λ made. made ≡ rule.visited_by at.now.style.now at.now.cond.now index name lasting found) }
{
    let keeps = keeps_left(
        at,
        name,
        &found.visit,
        &lasting.between.entry,
        found.calling.given.as_slice(),
    )?;
    visited_with(at, index, lasting, found, keeps)
}

/// What a visit leaves of its entry.
fn keeps_left(
    at: &At<'_>,
    name: NameId,
    visit: &Piece,
    entry: &Piece,
    states: &[State],
) -> Result<Option<Piece>, NoMemory>
    requires at { Agrees at.now }
    requires visit { IsReady at.now.style.now visit.now }
    requires entry { IsReady at.now.style.now entry.now }
    requires states { All (IsEnd at.now.style.now) states.now }
    ensures left { IfOk result (λ left. left ≡ rule.left_in (rule.frame_left at.now.style.now at.now.cond.now name rule.after_visit
        (commands.started_visit at.now.style.now at.now.cond.now visit.now entry.now)) states.now) }
    ensures stands { IfOk result (λ left. IfSome left (rule.IsLeft at.now.style.now false)) }
{
    let start = visit_start(at, visit, entry)?;
    left_in(at, name, AFTER_VISIT, start, states)
}

/// ITERATE and REVERSE, by what was found of their visits and by what these keep.
fn visited_with(
    at: &At<'_>,
    index: u32,
    lasting: Lasting,
    found: Visits,
    keeps: Option<Piece>,
) -> Result<Made, NoMemory>
    requires at { Agrees at.now }
    requires globals { IsReady at.now.style.now lasting.between.globals }
    requires visit { rule.IsVisit at.now.style.now found.visit }
    requires ends { All (IsEnd at.now.style.now) found.calling.given }
    requires keeps { IfSome keeps (rule.IsLeft at.now.style.now false) }
    ensures { IfOk result (λ made. made ≡ rule.visited_with at.now.style.now at.now.cond.now index lasting found keeps) }
{
    let between = behind_visits(at, &found.visit, keeps.as_ref())?;
    let Visits { visit, calling } = found;
    let hints = visits_hints(
        at,
        &lasting.between.globals,
        &visit,
        &between.entry,
        calling.found,
        calling.given.as_slice(),
    )?;
    let lasting = behind(lasting.loops, between, calling.loops)?;
    let parts = visited_parts(at.alloc, index, visit, keeps, hints)?;
    Ok(Made { lasting, parts })
}

/// What is known behind all visits.
fn behind_visits(at: &At<'_>, visit: &Piece, keeps: Option<&Piece>) -> Result<Between, NoMemory>
    requires visit { rule.IsVisit at.now.style.now visit.now }
    ensures { IfOk result (λ between. between ≡ record {
      globals = piece_moved_to AtEnd visit.now;
      entry = commands.given (option_map (λ p. p.now) keeps.entry);
    }) }
{
    Ok(Between {
        globals: piece_moved(at.alloc, Moment::End, visit)?,
        entry: given(at.alloc, keeps)?,
    })
}

/// The record of ITERATE and REVERSE.
fn visited_parts(
    alloc: Global,
    index: u32,
    visit: Piece,
    keeps: Option<Piece>,
    hints: Vec<Hint>,
) -> Result<Seq<CommandPart>, NoMemory>
    ensures { IfOk result (λ parts. parts ≡ rule.visited_parts index visit keeps hints.items) }
{
    let mut parts = Vec::new(alloc);
    parts.push(CommandPart {
        index,
        after: None,
        visit: Some(visit),
        keeps,
        hints: Seq::from_vec(hints),
    })?;
    Ok(Seq::from_vec(parts))
}

/// Its hints, by the state before all visits, by those that were found on the way, and by the states at the end.
fn visits_hints(
    at: &At<'_>,
    globals: &Piece,
    visit: &Piece,
    kept: &Piece,
    found: Seq<Hint>,
    states: &[State],
) -> Result<Vec<Hint>, NoMemory>
    requires at { Agrees at.now }
    requires globals { IsReady at.now.style.now globals.now }
    requires visit { rule.IsVisit at.now.style.now visit.now }
    requires kept { IsReady at.now.style.now kept.now }
    requires bare { kept.now.stack ≡ [] }
    requires states { All (IsEnd at.now.style.now) states.now }
    ensures { IfOk result (λ hints. hints.items ≡ rule.visits_hints at.now.cond.now
        (started at.now.style.now at.now.cond.now (globals.now ∷ []) true false) visit.now kept.now found states.now) }
{
    let begun = beginning_hints(at, visit, globals)?;
    let ended = visit_ends(at, visit, kept, found, states)?;
    followed(begun, ended)
}

/// Those behind the first: those that were found on the way, and those of the states at the end.
fn visit_ends(
    at: &At<'_>,
    visit: &Piece,
    kept: &Piece,
    found: Seq<Hint>,
    states: &[State],
) -> Result<Vec<Hint>, NoMemory>
    requires visit { rule.IsVisit at.now.style.now visit.now }
    requires kept { IsReady at.now.style.now kept.now }
    requires bare { kept.now.stack ≡ [] }
    requires states { All (IsEnd at.now.style.now) states.now }
    ensures { IfOk result (λ hints. hints.items
        ≡ found ++ rule.ends_hints at.now.cond.now (piece_moved_to AtNext visit.now ∷ (kept.now ∷ [])) states.now) }
{
    let ends = [
        piece_moved(at.alloc, Moment::Next, visit)?,
        copied(at.alloc, kept)?,
    ];
    with_ends(at, found, &ends, states)
}

/// The steps by which the state before all visits shows what stands before each.
fn beginning_hints(at: &At<'_>, visit: &Piece, globals: &Piece) -> Result<Vec<Hint>, NoMemory>
    requires at { Agrees at.now }
    requires visit { rule.IsVisit at.now.style.now visit.now }
    requires globals { IsReady at.now.style.now globals.now }
    ensures { IfOk result (λ hints. hints.items ≡ piece_hints_found Straight at.now.cond.now
        (started at.now.style.now at.now.cond.now (globals.now ∷ []) true false) (piece_moved_to AtStart visit.now)) }
{
    let before = state_of(at, from_ref(globals), false)?;
    let begun = piece_moved(at.alloc, Moment::Start, visit)?;
    piece_hints(Finding::Straight, &before, at.cond, &begun)
}

/// A command's name is called from a state, behind so many loops that stay: what comes of it, where the stack of each state at the end is
/// empty.
fn called<M: Loops>(
    at: &At<'_>,
    maker: &M,
    stay: usize,
    name: NameId,
    start: State,
) -> Result<Called, Refusal>
    requires cond { at.now.cond.now ≡ at.now.checker.now.cert.cond }
    requires same { M.style maker.now ≡ at.now.checker.now.style }
    requires stay { stay ≤ MOST_LOOPS }
    requires room { HasRoom at.now.checker.now.style 64 0 start }
    ensures walks { Decides (rule.called_in (rule.seeking_by at.now.checker.now (M.made maker.now)) stay name at.now.command.place start) result }
    ensures called { IfOk result (rule.HasCalled at.now.checker.now.style stay) }
{
    let calling = call_walked(at, maker, stay, name, start)?;
    all_emptied(at, calling.given.as_slice(), calling.found.as_slice())?;
    Ok(calling)
}

/// What comes of the call, whatever its stacks.
fn call_walked<M: Loops>(
    at: &At<'_>,
    maker: &M,
    stay: usize,
    name: NameId,
    start: State,
) -> Result<Called, Refusal>
    requires same { M.style maker.now ≡ at.now.checker.now.style }
    requires stay { stay ≤ MOST_LOOPS }
    requires room { HasRoom at.now.checker.now.style 64 0 start }
    ensures walks { Decides (call_made (M.made maker.now) at.now.checker.now.style at.now.checker.now.cert stay (start ∷ []) (Named name)
        at.now.command.place) result }
    ensures called { IfOk result (rule.HasCalled at.now.checker.now.style stay) }
{
    let place = at.command.place;
    let states = held(place, one(at.alloc, start))?;
    at.checker
        .make_call(maker, stay, states, Target::Named(name), place)
}

/// Hints, and behind them the steps by which each of some states shows pieces.
fn with_ends(
    at: &At<'_>,
    found: Seq<Hint>,
    pieces: &[Piece],
    states: &[State],
) -> Result<Vec<Hint>, NoMemory>
    requires pieces { All CanEnd pieces.now }
    requires bare { All (λ piece. piece.stack ≡ []) pieces.now }
    requires states { All (IsEnd at.now.style.now) states.now }
    ensures { IfOk result (λ hints. hints.items ≡ found ++ rule.ends_hints at.now.cond.now pieces.now states.now) }
{
    let mut hints = found.into_vec();
    for state in states {
        push_pieces(at, &mut hints, pieces, state)?;
    }
    Ok(hints)
}

/// Adds the steps by which a state shows pieces.
fn push_pieces(
    at: &At<'_>,
    hints: &mut Vec<Hint>,
    pieces: &[Piece],
    state: &State,
) -> Result<(), NoMemory>
    requires pieces { All CanEnd pieces.now }
    requires bare { All (λ piece. piece.stack ≡ []) pieces.now }
    requires state { IsEnd at.now.style.now state.now }
    ensures { OnOk result (hints.new.items ≡ hints.old.items ++ rule.pieces_hints at.now.cond.now pieces.now state.now) }
{
    for piece in pieces {
        let mut more = piece_hints(Finding::Straight, state, at.cond, piece)?;
        hints.append(&mut more)?;
    }
    Ok(())
}

/// Hints behind others.
fn followed(first: Vec<Hint>, more: Vec<Hint>) -> Result<Vec<Hint>, NoMemory>
    ensures { IfOk result (λ all. all.items ≡ first.items ++ more.items) }
{
    let mut all = first;
    let mut more = more;
    all.append(&mut more)?;
    Ok(all)
}
