//! The pieces that commands leave (docs/ANALYSER.md, "Commands").

ghost use Rattle.std.specs.Prelude.{◌≡◌, true, IfOk, IfSome};
ghost use Rattle.loop_templates.specs.Visits as visits;
ghost use Rattle.command_flow.specs.Ready.{Agrees, IsReady};
ghost use Rattle.command_flow.specs.Subjects.{All, IsEnd, WellMade};
ghost use Rattle.command_flow.specs.Templates as rule;

use crate::at::At;
use crate::between::Between;
use crate::flow::state_of;
use crate::leaving::{BEFORE_VISITS, Leaving};
use crate::moving::{Moment, piece_moved};
use bst_meaning::condition::Cond;
use bst_meaning::value::Target;
use bv_base::memory::NoMemory;
use cert_check::type_functions;
use lin_facts::row::Row;
use loop_templates::{
    Bound, Frame, Occurrences, command_terms, common_case, occurring, occurring_anywhere,
    push_roots, quoted_variables, rows_left, sums,
};
use name_table::names::NameId;
use name_table::style::Style;
use std::slice::from_ref;
use sym_state::piece::Piece;
use sym_state::state::State;

/// What a command leaves that states have in common, where there is one.
pub(crate) fn left_in(
    at: &At<'_>,
    name: NameId,
    leaving: Leaving,
    start: State,
    states: &[State],
) -> Result<Option<Piece>, NoMemory>
    requires at { Agrees at.now }
    requires leaving { leaving.bound.entry ≡ true → leaving.at_entry ≡ true }
    requires start { WellMade at.now.style.now start }
    requires states { All (WellMade at.now.style.now) states.now }
    ensures left { IfOk result (λ left. left ≡ rule.left_in (rule.frame_left at.now.style.now at.now.cond.now name leaving start) states.now) }
    ensures stands { IfOk result (λ left. IfSome left (rule.IsLeft at.now.style.now leaving.has_pos)) }
{
    match states {
        [] => Ok(None),
        [_, ..] => Ok(Some(case_left(at, name, leaving, start, states)?)),
    }
}

/// What it leaves that these have in common.
fn case_left(
    at: &At<'_>,
    name: NameId,
    leaving: Leaving,
    start: State,
    states: &[State],
) -> Result<Piece, NoMemory>
    requires at { Agrees at.now }
    requires leaving { leaving.bound.entry ≡ true → leaving.at_entry ≡ true }
    requires start { WellMade at.now.style.now start }
    requires states { All (WellMade at.now.style.now) states.now }
    ensures { IfOk result (λ case. case ≡ visits.common_case (rule.frame_left at.now.style.now at.now.cond.now name leaving start) states.now) }
{
    let reached = reached_from(at, name)?;
    let all = Bound {
        globals: true,
        entry: true,
    };
    let writes = quoted_variables(at.alloc, at.style, &reached, all)?;
    let anywhere = occurring_anywhere(at.alloc, at.style)?;
    let terms = command_terms(
        at.alloc,
        at.style,
        &anywhere,
        leaving.bound,
        leaving.has_pos,
    )?;
    let sums = sums(at.alloc, terms.as_slice())?;
    let entering = [start];
    let frame = Frame {
        style: at.style,
        admits: at.cond,
        whole: true,
        at_entry: leaving.at_entry,
        has_pos: leaving.has_pos,
        bound: leaving.bound,
        writes: writes.as_slice(),
        sums: sums.as_slice(),
        entering: &entering,
    };
    common_case(at.alloc, &frame, states)
}

/// Which names occur in the bodies that a command's name reaches.
fn reached_from(at: &At<'_>, name: NameId) -> Result<Occurrences, NoMemory>
    ensures { IfOk result (λ found. found ≡ rule.reached_from at.now.style.now at.now.cond.now name) }
{
    let types = type_functions(at.alloc, at.style, at.cond)?;
    let mut roots = Vec::new(at.alloc);
    push_roots(&mut roots, at.style, types.as_slice(), Target::Named(name))?;
    occurring(at.alloc, at.style, types.as_slice(), roots.as_slice())
}

/// What the state before all visits has of the global variables.
pub(crate) fn first_visit(at: &At<'_>, name: NameId, between: &Between) -> Result<Piece, NoMemory>
    requires at { Agrees at.now }
    requires ready { IsReady at.now.style.now between.now.globals }
    ensures first { IfOk result (λ visit. visit ≡ rule.first_visit at.now.style.now at.now.cond.now name between.now) }
    ensures visit { IfOk result (rule.IsVisit at.now.style.now) }
{
    let starts = from_ref(&between.globals);
    let start = state_of(at, starts, false)?;
    let before = [state_of(at, starts, false)?];
    case_left(at, name, BEFORE_VISITS, start, &before)
}

/// The rows of a visit's piece that each of some states at its end shows of the next entry.
pub(crate) fn rows_left_by(
    at: &At<'_>,
    visit: &Piece,
    states: &[State],
) -> Result<Vec<Row>, NoMemory>
    requires visit { rule.IsVisit at.now.style.now visit.now }
    requires states { All (IsEnd at.now.style.now) states.now }
    ensures { IfOk result (λ rows. rows.items ≡ (visits.left_by at.now.cond.now states.now visit.now).rows) }
{
    let moved = piece_moved(at.alloc, Moment::Next, visit)?;
    rows_left(at.alloc, at.cond, visit, moved.rows.as_slice(), states)
}
