//! The units that are checked (docs/CHECKER.md, "Units").

ghost use Rattle.std.specs.Prelude.{◌≡◌, [], Ok, Some, IfSome, OnOk, option_map};
ghost use Rattle.bv_base.specs.Answers.{Leaves};
ghost use Rattle.sym_state.specs.declared.demand.EffectFault.TheVariants.{NoMemory as WantOfMemoryThere};
ghost use Rattle.cert_check.specs.Subjects.{All, AreSound, CanEnd, CanWalk, GivesRoom, HasBounds, HasFewUses, HasRoom, IsSummaryOf, Takes};
ghost use Rattle.cert_check.specs.Units as rule;
ghost use Rattle.cert_check.specs.Walks as walks;

use crate::at::At;
use crate::course::{Course, held};
use crate::limits::MOST_DEPTH;
use crate::making::{Loops, Unmade};
use crate::refusal::Walk;
use crate::scope::Scope;
use crate::walk::{body_entered, body_walked, name_entered, named};
use bst_meaning::condition::Cond;
use bst_meaning::style_parts::kind_of;
use bst_meaning::value::Target;
use bv_base::place::Place;
use cert_format::cert::Summary;
use name_table::names::Kind;
use name_table::style::{BodyId, Style};
use std::alloc::Global;
use std::slice::from_ref;
use sym_state::demand::EffectFault;
use sym_state::hint::{Hint, Hints};
use sym_state::piece::Piece;
use sym_state::start::start;
use sym_state::state::State;
use sym_state::{shown_by, symbols_of};

/// The body of a summary is walked from its pre: each state at its end entails one of its posts, and no hint is left.
pub(crate) fn summary_checked(scope: &Scope<'_>, alloc: Global, summary: &Summary) -> Walk
    requires sound { AreSound scope.now.style scope.now.cert }
    requires summary { IsSummaryOf scope.now.style summary.now }
    requires writes { scope.now.writes ≡ Some summary.now.writes }
    ensures { Takes (rule.summary_checked scope.now.style scope.now.cert summary.now) [] result }
{
    let body = body_of(scope.style(), summary.body);
    let place = place_of(scope.style(), body);
    let pieces = from_ref(&summary.pre);
    let state = held(
        place,
        start(
            alloc,
            scope.style(),
            scope.cond(),
            pieces,
            summary.whole,
            summary.entry,
        ),
    )?;
    let mut course = Course::new(alloc, summary.hints.as_slice());
    let maker = Unmade::of(scope);
    own_walked(scope, &maker, place, summary.body, body, state, &mut course)?;
    let kept = symbols_of(&summary.pre) as u32;
    course.ends(scope.cond(), place, kept, summary.posts.as_slice())
}

/// A unit's own body is walked from a state, of a name that isn't a function of the style its call.
fn own_walked<M: Loops>(
    scope: &Scope<'_>,
    maker: &M,
    place: Place,
    target: Target,
    body: Option<BodyId>,
    state: State,
    course: &mut Course<'_>,
) -> Walk
    requires sound { CanWalk scope.now (M.style maker.now) (M.made maker.now) }
    requires room { HasRoom scope.now.style 65 course.old.count state }
    ensures takes { Takes (rule.own_walked (walks.scope_of scope.now (M.made maker.now)) place target body state course.old) course.new result }
{
    let at = At {
        scope,
        maker,
        place,
        more: MOST_DEPTH,
        known: state.stack_len(),
    };
    match (body, target) {
        (Some(body), _) => body_walked(&at, body, state, course),
        (None, Target::Named(name)) => named(&at, name, state, course),
        (None, Target::Block(_)) => Ok(()),
    }
}

/// A target is entered from a state: a name counts.
pub(crate) fn target_entered<M: Loops>(
    scope: &Scope<'_>,
    maker: &M,
    place: Place,
    target: Target,
    state: State,
    course: &mut Course<'_>,
) -> Walk
    requires sound { CanWalk scope.now (M.style maker.now) (M.made maker.now) }
    requires room { HasRoom scope.now.style 64 course.old.count state }
    ensures takes { Takes (rule.target_entered (walks.scope_of scope.now (M.made maker.now)) place target state course.old) course.new result }
{
    let at = At {
        scope,
        maker,
        place,
        more: MOST_DEPTH,
        known: state.stack_len(),
    };
    match target {
        Target::Named(name) => name_entered(&at, name, state, course),
        Target::Block(body) => body_entered(&at, target, body, state, course),
    }
}

/// It is entered from states, one after the other.
pub(crate) fn target_from<M: Loops>(
    scope: &Scope<'_>,
    maker: &M,
    place: Place,
    target: Target,
    states: Vec<State>,
    course: &mut Course<'_>,
) -> Walk
    requires sound { CanWalk scope.now (M.style maker.now) (M.made maker.now) }
    requires room { All (HasRoom scope.now.style 64 course.old.count) states.items }
    ensures takes { Takes (rule.target_from (walks.scope_of scope.now (M.made maker.now)) place target states.items course.old) course.new result }
    ensures room { GivesRoom scope.now.style course.old → OnOk result (GivesRoom scope.now.style course.new) }
{
    for state in states {
        target_entered(scope, maker, place, target, state, course)?;
    }
    Ok(())
}

/// Each state at a unit's end, in order.
pub(crate) fn all_end(
    cond: &Cond,
    kept: u32,
    pieces: &[Piece],
    states: &[State],
    hints: &mut Hints<'_>,
) -> Result<(), EffectFault>
    requires states { All HasBounds states.now }
    requires pieces { All CanEnd pieces.now }
    requires proofs { All HasFewUses hints.old }
    ensures ends { Leaves WantOfMemoryThere (rule.all_end cond.now kept pieces.now states.now hints.old) hints.new result }
    ensures proofs { All HasFewUses hints.new }
{
    for state in states {
        ends(cond, kept, pieces, state, hints)?;
    }
    Ok(())
}

/// The next hint is the number of the piece that a state entails at a unit's end, among those of the unit.
fn ends(
    cond: &Cond,
    kept: u32,
    pieces: &[Piece],
    state: &State,
    hints: &mut Hints<'_>,
) -> Result<(), EffectFault>
    requires state { HasBounds state.now }
    requires pieces { All CanEnd pieces.now }
    requires proofs { All HasFewUses hints.old }
    ensures ends { Leaves WantOfMemoryThere (rule.ends cond.now kept pieces.now state.now hints.old) hints.new result }
    ensures proofs { All HasFewUses hints.new }
{
    match hints.next_short() {
        Some(Hint::Case(k)) => ends_by(cond, kept, pieces.get(*k as usize), state, hints),
        Some(_) => Err(EffectFault::WrongHint),
        None => Err(EffectFault::HintsShort),
    }
}

/// At a unit's end a state entails a piece with the same length of the stack.
fn ends_by(
    cond: &Cond,
    kept: u32,
    piece: Option<&Piece>,
    state: &State,
    hints: &mut Hints<'_>,
) -> Result<(), EffectFault>
    requires state { HasBounds state.now }
    requires piece { IfSome piece (λ found. CanEnd found.now) }
    requires proofs { All HasFewUses hints.old }
    ensures ends { Leaves WantOfMemoryThere (rule.ends_by cond.now kept (option_map (λ found. found.now) piece.entry) state.now hints.old) hints.new result }
    ensures proofs { All HasFewUses hints.new }
{
    match piece {
        Some(piece) => {
            if state.stack_len() == piece.stack.as_slice().len() as u64 {
                shown_by(state, cond, piece, kept, hints)
            } else {
                Err(EffectFault::NotEntailed(0))
            }
        }
        None => Err(EffectFault::NotEntailed(0)),
    }
}

/// The body of what is entered, which a built-in function, a variable and a field don't have.
pub(crate) fn body_of(style: &Style, target: Target) -> Option<BodyId>
    ensures { result ≡ rule.body_of style.now target }
{
    match target {
        Target::Named(name) => match kind_of(style, name) {
            Some(Kind::Wizard(body)) => Some(body),
            _ => None,
        },
        Target::Block(body) => Some(body),
    }
}

/// A unit's place: its body's.
pub(crate) fn place_of(style: &Style, body: Option<BodyId>) -> Place
    ensures { result ≡ rule.place_of style.now body }
{
    match body {
        Some(body) => match style.bodies.as_slice().get(body.0 as usize) {
            Some(found) => found.place,
            None => Place::START,
        },
        None => Place::START,
    }
}
