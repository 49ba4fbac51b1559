//! A walk from a piece to a piece that is entailed: `#30000 s text.length$ <` for a global string `s`, which holds no more than
//! 20000 bytes. A row has the hints. What comes of it is each case that is left beside the state that started, and the first
//! line of the last piece that fails there.

ghost use Rattle.std.specs.Prelude.{◌≤◌, ◌<◌, length, IfOk};
ghost use Rattle.std.specs.List.{All};
ghost use Rattle.name_table.specs.declared.style.Style.{Style as StyleValue};
ghost use Rattle.sym_state.specs.Cases.{HasFewUses};
ghost use Rattle.sym_state.specs.Starting.{IsFit, IsNumbered, symbols_of};
ghost use Rattle.sym_state.specs.WellMade.{HasBounds, WellMade};

use crate::tests::hints::proof;
use crate::tests::known::{condition, piece, style};
use crate::tests::lines::{Answers, add_state, compare};
use crate::tests::reading::{Unread, list};
use crate::tests::states::add_failing;
use crate::tests::states::example::NAMES;
use builtin_effects::effect::effect;
use bv_base::memory::NoMemory;
use bv_base::seq::Seq;
use name_table::builtin::Builtin;
use name_table::names::NameId;
use name_table::style::Style;
use refinements::{Test, split};
use std::alloc::Global;
use sym_state::hint::{Hint, Hints};
use sym_state::piece::Piece;
use sym_state::start::start;
use sym_state::state::State;
use sym_state::symbol::{Fact, Kinds, Sym};

/// The step shows that the length has 32 bits. That it is above 30000 can't be, so the case of 1 is dropped.
static WALKED: [&str; 1] = [
    "step 1 Row:0; drop 1 Row:3 Row:2 Row:0 ExactLow:4; keep => 6; next 7; is 4 Int; int 4 30000; is 5 Int; is 6 Int; int 6 0; 0 1v5; 0 1l0 -1v5; 0 1v4 -1v5; entailed None",
];

#[test]
fn a_walk_ends_in_what_it_entails(rt: HostRuntime) {
    compare(&rt, rt.alloc(), &Walk, &WALKED);
}

struct Walk;

impl Answers for Walk {
    fn add_answer(&self, line: &mut String, given: &'static str) -> Result<(), Unread> {
        let style = style(*line.allocator(), &NAMES)?;
        add_from_piece(line, &style, given)
    }
}

fn add_from_piece(line: &mut String, style: &Style, given: &'static str) -> Result<(), Unread>
    requires { length style.now.names ≤ 65536 }
{
    let first = started(*line.allocator(), style)?;
    add_by_hints(line, style, &first, given)
}

fn add_by_hints(
    line: &mut String,
    style: &Style,
    first: &State,
    given: &'static str,
) -> Result<(), Unread>
    requires { WellMade style.now first.now }
{
    let hints = list::<Hint>(*line.allocator(), given, "; ")?;
    let mut left = Hints::new(hints.as_slice());
    add_cases(line, style, first, &mut left)
}

/// Adds what comes of the walk from the state that started.
fn add_cases(
    line: &mut String,
    style: &Style,
    first: &State,
    left: &mut Hints<'_>,
) -> Result<(), Unread>
    requires made { WellMade style.now first.now }
    requires hints { All HasFewUses left.old }
{
    let pushed = pushed(style, first)?;
    let counted = counted(style, &pushed, left)?;
    let cases = compared(style, &counted, left)?;
    for last in cases.as_slice() {
        add_state(line, first, last)?;
        add_entailed(line, style, last)?;
    }
    Ok(())
}

/// The piece that binds `s` to symbol 0, which isn't blank.
fn nonblank_s(alloc: Global) -> Result<Piece, NoMemory>
    ensures numbered { IfOk result IsNumbered }
    ensures few { IfOk result (λ piece. symbols_of piece ≤ 9) }
    ensures fit { IfOk result (λ piece. (style : StyleValue) → IsFit style piece) }
{
    piece_of_one!(alloc, 42, Fact::Nonblank(Sym(0)))
}

/// The state that starts from that piece.
fn started(alloc: Global, style: &Style) -> Result<State, NoMemory>
    requires { length style.now.names ≤ 65536 }
    ensures { IfOk result (WellMade style.now) }
{
    let cond = condition(alloc);
    let pieces = [nonblank_s(alloc)?];
    start(alloc, style, &cond, &pieces, true, false)
}

/// The state with the literal and the variable's symbol on its stack.
fn pushed(style: &Style, first: &State) -> Result<State, Unread>
    requires { WellMade style.now first.now }
    ensures { IfOk result (WellMade style.now) }
{
    if first.next() > 1000 {
        return Err(Unread::At("many symbols"));
    }
    let mut state = first.branch()?;
    let literal = state.fresh(Kinds::Int)?;
    state.add_fact(Fact::Int(literal, 30000))?;
    state.push(literal)?;
    let Some(value) = state.bound(NameId(42)) else {
        return Err(Unread::At("s"));
    };
    if value.0 >= state.next() {
        return Err(Unread::At("a symbol"));
    }
    state.push(value)?;
    Ok(state)
}

/// The state after `text.length$`.
fn counted(style: &Style, state: &State, left: &mut Hints<'_>) -> Result<State, Unread>
    requires made { WellMade style.now state.now }
    requires hints { All HasFewUses left.old }
    ensures made { IfOk result (WellMade style.now) }
    ensures hints { All HasFewUses left.new }
{
    if state.next() > 1000 {
        return Err(Unread::At("many symbols"));
    }
    let cond = condition(state.alloc());
    match effect(style, state, &cond, Builtin::TextLength, left) {
        Ok(after) => Ok(after),
        Err(_) => Err(Unread::At("text.length$")),
    }
}

/// The cases of `<`.
fn compared(style: &Style, state: &State, left: &mut Hints<'_>) -> Result<Vec<State>, Unread>
    requires made { WellMade style.now state.now }
    requires hints { All HasFewUses left.old }
    ensures { IfOk result (λ states. All (WellMade style.now) states.items) }
{
    if state.next() > 1000 {
        return Err(Unread::At("many symbols"));
    }
    let cond = condition(state.alloc());
    match split(state, &cond, Test::Less, left) {
        Ok(cases) => Ok(cases),
        Err(_) => Err(Unread::At("<")),
    }
}

/// Adds the first line that fails of the piece with 0 on its stack, where `s` isn't blank and no longer than it may be.
fn add_entailed(line: &mut String, style: &Style, last: &State) -> Result<(), Unread>
    requires { WellMade style.now last.now }
{
    let proofs = [proof(last.alloc(), "1 Row:0")?];
    let piece = piece(
        last.alloc(),
        "0; int 0 0; nonblank 1; 20000 -1l1",
        "42=1",
        "",
    )?;
    line.push_str("; entailed ")?;
    add_failing(line, last, &piece, 0, &proofs)
}
