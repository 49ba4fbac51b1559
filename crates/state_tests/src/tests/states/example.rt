//! The worked example of docs/STATES.md.

ghost use Rattle.std.specs.Prelude.{◌≤◌, length, IfOk};
ghost use Rattle.name_table.specs.declared.style.Style.{Style as StyleValue};
ghost use Rattle.std.specs.List.{All};
ghost use Rattle.sym_state.specs.Starting.{IsNumbered, IsFit, symbols_of};
ghost use Rattle.sym_state.specs.WellMade.{HasBounds};

use crate::tests::hints::proof;
use crate::tests::known::{Named, condition, piece, style};
use crate::tests::lines::compare;
use crate::tests::reading::{Unread, halves};
use crate::tests::states::{Asked, add_failing, add_shown};
use bv_base::memory::NoMemory;
use bv_base::seq::Seq;
use name_table::names::Kind;
use std::alloc::Global;
use sym_state::piece::Piece;
use sym_state::proof::Proof;
use sym_state::start::start;
use sym_state::state::State;
use sym_state::symbol::{Bind, Fact, Sym};

/// A global integer and a global string.
pub static NAMES: [Named; 2] = [
    Named {
        name: b"n",
        kind: Kind::IntGlobal,
    },
    Named {
        name: b"s",
        kind: Kind::StrGlobal,
    },
];

/// Whether the variables are bound as they have to be, the next symbol, and how many facts there are.
static STARTED: [&str; 1] = ["the state: variables => true 4 5"];

#[test]
fn the_worked_example(rt: HostRuntime) {
    compare(&rt, rt.alloc(), &Asked::Started, &STARTED);
    compare(&rt, rt.alloc(), &Asked::Shown, &SHOWN);
    compare(&rt, rt.alloc(), &Asked::Entailed, &ENTAILED);
}

/// Adds what the state begins with.
pub fn add_started(line: &mut String, _given: &'static str) -> Result<(), Unread> {
    let state = started(*line.allocator())?;
    add_beginning(line, &state)
}

fn add_beginning(line: &mut String, state: &State) -> Result<(), Unread> {
    let is_bound = binds(state, &BINDS);
    let (next, facts) = (state.next(), state.facts());
    Ok(write!(line, "{is_bound} {next} {facts}")?)
}

/// Whether a state binds these names to these symbols.
pub fn binds(state: &State, binds: &[Bind]) -> bool {
    binds
        .iter()
        .all(|bind| state.bound(bind.name) == Some(bind.sym))
}

static BINDS: [Bind; 4] = [bind!(39, 1), bind!(40, 2), bind!(41, 0), bind!(42, 3)];

/// A proof, a row, and whether the proof shows it.
static SHOWN: [&str; 2] = [
    "within the size: 1 Row:0 ExactLow:0 | 19903 1v0 -1l3 => true",
    "one less: 1 Row:0 ExactLow:0 | 19902 1v0 -1l3 => false",
];

/// Adds whether the proof shows the row.
pub fn add_example_shown(line: &mut String, given: &'static str) -> Result<(), Unread> {
    let (uses, goal) = halves(given, " | ");
    let state = started(*line.allocator())?;
    add_shown(line, &state, uses, goal)
}

/// A piece that binds `n` to 0 and `s` to 1, a proof of its row, and the first line that fails.
static ENTAILED: [&str; 3] = [
    "the piece: empty; is 1 Str; 19903 1v0 -1l1 | 1 Row:0 ExactLow:0 => None",
    "another kind: empty; is 1 Int; 19903 1v0 -1l1 | 1 Row:0 ExactLow:0 => Some(3)",
    "row 0 alone: empty; is 1 Str; 19903 1v0 -1l1 | 1 Row:0 => Some(4)",
];

/// Adds the first line that fails.
pub fn add_entailed(line: &mut String, given: &'static str) -> Result<(), Unread> {
    let state = started(*line.allocator())?;
    add_by_proof(line, &state, given)
}

/// Adds the first line that fails by a proof of its row.
fn add_by_proof(line: &mut String, state: &State, given: &'static str) -> Result<(), Unread>
    requires { HasBounds state.now }
{
    let (known, uses) = halves(given, " | ");
    let proofs = [proof(state.alloc(), uses)?];
    add_ending(line, state, known, &proofs)
}

fn add_ending(
    line: &mut String,
    state: &State,
    known: &'static str,
    proofs: &[Proof],
) -> Result<(), Unread>
    requires state { HasBounds state.now }
    requires proofs { All (λ proof. length proof.uses ≤ 64) proofs.now }
{
    let piece = piece(state.alloc(), known, "41=0; 42=1", "")?;
    add_failing(line, state, &piece, 0, proofs)
}

/// The piece that binds `n` to symbol 0, which is exactly 97.
fn exact_n(alloc: Global) -> Result<Piece, NoMemory>
    ensures numbered { IfOk result IsNumbered }
    ensures few { IfOk result (λ piece. symbols_of piece ≤ 9) }
    ensures fit { IfOk result (λ piece. (style : StyleValue) → IsFit style piece) }
{
    piece_of_one!(alloc, 41, Fact::Int(Sym(0), 97))
}

/// The state that starts from that piece.
pub fn started(alloc: Global) -> Result<State, NoMemory>
    ensures { IfOk result HasBounds }
{
    let style = style(alloc, &NAMES)?;
    let cond = condition(alloc);
    let pieces = [exact_n(alloc)?];
    start(alloc, &style, &cond, &pieces, true, false)
}
