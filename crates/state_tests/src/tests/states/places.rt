//! Which line of a piece fails first, where it has a stack and names alone.

ghost use Rattle.sym_state.specs.WellMade.{HasBounds};

use crate::tests::known::piece;
use crate::tests::lines::compare;
use crate::tests::reading::{Unread, natural, thirds};
use crate::tests::states::{Asked, add_failing, known_state};
use sym_state::state::State;

/// How many symbols are kept, the stack and the variables of a piece, and the first line that fails.
static PLACES: [&str; 14] = [
    "nothing: 0 | empty => None",
    "the top: 0 | 0 1 => None",
    "a symbol twice: 0 | 0 0 => Some(1)",
    "the state's own: 3 | 1 2 => None",
    "another of its own: 3 | 2 1 => Some(1)",
    "one of its own: 2 | 1 2 => None",
    "two names: 0 | empty | 41=0; 42=1 => None",
    "two names alike: 0 | empty | 41=0; 42=0 => Some(2)",
    "no such name: 0 | empty | 43=0 => Some(1)",
    "stack and name: 0 | 0 | 42=0 => None",
    "stack, not name: 0 | 0 | 41=0 => Some(2)",
    "first place: 0 | 0 | 42=0; 41=0 => Some(3)",
    "a field's name: 0 | empty | 37=0 => Some(1)",
    "field and name: 0 | empty | 41=9 => Some(2)",
];

/// Adds the first line that fails.
pub fn add_place(line: &mut String, given: &'static str) -> Result<(), Unread> {
    let state = known_state(*line.allocator(), true)?;
    add_first(line, &state, given)
}

/// Adds the first line that fails of a piece with a field.
fn add_first(line: &mut String, state: &State, given: &'static str) -> Result<(), Unread>
    requires { HasBounds state.now }
{
    let (kept, stack, vars) = thirds(given);
    let kept = natural(kept)?;
    let piece = piece(state.alloc(), stack, vars, "37=9")?;
    add_failing(line, state, &piece, kept, &[])
}

#[test]
fn places_agree_line_by_line(rt: HostRuntime) {
    compare(&rt, rt.alloc(), &Asked::Place, &PLACES);
}
