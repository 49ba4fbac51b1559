//! What comes of a state by hints, as cases and effects have it.

ghost use Rattle.std.specs.Prelude.{◌≡◌};
ghost use Rattle.std.specs.List.{All};
ghost use Rattle.sym_state.specs.Demands.{HasFewUses};
ghost use Rattle.sym_state.specs.WellMade.{HasBounds};

use crate::tests::known::{Setting, state};
use crate::tests::lines::add_left;
use crate::tests::reading::{Unread, list, thirds};
use sym_state::hint::{Hint, Hints};
use sym_state::state::State;

/// A state, and the name of what is done with it.
#[derive(Drop)]
pub struct Given {
    pub state: State,
    pub name: &'static str,
}

/// What takes a state and hints.
pub trait Rule {
    /// Adds what comes of a state, and answers whether that is no fault.
    fn add(&self, line: &mut String, given: &Given, left: &mut Hints<'_>) -> Result<bool, Unread>
        requires bounds { HasBounds given.now.state }
        requires next { given.now.state.next ≡ 10 }
        requires proofs { All HasFewUses left.old };
}

/// Adds what comes of a row: a state, the name of what is done with it, and hints.
pub fn add_outcome(
    line: &mut String,
    rule: &impl Rule,
    setting: Setting,
    row: &'static str,
) -> Result<(), Unread> {
    let (known, name, hints) = thirds(row);
    let state = state(*line.allocator(), setting, known)?;
    add_by_hints(line, rule, &Given { state, name }, hints)
}

fn add_by_hints(
    line: &mut String,
    rule: &impl Rule,
    given: &Given,
    hints: &'static str,
) -> Result<(), Unread>
    requires bounds { HasBounds given.now.state }
    requires next { given.now.state.next ≡ 10 }
{
    let list = list::<Hint>(*line.allocator(), hints, "; ")?;
    let mut left = Hints::new(list.as_slice());
    let is_ok = rule.add(line, given, &mut left)?;
    Ok(add_left(line, is_ok, list.as_slice().len(), left.rest().len())?)
}
