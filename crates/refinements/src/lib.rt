//! The cases of a test on a symbolic state (docs/EFFECTS.md, "Cases").
#![tactic(auto)]

ghost use Rattle.std.specs.Prelude.{◌≡◌, ◌≢◌, ◌<◌, Ok, Err, IfOk, IfErr, OnErr};
ghost use Rattle.std.specs.List.{All};
ghost use Rattle.name_table.specs.declared.style.Style.{Style};
ghost use Rattle.sym_state.specs.Cases as rule;
ghost use Rattle.sym_state.specs.WellMade.{WellMade};
ghost use Rattle.sym_state.specs.declared.demand.EffectFault.TheVariants.{NoMemory as WantOfMemory};
ghost use Rattle.sym_state.specs.Demands.{IsReady};
ghost use Rattle.refinements.specs.Given.{Gives};

use crate::integers::{equal, greater, labelled, less};
pub use crate::laws::{
    cases_are_well_made, cases_leave_the_rest, one_case_covers, one_case_stands,
    one_labelled_case_stands, tests_take_what_they_need,
};
use crate::needed::{above_needs, equal_needs, greater_needs, less_needs};
use crate::strings::{empty, missing};
use bst_meaning::condition::Cond;
use sym_state::demand::EffectFault;
use sym_state::hint::Hints;
use sym_state::state::State;
use sym_state::symbol::Sym;
pub use sym_state::test::Test;

mod cases;
mod deciding;
mod integers;
mod laws;
mod needed;
mod strings;
mod weighing;

/// The states of the cases of a test, that of 1 or of an integer above 0 first. A test that is decided has one case. The
/// integer of `Above` is one: the caller has made that demand. The hints are taken one after the other, and each is
/// decided before the next is taken. Where there is a fault, none is taken.
pub fn split(
    state: &State,
    cond: &Cond,
    test: Test,
    hints: &mut Hints<'_>,
) -> Result<Vec<State>, EffectFault>
    requires ready { IsReady state.now hints.old }
    ensures ok { IfOk result (λ states. rule.split_of cond.now state.now test hints.old ≡ Ok (record { states = states.items; hints = hints.new })) }
    ensures fault { IfErr result (λ fault. fault ≢ WantOfMemory → rule.split_of cond.now state.now test hints.old ≡ Err fault) }
    ensures cursor { OnErr result (hints.new ≡ hints.old) }
    ensures few { All rule.HasFewUses hints.new }
    ensures kept { IfOk result (λ states. (style : Style) → WellMade style state.now → rule.IsTestOf state.now test → All (WellMade style) states.items) }
{
    let mut cursor = Hints::new(hints.rest());
    let states = cases_of(state, cond, test, &mut cursor)?;
    *hints = cursor;
    Ok(states)
}

/// The cases of whether an integer is above 0, each with its label, which is whether it is: that of an integer above 0
/// first. Without their labels they are those of `split`. With one case left its label tells which function `if$` enters.
pub fn above(
    state: &State,
    cond: &Cond,
    sym: Sym,
    hints: &mut Hints<'_>,
) -> Result<Vec<(bool, State)>, EffectFault>
    requires ready { IsReady state.now hints.old }
    ensures ok { IfOk result (λ cases. rule.above_of cond.now state.now sym hints.old ≡ Ok (record { cases = cases.items; hints = hints.new })) }
    ensures fault { IfErr result (λ fault. fault ≢ WantOfMemory → rule.above_of cond.now state.now sym hints.old ≡ Err fault) }
    ensures cursor { OnErr result (hints.new ≡ hints.old) }
    ensures few { All rule.HasFewUses hints.new }
    ensures kept { IfOk result (λ cases. (style : Style) → WellMade style state.now → sym.0 < state.now.next → All (λ one. WellMade style one.1) cases.items) }
{
    let mut cursor = Hints::new(hints.rest());
    let cases = labelled(state, cond, sym, &mut cursor)?;
    *hints = cursor;
    Ok(cases)
}

/// The states of the cases of a test.
fn cases_of(
    state: &State,
    cond: &Cond,
    test: Test,
    cursor: &mut Hints<'_>,
) -> Result<Vec<State>, EffectFault>
    requires { IsReady state.now cursor.old }
    ensures { Gives result cursor.new (rule.split_of cond.now state.now test cursor.old) }
{
    match test {
        Test::Empty => empty(state, cursor),
        Test::Missing => missing(state, cursor),
        Test::Equal => equal(state, cond, cursor),
        Test::Less => less(state, cond, cursor),
        Test::Greater => greater(state, cond, cursor),
        Test::Above(s) => integers::above(state, cond, s, cursor),
    }
}

/// How many hints the split takes: 2 for a test on integers whose demands are met and that isn't decided, and else 0.
pub fn needs(state: &State, test: Test) -> u32
    ensures { result ≡ rule.needs_of state.now test }
{
    match test {
        Test::Equal => equal_needs(state),
        Test::Less => less_needs(state),
        Test::Greater => greater_needs(state),
        Test::Above(s) => above_needs(state, s),
        _ => 0,
    }
}
