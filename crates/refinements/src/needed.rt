//! How many hints the cases of a test take.

ghost use Rattle.std.specs.Prelude.{◌≡◌};
ghost use Rattle.sym_state.specs.Cases as rule;
ghost use Rattle.sym_state.specs.Decided as decided;
ghost use Rattle.sym_state.specs.Demands.{two_of};
ghost use Rattle.sym_state.specs.declared.symbol.Kinds.TheVariants.{Int};

use crate::deciding::{equal_decided, less_decided};
use sym_state::operands::two;
use sym_state::state::State;
use sym_state::symbol::{Kinds, Sym};

/// `=`
pub fn equal_needs(state: &State) -> u32
    ensures { result ≡ rule.hints_on (rule.equal_decided state.now.facts) (two_of Int Int state.now) }
{
    match two(state, Kinds::Int, Kinds::Int) {
        Ok((a, b)) => hints_of(equal_decided(state, a, b)),
        Err(_) => 0,
    }
}

/// `<`
pub fn less_needs(state: &State) -> u32
    ensures { result ≡ rule.hints_on (rule.less_decided state.now.facts) (two_of Int Int state.now) }
{
    match two(state, Kinds::Int, Kinds::Int) {
        Ok((a, b)) => hints_of(less_decided(state, a, b)),
        Err(_) => 0,
    }
}

/// `>`
pub fn greater_needs(state: &State) -> u32
    ensures { result ≡ rule.hints_on (λ a b. rule.less_decided state.now.facts b a) (two_of Int Int state.now) }
{
    match two(state, Kinds::Int, Kinds::Int) {
        Ok((a, b)) => hints_of(less_decided(state, b, a)),
        Err(_) => 0,
    }
}

/// Whether an integer is above 0.
pub fn above_needs(state: &State, sym: Sym) -> u32
    ensures { result ≡ rule.hints_of (decided.exact_integer state.now.facts sym.0) }
{
    match state.exact_integer(sym) {
        Some(_) => 0,
        None => 2,
    }
}

/// Two where the test isn't decided.
fn hints_of(decided: Option<bool>) -> u32
    ensures { result ≡ rule.hints_of decided }
{
    match decided {
        Some(_) => 0,
        None => 2,
    }
}
