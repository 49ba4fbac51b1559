//! Whether a test on two operands is decided: where both are one symbol, or where both values are known.

ghost use Rattle.std.specs.Prelude.{◌≡◌, ℤ, Bool};
ghost use Rattle.sym_state.specs.Cases as rule;

use sym_state::state::State;
use sym_state::symbol::Sym;

/// `=` of two integers.
pub fn equal_decided(state: &State, a: Sym, b: Sym) -> Option<bool>
    ensures { result ≡ rule.equal_decided state.now.facts a b }
{
    integers_decided(state, a, b, true, |x, y| x == y)
}

/// Whether the first of two integers is less.
pub fn less_decided(state: &State, a: Sym, b: Sym) -> Option<bool>
    ensures { result ≡ rule.less_decided state.now.facts a b }
{
    integers_decided(state, a, b, false, |x, y| x < y)
}

/// A test on two integers, which is pure, and what it says of an integer twice.
fn integers_decided<F: Fn(i32, i32) -> bool>(
    state: &State,
    a: Sym,
    b: Sym,
    reflexive: bool,
    test: F,
) -> Option<bool>
    requires { F.IsAlwaysCallable test }
    ensures { (passes : ℤ → ℤ → Bool) → ((x y : ℤ) (r : Bool) → F.post test x y r → r ≡ passes x y)
        → result ≡ rule.integers_decided passes reflexive state.now.facts a b }
{
    if a.0 == b.0 {
        return Some(reflexive);
    }
    match (state.exact_integer(a), state.exact_integer(b)) {
        (Some(x), Some(y)) => Some(test(x, y)),
        _ => None,
    }
}

/// `=` of two strings.
pub fn texts_decided(state: &State, a: Sym, b: Sym) -> Option<bool>
    ensures { result ≡ rule.texts_decided state.now.facts a b }
{
    if a.0 == b.0 {
        return Some(true);
    }
    match (state.exact_text(a), state.exact_text(b)) {
        (Some(x), Some(y)) => Some(x == y),
        _ => None,
    }
}
