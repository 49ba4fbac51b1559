//! The cases of tests on strings and missing fields, which take no hint.

ghost use Rattle.std.specs.Prelude.{◌≡◌, ◌<◌, [], Ok, Err, IfOk, MatchResult};
ghost use Rattle.sym_state.specs.declared.symbol.Kinds.TheVariants.{Optional};
ghost use Rattle.sym_state.specs.Demands as demands;
ghost use Rattle.sym_state.specs.Cases as rule;
ghost use Rattle.sym_state.specs.Decided.{exact_text};
ghost use Rattle.refinements.specs.Given.{Gives};

use crate::cases::{both, decided};
use crate::deciding::texts_decided;
use bv_base::memory::NoMemory;
use bv_base::text::Text;
use sym_state::demand::EffectFault;
use sym_state::hint::Hints;
use sym_state::operands::one;
use sym_state::state::State;
use sym_state::symbol::{Fact, Kinds, Sym};

/// The cases of `empty$`.
pub fn empty(state: &State, hints: &Hints<'_>) -> Result<Vec<State>, EffectFault>
    requires { state.now.next < 4294967295 }
    ensures { Gives result hints.now (rule.empty state.now hints.now) }
{
    let operand = field_of(state)?;
    let rest = state.without(1)?;
    let known = state.known_emptiness(operand);
    Ok(empty_cases(known, operand, rest)?)
}

/// The top operand, a string or a missing field.
fn field_of(state: &State) -> Result<Sym, EffectFault>
    ensures { MatchResult result
        (λ a. demands.one_of Optional state.now ≡ Ok (record { operand = a; rest = demands.without 1 state.now }))
        (λ fault. demands.one_of Optional state.now ≡ Err fault) }
{
    one(state, Kinds::Optional)
}

/// The cases of `empty$` of an operand, by what is known.
fn empty_cases(known: Option<bool>, operand: Sym, rest: State) -> Result<Vec<State>, NoMemory>
    requires { rest.next < 4294967295 }
    ensures { IfOk result (λ states. rule.empty_cases known (record { operand = operand; rest = rest }) [] ≡ Ok (record { states = states.items; hints = [] })) }
{
    match known {
        Some(answer) => decided(answer, rest),
        None => {
            let alloc = rest.alloc();
            let holds = vec![in alloc; Fact::Blank(operand)]?;
            let fails = vec![in alloc; Fact::Is(operand, Kinds::Str), Fact::Nonblank(operand)]?;
            both(holds, fails, rest)
        }
    }
}

/// The cases of `missing$`.
pub fn missing(state: &State, hints: &Hints<'_>) -> Result<Vec<State>, EffectFault>
    requires { state.now.next < 4294967295 }
    ensures { Gives result hints.now (rule.missing state.now hints.now) }
{
    let operand = field_of(state)?;
    let rest = state.without(1)?;
    Ok(missing_cases(state.known_kind(operand), operand, rest)?)
}

/// The cases of `missing$` of an operand, by its kind.
fn missing_cases(known: Kinds, operand: Sym, rest: State) -> Result<Vec<State>, NoMemory>
    requires { rest.next < 4294967295 }
    ensures { IfOk result (λ states. rule.missing_cases known (record { operand = operand; rest = rest }) [] ≡ Ok (record { states = states.items; hints = [] })) }
{
    match known {
        Kinds::Missing => decided(true, rest),
        Kinds::Str => decided(false, rest),
        _ => {
            let alloc = rest.alloc();
            let holds = vec![in alloc; Fact::Is(operand, Kinds::Missing)]?;
            let fails = vec![in alloc; Fact::Is(operand, Kinds::Str)]?;
            both(holds, fails, rest)
        }
    }
}

/// The cases of `=` of two strings: in that of 1 a text that one has exactly passes to the other.
pub fn equal_texts(state: &State, a: Sym, b: Sym, rest: State) -> Result<Vec<State>, NoMemory>
    requires { rest.next < 4294967295 }
    ensures { IfOk result (λ states. rule.text_cases (rule.texts_decided state.now.facts a b) (rule.passed_both state.now.facts a b) rest []
        ≡ Ok (record { states = states.items; hints = [] })) }
{
    match texts_decided(state, a, b) {
        Some(answer) => decided(answer, rest),
        None => {
            let alloc = rest.alloc();
            let mut holds = passed(state, a, b)?;
            let mut others = passed(state, b, a)?;
            holds.append(&mut others)?;
            both(holds, Vec::new(alloc), rest)
        }
    }
}

/// The exact text of a symbol as that of another, where it has one.
fn passed(state: &State, from: Sym, to: Sym) -> Result<Vec<Fact>, NoMemory>
    ensures { IfOk result (λ more. more.items ≡ rule.passed (exact_text state.now.facts from.0) to) }
{
    let alloc = state.alloc();
    let mut more = Vec::new(alloc);
    if let Some(text) = state.exact_text(from) {
        more.push(Fact::Text(to, Text::from_slice(alloc, text)?))?;
    }
    Ok(more)
}
