//! The operands of built-in functions, and demands (docs/EFFECTS.md, "Demands").

ghost use Rattle.std.specs.Prelude.{◌≡◌, true, false, Ok, Err, MatchResult};
ghost use Rattle.sym_state.specs.Demands as rule;
ghost use Rattle.sym_state.specs.State.{State};

use crate::demand::{DemandKind, EffectFault};
use crate::state::State;
use crate::symbol::{Kinds, Sym};

/// The topmost symbol, which has to be of a kind.
pub fn one(state: &State, kind: Kinds) -> Result<Sym, EffectFault>
    ensures { MatchResult result
        (λ a. rule.one_of kind state.now ≡ Ok (record { operand = a; rest = rule.without 1 state.now }))
        (λ fault. rule.one_of kind state.now ≡ Err fault) }
{
    match state.at(0) {
        Some(a) => {
            of_kind(state, kind, 1, a)?;
            Ok(a)
        }
        None => Err(EffectFault::unmet(DemandKind::EmptyPop, 1)),
    }
}

/// The two topmost symbols, the lower one first, with the kinds that they have to be of.
pub fn two(state: &State, lower: Kinds, upper: Kinds) -> Result<(Sym, Sym), EffectFault>
    ensures { MatchResult result
        (λ p. rule.two_of lower upper state.now ≡ Ok (record { lower = p.0; upper = p.1; rest = rule.without 2 state.now }))
        (λ fault. rule.two_of lower upper state.now ≡ Err fault) }
{
    match (state.at(1), state.at(0)) {
        (Some(a), Some(b)) => {
            of_kind(state, upper, 1, b)?;
            of_kind(state, lower, 2, a)?;
            Ok((a, b))
        }
        (None, Some(_)) => Err(EffectFault::unmet(DemandKind::EmptyPop, 2)),
        _ => Err(EffectFault::unmet(DemandKind::EmptyPop, 1)),
    }
}

/// The three topmost symbols, the lowest one first, with the kinds that they have to be of.
pub fn three(
    state: &State,
    lowest: Kinds,
    middle: Kinds,
    top: Kinds,
) -> Result<(Sym, Sym, Sym), EffectFault>
    ensures { MatchResult result
        (λ p. rule.three_of lowest middle top state.now
        ≡ Ok (record { lowest = p.0; middle = p.1; top = p.2; rest = rule.without 3 state.now }))
        (λ fault. rule.three_of lowest middle top state.now ≡ Err fault) }
{
    match (state.at(2), state.at(1), state.at(0)) {
        (Some(a), Some(b), Some(c)) => {
            three_of_kind(state, lowest, middle, top, (a, b, c))?;
            Ok((a, b, c))
        }
        (None, Some(_), Some(_)) => Err(EffectFault::unmet(DemandKind::EmptyPop, 3)),
        (_, None, Some(_)) => Err(EffectFault::unmet(DemandKind::EmptyPop, 2)),
        _ => Err(EffectFault::unmet(DemandKind::EmptyPop, 1)),
    }
}

/// Demands that three operands are known to be of their kinds, the top one first.
fn three_of_kind(
    state: &State,
    lowest: Kinds,
    middle: Kinds,
    top: Kinds,
    syms: (Sym, Sym, Sym),
) -> Result<(), EffectFault>
    ensures { (rest : State) → MatchResult result
        (λ _. rule.three_met lowest middle top state.now (record { lowest = syms.0; middle = syms.1; top = syms.2; rest = rest })
        ≡ Ok (record { lowest = syms.0; middle = syms.1; top = syms.2; rest = rest }))
        (λ fault. rule.three_met lowest middle top state.now (record { lowest = syms.0; middle = syms.1; top = syms.2; rest = rest })
        ≡ Err fault) }
{
    of_kind(state, top, 1, syms.2)?;
    of_kind(state, middle, 2, syms.1)?;
    of_kind(state, lowest, 3, syms.0)
}

/// Demands that an operand is known to be of a kind.
pub fn of_kind(state: &State, kind: Kinds, operand: u8, s: Sym) -> Result<(), EffectFault>
    ensures { MatchResult result (λ _. rule.is_of_kind state.now kind s ≡ true)
        (λ fault. (rule.is_of_kind state.now kind s ≡ false) × (fault ≡ rule.fails DemandKind.WrongKind operand)) }
{
    demand(state.is_of_kind(kind, s), DemandKind::WrongKind, operand)
}

/// Makes a demand.
pub fn demand(met: bool, kind: DemandKind, operand: u8) -> Result<(), EffectFault>
    ensures { MatchResult result (λ _. met ≡ true) (λ fault. (met ≡ false) × (fault ≡ rule.fails kind operand)) }
{
    if met {
        Ok(())
    } else {
        Err(EffectFault::unmet(kind, operand))
    }
}
