//! The built-in functions that give integers or take one alone.

ghost use Rattle.sym_state.specs.declared.hint.Hint.{Hint};
ghost use Rattle.std.specs.Prelude.{◌≡◌, ◌<◌, ◌^◌, neg_ℤ, ◌∷◌, [], ◌+ℤ◌, ◌-ℤ◌, pos, negsuc, None, IfOk, option_map, List};
ghost use Rattle.lin_facts.specs.Rows.{IsWithin};
ghost use Rattle.lin_facts.specs.declared.row.Term.TheVariants.{Value};
ghost use Rattle.sym_state.specs.declared.demand.DemandKind.TheVariants.{IntRange};
ghost use Rattle.sym_state.specs.Demands.{Gives as Given, IsReady, Steps, fails, without};
ghost use Rattle.sym_state.specs.declared.symbol.Fact.TheVariants.{Int as IntFact};
ghost use Rattle.sym_state.specs.declared.symbol.Kinds.TheVariants.{Int as IntKind};
ghost use Rattle.sym_state.specs.Effects as rule;
ghost use Rattle.sym_state.specs.Results as results;
ghost use Rattle.sym_state.specs.Results.{next_of};
ghost use Rattle.sym_state.specs.WellMade.{IsBounded};
ghost use Rattle.builtin_effects.specs.Given.{Gives, facts_of, outcome_at, rows_of};

use crate::at::{At, Outcome};
use crate::results::{Said, part, with_result};
use crate::steps::{both_steps, step};
use bv_base::limits::GREATEST_INTEGER;
use bv_base::memory::NoMemory;
use lin_facts::row::{Part, Row, Term};
use sym_state::demand::{DemandKind, EffectFault};
use sym_state::hint::Hints;
use sym_state::operands::{one, two};
use sym_state::references::{at_least, at_most, exceeds};
use sym_state::results::{sum_of_three, sum_of_two};
use sym_state::state::State;
use sym_state::symbol::{Fact, Kinds, Sym};
use text_ops::width::WIDEST_BYTE;

/// `+`
pub fn plus(at: &At<'_>, hints: &mut Hints<'_>) -> Outcome
    requires { IsReady at.now.state.now hints.old }
    ensures { Gives result hints.new (outcome_at at.now (rule.sum at.now.state.now (pos 1) (λ a b. a +ℤ b)) hints.old) }
{
    let (a, b) = two(at.state, Kinds::Int, Kinds::Int)?;
    let upper = Term::Value(b.0);
    match (at.state.exact_integer(a), at.state.exact_integer(b)) {
        (Some(m), Some(n)) => match m.checked_add(n) {
            Some(sum) => Ok(known(at, 2, sum)?),
            None => Err(EffectFault::unmet(DemandKind::IntRange, 0)),
        },
        _ => unknown_sum(at, a, part(1, upper), part(-1, upper), hints),
    }
}

/// `-`
pub fn minus(at: &At<'_>, hints: &mut Hints<'_>) -> Outcome
    requires { IsReady at.now.state.now hints.old }
    ensures { Gives result hints.new (outcome_at at.now (rule.sum at.now.state.now (negsuc 0) (λ a b. a -ℤ b)) hints.old) }
{
    let (a, b) = two(at.state, Kinds::Int, Kinds::Int)?;
    let upper = Term::Value(b.0);
    match (at.state.exact_integer(a), at.state.exact_integer(b)) {
        (Some(m), Some(n)) => match m.checked_sub(n) {
            Some(difference) => Ok(known(at, 2, difference)?),
            None => Err(EffectFault::unmet(DemandKind::IntRange, 0)),
        },
        _ => unknown_sum(at, a, part(-1, upper), part(1, upper), hints),
    }
}

/// A new integer that is known, where so many operands are taken.
fn known(at: &At<'_>, taken: usize, n: i32) -> Result<State, NoMemory>
    requires { at.now.state.now.next < 4294967295 }
    ensures { IfOk result (λ after. after
        ≡ results.with_result IntKind (IntFact (next_of at.now.state.now) n ∷ []) [] (without taken at.now.state.now)) }
{
    let said = Said::fact(Fact::Int(Sym(at.state.next()), n));
    with_result(at.state, taken, Kinds::Int, said)
}

/// A sum that isn't known is shown to have 32 bits. The second part is added, with its sign; the other has the opposite
/// sign.
fn unknown_sum(at: &At<'_>, a: Sym, second: Part, opposite: Part, hints: &mut Hints<'_>) -> Outcome
    requires ready { IsReady at.now.state.now hints.old }
    requires second { IsWithin (2 ^ 40) second.coefficient }
    requires opposite { IsWithin (2 ^ 40) opposite.coefficient }
    requires sign { opposite.coefficient ≡ neg_ℤ second.coefficient }
    requires term { opposite.term ≡ second.term }
    ensures { (b : Sym) → second.term ≡ Value b.0
        → Gives result hints.new (outcome_at at.now (rule.summed second.coefficient a b (without 2 at.now.state.now) None) hints.old) }
{
    let alloc = at.state.alloc();
    let x = Term::Value(a.0);
    let low = sum_of_two(alloc, GREATEST_INTEGER as i64 + 1, part(1, x), second)?;
    let high = sum_of_two(alloc, GREATEST_INTEGER as i64, part(-1, x), opposite)?;
    let fault = EffectFault::unmet(DemandKind::IntRange, 0);
    both_steps(at, &low, &high, fault, hints)?;
    Ok(new_sum(at, a, second, opposite)?)
}

/// A new integer that is a sum.
fn new_sum(at: &At<'_>, a: Sym, second: Part, opposite: Part) -> Result<State, NoMemory>
    requires room { at.now.state.now.next < 4294967295 }
    requires second { IsWithin (2 ^ 40) second.coefficient }
    requires opposite { IsWithin (2 ^ 40) opposite.coefficient }
    ensures { IfOk result (λ after. after ≡ results.with_result IntKind [] (
        results.sum_of_three (pos 0) (pos 1) (Value at.now.state.now.next) (negsuc 0) (Value a.0) opposite.coefficient opposite.term
        ∷ (results.sum_of_three (pos 0) (negsuc 0) (Value at.now.state.now.next) (pos 1) (Value a.0) second.coefficient second.term ∷ [])
        ) (without 2 at.now.state.now)) }
{
    let alloc = at.state.alloc();
    let (x, r) = (Term::Value(a.0), Term::Value(at.state.next()));
    let said = Said::rows(
        sum_of_three(alloc, 0, part(1, r), part(-1, x), opposite)?,
        sum_of_three(alloc, 0, part(-1, r), part(1, x), second)?,
    );
    with_result(at.state, 2, Kinds::Int, said)
}

/// `chr.to.int$`
pub fn chr_to_int(at: &At<'_>, hints: &mut Hints<'_>) -> Outcome
    requires { IsReady at.now.state.now hints.old }
    ensures { Gives result hints.new (outcome_at at.now (rule.chr_to_int at.now.state.now) hints.old) }
{
    let a = one(at.state, Kinds::Str)?;
    match one_byte(at.state.exact_text(a)) {
        Some(b) => Ok(known(at, 1, b as i32)?),
        None => unknown_byte(at, a, hints),
    }
}

/// The byte of a text that has one.
fn one_byte(text: Option<&[u8]>) -> Option<u8>
    ensures { result ≡ rule.one_byte (option_map (λ t. t.now) text.entry) }
{
    match text {
        Some([b]) => Some(*b),
        _ => None,
    }
}

/// A string that isn't known is shown to have one byte.
fn unknown_byte(at: &At<'_>, a: Sym, hints: &mut Hints<'_>) -> Outcome
    requires { IsReady at.now.state.now hints.old }
    ensures { Gives result hints.new (outcome_at at.now (rule.byte_number a (without 1 at.now.state.now) None) hints.old) }
{
    let alloc = at.state.alloc();
    let length = Term::Length(a.0);
    let low = at_least(alloc, length, 1)?;
    let high = at_most(alloc, length, 1)?;
    let fault = EffectFault::unmet(DemandKind::NotOneByte, 1);
    both_steps(at, &low, &high, fault, hints)?;
    let r = Term::Value(at.state.next());
    let said = Said::rows(at_least(alloc, r, 0)?, at_most(alloc, r, 255)?);
    Ok(with_result(at.state, 1, Kinds::Int, said)?)
}

/// `int.to.chr$`
pub fn int_to_chr(at: &At<'_>, hints: &mut Hints<'_>) -> Outcome
    requires { IsReady at.now.state.now hints.old }
    ensures { Gives result hints.new (outcome_at at.now rule.int_to_chr hints.old) }
{
    let a = one(at.state, Kinds::Int)?;
    let alloc = at.state.alloc();
    let value = Term::Value(a.0);
    let low = at_least(alloc, value, 0)?;
    let high = at_most(alloc, value, 127)?;
    let fault = EffectFault::unmet(DemandKind::NotAscii, 1);
    both_steps(at, &low, &high, fault, hints)?;
    let r = Term::Length(at.state.next());
    let said = Said::rows(at_least(alloc, r, 1)?, at_most(alloc, r, 1)?);
    Ok(with_result(at.state, 1, Kinds::Str, said)?)
}

/// `int.to.str$`
pub fn int_to_str(at: &At<'_>) -> Outcome
    requires { at.now.state.now.next < 4294967295 }
    ensures { (hints : List Hint) → Gives result hints (outcome_at at.now rule.int_to_str hints) }
{
    one(at.state, Kinds::Int)?;
    let alloc = at.state.alloc();
    let r = Term::Length(at.state.next());
    let said = Said {
        fact: Some(Fact::Nonblank(Sym(at.state.next()))),
        first: Some(at_least(alloc, r, 1)?),
        second: Some(at_most(alloc, r, 11)?),
    };
    Ok(with_result(at.state, 1, Kinds::Str, said)?)
}

/// `num.names$`
pub fn num_names(at: &At<'_>, hints: &mut Hints<'_>) -> Outcome
    requires { IsReady at.now.state.now hints.old }
    ensures { Gives result hints.new (outcome_at at.now rule.num_names hints.old) }
{
    let a = one(at.state, Kinds::Str)?;
    let names = Term::Names(a.0);
    let alloc = at.state.alloc();
    let r = Term::Value(at.state.next());
    let high = at_most(alloc, names, GREATEST_INTEGER as i64)?;
    let said = Said::rows(exceeds(alloc, r, names, 0)?, exceeds(alloc, names, r, 0)?);
    counted(at, &high, said, hints)
}

/// `text.length$`
pub fn text_length(at: &At<'_>, hints: &mut Hints<'_>) -> Outcome
    requires { IsReady at.now.state.now hints.old }
    ensures { Gives result hints.new (outcome_at at.now rule.text_length hints.old) }
{
    let a = one(at.state, Kinds::Str)?;
    let length = Term::Length(a.0);
    let alloc = at.state.alloc();
    let r = Term::Value(at.state.next());
    let high = at_most(alloc, length, GREATEST_INTEGER as i64)?;
    let said = Said::rows(at_least(alloc, r, 0)?, exceeds(alloc, length, r, 0)?);
    counted(at, &high, said, hints)
}

/// `width$`
pub fn width(at: &At<'_>, hints: &mut Hints<'_>) -> Outcome
    requires { IsReady at.now.state.now hints.old }
    ensures { Gives result hints.new (outcome_at at.now rule.width hints.old) }
{
    let a = one(at.state, Kinds::Str)?;
    let length = Term::Length(a.0);
    let alloc = at.state.alloc();
    let r = Term::Value(at.state.next());
    let high = sum_of_two(
        alloc,
        GREATEST_INTEGER as i64,
        part(-(WIDEST_BYTE as i64), length),
        part(0, length),
    )?;
    let most = sum_of_two(alloc, 0, part(WIDEST_BYTE as i64, length), part(-1, r))?;
    counted(at, &high, Said::rows(at_least(alloc, r, 0)?, most), hints)
}

/// A number that is told of a string, which a step shows to have 32 bits.
fn counted(at: &At<'_>, high: &Row, said: Said, hints: &mut Hints<'_>) -> Outcome
    requires ready { IsReady at.now.state.now hints.old }
    requires high { IsBounded high.now }
    ensures { Gives result hints.new (outcome_at at.now (Steps high.now (fails IntRange 0)
        (Given (results.with_result IntKind (facts_of said) (rows_of said) (without 1 at.now.state.now)))) hints.old) }
{
    let fault = EffectFault::unmet(DemandKind::IntRange, 0);
    step(at, high, fault, hints)?;
    Ok(with_result(at.state, 1, Kinds::Int, said)?)
}
