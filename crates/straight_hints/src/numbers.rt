//! The built-in functions that give integers or take one alone.

ghost use Rattle.std.specs.Prelude.{◌≡◌, suc, ◌^◌, ℤ, pos, negsuc, neg_ℤ, None, option_map, IfOk};
ghost use Rattle.lin_facts.specs.declared.row.Term.TheVariants.{Value};
ghost use Rattle.straight_hints.specs.Given.{Finds, hints_at};
ghost use Rattle.straight_hints.specs.Subjects.{HasBounds, IsBounded, IsWithin, without};
ghost use Rattle.sym_state.specs.Effects as rule;
ghost use Rattle.sym_state.specs.Results as results;

use crate::at::{At, Found};
use crate::steps::{both_steps, none, one_step};
use bv_base::limits::GREATEST_INTEGER;
use bv_base::memory::NoMemory;
use lin_facts::row::{Part, Row, Term};
use std::alloc::Global;
use sym_state::operands::{one, two};
use sym_state::references::{at_least, at_most, exceeds};
use sym_state::results::sum_of_two;
use sym_state::symbol::{Kinds, Sym};
use text_ops::width::WIDEST_BYTE;

/// `+` and `-`: the sign is that of the upper operand.
pub fn sum(at: &At<'_>, sign: i64) -> Found
    requires bounds { HasBounds at.now.state.now }
    requires sign { IsWithin (2 ^ 40) sign }
    ensures { (add : ℤ → ℤ → ℤ) → Finds result (hints_at at.now (rule.sum at.now.state.now sign add)) }
{
    let (a, b) = two(at.state, Kinds::Int, Kinds::Int)?;
    match (at.state.exact_integer(a), at.state.exact_integer(b)) {
        (Some(_), Some(_)) => Ok(none(at)),
        _ => unknown_sum(at, sign, a, b),
    }
}

/// Two steps show that a sum that isn't known has 32 bits.
fn unknown_sum(at: &At<'_>, sign: i64, a: Sym, b: Sym) -> Found
    requires bounds { HasBounds at.now.state.now }
    requires sign { IsWithin (2 ^ 40) sign }
    ensures { Finds result (hints_at at.now (rule.summed sign a b (without 2 at.now.state.now) None)) }
{
    let low = sum_at_least(at.state.alloc(), sign, a, b)?;
    let high = sum_at_most(at.state.alloc(), sign, a, b)?;
    Ok(both_steps(at, &low, &high)?)
}

/// A sum is at least -2147483648.
fn sum_at_least(alloc: Global, sign: i64, a: Sym, b: Sym) -> Result<Row, NoMemory>
    requires { IsWithin (2 ^ 40) sign }
    ensures said { IfOk result (λ row. row ≡ results.sum_of_two (pos (suc GREATEST_INTEGER)) (pos 1) (Value a.0) sign (Value b.0)) }
    ensures bounded { IfOk result IsBounded }
{
    let (x, y) = (Term::Value(a.0), Term::Value(b.0));
    sum_of_two(
        alloc,
        GREATEST_INTEGER as i64 + 1,
        part(1, x),
        part(sign, y),
    )
}

/// It is at most 2147483647.
fn sum_at_most(alloc: Global, sign: i64, a: Sym, b: Sym) -> Result<Row, NoMemory>
    requires { IsWithin (2 ^ 40) sign }
    ensures said { IfOk result (λ row. row ≡ results.sum_of_two (pos GREATEST_INTEGER) (negsuc 0) (Value a.0) (neg_ℤ sign) (Value b.0)) }
    ensures bounded { IfOk result IsBounded }
{
    let (x, y) = (Term::Value(a.0), Term::Value(b.0));
    sum_of_two(alloc, GREATEST_INTEGER as i64, part(-1, x), part(-sign, y))
}

/// A term with a number before it.
fn part(coefficient: i64, term: Term) -> Part
    ensures { result ≡ record { coefficient = coefficient; term = term } }
{
    Part { coefficient, term }
}

/// `chr.to.int$`
pub fn chr_to_int(at: &At<'_>) -> Found
    requires { HasBounds at.now.state.now }
    ensures { Finds result (hints_at at.now (rule.chr_to_int at.now.state.now)) }
{
    let a = one(at.state, Kinds::Str)?;
    match one_byte(at.state.exact_text(a)) {
        Some(_) => Ok(none(at)),
        None => unknown_byte(at, a),
    }
}

/// The byte of a text that has one.
fn one_byte(text: Option<&[u8]>) -> Option<u8>
    ensures { result ≡ rule.one_byte (option_map (λ t. t.now) text.entry) }
{
    match text {
        Some([b]) => Some(*b),
        _ => None,
    }
}

/// Two steps show that a string that isn't known has one byte.
fn unknown_byte(at: &At<'_>, a: Sym) -> Found
    requires { HasBounds at.now.state.now }
    ensures { Finds result (hints_at at.now (rule.byte_number a (without 1 at.now.state.now) None)) }
{
    let alloc = at.state.alloc();
    let length = Term::Length(a.0);
    let low = at_least(alloc, length, 1)?;
    let high = at_most(alloc, length, 1)?;
    Ok(both_steps(at, &low, &high)?)
}

/// `int.to.chr$`
pub fn int_to_chr(at: &At<'_>) -> Found
    requires { HasBounds at.now.state.now }
    ensures { Finds result (hints_at at.now rule.int_to_chr) }
{
    let a = one(at.state, Kinds::Int)?;
    let alloc = at.state.alloc();
    let value = Term::Value(a.0);
    let low = at_least(alloc, value, 0)?;
    let high = at_most(alloc, value, 127)?;
    Ok(both_steps(at, &low, &high)?)
}

/// `num.names$`
pub fn num_names(at: &At<'_>) -> Found
    requires { HasBounds at.now.state.now }
    ensures { Finds result (hints_at at.now rule.num_names) }
{
    let a = one(at.state, Kinds::Str)?;
    let names = Term::Names(a.0);
    let high = at_most(at.state.alloc(), names, GREATEST_INTEGER as i64)?;
    Ok(one_step(at, &high)?)
}

/// `text.length$`
pub fn text_length(at: &At<'_>) -> Found
    requires { HasBounds at.now.state.now }
    ensures { Finds result (hints_at at.now rule.text_length) }
{
    let a = one(at.state, Kinds::Str)?;
    let length = Term::Length(a.0);
    let high = at_most(at.state.alloc(), length, GREATEST_INTEGER as i64)?;
    Ok(one_step(at, &high)?)
}

/// `width$`
pub fn width(at: &At<'_>) -> Found
    requires { HasBounds at.now.state.now }
    ensures { Finds result (hints_at at.now rule.width) }
{
    let a = one(at.state, Kinds::Str)?;
    let length = Term::Length(a.0);
    let high = sum_of_two(
        at.state.alloc(),
        GREATEST_INTEGER as i64,
        part(-(WIDEST_BYTE as i64), length),
        part(0, length),
    )?;
    Ok(one_step(at, &high)?)
}
