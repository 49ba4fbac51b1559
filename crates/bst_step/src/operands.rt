//! The operands of the built-in functions, which are looked at before they are taken: a fault leaves them there.

ghost use Rattle.std.specs.Prelude.{◌≡◌, ◌≤◌, ℕ, ℤ, List, ◌∷◌, Option, Some, Result, Err, drop, slice_get, length, option_map, IfOk, IfSome, MatchResult, OnOk};
ghost use Rattle.bst_meaning.specs.declared.value.Value.{Value};
ghost use Rattle.bst_meaning.specs.declared.fault.Fault.{Fault};
ghost use Rattle.bst_meaning.specs.Effect.{Effect};
ghost use Rattle.bst_meaning.specs.Operands as rule;
ghost use Rattle.bst_meaning.specs.Operands.{one_operand, two_operands, three_operands};
ghost use Rattle.bst_meaning.specs.Builtins.{integers, string};
ghost use Rattle.bst_meaning.specs.declared.value.Value.TheVariants.{Int, Str};
ghost use Rattle.bst_step.specs.Held.{value_of};
ghost use Rattle.bst_step.specs.Operands.{integer, field, strings};

use crate::held::Operand;
use crate::values::Values;
use bst_meaning::fault::Fault;

/// The topmost value.
#[inline(always)]
pub fn one<'b>(values: &'b Values<'_>) -> Result<Operand<'b>, Fault>
    ensures enough { OnOk result (1 ≤ length values.now.stack) }
    ensures top { IfOk result (λ a. values.now.stack ≡ value_of a ∷ drop 1 values.now.stack) }
    ensures taken { MatchResult result
        (λ a. (rule : Value → List Value → Result Effect Fault) → one_operand values.now.stack rule ≡ rule (value_of a) (drop 1 values.now.stack))
        (λ fault. (rule : Value → List Value → Result Effect Fault) → one_operand values.now.stack rule ≡ Err fault) }
{
    match values.below(0) {
        Some(a) => Ok(a),
        None => Err(Fault::EmptyPop),
    }
}

/// The two topmost values, the lower one first.
#[inline(always)]
pub fn two<'b>(values: &'b Values<'_>) -> Result<(Operand<'b>, Operand<'b>), Fault>
    ensures enough { OnOk result (2 ≤ length values.now.stack) }
    ensures lower { IfOk result (λ p. slice_get values.now.stack 1 ≡ Some (value_of p.0)) }
    ensures both { IfOk result (λ p. values.now.stack ≡ value_of p.1 ∷ value_of p.0 ∷ drop 2 values.now.stack) }
    ensures taken { MatchResult result
        (λ p. (rule : Value → Value → List Value → Result Effect Fault) → two_operands values.now.stack rule ≡ rule (value_of p.0) (value_of p.1) (drop 2 values.now.stack))
        (λ fault. (rule : Value → Value → List Value → Result Effect Fault) → two_operands values.now.stack rule ≡ Err fault) }
{
    match (values.below(1), values.below(0)) {
        (Some(a), Some(b)) => Ok((a, b)),
        _ => Err(Fault::EmptyPop),
    }
}

/// The three topmost values, the lowest one first.
#[inline(always)]
pub fn three<'b>(values: &'b Values<'_>) -> Result<(Operand<'b>, Operand<'b>, Operand<'b>), Fault>
    ensures enough { OnOk result (3 ≤ length values.now.stack) }
    ensures lowest { IfOk result (λ p. slice_get values.now.stack 2 ≡ Some (value_of p.0)) }
    ensures taken { MatchResult result
        (λ p. (rule : Value → Value → Value → List Value → Result Effect Fault) → three_operands values.now.stack rule ≡ rule (value_of p.0) (value_of p.1) (value_of p.2) (drop 3 values.now.stack))
        (λ fault. (rule : Value → Value → Value → List Value → Result Effect Fault) → three_operands values.now.stack rule ≡ Err fault) }
{
    match (values.below(2), values.below(1), values.below(0)) {
        (Some(a), Some(b), Some(c)) => Ok((a, b, c)),
        _ => Err(Fault::EmptyPop),
    }
}

/// A string.
#[inline(always)]
pub fn one_string<'b>(values: &'b Values<'_>) -> Result<&'b [u8], Fault>
    ensures enough { OnOk result (1 ≤ length values.now.stack) }
    ensures taken { MatchResult result
        (λ bytes. (rule : List ℕ → List Value → Result Effect Fault) → string rule values.now.stack ≡ rule bytes.now (drop 1 values.now.stack))
        (λ fault. (rule : List ℕ → List Value → Result Effect Fault) → string rule values.now.stack ≡ Err fault) }
{
    match one(values)? {
        Operand::Str(bytes) => Ok(bytes),
        _ => Err(Fault::WrongKind),
    }
}

/// An integer.
#[inline(always)]
pub fn one_integer(values: &Values<'_>) -> Result<i32, Fault>
    ensures enough { OnOk result (1 ≤ length values.now.stack) }
    ensures taken { MatchResult result
        (λ n. (rule : ℤ → List Value → Result Effect Fault) → integer rule values.now.stack ≡ rule n (drop 1 values.now.stack))
        (λ fault. (rule : ℤ → List Value → Result Effect Fault) → integer rule values.now.stack ≡ Err fault) }
{
    match one(values)? {
        Operand::Int(n) => Ok(n),
        _ => Err(Fault::WrongKind),
    }
}

/// A string, or `None` for a missing field.
#[inline(always)]
pub fn one_field<'b>(values: &'b Values<'_>) -> Result<Option<&'b [u8]>, Fault>
    ensures enough { OnOk result (1 ≤ length values.now.stack) }
    ensures taken { MatchResult result
        (λ found. (rule : Option (List ℕ) → List Value → Result Effect Fault) → field rule values.now.stack ≡ rule (option_map (λ bytes. bytes.now) found) (drop 1 values.now.stack))
        (λ fault. (rule : Option (List ℕ) → List Value → Result Effect Fault) → field rule values.now.stack ≡ Err fault) }
{
    match one(values)? {
        Operand::Str(bytes) => Ok(Some(bytes)),
        Operand::Missing(_) => Ok(None),
        _ => Err(Fault::WrongKind),
    }
}

/// The two topmost values, the lower one first, where both are integers. They are told without a look at other kinds.
#[inline(always)]
pub fn top_integers(values: &Values<'_>) -> Option<(i32, i32)>
    ensures { IfSome result (λ p. values.now.stack ≡ Int p.1 ∷ Int p.0 ∷ drop 2 values.now.stack) }
{
    match (values.integer_below(1), values.integer_below(0)) {
        (Some(a), Some(b)) => Some((a, b)),
        _ => None,
    }
}

/// Two integers, the lower one first.
#[inline(always)]
pub fn two_integers(values: &Values<'_>) -> Result<(i32, i32), Fault>
    ensures enough { OnOk result (2 ≤ length values.now.stack) }
    ensures taken { MatchResult result
        (λ p. (rule : ℤ → ℤ → List Value → Result Effect Fault) → integers rule values.now.stack ≡ rule p.0 p.1 (drop 2 values.now.stack))
        (λ fault. (rule : ℤ → ℤ → List Value → Result Effect Fault) → integers rule values.now.stack ≡ Err fault) }
{
    match top_integers(values) {
        Some(both) => Ok(both),
        None => integers_of_two(values),
    }
}

/// Two integers of two values, the lower one first.
#[cold]
#[inline(never)]
fn integers_of_two(values: &Values<'_>) -> Result<(i32, i32), Fault>
    ensures enough { OnOk result (2 ≤ length values.now.stack) }
    ensures taken { MatchResult result
        (λ p. (rule : ℤ → ℤ → List Value → Result Effect Fault) → integers rule values.now.stack ≡ rule p.0 p.1 (drop 2 values.now.stack))
        (λ fault. (rule : ℤ → ℤ → List Value → Result Effect Fault) → integers rule values.now.stack ≡ Err fault) }
{
    match two(values)? {
        (Operand::Int(a), Operand::Int(b)) => Ok((a, b)),
        _ => Err(Fault::WrongKind),
    }
}

/// The two topmost values, the lower one first, where both are strings. They are told without a look at other kinds.
#[inline(always)]
pub fn top_strings<'b>(values: &'b Values<'_>) -> Option<(&'b [u8], &'b [u8])>
    ensures { IfSome result (λ p. values.now.stack ≡ Str p.1.now ∷ Str p.0.now ∷ drop 2 values.now.stack) }
{
    match (values.string_below(1), values.string_below(0)) {
        (Some(a), Some(b)) => Some((a, b)),
        _ => None,
    }
}

/// Two strings, the lower one first.
#[inline(always)]
pub fn two_strings<'b>(values: &'b Values<'_>) -> Result<(&'b [u8], &'b [u8]), Fault>
    ensures enough { OnOk result (2 ≤ length values.now.stack) }
    ensures both { IfOk result (λ p. values.now.stack ≡ Str p.1.now ∷ Str p.0.now ∷ drop 2 values.now.stack) }
    ensures taken { MatchResult result
        (λ p. (rule : List ℕ → List ℕ → List Value → Result Effect Fault) → strings rule values.now.stack ≡ rule p.0.now p.1.now (drop 2 values.now.stack))
        (λ fault. (rule : List ℕ → List ℕ → List Value → Result Effect Fault) → strings rule values.now.stack ≡ Err fault) }
{
    match top_strings(values) {
        Some(both) => Ok(both),
        None => strings_of_two(values),
    }
}

/// Two strings of two values, the lower one first.
#[cold]
#[inline(never)]
fn strings_of_two<'b>(values: &'b Values<'_>) -> Result<(&'b [u8], &'b [u8]), Fault>
    ensures enough { OnOk result (2 ≤ length values.now.stack) }
    ensures both { IfOk result (λ p. values.now.stack ≡ Str p.1.now ∷ Str p.0.now ∷ drop 2 values.now.stack) }
    ensures taken { MatchResult result
        (λ p. (rule : List ℕ → List ℕ → List Value → Result Effect Fault) → strings rule values.now.stack ≡ rule p.0.now p.1.now (drop 2 values.now.stack))
        (λ fault. (rule : List ℕ → List ℕ → List Value → Result Effect Fault) → strings rule values.now.stack ≡ Err fault) }
{
    match two(values)? {
        (Operand::Str(a), Operand::Str(b)) => Ok((a, b)),
        _ => Err(Fault::WrongKind),
    }
}

/// A string, and on it two integers, the lower one first, where these three are on top. They are told without a look at other
/// kinds.
#[inline(always)]
pub fn top_range<'b>(values: &'b Values<'_>) -> Option<(&'b [u8], i32, i32)>
    ensures { IfSome result (λ r. values.now.stack ≡ Int r.2 ∷ Int r.1 ∷ Str r.0.now ∷ drop 3 values.now.stack) }
{
    match (
        values.string_below(2),
        values.integer_below(1),
        values.integer_below(0),
    ) {
        (Some(text), Some(start), Some(length)) => Some((text, start, length)),
        _ => None,
    }
}

/// 1 for true and 0 for false.
#[inline(always)]
pub fn truth<'a>(holds: bool) -> Operand<'a>
    ensures { value_of result ≡ rule.truth holds }
{
    Operand::Int(if holds { 1 } else { 0 })
}
