//! The built-in functions that only move values.

ghost use Rattle.std.specs.Prelude.{◌≡◌, ◌≤◌, ◌∷◌, Ok};
ghost use Rattle.bst_meaning.specs.Effect.{left};
ghost use Rattle.bst_step.specs.Marks as mark;
ghost use Rattle.bst_step.specs.Subjects.{Fits, Leaves, one_operand, pushed, two_operands};

use crate::operands::{one, two};
use crate::stop::Stop;
use crate::values::Values;

/// `duplicate$`
#[inline(always)]
pub fn duplicate(values: &mut Values<'_>) -> Result<(), Stop>
    ensures left { Leaves result values.old values.new (one_operand values.old.stack (λ a rest. pushed a (a ∷ rest))) mark.doubled }
    ensures fits { 1 ≤ values.old.room → Fits result }
{
    let _ = one(values)?;
    values.double()?;
    Ok(())
}

/// `pop$`
#[inline(always)]
pub fn pop(values: &mut Values<'_>) -> Result<(), Stop>
    ensures left { Leaves result values.old values.new (one_operand values.old.stack (λ a rest. Ok (left rest))) (mark.taken 1) }
    ensures fits { Fits result }
{
    let _ = one(values)?;
    values.drop_top(1);
    Ok(())
}

/// `swap$`
#[inline(always)]
pub fn swap(values: &mut Values<'_>) -> Result<(), Stop>
    ensures left { Leaves result values.old values.new (two_operands values.old.stack (λ a b rest. Ok (left (a ∷ b ∷ rest)))) mark.swapped }
    ensures fits { Fits result }
{
    let _ = two(values)?;
    values.swap();
    Ok(())
}
