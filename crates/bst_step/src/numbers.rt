//! The built-in functions on integers.

ghost use Rattle.std.specs.Prelude.{◌≡◌, ◌≤◌, ◌+ℤ◌, ◌-ℤ◌, Err, MatchResult, OnOk, length, pos, drop};
ghost use Rattle.text_ops.specs.IntToStr.{numeral};
ghost use Rattle.bst_meaning.specs.declared.value.Value.TheVariants.{Str};
ghost use Rattle.bst_meaning.specs.Operands.{is_positive};
ghost use Rattle.bst_meaning.specs.Builtins as rule;
ghost use Rattle.bst_meaning.specs.Builtins.{byte_number, byte_string};
ghost use Rattle.bst_step.specs.Marks as mark;
ghost use Rattle.bst_step.specs.Subjects.{Fits, Leaves, integer, integers, pushed, ranged, string, truth, two_operands};

use crate::held::Operand;
use crate::operands::{
    one_integer, one_string, top_integers, top_strings, truth, two, two_integers,
};
use crate::stop::Stop;
use crate::values::Values;
use bst_meaning::fault::Fault;
use bv_base::limits::GREATEST_INTEGER;
use std::alloc::Global;
use text_ops::int_to_str::int_to_str;

/// `=`
pub fn equal(values: &mut Values<'_>) -> Result<(), Stop>
    ensures left { Leaves result values.old values.new (two_operands values.old.stack rule.equal) (mark.resulting 2 mark.NoString) }
    ensures fits { Fits result }
{
    let holds = are_equal(values)?;
    values.put(2, truth(holds));
    Ok(())
}

/// Whether the two topmost values, two integers or two strings, are equal.
#[inline(always)]
fn are_equal(values: &Values<'_>) -> Result<bool, Fault>
    ensures enough { OnOk result (2 ≤ length values.now.stack) }
    ensures taken { MatchResult result
        (λ holds. two_operands values.now.stack rule.equal ≡ pushed (truth holds) (drop 2 values.now.stack))
        (λ fault. two_operands values.now.stack rule.equal ≡ Err fault) }
{
    if let Some((a, b)) = top_integers(values) {
        return Ok(a == b);
    }
    if let Some((a, b)) = top_strings(values) {
        return Ok(a == b);
    }
    compared(values)
}

/// The same, with a look at all kinds.
#[cold]
#[inline(never)]
fn compared(values: &Values<'_>) -> Result<bool, Fault>
    ensures enough { OnOk result (2 ≤ length values.now.stack) }
    ensures taken { MatchResult result
        (λ holds. two_operands values.now.stack rule.equal ≡ pushed (truth holds) (drop 2 values.now.stack))
        (λ fault. two_operands values.now.stack rule.equal ≡ Err fault) }
{
    match two(values)? {
        (Operand::Int(a), Operand::Int(b)) => Ok(a == b),
        (Operand::Str(a), Operand::Str(b)) => Ok(a == b),
        _ => Err(Fault::WrongKind),
    }
}

/// `>`
pub fn greater(values: &mut Values<'_>) -> Result<(), Stop>
    ensures left { Leaves result values.old values.new (integers (λ a b rest. pushed (truth (is_positive (a -ℤ b))) rest) values.old.stack) (mark.resulting 2 mark.NoString) }
    ensures fits { Fits result }
{
    let (a, b) = two_integers(values)?;
    values.put(2, truth(a > b));
    Ok(())
}

/// `<`
pub fn less(values: &mut Values<'_>) -> Result<(), Stop>
    ensures left { Leaves result values.old values.new (integers (λ a b rest. pushed (truth (is_positive (b -ℤ a))) rest) values.old.stack) (mark.resulting 2 mark.NoString) }
    ensures fits { Fits result }
{
    let (a, b) = two_integers(values)?;
    values.put(2, truth(a < b));
    Ok(())
}

/// `+`
pub fn plus(values: &mut Values<'_>) -> Result<(), Stop>
    ensures left { Leaves result values.old values.new (integers (λ a b rest. ranged (a +ℤ b) rest) values.old.stack) (mark.resulting 2 mark.NoString) }
    ensures fits { Fits result }
{
    let (a, b) = two_integers(values)?;
    put_ranged(i64::from(a) + i64::from(b), values)
}

/// `-`
pub fn minus(values: &mut Values<'_>) -> Result<(), Stop>
    ensures left { Leaves result values.old values.new (integers (λ a b rest. ranged (a -ℤ b) rest) values.old.stack) (mark.resulting 2 mark.NoString) }
    ensures fits { Fits result }
{
    let (a, b) = two_integers(values)?;
    put_ranged(i64::from(a) - i64::from(b), values)
}

/// Puts an integer in the place of the two topmost values, where it has 32 bits.
fn put_ranged(n: i64, values: &mut Values<'_>) -> Result<(), Stop>
    requires { 2 ≤ length values.old.stack }
    ensures left { Leaves result values.old values.new (ranged n (drop 2 values.old.stack)) (mark.resulting 2 mark.NoString) }
    ensures fits { Fits result }
{
    match i32::try_from(n) {
        Ok(n) => {
            values.put(2, Operand::Int(n));
            Ok(())
        }
        Err(_) => Err(Stop::Fault(Fault::IntRange)),
    }
}

/// `chr.to.int$`
#[inline(never)]
pub fn chr_to_int(values: &mut Values<'_>) -> Result<(), Stop>
    ensures { Leaves result values.old values.new (string byte_number values.old.stack) (mark.resulting 1 mark.NoString) }
{
    match one_string(values)? {
        [b] => {
            let n = *b as i32;
            values.put(1, Operand::Int(n));
            Ok(())
        }
        _ => Err(Stop::Fault(Fault::NotOneByte)),
    }
}

/// `int.to.chr$`
#[inline(never)]
pub fn int_to_chr(values: &mut Values<'_>) -> Result<(), Stop>
    ensures { Leaves result values.old values.new (integer byte_string values.old.stack) (mark.resulting 1 mark.Made) }
{
    let n = one_integer(values)?;
    if 0 <= n && n < 128 {
        values.make(1, &[n as u8])?;
        return Ok(());
    }
    Err(Stop::Fault(Fault::NotAscii))
}

/// `int.to.str$`
#[inline(never)]
pub fn int_to_str_of(alloc: Global, values: &mut Values<'_>) -> Result<(), Stop>
    ensures { Leaves result values.old values.new (integer (λ n rest. pushed (Str (numeral n)) rest) values.old.stack) (mark.resulting 1 mark.Made) }
{
    let digits = int_to_str(alloc, one_integer(values)?)?;
    Ok(values.make(1, digits.as_slice())?)
}

/// Puts a count in the place of the top, where it has 32 bits.
pub fn count(n: u128, values: &mut Values<'_>) -> Result<(), Stop>
    requires { 1 ≤ length values.old.stack }
    ensures left { Leaves result values.old values.new (ranged (pos n) (drop 1 values.old.stack)) (mark.resulting 1 mark.NoString) }
    ensures fits { Fits result }
{
    if n <= GREATEST_INTEGER as u128 {
        values.put(1, Operand::Int(n as i32));
        Ok(())
    } else {
        Err(Stop::Fault(Fault::IntRange))
    }
}
