//! The built-in functions on strings.

ghost use Rattle.std.specs.Prelude.{◌≡◌, ◌≤◌, ◌++◌, ℕ, pos, drop, take, is_none, length, IfOk};
ghost use Rattle.text_ops.specs.AddPeriod.{with_period};
ghost use Rattle.text_ops.specs.Purify.{purified};
ghost use Rattle.text_ops.specs.Substring.{last_bytes, substring_of};
ghost use Rattle.text_ops.specs.TextLength.{text_length_of};
ghost use Rattle.text_ops.specs.Width.{width_of};
ghost use Rattle.bst_meaning.specs.declared.value.Value.TheVariants.{Str};
ghost use Rattle.bst_meaning.specs.Builtins as rule;
ghost use Rattle.bst_meaning.specs.Builtins.{is_empty, case_of, change_case_in};
ghost use Rattle.bst_step.specs.Marks as mark;
ghost use Rattle.bst_step.specs.Subjects.{Fits, Leaves, field, pushed, ranged, string, strings, truth};

use crate::held::Operand;
use crate::numbers::count;
use crate::operands::{one_field, one_string, three, top_range, truth, two, two_strings};
use crate::stop::Stop;
use crate::values::Values;
use bst_meaning::fault::Fault;
use bv_base::memory::NoMemory;
use std::alloc::Global;
use text_ops::change_case::Case;

/// A text followed by another.
pub fn joined(alloc: Global, a: &[u8], b: &[u8]) -> Result<Vec<u8>, NoMemory>
    ensures { IfOk result (λ v. v.items ≡ a.now ++ b.now) }
{
    let mut text = a.to_vec(alloc)?;
    text.extend_from_slice(b)?;
    Ok(text)
}

/// `*`
pub fn join(values: &mut Values<'_>) -> Result<(), Stop>
    ensures { Leaves result values.old values.new (strings (λ a b rest. pushed (Str (a ++ b)) rest) values.old.stack) (mark.resulting 2 mark.Made) }
{
    let _ = two_strings(values)?;
    values.join()?;
    Ok(())
}

/// `add.period$`
#[inline(never)]
pub fn add_period(alloc: Global, values: &mut Values<'_>) -> Result<(), Stop>
    ensures { Leaves result values.old values.new (string (λ a rest. pushed (Str (with_period a)) rest) values.old.stack) (mark.resulting 1 mark.Made) }
{
    let text = text_ops::add_period::add_period(alloc, one_string(values)?)?;
    Ok(values.make(1, text.as_slice())?)
}

/// The case that a text names by its one byte.
fn case_named(text: &[u8]) -> Option<Case>
    ensures { result ≡ case_of text.now }
{
    match text {
        [b't' | b'T'] => Some(Case::Title),
        [b'l' | b'L'] => Some(Case::Lower),
        [b'u' | b'U'] => Some(Case::Upper),
        _ => None,
    }
}

/// `change.case$`
#[inline(never)]
pub fn change_case(alloc: Global, values: &mut Values<'_>) -> Result<(), Stop>
    ensures { Leaves result values.old values.new (strings (λ a mode rest. change_case_in (case_of mode) a rest) values.old.stack) (mark.resulting 2 mark.Made) }
{
    let (text, mode) = two_strings(values)?;
    let Some(case) = case_named(mode) else {
        return Err(Stop::Fault(Fault::BadCase));
    };
    let changed = text_ops::change_case::change_case(alloc, text, case)?;
    Ok(values.make(2, changed.as_slice())?)
}

/// `empty$`
#[inline(always)]
pub fn empty(values: &mut Values<'_>) -> Result<(), Stop>
    ensures left { Leaves result values.old values.new (field (λ bytes rest. pushed (truth (is_empty bytes)) rest) values.old.stack) (mark.resulting 1 mark.NoString) }
    ensures fits { Fits result }
{
    let holds = match one_field(values)? {
        Some(bytes) => text_ops::is_blank::is_blank(bytes),
        None => true,
    };
    values.put(1, truth(holds));
    Ok(())
}

/// `missing$`
#[inline(always)]
pub fn missing(values: &mut Values<'_>) -> Result<(), Stop>
    ensures left { Leaves result values.old values.new (field (λ bytes rest. pushed (truth (is_none bytes)) rest) values.old.stack) (mark.resulting 1 mark.NoString) }
    ensures fits { Fits result }
{
    let holds = one_field(values)?.is_none();
    values.put(1, truth(holds));
    Ok(())
}

/// `purify$`
#[inline(never)]
pub fn purify(alloc: Global, values: &mut Values<'_>) -> Result<(), Stop>
    ensures { Leaves result values.old values.new (string (λ a rest. pushed (Str (purified a)) rest) values.old.stack) (mark.resulting 1 mark.Made) }
{
    let text = text_ops::purify::purify(alloc, one_string(values)?)?;
    Ok(values.make(1, text.as_slice())?)
}

/// Where the part of a text by its place and its length begins, and how many bytes it has.
fn substring_place(text: &[u8], start: i32, size: i32) -> (usize, usize)
    ensures { take result.1 (drop result.0 text.now) ≡ substring_of text.now start size }
{
    let place = start.unsigned_abs() as usize;
    if size <= 0 || place == 0 || place > text.len() {
        return (0, 0);
    }
    let count = size as usize;
    if start > 0 {
        return (place - 1, count);
    }
    last_place(text, text.len() - (place - 1), count)
}

/// Where the last so many bytes of a text begin up to an end in it, and how many there are.
fn last_place(text: &[u8], end: usize, count: usize) -> (usize, usize)
    requires { end ≤ length text.now }
    ensures { take result.1 (drop result.0 text.now) ≡ last_bytes count (take end text.now) }
{
    let from = end.saturating_sub(count);
    (from, end - from)
}

/// `substring$`
#[inline(never)]
pub fn substring(values: &mut Values<'_>) -> Result<(), Stop>
    ensures left { Leaves result values.old values.new (rule.substring values.old.stack) (mark.taken 2) }
    ensures fits { Fits result }
{
    let (from, count) = match top_range(values) {
        Some((text, start, length)) => substring_place(text, start, length),
        None => match three(values)? {
            (Operand::Str(text), Operand::Int(start), Operand::Int(length)) => {
                substring_place(text, start, length)
            }
            _ => return Err(Stop::Fault(Fault::WrongKind)),
        },
    };
    values.drop_top(2);
    values.cut_top(from, count);
    Ok(())
}

/// `text.length$`
#[inline(never)]
pub fn text_length(values: &mut Values<'_>) -> Result<(), Stop>
    ensures left { Leaves result values.old values.new (string (λ a rest. ranged (pos (text_length_of a)) rest) values.old.stack) (mark.resulting 1 mark.NoString) }
    ensures fits { Fits result }
{
    let length = text_ops::text_length::text_length(one_string(values)?) as u128;
    count(length, values)
}

/// `text.prefix$`
#[inline(never)]
pub fn text_prefix(alloc: Global, values: &mut Values<'_>) -> Result<(), Stop>
    ensures { Leaves result values.old values.new (rule.text_prefix values.old.stack) (mark.resulting 2 mark.Made) }
{
    match two(values)? {
        (Operand::Str(text), Operand::Int(count)) => {
            let prefix = text_ops::text_prefix::text_prefix(alloc, text, count)?;
            Ok(values.make(2, prefix.as_slice())?)
        }
        _ => Err(Stop::Fault(Fault::WrongKind)),
    }
}

/// `width$`
#[inline(never)]
pub fn width(values: &mut Values<'_>) -> Result<(), Stop>
    ensures left { Leaves result values.old values.new (string (λ a rest. ranged (pos (width_of a)) rest) values.old.stack) (mark.resulting 1 mark.NoString) }
    ensures fits { Fits result }
{
    let width = text_ops::width::width(one_string(values)?);
    count(width, values)
}
