//! `:=`

ghost use Rattle.std.specs.Prelude.{◌≡◌, ℕ, true, Some, drop, slice_get, IfOk};
ghost use Rattle.bst_meaning.specs.Operands.{as_string, as_integer};
ghost use Rattle.bst_meaning.specs.StyleParts as parts;
ghost use Rattle.bst_meaning.specs.Builtins as rule;
ghost use Rattle.bst_step.specs.Held.{value_of};
ghost use Rattle.bst_meaning.specs.declared.value.Target.TheVariants.{Named};
ghost use Rattle.bst_meaning.specs.declared.value.Value.TheVariants.{Func};
ghost use Rattle.bst_step.specs.Assignments.{Gives, name_of};
ghost use Rattle.bst_step.specs.Room.{Fits, cuts_nothing};
ghost use Rattle.bst_step.specs.Surroundings.{context_in};

use crate::held::Operand;
use crate::logs::name_text;
use crate::operands::two;
use crate::stop::Stop;
use crate::surroundings::Surroundings;
use crate::texts::joined;
use crate::values::Values;
use bst_meaning::fault::Fault;
use bst_meaning::style_parts::kind_of;
use bst_meaning::value::{ENTRY_SIZE, GLOBAL_SIZE, Target};
use bv_base::memory::NoMemory;
use bv_base::text::Text;
use name_table::names::{Kind, NameId};
use name_table::style::Style;
use std::alloc::Global;

/// What `:=` comes to where it has no fault: it takes the value that is second from the top and the name of a variable.
#[derive(Drop)]
pub enum Assignment {
    /// Assigns the value to the variable.
    Whole(NameId),
    /// Assigns so many bytes of the string to the variable, and logs a warning.
    Cut(NameId, usize, Text),
}

/// What `:=` comes to.
pub fn assignment_of<'a>(around: Surroundings<'a>, values: &Values<'a>) -> Result<Assignment, Stop>
    ensures effect { Gives result values.now.stack (rule.assign (context_in around.entry) values.now.stack) }
    ensures named { IfOk result (λ assignment. slice_get values.now.stack 0 ≡ Some (Func (Named (name_of assignment)))) }
    ensures fits { cuts_nothing (rule.assign (context_in around.entry) values.now.stack) ≡ true → Fits result }
{
    let (value, target) = two(values)?;
    match target {
        Operand::Func(Target::Named(name)) => assign_to(around, name, value, values),
        Operand::Func(Target::Block(_)) => Err(Stop::Fault(Fault::NotVariable)),
        _ => Err(Stop::Fault(Fault::WrongKind)),
    }
}

/// `:=` of a value, the second from the top, to what a name stands for.
fn assign_to<'a>(
    around: Surroundings<'a>,
    name: NameId,
    value: Operand<'_>,
    values: &Values<'a>,
) -> Result<Assignment, Stop>
    requires { slice_get values.now.stack 1 ≡ Some (value_of value) }
    ensures effect { Gives result values.now.stack
        (rule.assign_to (context_in around.entry) (parts.kind_of around.entry.style.now name) name (value_of value.entry) (drop 2 values.now.stack)) }
    ensures named { IfOk result (λ assignment. name_of assignment ≡ name) }
    ensures fits { cuts_nothing (rule.assign_to (context_in around.entry) (parts.kind_of around.entry.style.now name) name (value_of value.entry)
        (drop 2 values.now.stack)) ≡ true → Fits result }
{
    let visits = around.entry.is_some();
    match kind_of(around.style, name) {
        Some(Kind::IntGlobal) => assign_integer(name, value, values),
        Some(Kind::StrGlobal) => assign_string(around, name, GLOBAL_SIZE, value, values),
        Some(Kind::IntEntry) if visits => assign_integer(name, value, values),
        Some(Kind::StrEntry) if visits => assign_string(around, name, ENTRY_SIZE, value, values),
        Some(Kind::IntEntry | Kind::StrEntry) => Err(Stop::Fault(Fault::NoEntry)),
        _ => Err(Stop::Fault(Fault::NotVariable)),
    }
}

/// `:=` of an integer to an integer variable.
fn assign_integer<'a>(
    name: NameId,
    value: Operand<'_>,
    values: &Values<'a>,
) -> Result<Assignment, Stop>
    requires { slice_get values.now.stack 1 ≡ Some (value_of value) }
    ensures effect { Gives result values.now.stack (as_integer (value_of value.entry) (λ n. rule.assigned_integer name n (drop 2 values.now.stack))) }
    ensures named { IfOk result (λ assignment. name_of assignment ≡ name) }
    ensures fits { Fits result }
{
    let _ = values;
    match value {
        Operand::Int(_) => Ok(Assignment::Whole(name)),
        _ => Err(Stop::Fault(Fault::WrongKind)),
    }
}

/// `:=` of a string to a string variable of a size.
fn assign_string<'a>(
    around: Surroundings<'a>,
    name: NameId,
    size: u32,
    value: Operand<'_>,
    values: &Values<'a>,
) -> Result<Assignment, Stop>
    requires { slice_get values.now.stack 1 ≡ Some (value_of value) }
    ensures effect { Gives result values.now.stack
        (as_string (value_of value.entry) (λ bytes. rule.assigned_string around.entry.style.now name size bytes (drop 2 values.now.stack))) }
    ensures named { IfOk result (λ assignment. name_of assignment ≡ name) }
    ensures fits { cuts_nothing (as_string (value_of value.entry)
        (λ bytes. rule.assigned_string around.entry.style.now name size bytes (drop 2 values.now.stack))) ≡ true → Fits result }
{
    let _ = values;
    let Operand::Str(bytes) = value else {
        return Err(Stop::Fault(Fault::WrongKind));
    };
    if bytes.len() <= size as usize {
        return Ok(Assignment::Whole(name));
    }
    let line = cut_warning(around.alloc, around.style, name, size)?;
    Ok(Assignment::Cut(name, size as usize, line))
}

/// The warning that a string was cut to a variable's size.
fn cut_warning(alloc: Global, style: &Style, name: NameId, size: u32) -> Result<Text, NoMemory>
    ensures { IfOk result (λ line. line ≡ rule.cut_warning style.now name size) }
{
    let mut line = joined(alloc, b"Warning--cut ", name_text(style, name))?;
    line.extend_from_slice(b" to ")?;
    let digits = format!(in alloc; "{size}")?.into_bytes();
    line.extend_from_slice(digits.as_slice())?;
    Ok(Text::from_vec(line))
}
