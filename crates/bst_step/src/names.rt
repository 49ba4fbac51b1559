//! The built-in functions on names.

ghost use Rattle.std.specs.Prelude.{◌≡◌, ◌≤◌, pos, drop, length, IfErr, IfOk, OnOk};
ghost use Rattle.name_split.specs.Names.{names_of};
ghost use Rattle.bst_meaning.specs.Builtins as rule;
ghost use Rattle.bst_step.specs.Marks as mark;
ghost use Rattle.bst_meaning.specs.declared.value.Value.TheVariants.{Str};
ghost use Rattle.bst_step.specs.Effects.{IsStopOf};
ghost use Rattle.bst_step.specs.Subjects.{Fits, Leaves, pushed, ranged, string};

use crate::held::Operand;
use crate::numbers::count;
use crate::operands::{one_string, three};
use crate::stop::Stop;
use crate::values::Values;
use bst_meaning::fault::Fault;
use name_format::format::{FormatFault, format};
use name_format::known::Known;
use std::alloc::Global;

/// `num.names$`
#[inline(never)]
pub fn num_names(values: &mut Values<'_>) -> Result<(), Stop>
    ensures left { Leaves result values.old values.new (string (λ a rest. ranged (pos (length (names_of a))) rest) values.old.stack) (mark.resulting 1 mark.NoString) }
    ensures fits { Fits result }
{
    let names = name_split::names::count(one_string(values)?) as u128;
    count(names, values)
}

/// `format.name$`
#[inline(never)]
pub fn format_name(alloc: Global, values: &mut Values<'_>) -> Result<(), Stop>
    ensures { Leaves result values.old values.new (rule.format_name values.old.stack) (mark.resulting 3 mark.Made) }
{
    let mut known = values.take_known();
    let written = formatted(alloc, &mut known, values);
    values.keep_known(known);
    match written {
        Ok(name) => Ok(values.make(3, name.as_slice())?),
        Err(Stop::Fault(fault)) => Err(Stop::Fault(fault)),
        Err(Stop::NoMemory) => Err(Stop::NoMemory),
    }
}

/// The name that `format.name$` writes.
fn formatted(alloc: Global, known: &mut Known, values: &Values<'_>) -> Result<Vec<u8>, Stop>
    ensures enough { OnOk result (3 ≤ length values.now.stack) }
    ensures written { IfOk result (λ name. rule.format_name values.now.stack ≡ pushed (Str name.items) (drop 3 values.now.stack)) }
    ensures fault { IfErr result (λ stop. IsStopOf stop (rule.format_name values.now.stack)) }
{
    match three(values)? {
        (Operand::Str(text), Operand::Int(index), Operand::Str(pattern)) => {
            match format(alloc, known, text, index, pattern) {
                Ok(name) => Ok(name),
                Err(FormatFault::BadNameIndex) => Err(Stop::Fault(Fault::BadNameIndex)),
                Err(FormatFault::BadName) => Err(Stop::Fault(Fault::BadName)),
                Err(FormatFault::BadPattern) => Err(Stop::Fault(Fault::BadPattern)),
                Err(FormatFault::NoMemory) => Err(Stop::NoMemory),
            }
        }
        _ => Err(Stop::Fault(Fault::WrongKind)),
    }
}
