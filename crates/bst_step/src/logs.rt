//! The built-in functions that log.

ghost use Rattle.std.specs.Prelude.{◌≡◌, ◌++◌, [], ◌∷◌, ℕ, codes, map, IfOk};
ghost use Rattle.bst_meaning.specs.Builtins as rule;
ghost use Rattle.bst_step.specs.Held.{value_of};

use crate::held::Operand;
use crate::texts::joined;
use crate::values::Values;
use bst_meaning::value::Target;
use bv_base::memory::NoMemory;
use bv_base::text::Text;
use name_table::names::NameId;
use name_table::style::{BodyId, Style};
use std::alloc::Global;
use text_ops::int_to_str::int_to_str;

/// The bytes of a name, and none where the style has no such name.
pub fn name_text(style: &Style, name: NameId) -> &[u8]
    ensures { result.now ≡ rule.name_text style.now name }
{
    if name.0 < style.names.len() {
        style.names.text(name)
    } else {
        &[]
    }
}

/// The digits of a block's number, and no bytes where the body is no block.
fn block_number(alloc: Global, style: &Style, body: BodyId) -> Result<Vec<u8>, NoMemory>
    ensures { IfOk result (λ v. v.items ≡ rule.block_number style.now body) }
{
    match style.bodies.as_slice().get(body.0 as usize) {
        Some(body) => match body.block {
            Some(number) => Ok(format!(in alloc; "{number}")?.into_bytes()),
            None => Ok(Vec::new(alloc)),
        },
        None => Ok(Vec::new(alloc)),
    }
}

/// How a value is logged.
pub fn shown(alloc: Global, style: &Style, value: Operand<'_>) -> Result<Text, NoMemory>
    ensures { IfOk result (λ line. line ≡ rule.shown style.now (value_of value.entry)) }
{
    let line = match value {
        Operand::Int(n) => int_to_str(alloc, n)?,
        Operand::Str(bytes) => bytes.to_vec(alloc)?,
        Operand::Missing(name) => joined(alloc, b"missing ", name_text(style, name))?,
        Operand::Func(Target::Named(name)) => joined(alloc, b"function ", name_text(style, name))?,
        Operand::Func(Target::Block(body)) => {
            let number = block_number(alloc, style, body)?;
            joined(alloc, b"block ", number.as_slice())?
        }
    };
    Ok(Text::from_vec(line))
}

/// The line that `warning$` logs of a text.
pub fn warning_of(alloc: Global, text: &[u8]) -> Result<Text, NoMemory>
    ensures { IfOk result (λ line. line ≡ rule.warning text.now) }
{
    Ok(Text::from_vec(joined(alloc, b"Warning--", text)?))
}

/// How each value is logged, the top first.
pub fn all_shown(alloc: Global, style: &Style, values: &Values<'_>) -> Result<Vec<Text>, NoMemory>
    ensures { IfOk result (λ lines. lines.items ≡ map (rule.shown style.now) values.now.stack) }
{
    let mut lines = Vec::new(alloc);
    for depth in 0..values.len() {
        lines.push(shown(alloc, style, values.at(depth))?)?;
    }
    Ok(lines)
}
