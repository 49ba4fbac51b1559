//! The texts of warnings.

ghost use Rattle.std.specs.Prelude.{◌≡◌, OnOk, IfOk, ◌++◌};
ghost use Rattle.bib_read.specs.Warnings as warnings;

use bv_base::memory::NoMemory;
use bv_base::text::Text;
use std::alloc::Global;

/// The warning of a macro that isn't defined.
pub(crate) fn undefined_macro(alloc: Global, name: &[u8]) -> Result<Text, NoMemory>
    ensures { IfOk result (λ text. text ≡ warnings.undefined_macro name.now) }
{
    let mut text = Vec::new(alloc);
    text.extend_from_slice(b"Warning--undefined macro ")?;
    text.extend_from_slice(name)?;
    Ok(Text::from_vec(text))
}

/// The warning of a field that an entry has already.
pub(crate) fn second_field(alloc: Global, name: &[u8], key: &[u8]) -> Result<Text, NoMemory>
    ensures { IfOk result (λ text. text ≡ warnings.second_field name.now key.now) }
{
    let mut text = Vec::new(alloc);
    text.extend_from_slice(b"Warning--second field ")?;
    text.extend_from_slice(name)?;
    text.extend_from_slice(b" in ")?;
    text.extend_from_slice(key)?;
    Ok(Text::from_vec(text))
}
