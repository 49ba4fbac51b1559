//! The texts of warnings.

ghost use Rattle.std.specs.Prelude.{◌≡◌, IfOk};
ghost use Rattle.entry_list.specs.Warnings as warnings;

use bv_base::memory::NoMemory;
use bv_base::text::Text;
use std::alloc::Global;

/// The warning of a citation without an entry.
pub(crate) fn no_entry(alloc: Global, key: &[u8]) -> Result<Text, NoMemory>
    ensures { IfOk result (λ text. text ≡ warnings.no_entry key.now) }
{
    let mut text = Vec::new(alloc);
    text.extend_from_slice(b"Warning--no entry ")?;
    text.extend_from_slice(key)?;
    Ok(Text::from_vec(text))
}

/// The warning of a `crossref` that names no entry.
pub(crate) fn no_parent(alloc: Global, parent: &[u8], key: &[u8]) -> Result<Text, NoMemory>
    ensures { IfOk result (λ text. text ≡ warnings.no_parent parent.now key.now) }
{
    let mut text = Vec::new(alloc);
    text.extend_from_slice(b"Warning--no parent ")?;
    text.extend_from_slice(parent)?;
    text.extend_from_slice(b" for ")?;
    text.extend_from_slice(key)?;
    Ok(Text::from_vec(text))
}
