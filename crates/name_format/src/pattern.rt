//! The bytes and groups of a pattern.

ghost use Rattle.std.specs.Prelude.{◌≡◌, IfOk};
ghost use Rattle.name_format.specs.Steps as steps;
ghost use Rattle.name_split.specs.Formatted as specs;

use crate::group::write_group;
use bv_base::memory::NoMemory;
use name_split::front::inside;
use name_split::spans::Parts;
use std::alloc::Global;

/// A name by a pattern: each byte at level 0 as it is, and the text of each group.
pub(crate) fn pattern_written(
    alloc: Global,
    name: &[u8],
    parts: Parts,
    pattern: &[u8],
) -> Result<Vec<u8>, NoMemory>
    ensures { IfOk result (λ v. v.items ≡ specs.pattern_written name.now parts 0 pattern.now) }
{
    let mut out = Vec::with_capacity(alloc, pattern.len().saturating_add(name.len()))?;
    let mut rest = pattern;
    while let [first, after @ ..] = rest {
        if *first == b'{' {
            write_group(&mut out, name, parts, inside(after))?;
            rest = behind_brace(after);
        } else {
            out.push(*first)?;
            rest = after;
        }
    }
    Ok(out)
}

/// What follows the brace that closes what was opened directly before these bytes, or nothing where there is none.
pub(crate) fn behind_brace<'a>(bytes: &'a [u8]) -> &'a [u8]
    ensures { result.now ≡ steps.behind_brace bytes.now }
{
    let count = inside(bytes).len();
    if count < bytes.len() {
        bytes.split_at(count + 1).1
    } else {
        bytes.split_at(bytes.len()).1
    }
}
