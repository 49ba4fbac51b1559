//! The text of a group.

ghost use Rattle.std.specs.Prelude.{◌≡◌, ◌++◌, OnOk, option_map};
ghost use Rattle.name_format.specs.Manners.{manner_of};
ghost use Rattle.name_split.specs.Formatted as specs;
ghost use Rattle.name_split.specs.Patterns.{letter_runs};
ghost use Rattle.name_split.specs.Tokens as tokens;

use crate::pattern::behind_brace;
use crate::tie::tie;
use crate::tokens::{Manner, write_tokens};
use bv_base::bytes::lower;
use bv_base::memory::NoMemory;
use name_split::front::inside;
use name_split::pattern::first_run;
use name_split::spans::{Parts, Span, slice};
use name_split::tokens::tokens_of;

/// Appends the text of a group, by what stands within its braces: that itself where it has no letters at level 1, and else
/// the part that they name.
pub(crate) fn write_group(
    out: &mut Vec<u8>,
    name: &[u8],
    parts: Parts,
    group: &[u8],
) -> Result<(), NoMemory>
    ensures { OnOk result (out.new.items ≡ out.old.items
        ++ specs.group_written name.now parts group.now (letter_runs 1 group.now)) }
{
    let Some(found) = first_run(group) else {
        out.extend_from_slice(group)?;
        return Ok(());
    };
    let text = slice(name, part_of(found.letters[0], parts));
    let manner = Manner {
        is_whole: found.letters.len() > 1,
        between: between(found.behind),
    };
    write_part(
        out,
        &manner,
        text,
        found.before,
        behind_between(found.behind),
    )
}

/// Appends the tokens of a part between what stands before and behind the letters, and nothing where there are none.
fn write_part(
    out: &mut Vec<u8>,
    manner: &Manner,
    text: &[u8],
    before: &[u8],
    behind: &[u8],
) -> Result<(), NoMemory>
    ensures { OnOk result (out.new.items ≡ out.old.items
        ++ specs.part_written (manner_of manner.now) text.now (tokens.tokens_of 0 text.now) before.now behind.now) }
{
    let mut tokens = tokens_of(0, text);
    let Some(first) = tokens.next() else {
        return Ok(());
    };
    let begun = out.len();
    out.extend_from_slice(before)?;
    let from = out.len();
    write_tokens(out, manner, text, first, tokens)?;
    out.extend_from_slice(behind)?;
    tie(out, begun, from);
    Ok(())
}

/// The part that a letter names.
fn part_of(letter: u8, parts: Parts) -> Span
    ensures { result ≡ specs.part_of letter parts }
{
    match lower(letter) {
        b'f' => parts.first,
        b'v' => parts.von,
        b'l' => parts.last,
        _ => parts.jr,
    }
}

/// The text in braces that directly follows the letters, if there is one.
fn between<'a>(behind: &'a [u8]) -> Option<&'a [u8]>
    ensures { option_map (λ text. text.now) result ≡ specs.between_of behind.now }
{
    match behind {
        [b'{', after @ ..] => Some(inside(after)),
        _ => None,
    }
}

/// What follows the letters, without a text in braces that directly follows them.
fn behind_between<'a>(behind: &'a [u8]) -> &'a [u8]
    ensures { result.now ≡ specs.behind_between behind.now }
{
    match behind {
        [b'{', after @ ..] => behind_brace(after),
        _ => behind,
    }
}
