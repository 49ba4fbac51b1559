//! The `~` at the end of a group.

ghost use Rattle.std.specs.Prelude.{◌≡◌, ◌≤◌, length, nat_lt};
ghost use Rattle.name_format.specs.Steps as steps;
ghost use Rattle.name_split.specs.Formatted as specs;

use text_ops::text_length::text_length;

/// Ties the end of a group, whose text begins at the one place and its first token at the other. Of two `~` at its end one
/// is taken away, and one alone becomes a space where three text characters or more were written since the first token.
#[tactic(auto, using(crate::proofs::Tying::untied, crate::proofs::Tying::one_of_two, crate::proofs::Tying::too_short, crate::proofs::Tying::spaced))]
pub(crate) fn tie(out: &mut Vec<u8>, begun: usize, from: usize)
    requires order { begun ≤ from }
    requires within { from ≤ length out.old.items }
    ensures { out.new.items ≡ steps.tied_at begun from out.old.items }
{
    let text = out.as_slice().split_at(begun).1;
    if !ends_with_tie(text) {
        return;
    }
    let last = out.len() - 1;
    if ends_with_tie(but_last_byte(text)) {
        out.truncate(last);
    } else if !is_short(but_last_byte(out.as_slice().split_at(from).1)) {
        out[last] = b' ';
    }
}

/// Whether a text has fewer than three text characters.
pub(crate) fn is_short(text: &[u8]) -> bool
    ensures { result ≡ nat_lt (specs.characters text.now) 3 }
{
    text_length(text) < 3
}

/// Whether a `~` stands last.
fn ends_with_tie(text: &[u8]) -> bool
    ensures { result ≡ specs.ends_with 126 text.now }
{
    let end = text.len();
    end > 0 && text[end - 1] == b'~'
}

/// The bytes without the last, if there is one.
fn but_last_byte<'a>(text: &'a [u8]) -> &'a [u8]
    ensures { result.now ≡ specs.but_last_byte text.now }
{
    text.split_at(text.len().saturating_sub(1)).0
}
