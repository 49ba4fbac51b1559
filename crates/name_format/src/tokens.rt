//! The tokens of a part, and what joins them.

ghost use Rattle.std.specs.Prelude.{◌≡◌, ◌≤◌, [], ◌∷◌, ◌++◌, length, take, drop, OnOk, is_none};
ghost use Rattle.name_format.specs.Manners.{manner_of};
ghost use Rattle.name_split.specs.Formatted as specs;

use crate::initial::initial;
use crate::tie::is_short;
use bv_base::memory::NoMemory;
use name_split::spans::{Span, slice};
use name_split::tokens::{Token, Tokens};

/// How the tokens of a part are written: whole or by their initials, with a text of the pattern's between them or by
/// their joints.
#[derive(Clone, Copy)]
pub(crate) struct Manner<'a> {
    pub(crate) is_whole: bool,
    pub(crate) between: Option<&'a [u8]>,
}

/// Appends the tokens of a part, with what joins them.
pub(crate) fn write_tokens(
    out: &mut Vec<u8>,
    manner: &Manner,
    text: &[u8],
    first: Token,
    mut tokens: Tokens,
) -> Result<(), NoMemory>
    ensures { OnOk result (out.new.items ≡ out.old.items
        ++ specs.tokens_written (manner_of manner.now) text.now [] (first ∷ tokens.entry)) }
{
    let from = out.len();
    let mut token = first;
    let mut next = tokens.next();
    while let Some(following) = next {
        out.extend_from_slice(token_text(manner, token_bytes(text, token)))?;
        next = tokens.next();
        join(out, from, manner, byte_at(text, token.end), next.is_none())?;
        token = following;
    }
    out.extend_from_slice(token_text(manner, token_bytes(text, token)))?;
    Ok(())
}

/// Appends what joins the last token to the next, which may be the last of all, behind tokens that begin at a place.
fn join(
    out: &mut Vec<u8>,
    from: usize,
    manner: &Manner,
    b: u8,
    is_last: bool,
) -> Result<(), NoMemory>
    requires { from ≤ length out.old.items }
    ensures { let held = manner_of manner.now in
        OnOk result (out.new.items ≡ take from out.old.items ++ specs.joined held held.between b is_last (drop from out.old.items)) }
{
    if let Some(text) = manner.between {
        out.extend_from_slice(text)?;
        return Ok(());
    }
    if !manner.is_whole {
        out.push(b'.')?;
    }
    out.push(joint(b, is_last, out.as_slice().split_at(from).1))?;
    Ok(())
}

/// What stands between two tokens for the byte directly behind the first of them, where so much was written before.
fn joint(b: u8, is_last: bool, written: &[u8]) -> u8
    ensures { result ∷ [] ≡ specs.joint_text b is_last written.now }
{
    if b == b'~' || b == b'-' {
        b
    } else if is_last || is_short(written) {
        b'~'
    } else {
        b' '
    }
}

/// A token whole, or its initial.
fn token_text<'a>(manner: &Manner, token: &'a [u8]) -> &'a [u8]
    ensures { result.now ≡ specs.token_text (manner_of manner.now) token.now }
{
    if manner.is_whole {
        token
    } else {
        initial(token)
    }
}

/// The bytes of a token.
fn token_bytes<'a>(text: &'a [u8], token: Token) -> &'a [u8]
    ensures { result.now ≡ specs.token_bytes text.now token }
{
    let span = Span {
        start: token.start,
        end: token.end,
    };
    slice(text, span)
}

/// The byte at a place, and 0 behind the last.
fn byte_at(text: &[u8], at: usize) -> u8
    ensures { result ≡ specs.byte_at text.now at }
{
    if at < text.len() { text[at] } else { 0 }
}
