//! Whether a token is low.

ghost use Rattle.std.specs.Prelude.{◌≡◌, ◌&&◌, nat_eq};
ghost use Rattle.bv_base.specs.Levels as levels;
ghost use Rattle.name_split.specs.Tokens as tokens;

use crate::front::inside;
use bv_base::levels::{begins_special, is_foreign, next_level, split_letters};

/// Whether a token is low: an ASCII letter at level 0 or a special character decides, whichever comes first.
pub(crate) fn is_low(token: &[u8]) -> bool
    ensures { result ≡ tokens.is_low token.now }
{
    let mut level = 0;
    for (at, b) in token.iter().enumerate() {
        if is_plain_letter(level, *b) {
            return b.is_ascii_lowercase();
        }
        let rest = token.split_at(at).1;
        if begins_special(level, rest) {
            return special_low(inside(rest.split_at(1).1));
        }
        level = next_level(level, *b);
    }
    false
}

/// Whether a byte of this level is an ASCII letter at level 0.
fn is_plain_letter(level: usize, b: u8) -> bool
    ensures { result ≡ (nat_eq level 0 && levels.is_ascii_letter b) }
{
    level == 0 && b.is_ascii_alphabetic()
}

/// Whether a special character is low, by the bytes within its braces.
fn special_low(inner: &[u8]) -> bool
    ensures { result ≡ tokens.special_low inner.now }
{
    match inner {
        [] => false,
        [_, after @ ..] => {
            let (letters, others) = split_letters(after);
            if is_foreign(letters) {
                first_small(letters)
            } else {
                first_small(others)
            }
        }
    }
}

/// Whether the first ASCII letter is a small one.
fn first_small(bytes: &[u8]) -> bool
    ensures { result ≡ tokens.first_small bytes.now }
{
    for b in bytes {
        if b.is_ascii_alphabetic() {
            return b.is_ascii_lowercase();
        }
    }
    false
}
