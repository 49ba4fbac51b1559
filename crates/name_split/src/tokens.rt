//! The tokens of a name.

ghost use Rattle.std.specs.Prelude.{◌≡◌, ◌+◌, ◌≤◌, [], ◌∷◌, length, MatchOption};
ghost use Rattle.name_split.specs.Spans.{front};
ghost use Rattle.name_split.specs.Tokens as tokens;

use crate::bytes::leveled_before;
use crate::low::is_low;
use bv_base::bytes::is_white;
use std::marker::Model;

/// A token of a name: where it starts and ends, both counted from 0, whether it is low, and whether a `-` follows it.
#[derive(Clone, Copy)]
pub struct Token {
    pub start: usize,
    pub end: usize,
    pub low: bool,
    pub dash: bool,
}

/// How many bytes of a token stand first.
fn token_length(bytes: &[u8]) -> usize
    ensures length { result ≡ tokens.token_length 0 bytes.now }
    ensures within { result ≤ length bytes.now }
{
    leveled_before(0, bytes, |level, b| ends_token(level, b))
}

/// Whether a byte of this level ends a token.
fn ends_token(level: usize, b: u8) -> bool
    ensures { result ≡ tokens.ends_token level b }
{
    level == 0 && (is_joint(b) || b == b',')
}

/// Whether a byte joins two tokens: white space, `~` or `-`.
pub(crate) fn is_joint(b: u8) -> bool
    ensures { result ≡ tokens.is_joint b }
{
    is_white(b) || b == b'~' || b == b'-'
}

/// The tokens of a part of a name, in order. Contracts see the list of the tokens that are left.
#[derive(Drop)]
pub struct Tokens<'a> {
    rest: &'a [u8],
    at: usize,
}

impl<'a> Model for Tokens<'a> {
    ghost use Rattle.std.specs.Prelude.{List, ◌+◌, ◌≤◌, length};
    ghost use Rattle.name_split.specs.declared.tokens.Token.{Token};

    ghost Value = { List Token };

    ghost use Rattle.name_split.specs.Tokens.{tokens_of};

    ghost view = { λ t. tokens_of t.at t.rest.now };

    ghost invariant = { λ t. t.at + length t.rest.now ≤ 18446744073709551615 };
}

/// The tokens of some bytes of a name, of which the first is the byte `at` of the name.
pub fn tokens_of<'a>(at: usize, bytes: &'a [u8]) -> Tokens<'a>
    requires { at + length bytes.now ≤ 18446744073709551615 }
    ensures { result ≡ tokens.tokens_of at bytes.now }
{
    Tokens { rest: bytes, at }
}

impl<'a> Tokens<'a> {
    /// The next token, or `None` exactly after the last.
    pub fn next(&mut self) -> Option<Token>
        ensures { MatchOption result ((self.old ≡ []) × (self.new ≡ [])) (λ token. self.old ≡ token ∷ self.new) }
    {
        let gap = gap_length(self.rest);
        let rest = self.rest.split_at(gap).1;
        let start = self.at + gap;
        let length = token_length(rest);
        let (text, after) = rest.split_at(length);
        self.rest = after;
        self.at = start + length;
        if length == 0 {
            return None;
        }
        Some(Token {
            start,
            end: start + length,
            low: is_low(text),
            dash: begins_with_dash(after),
        })
    }
}

/// Whether a `-` stands first.
fn begins_with_dash(bytes: &[u8]) -> bool
    ensures { result ≡ tokens.first_is 45 bytes.now }
{
    matches!(bytes, [b'-', ..])
}

/// How many bytes stand before the first token, where the first byte has level 0.
fn gap_length(bytes: &[u8]) -> usize
    ensures gap { result ≡ front (tokens.ends_token 0) bytes.now }
    ensures within { result ≤ length bytes.now }
{
    for (i, b) in bytes.iter().enumerate() {
        if !ends_token(0, *b) {
            return i;
        }
    }
    bytes.len()
}
