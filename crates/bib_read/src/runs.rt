//! How far white space, identifiers, keys, numbers and the insides of braces and quotes reach.

ghost use Rattle.std.specs.Prelude.{◌≡◌, ◌≤◌, ◌+◌, ◌<◌, length};
ghost use Rattle.std.specs.Option.{option_map};
ghost use Rattle.bib_read.specs.Runs as runs;
ghost use Rattle.bv_base.specs.Runs.{length_before};

use bv_base::bytes::{is_name_byte, is_white};
use bv_base::runs::{is_digit, length_before};

/// What is left after the first `@`, or `None` where there is none.
pub(crate) fn after_at(bytes: &[u8]) -> Option<&[u8]>
    ensures { option_map (λ rest. rest.now) result ≡ runs.after_at bytes.now }
{
    match bytes.split_at(plain_length(bytes)).1 {
        [] => None,
        [_, rest @ ..] => Some(rest),
    }
}

/// Whether an identifier stands first.
pub(crate) fn begins_name(bytes: &[u8]) -> bool
    ensures { result ≡ runs.begins_name bytes.now }
{
    match bytes {
        [] => false,
        [b, ..] => is_name_byte(*b) && !is_digit(*b),
    }
}

/// How many bytes stand before the first `@`.
fn plain_length(bytes: &[u8]) -> usize
    ensures length { result ≡ length_before runs.is_at bytes.now }
    ensures within { result ≤ length bytes.now }
{
    length_before(bytes, |b| b == b'@')
}

/// How many name bytes stand first.
pub(crate) fn name_length(bytes: &[u8]) -> usize
    ensures length { result ≡ length_before runs.ends_name bytes.now }
    ensures within { result ≤ length bytes.now }
{
    length_before(bytes, |b| !is_name_byte(b))
}

/// How many bytes of a key stand first, in an entry that this byte closes.
pub(crate) fn key_length(close: u8, bytes: &[u8]) -> usize
    ensures length { result ≡ length_before (runs.ends_key close) bytes.now }
    ensures within { result ≤ length bytes.now }
{
    length_before(bytes, |b| ends_key(close, b))
}

/// Whether a byte ends a key, in an entry that another byte closes.
fn ends_key(close: u8, b: u8) -> bool
    ensures { result ≡ runs.ends_key close b }
{
    is_white(b) || b == b',' || (b == b'}' && close == b'}')
}

/// How many bytes stand before the end of a piece in braces or quotes, of which the mark at its end is given. Most bytes are
/// no brace and not the mark, which a look at each tells.
#[tactic(auto, using(crate::proofs::Insides::plain_passed))]
pub(crate) fn inside_length(mark: u8, bytes: &[u8]) -> usize
    ensures length { result ≡ runs.inside_length mark 0 bytes.now }
    ensures within { result ≤ length bytes.now }
{
    let mut level: usize = 0;
    for (i, b) in bytes.iter().enumerate() {
        if *b < b'{' && *b != mark {
            continue;
        }
        if level == 0 && (*b == mark || *b == b'}') {
            return i;
        }
        level = match *b {
            b'{' => level + 1,
            b'}' => level - 1,
            _ => level,
        };
    }
    bytes.len()
}
