//! The initial of a token.

ghost use Rattle.std.specs.Prelude.{◌≡◌, ◌+◌, length, take, drop};
ghost use Rattle.bv_base.specs.Levels as levels;
ghost use Rattle.name_format.specs.Steps as steps;
ghost use Rattle.name_split.specs.Formatted as specs;

use name_split::front::inside;

/// A token's first ASCII letter or byte from 128 on, or its first `{` that is directly followed by `\`, through the
/// matching brace, whichever comes first. It is empty where there is neither.
pub(crate) fn initial<'a>(token: &'a [u8]) -> &'a [u8]
    ensures { result.now ≡ specs.initial token.now }
{
    for (at, b) in token.iter().enumerate() {
        let rest = token.split_at(at).1;
        if begins_word(rest) {
            return through_brace(rest);
        }
        if is_letter(*b) {
            return rest.split_at(1).0;
        }
    }
    token.split_at(token.len()).1
}

/// Whether a `{` with a `\` directly behind it stands first.
fn begins_word(bytes: &[u8]) -> bool
    ensures { result ≡ steps.begins_word bytes.now }
{
    matches!(bytes, [b'{', b'\\', ..])
}

/// Whether a byte is an ASCII letter or one from 128 on.
fn is_letter(b: u8) -> bool
    ensures { result ≡ levels.is_letter b }
{
    b.is_ascii_alphabetic() || b >= 128
}

/// The first byte, which is a brace, through the brace that matches it, or all where there is none.
fn through_brace<'a>(bytes: &'a [u8]) -> &'a [u8]
    ensures { result.now ≡ take (length (levels.inside 1 (drop 1 bytes.now)) + 2) bytes.now }
{
    let [_, within @ ..] = bytes else {
        return bytes;
    };
    let count = inside(within).len();
    bytes.split_at((count + 2).min(bytes.len())).0
}
