//! What a style has at a number.

ghost use Rattle.std.specs.Prelude.{◌≡◌};
ghost use Rattle.bst_meaning.specs.StyleParts as parts;

use name_table::names::{Kind, NameId};
use name_table::style::{BodyId, Style, TextId, TokenAt};

/// What a name stands for, and `None` where the style has no such name.
pub fn kind_of(style: &Style, name: NameId) -> Option<Kind>
    ensures { result ≡ parts.kind_of style.now name }
{
    if name.0 < style.names.len() {
        Some(style.names.kind(name))
    } else {
        None
    }
}

/// The tokens of a body, and none where the style has no such body.
pub fn tokens_of(style: &Style, body: BodyId) -> &[TokenAt]
    ensures { result.now ≡ parts.tokens_of style.now body }
{
    match style.bodies.as_slice().get(body.0 as usize) {
        Some(body) => body.tokens.as_slice(),
        None => &[],
    }
}

/// The bytes of a text, and none where the style has no such text.
pub fn text_of(style: &Style, text: TextId) -> &[u8]
    ensures { result.now ≡ parts.text_of style.now text }
{
    match style.texts.as_slice().get(text.0 as usize) {
        Some(bytes) => bytes.as_slice(),
        None => &[],
    }
}
