//! Stretches of a text, and the parts of a name as stretches of it.

ghost use Rattle.std.specs.Prelude.{◌≡◌, ◌+◌, ◌≤◌, length};
ghost use Rattle.name_split.specs.Spans.{slice as slice_of};

/// From a byte of a text up to another, which it doesn't hold. Both are counted from 0.
#[derive(Clone, Copy, Debug, PartialEq, Eq)]
pub struct Span {
    pub start: usize,
    pub end: usize,
}

/// The parts of a name, each from its first token's start to its last token's end, or nothing at the name's start.
#[derive(Clone, Copy, Debug, PartialEq, Eq)]
pub struct Parts {
    pub first: Span,
    pub von: Span,
    pub last: Span,
    pub jr: Span,
}

/// The bytes of a stretch, as far as the text has them.
pub fn slice<'a>(text: &'a [u8], span: Span) -> &'a [u8]
    ensures slice { result.now ≡ slice_of text.now span }
    ensures within { span.start + length result.now ≤ 18446744073709551615 }
{
    let rest = text.split_at(span.start.min(text.len())).1;
    rest.split_at(span.end.saturating_sub(span.start).min(rest.len()))
        .0
}
