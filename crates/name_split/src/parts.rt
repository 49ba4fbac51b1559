//! The parts of a name.

ghost use Rattle.std.specs.Prelude.{◌≡◌, Ok, Err, MatchResult, is_ok};
ghost use Rattle.name_split.specs.Parts as parts;
ghost use Rattle.name_split.specs.declared.spans.Parts.{Parts as PartSpans};

use crate::commas::{Commas, commas_of, is_comma_last};
use crate::spans::{Parts, Span, slice};
use crate::survey::{EMPTY, surveyed};
use crate::tokens::{Tokens, tokens_of};

/// Why a name has no parts. Where both reasons hold, the first is given.
#[derive(Clone, Copy, Debug, PartialEq, Eq)]
pub enum NameFault {
    /// It has more than two commas at level 0.
    TooManyCommas,
    /// Its last byte other than white space, `~` and `-` is a comma at level 0.
    CommaAtEnd,
}

/// The parts of a name, as slices of it. A part without tokens is empty.
#[derive(Clone, Copy, Debug)]
pub struct NameParts<'a> {
    pub first: &'a [u8],
    pub von: &'a [u8],
    pub last: &'a [u8],
    pub jr: &'a [u8],
}

/// The parts of a name, as slices of it.
pub fn parts<'a>(name: &'a [u8]) -> Result<NameParts<'a>, NameFault>
    ensures { MatchResult result
        (λ found. (spans : PartSpans) × (parts.parts_of name.now ≡ Ok spans) × parts.AreSlices name.now spans found)
        (λ fault. parts.parts_of name.now ≡ Err fault) }
{
    match part_spans(name) {
        Ok(spans) => Ok(NameParts {
            first: slice(name, spans.first),
            von: slice(name, spans.von),
            last: slice(name, spans.last),
            jr: slice(name, spans.jr),
        }),
        Err(fault) => Err(fault),
    }
}

/// The parts of a name, as stretches of it.
pub fn part_spans(name: &[u8]) -> Result<Parts, NameFault>
    ensures { result ≡ parts.parts_of name.now }
{
    let commas = commas_of(name);
    if let Commas::Many = commas {
        return Err(NameFault::TooManyCommas);
    }
    if is_comma_last(commas, name) {
        return Err(NameFault::CommaAtEnd);
    }
    let end = name.len();
    match commas {
        Commas::One(comma) => {
            let first = whole(tokens_between(name, comma + 1, end));
            Ok(comma_parts(tokens_between(name, 0, comma), EMPTY, first))
        }
        Commas::Two(comma, second) => {
            let jr = whole(tokens_between(name, comma + 1, second));
            let first = whole(tokens_between(name, second + 1, end));
            Ok(comma_parts(tokens_between(name, 0, comma), jr, first))
        }
        _ => Ok(plain_parts(tokens_of(0, name))),
    }
}

/// The parts of a name without commas.
fn plain_parts(tokens: Tokens) -> Parts
    ensures { result ≡ parts.plain_parts tokens.entry }
{
    let survey = surveyed(tokens);
    match (survey.low, survey.von) {
        (Some(low), Some(von)) => Parts {
            first: low.front,
            von: Span {
                start: low.back.start,
                end: von.front.end,
            },
            last: von.back,
            jr: EMPTY,
        },
        _ => match survey.chain {
            Some(chain) => Parts {
                first: chain.front,
                von: EMPTY,
                last: chain.back,
                jr: EMPTY,
            },
            None => Parts {
                first: EMPTY,
                von: EMPTY,
                last: survey.all,
                jr: EMPTY,
            },
        },
    }
}

/// The parts of a name with commas, by the tokens before the first.
fn comma_parts(tokens: Tokens, jr: Span, first: Span) -> Parts
    ensures { result ≡ parts.comma_parts tokens.entry jr first }
{
    let survey = surveyed(tokens);
    match survey.von {
        Some(von) => Parts {
            first,
            von: von.front,
            last: von.back,
            jr,
        },
        None => Parts {
            first,
            von: EMPTY,
            last: survey.all,
            jr,
        },
    }
}

/// From the first token's start to the last token's end.
fn whole(tokens: Tokens) -> Span
    ensures { result ≡ parts.whole tokens.entry }
{
    surveyed(tokens).all
}

/// The tokens from a byte of a name up to another.
fn tokens_between<'a>(name: &'a [u8], from: usize, to: usize) -> Tokens<'a>
    ensures { result ≡ parts.tokens_between name.now from to }
{
    tokens_of(
        from,
        slice(
            name,
            Span {
                start: from,
                end: to,
            },
        ),
    )
}

/// Whether a name has parts.
pub(crate) fn has_parts(name: &[u8]) -> bool
    ensures { result ≡ is_ok (parts.parts_of name.now) }
{
    part_spans(name).is_ok()
}
