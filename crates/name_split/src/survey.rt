//! Where the tokens of a part of a name are parted.

ghost use Rattle.std.specs.Prelude.{◌≡◌, List, ◌∷◌, if◌then◌else◌, Option, None, Some};
ghost use Rattle.name_split.specs.Parts as parts;
ghost use Rattle.name_split.specs.Survey as surveys;

use crate::spans::Span;
use crate::tokens::{Token, Tokens};

/// Some tokens, and those after them.
#[derive(Clone, Copy)]
pub(crate) struct Split {
    pub(crate) front: Span,
    pub(crate) back: Span,
}

/// All tokens, and where the first low one that isn't the last begins, where the last such one ends, and where the
/// chain of `-` to the last token begins.
#[derive(Clone, Copy)]
pub(crate) struct Survey {
    pub(crate) all: Span,
    pub(crate) low: Option<Split>,
    pub(crate) von: Option<Split>,
    pub(crate) chain: Option<Split>,
}

/// The stretch of a part without tokens.
pub(crate) const EMPTY: Span = Span { start: 0, end: 0 };

/// What stands before a token, and where it starts.
#[derive(Clone, Copy)]
struct Cut {
    front: Span,
    start: usize,
}

/// Goes over the tokens once.
pub(crate) fn surveyed(mut tokens: Tokens) -> Survey
    ensures { result ≡ surveys.survey_of tokens.entry }
{
    let Some(first) = tokens.next() else {
        return Survey {
            all: EMPTY,
            low: None,
            von: None,
            chain: None,
        };
    };
    let mut last = first;
    let mut before = EMPTY;
    let mut low = None;
    let mut von = None;
    let mut chain = None;
    while let Some(token) = tokens.next() {
        let cut = Cut {
            front: span_to(first, last),
            start: token.start,
        };
        low = low_step(low, before, last);
        von = cut_step(!last.low, von, cut);
        chain = cut_step(last.dash, chain, cut);
        before = cut.front;
        last = token;
    }
    Survey {
        all: span_to(first, last),
        low: finished(low, last.end),
        von: finished(von, last.end),
        chain: finished(chain, last.end),
    }
}

/// From a token's start to another's end.
fn span_to(first: Token, last: Token) -> Span
    ensures { result ≡ record { start = first.start; end = last.end } }
{
    Span {
        start: first.start,
        end: last.end,
    }
}

/// Where the first low token begins, when one more token isn't the last.
fn low_step(low: Option<Cut>, before: Span, token: Token) -> Option<Cut>
    ensures { result ≡ surveys.low_step low before token }
{
    match low {
        Some(cut) => Some(cut),
        None => {
            if token.low {
                Some(Cut {
                    front: before,
                    start: token.start,
                })
            } else {
                None
            }
        }
    }
}

/// The last cut after a token that doesn't keep the one before.
fn cut_step(keeps: bool, old: Option<Cut>, new: Cut) -> Option<Cut>
    ensures { result ≡ (if keeps then old else Some new) }
{
    if keeps { old } else { Some(new) }
}

/// What stands before a cut, and what stands after it up to an end.
fn finished(cut: Option<Cut>, end: usize) -> Option<Split>
    ensures { result ≡ surveys.finished end cut }
{
    match cut {
        Some(cut) => Some(Split {
            front: cut.front,
            back: Span {
                start: cut.start,
                end,
            },
        }),
        None => None,
    }
}
