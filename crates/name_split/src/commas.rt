//! The commas of a name at level 0.

ghost use Rattle.std.specs.Prelude.{◌≡◌, ◌&&◌, nat_eq, length, if◌then◌else◌};
ghost use Rattle.name_split.specs.Commas as commas;
ghost use Rattle.name_split.specs.Parts as parts;
ghost use Rattle.name_split.specs.Tokens as tokens;

use crate::tokens::is_joint;
use bv_base::levels::next_level;

/// The places of the commas, counted from 0, where there are at most two.
#[derive(Clone, Copy)]
pub(crate) enum Commas {
    Zero,
    One(usize),
    Two(usize, usize),
    Many,
}

/// The commas of a name at level 0.
pub(crate) fn commas_of(name: &[u8]) -> Commas
    ensures commas { commas.CommasAre result (parts.commas 0 0 name.now) }
    ensures within { commas.AreBelow result (length name.now) }
{
    let mut seen = Commas::Zero;
    let mut level = 0;
    for (at, b) in name.iter().enumerate() {
        seen = comma_step(seen, is_comma(level, *b), at);
        level = next_level(level, *b);
    }
    seen
}

/// Whether a byte of this level is a comma at level 0.
fn is_comma(level: usize, b: u8) -> bool
    ensures { result ≡ (nat_eq level 0 && nat_eq b 44) }
{
    level == 0 && b == b','
}

/// One comma more, where there is one.
fn comma_step(seen: Commas, is_comma: bool, at: usize) -> Commas
    ensures { result ≡ (if is_comma then commas.one_more seen at else seen) }
{
    if is_comma { one_more(seen, at) } else { seen }
}

/// One comma more.
fn one_more(seen: Commas, at: usize) -> Commas
    ensures { result ≡ commas.one_more seen at }
{
    match seen {
        Commas::Zero => Commas::One(at),
        Commas::One(comma) => Commas::Two(comma, at),
        Commas::Two(_, _) => Commas::Many,
        Commas::Many => Commas::Many,
    }
}

/// Whether the last byte other than white space, `~` and `-` of a name with these commas is one of them. A name without commas
/// isn't looked through again.
pub(crate) fn is_comma_last(found: Commas, name: &[u8]) -> bool
    requires { commas.CommasAre found (parts.commas 0 0 name.now) }
    ensures { result ≡ parts.ends_in_comma 0 name.now }
{
    match found {
        Commas::Zero => false,
        _ => ends_in_comma(name),
    }
}

/// Whether the last byte other than white space, `~` and `-` is a comma at level 0.
fn ends_in_comma(name: &[u8]) -> bool
    ensures { result ≡ parts.ends_in_comma 0 name.now }
{
    let mut ends = false;
    let mut level = 0;
    for b in name {
        ends = ends_step(ends, level, *b);
        level = next_level(level, *b);
    }
    ends
}

/// Whether the last byte so far that is no joint is a comma at level 0.
fn ends_step(ends: bool, level: usize, b: u8) -> bool
    ensures { result ≡ (if tokens.is_joint b then ends else (nat_eq level 0 && nat_eq b 44)) }
{
    if is_joint(b) {
        ends
    } else {
        is_comma(level, b)
    }
}
