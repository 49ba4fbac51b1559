//! The width of a text in print.

ghost use Rattle.std.specs.Prelude.{◌≡◌, ◌+◌, ◌*◌, ◌<◌, ◌≤◌, ◌∷◌, length, sum_by};
ghost use Rattle.bv_base.specs.Levels.{inside, beyond, word_letters, ControlWord};
ghost use Rattle.text_ops.specs.Width as specs;
ghost use Rattle.text_ops.specs.declared.width.TheConstants.{WIDEST_BYTE};

use crate::levels::{is_brace, split_word};
use bv_base::levels::{begins_special, is_closing, is_foreign, next_level, split_white};

/// The width of the widest byte, in hundredths of a point.
pub const WIDEST_BYTE: usize = 1028;

/// The widths of the bytes from 32 to 126, in order.
const WIDTHS: [u16; 95] = [
    278, 278, 500, 833, 500, 833, 778, 278, 389, 389, 500, 778, 278, 333, 278, 500, // space to `/`
    500, 500, 500, 500, 500, 500, 500, 500, 500, 500, // digits
    278, 278, 278, 778, 472, 472, 778, // `:` to `@`
    750, 708, 722, 764, 681, 653, 785, 750, 361, 514, 778, 625, 917, // A to M
    750, 778, 681, 778, 736, 556, 722, 750, 750, 1028, 750, 750, 611, // N to Z
    278, 500, 278, 500, 278, 278, // `[` to the backquote
    500, 556, 444, 556, 444, 306, 500, 556, 278, 306, 528, 278, 833, // a to m
    556, 500, 556, 528, 392, 394, 389, 556, 528, 722, 528, 528, 444, // n to z
    500, 1000, 500, 500, // `{` to `~`
];

/// The sum of the widths of a text's bytes. A special character has the width of its letters and of its foreign words.
///
/// It is at most [`WIDEST_BYTE`] times the text's length.
pub fn width(s: &[u8]) -> u128
    ensures { result ≡ specs.width_of s.now }
{
    let mut total: u128 = 0;
    let mut level = 0;
    let mut rest = s;
    while let [first, after @ ..] = rest {
        if begins_special(level, rest) {
            let special = special_width(after);
            total += special.width;
            rest = special.later;
        } else {
            total += u128::from(byte_width(*first));
            level = next_level(level, *first);
            rest = after;
        }
    }
    total
}

#[derive(Drop)]
struct Measured<'a> {
    width: u128,
    later: &'a [u8],
}

/// The width of the special character whose first brace stands directly before the text, and what follows it.
fn special_width(text: &[u8]) -> Measured<'_>
    ensures width { result.width ≡ sum_by specs.part_width (specs.printed_parts (inside 1 text.now)) }
    ensures later { result.later.now ≡ beyond 1 text.now }
    ensures bound { result.width + WIDEST_BYTE * length result.later.now ≤ WIDEST_BYTE * length text.now }
{
    let mut width: u128 = 0;
    let mut level = 1;
    let mut rest = text;
    while let [first, after @ ..] = rest {
        if is_closing(level, *first) {
            return Measured {
                width,
                later: after,
            };
        }
        if *first == b'\\' {
            let word = pass_word(level, after);
            width += u128::from(word_width(word.letters));
            level = word.level;
            rest = word.later;
        } else {
            if !is_brace(*first) {
                width += u128::from(byte_width(*first));
            }
            level = next_level(level, *first);
            rest = after;
        }
    }
    Measured { width, later: rest }
}

/// A control word without its `\`, and what follows it and the white space behind it.
#[derive(Drop)]
struct Passed<'a> {
    letters: &'a [u8],
    later: &'a [u8],
    /// The level of the first byte that follows.
    level: usize,
}

/// The control word whose `\` stands directly before the text. Without letters it takes the byte directly after the
/// `\`, unless that is the brace that closes the special character.
fn pass_word(level: usize, text: &[u8]) -> Passed<'_>
    requires { level < usize.MAX }
    ensures letters { result.letters.now ≡ word_letters text.now }
    ensures parts { specs.printed_parts (inside level (92 ∷ text.now)) ≡ ControlWord (word_letters text.now) (specs.owned_space (inside level text.now)) ∷ specs.printed_parts (inside result.level result.later.now) }
    ensures later { beyond result.level result.later.now ≡ beyond level text.now }
    ensures bound { result.level + length result.later.now ≤ level + length text.now }
    ensures shorter { length result.later.now ≤ length text.now }
{
    let word = split_word(text);
    if !word.letters.is_empty() {
        return Passed {
            letters: word.letters,
            later: word.later,
            level,
        };
    }
    let letters = word.letters;
    let [owned, after @ ..] = text else {
        return Passed {
            letters,
            later: text,
            level,
        };
    };
    if is_closing(level, *owned) {
        return Passed {
            letters,
            later: text,
            level,
        };
    }
    Passed {
        letters,
        later: split_white(after).1,
        level: next_level(level, *owned),
    }
}

/// The width of a byte outside control words.
#[tactic(auto, using(crate::proofs::WidthBounds::byte_width_bound))]
fn byte_width(b: u8) -> u16
    ensures width { result ≡ specs.byte_width b }
    ensures bound { result ≤ WIDEST_BYTE }
{
    match b {
        b' '..=b'~' => WIDTHS[(b - b' ') as usize],
        _ => 0,
    }
}

/// The width of a control word, of its letters.
#[tactic(auto, using(crate::proofs::WidthBounds::word_width_bound))]
fn word_width(letters: &[u8]) -> u16
    ensures width { result ≡ specs.word_width letters.now }
    ensures bound { result ≤ WIDEST_BYTE }
{
    match letters {
        b"ss" => 500,
        b"ae" => 722,
        b"oe" => 778,
        b"AE" => 903,
        b"OE" => 1014,
        [first, ..] if is_foreign(letters) => byte_width(*first),
        _ => 0,
    }
}
