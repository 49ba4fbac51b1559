//! The letters, digits and spaces of a text.

ghost use Rattle.std.specs.Prelude.{◌≡◌, ◌++◌, IfOk, OnOk, flat_map};
ghost use Rattle.std.specs.List.{list_all};
ghost use Rattle.std.specs.Option.{option_to_list};
ghost use Rattle.bv_base.specs.Levels.{inside, beyond, special_parts};
ghost use Rattle.text_ops.specs.Purify as specs;

use crate::levels::split_word;
use bv_base::bytes::is_white;
use bv_base::levels::{begins_special, is_closing, is_one_of, next_level};
use bv_base::memory::NoMemory;
use std::alloc::Global;

/// The control words that give their letters.
const SPELLED_WORDS: [&[u8]; 11] = [
    b"oe", b"OE", b"ae", b"AE", b"ss", b"o", b"O", b"l", b"L", b"i", b"j",
];

/// The control words that give their first letter.
const RING_WORDS: [&[u8]; 2] = [b"aa", b"AA"];

/// The letters and digits of a text, with a space for each white-space byte, `~` and `-` outside special characters.
/// A special character gives its letters and digits, and the letters of its foreign words.
pub fn purify(alloc: Global, s: &[u8]) -> Result<Vec<u8>, NoMemory>
    ensures { IfOk result (λ v. v.items ≡ specs.purified s.now) }
{
    let mut out = Vec::with_capacity(alloc, s.len())?;
    if is_plain(s) {
        push_purified(&mut out, s)?;
        return Ok(out);
    }
    let mut level = 0;
    let mut rest = s;
    while let [first, after @ ..] = rest {
        if begins_special(level, rest) {
            rest = purify_special(&mut out, after)?;
        } else {
            push_some(&mut out, purified_byte(*first))?;
            level = next_level(level, *first);
            rest = after;
        }
    }
    Ok(out)
}

/// Whether a text has no `{`, and so no special character.
fn is_plain(s: &[u8]) -> bool
    ensures { result ≡ list_all specs.is_plain_byte s.now }
{
    s.iter().all(|b| is_plain_byte(*b))
}

/// Whether a byte isn't `{`.
fn is_plain_byte(b: u8) -> bool
    ensures { result ≡ specs.is_plain_byte b }
{
    b != b'{'
}

/// Puts out what bytes outside special characters give.
fn push_purified(out: &mut Vec<u8>, s: &[u8]) -> Result<(), NoMemory>
    ensures { OnOk result (out.new.items ≡ out.old.items ++ flat_map specs.purified_byte s.now) }
{
    for b in s {
        push_some(out, purified_byte(*b))?;
    }
    Ok(())
}

/// Puts out what a special character gives whose first brace stands directly before the text, and gives what
/// follows it.
fn purify_special<'a>(out: &mut Vec<u8>, text: &'a [u8]) -> Result<&'a [u8], NoMemory>
    ensures { IfOk result (λ later. (out.new.items ≡ out.old.items ++ flat_map specs.purified_part (special_parts (inside 1 text.now))) × (later.now ≡ beyond 1 text.now)) }
{
    let mut level = 1;
    let mut rest = text;
    while let [first, after @ ..] = rest {
        if is_closing(level, *first) {
            return Ok(after);
        }
        if *first == b'\\' {
            let word = split_word(after);
            out.extend_from_slice(purified_word(word.letters))?;
            rest = word.later;
        } else {
            push_some(out, kept_byte(*first))?;
            level = next_level(level, *first);
            rest = after;
        }
    }
    Ok(rest)
}

fn push_some(out: &mut Vec<u8>, b: Option<u8>) -> Result<(), NoMemory>
    ensures { OnOk result (out.new.items ≡ out.old.items ++ option_to_list b) }
{
    if let Some(b) = b {
        out.push(b)?;
    }
    Ok(())
}

/// What a byte outside special characters gives.
fn purified_byte(b: u8) -> Option<u8>
    ensures { option_to_list result ≡ specs.purified_byte b }
{
    if is_white(b) || matches!(b, b'~' | b'-') {
        Some(b' ')
    } else {
        kept_byte(b)
    }
}

fn kept_byte(b: u8) -> Option<u8>
    ensures { option_to_list result ≡ specs.kept_byte b }
{
    match b {
        b'a'..=b'z' | b'A'..=b'Z' | b'0'..=b'9' | 128.. => Some(b),
        _ => None,
    }
}

/// What a control word gives, of its letters.
fn purified_word(letters: &[u8]) -> &[u8]
    ensures { result.now ≡ specs.purified_word letters.now }
{
    if is_one_of(&SPELLED_WORDS, letters) {
        letters
    } else if is_one_of(&RING_WORDS, letters) {
        &letters[..1]
    } else {
        &letters[..0]
    }
}
