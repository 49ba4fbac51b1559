//! The case of letters.

ghost use Rattle.std.specs.Prelude.{◌≡◌, ◌++◌, ◌&&◌, nat_eq, if◌then◌else◌, IfOk, OnOk, flat_map};
ghost use Rattle.std.specs.List.{list_all};
ghost use Rattle.bv_base.specs.Bytes as bytes;
ghost use Rattle.bv_base.specs.Levels.{inside, closing, beyond, special_parts};
ghost use Rattle.text_ops.specs.ChangeCase as specs;

use crate::levels::{Word, split_special, split_word};
use bv_base::bytes::{is_white, lower};
use bv_base::levels::{begins_special, is_closing, is_foreign, is_one_of, next_level};
use bv_base::memory::NoMemory;
use std::alloc::Global;

/// What becomes of the letters.
#[derive(Clone, Copy, Debug, PartialEq, Eq)]
pub enum Case {
    /// `t`: small letters, but for those that begin a title.
    Title,
    /// `l`: small letters.
    Lower,
    /// `u`: capitals.
    Upper,
}

/// The control words whose capitals are plain letters.
const BARE_WORDS: [&[u8]; 3] = [b"i", b"j", b"ss"];

/// The control words whose capitals are control words.
const SMALL_WORDS: [&[u8]; 5] = [b"oe", b"ae", b"aa", b"o", b"l"];

/// The text with its ASCII letters at level 0, and those of its special characters, in another case.
pub fn change_case(alloc: Global, s: &[u8], mode: Case) -> Result<Vec<u8>, NoMemory>
    ensures { IfOk result (λ v. v.items ≡ specs.case_changed mode s.now) }
{
    if is_simple(s) {
        return simply_changed(alloc, s, mode);
    }
    let mut out = Vec::with_capacity(alloc, s.len())?;
    let mut before = Before {
        title: true,
        colon: false,
    };
    let mut level = 0;
    let mut rest = s;
    while let [first, after @ ..] = rest {
        let left = is_left(mode, before);
        if begins_special(level, rest) {
            rest = if left {
                copy_special(&mut out, after)?
            } else {
                change_special(&mut out, mode, after)?
            };
            before = Before {
                title: false,
                colon: false,
            };
        } else {
            out.push(changed_plain(mode, left, level, *first))?;
            before = before.with(*first);
            level = next_level(level, *first);
            rest = after;
        }
    }
    Ok(out)
}

/// Whether a text has neither braces nor a `:`.
fn is_simple(s: &[u8]) -> bool
    ensures { result ≡ list_all specs.is_simple_byte s.now }
{
    s.iter().all(|b| is_simple_byte(*b))
}

/// Whether a byte is neither a brace nor a `:`.
fn is_simple_byte(b: u8) -> bool
    ensures { result ≡ specs.is_simple_byte b }
{
    !matches!(b, b'{' | b'}' | b':')
}

/// A text of such bytes in another case: it has no special character, and no title begins but at its front.
fn simply_changed(alloc: Global, s: &[u8], mode: Case) -> Result<Vec<u8>, NoMemory>
    ensures { IfOk result (λ v. v.items ≡ specs.simply_changed mode s.now) }
{
    let mut out = Vec::with_capacity(alloc, s.len())?;
    match (mode, s) {
        (Case::Title, [first, later @ ..]) => {
            out.push(*first)?;
            push_changed(&mut out, mode, later)?;
        }
        _ => push_changed(&mut out, mode, s)?,
    }
    Ok(out)
}

/// What stands before a byte.
#[derive(Clone, Copy, Debug)]
struct Before {
    /// A title begins here.
    title: bool,
    /// The last byte that is not white space is a `:`.
    colon: bool,
}

impl Before {
    /// What stands before the byte that follows this one.
    fn with(self, b: u8) -> Before
        ensures title { result.title ≡ (bytes.is_white b && self.colon) }
        ensures colon { result.colon ≡ (if bytes.is_white b then self.colon else nat_eq b 58) }
    {
        let white = is_white(b);
        Before {
            title: white && self.colon,
            colon: if white { self.colon } else { b == b':' },
        }
    }
}

fn is_left(mode: Case, before: Before) -> bool
    ensures { result ≡ specs.leaves mode before.title }
{
    mode == Case::Title && before.title
}

fn changed_plain(mode: Case, left: bool, level: usize, b: u8) -> u8
    ensures { result ≡ (if left then b else specs.changed_plain mode level b) }
{
    if left || level > 0 {
        b
    } else {
        changed_byte(mode, b)
    }
}

fn changed_byte(mode: Case, b: u8) -> u8
    ensures { result ≡ specs.changed_byte mode b }
{
    match mode {
        Case::Title | Case::Lower => lower(b),
        Case::Upper => b.to_ascii_uppercase(),
    }
}

/// Puts out a special character whole whose first brace stands directly before the text, and gives what follows it.
fn copy_special<'a>(out: &mut Vec<u8>, text: &'a [u8]) -> Result<&'a [u8], NoMemory>
    ensures { IfOk result (λ later. (out.new.items ≡ out.old.items ++ specs.whole_special text.now) × (later.now ≡ beyond 1 text.now)) }
{
    let special = split_special(text);
    out.push(b'{')?;
    out.extend_from_slice(special.body)?;
    Ok(special.later)
}

/// Puts out the special character whose first brace stands directly before the text, with its letters in another
/// case, and gives what follows it.
fn change_special<'a>(out: &mut Vec<u8>, mode: Case, text: &'a [u8]) -> Result<&'a [u8], NoMemory>
    ensures { IfOk result (λ later. (out.new.items ≡ out.old.items ++ specs.changed_special mode text.now) × (later.now ≡ beyond 1 text.now)) }
{
    out.push(b'{')?;
    let mut level = 1;
    let mut rest = text;
    while let [first, after @ ..] = rest {
        if is_closing(level, *first) {
            out.push(b'}')?;
            return Ok(after);
        }
        if *first == b'\\' {
            let word = split_word(after);
            push_word(out, mode, &word)?;
            rest = word.later;
        } else {
            out.push(changed_byte(mode, *first))?;
            level = next_level(level, *first);
            rest = after;
        }
    }
    Ok(rest)
}

fn push_word(out: &mut Vec<u8>, mode: Case, word: &Word<'_>) -> Result<(), NoMemory>
    ensures { OnOk result (out.new.items ≡ out.old.items ++ specs.changed_word mode word.now.letters.now word.now.space.now) }
{
    if becomes_bare(mode, word.letters) {
        return push_changed(out, mode, word.letters);
    }
    out.push(b'\\')?;
    if has_case(mode, word.letters) {
        push_changed(out, mode, word.letters)?;
    } else {
        out.extend_from_slice(word.letters)?;
    }
    out.extend_from_slice(word.space)?;
    Ok(())
}

fn becomes_bare(mode: Case, letters: &[u8]) -> bool
    ensures { result ≡ specs.becomes_bare mode letters.now }
{
    mode == Case::Upper && is_one_of(&BARE_WORDS, letters)
}

fn has_case(mode: Case, letters: &[u8]) -> bool
    ensures { result ≡ specs.has_case mode letters.now }
{
    match mode {
        Case::Title | Case::Lower => is_foreign(letters),
        Case::Upper => is_one_of(&SMALL_WORDS, letters),
    }
}

fn push_changed(out: &mut Vec<u8>, mode: Case, letters: &[u8]) -> Result<(), NoMemory>
    ensures { OnOk result (out.new.items ≡ out.old.items ++ specs.changed_letters mode letters.now) }
{
    for b in letters {
        out.push(changed_byte(mode, *b))?;
    }
    Ok(())
}
