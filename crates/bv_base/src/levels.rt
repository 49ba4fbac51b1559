//! Levels, special characters and control words, as a reader that goes from the left meets them.

ghost use Rattle.std.specs.Prelude.{◌≡◌, ◌+◌, ◌<◌, ◌≤◌, ℕ, Bool, length, drop, map};
ghost use Rattle.bv_base.specs.Bytes.{is_white as white};
ghost use Rattle.bv_base.specs.Levels as levels;

use crate::bytes::is_white;

/// The level directly after a byte of this level.
#[inline(always)]
pub fn next_level(level: usize, b: u8) -> usize
    requires { level < usize.MAX }
    ensures next { result ≡ levels.next_level level b }
    ensures bound { result ≤ level + 1 }
{
    match b {
        b'{' => level + 1,
        b'}' => level.saturating_sub(1),
        _ => level,
    }
}

/// Whether a special character begins with the first byte of the text, which has this level.
#[inline(always)]
pub fn begins_special(level: usize, text: &[u8]) -> bool
    ensures { result ≡ levels.begins_special level text.now }
{
    level == 0 && matches!(text, [b'{', b'\\', ..])
}

/// Whether the brace ends a special character.
pub fn is_closing(level: usize, b: u8) -> bool
    ensures { result ≡ levels.is_closing level b }
{
    level == 1 && b == b'}'
}

/// The bytes that a text begins with and that pass a test, which is pure, and what follows them.
fn split_run<F: Fn(u8) -> bool>(text: &[u8], test: F) -> (&[u8], &[u8])
    requires { F.IsAlwaysCallable test }
    ensures run { (passes : ℕ → Bool) → ((b : ℕ) (r : Bool) → F.post test b r → r ≡ passes b)
        → result.0.now ≡ levels.run passes text.now }
    ensures later { (passes : ℕ → Bool) → ((b : ℕ) (r : Bool) → F.post test b r → r ≡ passes b)
        → result.1.now ≡ drop (length (levels.run passes text.now)) text.now }
    ensures within { length result.0.now ≤ length text.now }
{
    for (count, b) in text.iter().enumerate() {
        if !test(*b) {
            return text.split_at(count);
        }
    }
    text.split_at(text.len())
}

/// The ASCII letters that a text begins with, and what follows them.
pub fn split_letters(text: &[u8]) -> (&[u8], &[u8])
    ensures run { result.0.now ≡ levels.word_letters text.now }
    ensures later { result.1.now ≡ drop (length (levels.word_letters text.now)) text.now }
    ensures within { length result.0.now ≤ length text.now }
{
    split_run(text, |b| b.is_ascii_alphabetic())
}

/// The white space that a text begins with, and what follows it.
pub fn split_white(text: &[u8]) -> (&[u8], &[u8])
    ensures run { result.0.now ≡ levels.run white text.now }
    ensures later { result.1.now ≡ drop (length (levels.run white text.now)) text.now }
{
    split_run(text, |b| is_white(b))
}

/// The control words that stand for letters of other languages.
const FOREIGN_WORDS: [&[u8]; 13] = [
    b"oe", b"OE", b"ae", b"AE", b"ss", b"aa", b"AA", b"o", b"O", b"l", b"L", b"i", b"j",
];

/// Whether a control word stands for a letter of another language.
pub fn is_foreign(letters: &[u8]) -> bool
    ensures { result ≡ levels.is_foreign letters.now }
{
    is_one_of(&FOREIGN_WORDS, letters)
}

/// Whether a word is one of these.
pub fn is_one_of(words: &[&[u8]], word: &[u8]) -> bool
    ensures { result ≡ levels.is_one_of (map (λ w. w.now) words.now) word.now }
{
    for other in words {
        if word == *other {
            return true;
        }
    }
    false
}
