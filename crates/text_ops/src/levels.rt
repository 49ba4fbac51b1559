//! Levels, special characters and control words, as a reader that goes from the left meets them.

ghost use Rattle.std.specs.Prelude.{◌≡◌, ◌++◌, length, drop};
ghost use Rattle.bv_base.specs.Levels as levels;

use bv_base::levels::{is_closing, next_level, split_letters, split_white};

/// Whether a byte is a brace.
pub fn is_brace(b: u8) -> bool
    ensures { result ≡ levels.is_brace b }
{
    matches!(b, b'{' | b'}')
}

/// A special character without its first brace, and what follows it.
#[derive(Drop)]
pub struct Special<'a> {
    pub body: &'a [u8],
    pub later: &'a [u8],
    /// How many levels stay open behind it: none where it is closed.
    pub unclosed: usize,
}

/// The special character whose first brace stands directly before the text.
#[tactic(auto, using(crate::proofs::LevelSteps::level_after_take))]
pub fn split_special(text: &[u8]) -> Special<'_>
    ensures body { result.body.now ≡ levels.inside 1 text.now ++ levels.closing 1 text.now }
    ensures later { result.later.now ≡ levels.beyond 1 text.now }
    ensures unclosed { result.unclosed ≡ levels.level_after 1 result.body.now }
{
    let mut level = 1;
    for (at, b) in text.iter().enumerate() {
        let last = is_closing(level, *b);
        level = next_level(level, *b);
        if last {
            let (body, later) = text.split_at(at + 1);
            return Special {
                body,
                later,
                unclosed: level,
            };
        }
    }
    Special {
        body: text,
        later: &text[text.len()..],
        unclosed: level,
    }
}

/// A control word without its `\`, and what follows it.
#[derive(Drop)]
pub struct Word<'a> {
    pub letters: &'a [u8],
    /// The white space directly after the letters.
    pub space: &'a [u8],
    pub later: &'a [u8],
}

/// The control word whose `\` stands directly before the text.
pub fn split_word(text: &[u8]) -> Word<'_>
    ensures letters { result.letters.now ≡ levels.word_letters text.now }
    ensures space { result.space.now ≡ levels.word_space text.now }
    ensures later { result.later.now ≡ drop (length (levels.word_letters text.now ++ levels.word_space text.now)) text.now }
{
    let (letters, after) = split_letters(text);
    let (space, later) = split_white(after);
    Word {
        letters,
        space,
        later,
    }
}
