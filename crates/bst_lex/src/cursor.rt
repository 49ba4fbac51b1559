//! How far a source is read.

ghost use Rattle.std.specs.Prelude.{◌≡◌, ℕ, ◌+◌, ◌≤◌, List, length, take, drop, Option};
ghost use Rattle.bv_base.specs.Places.{after_bytes};
ghost use Rattle.bst_lex.specs.Lexemes.{reading_at};
ghost use Rattle.bst_lex.specs.Lexer.{Stands};
ghost use Rattle.bst_lex.specs.Pieces.{gap_at};
ghost use Rattle.bst_lex.specs.declared.lexeme.LexFault.{LexFault};

use crate::pieces::gap_length;
use bv_base::limits::STYLE_BYTES;
use bv_base::place::Place;

/// What is left of a source, how many bytes stand before it, and the place of its first byte.
#[derive(Clone, Copy)]
pub(crate) struct Cursor<'a> {
    pub(crate) rest: &'a [u8],
    pub(crate) start: u32,
    pub(crate) place: Place,
}

impl<'a> Cursor<'a> {
    /// Passes over some bytes.
    pub(crate) fn passed(self, count: usize) -> Cursor<'a>
        requires count { count ≤ length self.rest.now }
        requires small { self.start + length self.rest.now ≤ STYLE_BYTES }
        requires line { self.place.line ≤ self.start + 1 }
        requires column { self.place.column ≤ self.start + 1 }
        ensures rest { result.rest.now ≡ drop count self.entry.rest.now }
        ensures start { result.start ≡ self.entry.start + count }
        ensures place { result.place ≡ after_bytes (take count self.entry.rest.now) self.entry.place }
        ensures line { result.place.line ≤ result.start + 1 }
        ensures column { result.place.column ≤ result.start + 1 }
    {
        let (passed, rest) = self.rest.split_at(count);
        Cursor {
            rest,
            start: self.start + count as u32,
            place: self.place.after(passed),
        }
    }

    /// Passes over the white space and the comments that stand next.
    pub(crate) fn after_gap(self) -> Cursor<'a>
        requires small { self.start + length self.rest.now ≤ STYLE_BYTES }
        requires line { self.place.line ≤ self.start + 1 }
        requires column { self.place.column ≤ self.start + 1 }
        ensures gone { gap_at result.rest.now ≡ 0 }
        ensures stands { (source : List ℕ) → Stands source self.entry.start self.entry.place self.entry.rest.now
            → Stands source result.start result.place result.rest.now }
        ensures reading { (source : List ℕ) → (failed : Option LexFault)
            → reading_at source failed result.start result.place result.rest.now
            ≡ reading_at source failed self.entry.start self.entry.place self.entry.rest.now }
    {
        self.passed(gap_length(self.rest))
    }
}
