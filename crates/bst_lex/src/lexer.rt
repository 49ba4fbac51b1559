//! The reader of lexemes.

ghost use Rattle.std.specs.Prelude.{◌≡◌, ◌≤◌, [], ◌∷◌, length, take, drop, Option, None, Some, MatchOption, MatchResult, IfOk, IfSome};
ghost use Rattle.bst_lex.specs.Lexemes.{lexed, seen};
ghost use Rattle.bv_base.specs.Places.{place_at};

use crate::cursor::Cursor;
use crate::lexeme::{LexFault, Lexeme};
use crate::pieces::piece_at;
use bv_base::limits::STYLE_BYTES;
use bv_base::place::Place;
use std::marker::Model;

/// Reads the lexemes of a source one after the other, as slices of it. Nothing is copied, and no byte is read more
/// than a fixed number of times.
///
/// Contracts see the source, the lexemes that are left, and the fault that ends them, if any.
#[derive(Drop)]
pub struct Lexer<'a> {
    source: &'a [u8],
    cursor: Cursor<'a>,
    failed: Option<LexFault>,
}

impl<'a> Model for Lexer<'a> {
    ghost use Rattle.bst_lex.specs.Lexemes.{Reading};

    ghost Value = { Reading };

    ghost use Rattle.bst_lex.specs.Lexer.{reading_of, IsWithin};

    ghost view = { reading_of };

    ghost invariant = { IsWithin };
}

impl<'a> Lexer<'a> {
    /// All lexemes of a source of at most [`STYLE_BYTES`] bytes are left.
    pub fn new(source: &'a [u8]) -> Lexer<'a>
        requires { length source.now ≤ STYLE_BYTES }
        ensures { result ≡ lexed source.now }
    {
        Lexer {
            source,
            cursor: Cursor {
                rest: source,
                start: 0,
                place: Place::START,
            },
            failed: None,
        }
    }

    /// The next lexeme, `None` exactly at the end, or the fault that stands before any further lexeme. After a fault
    /// every call gives the same fault, and after the end every call gives `None`.
    pub fn next(&mut self) -> Result<Option<Lexeme<'a>>, LexFault>
        ensures source { self.new.source ≡ self.old.source }
        ensures fault { self.new.fault ≡ self.old.fault }
        ensures lexeme { MatchResult result
            (λ found. MatchOption found
            ((self.old.left ≡ []) × (self.old.fault ≡ None) × (self.new.left ≡ []))
            (λ l. self.old.left ≡ seen l ∷ self.new.left))
            (λ f. (self.old.left ≡ []) × (self.old.fault ≡ Some f) × (self.new.left ≡ [])) }
        ensures slice { IfOk result (λ found. IfSome found (λ l.
            l.text.now ≡ take (length l.text.now) (drop l.start self.old.source))) }
        ensures place { IfOk result (λ found. IfSome found (λ l. l.place ≡ place_at self.old.source l.start)) }
    {
        if let Some(fault) = self.failed {
            return Err(fault);
        }
        let at = self.cursor.after_gap();
        self.cursor = at;
        if at.rest.is_empty() {
            return Ok(None);
        }
        match piece_at(at.place, at.rest) {
            Ok(piece) => {
                let text = at.rest.split_at(piece.length).0;
                self.cursor = at.passed(piece.length);
                Ok(Some(Lexeme {
                    text,
                    start: at.start,
                    place: at.place,
                    shape: piece.shape,
                }))
            }
            Err(fault) => {
                self.failed = Some(fault);
                Err(fault)
            }
        }
    }

    /// The place of the source's end.
    pub fn end(&self) -> Place
        ensures { result ≡ place_at self.now.source (length self.now.source) }
    {
        self.cursor.passed(self.cursor.rest.len()).place
    }
}
