//! What holds of the lexemes of every text.

ghost use Rattle.std.specs.Prelude.{◌≡◌, ◌+◌, ◌++◌, ◌↔◌, ℕ, List, Option, IfSome, length, take};
ghost use Rattle.bst_lex.specs.Fault.{place_of};
ghost use Rattle.bst_lex.specs.Grammar.{Spells, is_line_end};
ghost use Rattle.bv_base.specs.Runs.{NoneOf};
ghost use Rattle.bst_lex.specs.Lexemes.{Seen, lexed};
ghost use Rattle.bst_lex.specs.Order.{InOrder};
ghost use Rattle.bst_lex.specs.PlaceLaws.{BeginsLine, line_ends};
ghost use Rattle.bv_base.specs.Places.{first_place, place_at, StandsIn};
ghost use Rattle.bst_lex.specs.declared.lexeme.LexFault.{LexFault};

/// The lexemes of a source, and the fault that ends them, are those that the grammar spells, and no others.
pub fn lexemes_as_spelled(source: &[u8])
    ensures { (lexemes : List Seen) → (fault : Option LexFault) →
        Spells 0 first_place source.now lexemes fault
        ↔ (((lexed source.now).left ≡ lexemes) × ((lexed source.now).fault ≡ fault)) }
{}

/// The lexemes of a source are slices of it, in order and apart, with white space and comments alone between them.
pub fn lexemes_in_order(source: &[u8])
    ensures { InOrder source.now 0 (lexed source.now).left }
{}

/// The line of a place counts the line ends before it, and its column the bytes after the last of them, both from 1.
pub fn places_counted(source: &[u8])
    ensures line { (at : ℕ) → (place_at source.now at).line ≡ 1 + line_ends (take at source.now) }
    ensures column { (at : ℕ) (front line : List ℕ) → take at source.now ≡ front ++ line → BeginsLine front → NoneOf is_line_end line
        → (place_at source.now at).column ≡ 1 + length line }
{}

/// The fault that ends the lexemes of a source stands at a byte of it, or at its end.
pub fn faults_in_source(source: &[u8])
    ensures { IfSome (lexed source.now).fault (λ fault. StandsIn source.now (place_of fault)) }
{}
