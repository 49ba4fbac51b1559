//! What holds of the definition of reading: it is the grammar.

ghost use Rattle.std.specs.Prelude.{◌≡◌, ◌↔◌, Ok, Err};
ghost use Rattle.name_table.specs.declared.style.Style.{Style};
ghost use Rattle.bst_parse.specs.Fault.{IsFaultOf};
ghost use Rattle.bst_parse.specs.Grammar.{Reads};
ghost use Rattle.bst_parse.specs.PlacesStand.{PlacesStand};
ghost use Rattle.bst_parse.specs.Reading.{style_of};
ghost use Rattle.bst_parse.specs.declared.fault.StyleFault.{StyleFault};

use bst_lex::laws::{faults_in_source, lexemes_as_spelled, lexemes_in_order};

/// A text is read as a style exactly where the grammar says so: its lexemes are the spelling of commands, with
/// nothing but white space and comments between them, and the commands keep the rules of names and of order.
pub fn read_as_the_grammar(source: &[u8])
    ensures { (style : Style) → (style_of source.now ≡ Ok style) ↔ Reads source.now style }
{
    lexemes_as_spelled(source);
}

/// A text is at most one style.
pub fn one_style_at_most(source: &[u8])
    ensures { (first second : Style) → Reads source.now first → Reads source.now second → first ≡ second }
{
    read_as_the_grammar(source);
}

/// Every fault of a text stands at a byte of it or at its end, and want of memory is none.
pub fn faults_in_the_text(source: &[u8])
    ensures { (fault : StyleFault) → style_of source.now ≡ Err fault → IsFaultOf source.now fault }
{
    lexemes_as_spelled(source);
    lexemes_in_order(source);
    faults_in_source(source);
}

/// Each command, each body and each token of a style that was read has the place of a byte of its text.
pub fn places_in_the_text(source: &[u8])
    ensures { (style : Style) → style_of source.now ≡ Ok style → PlacesStand source.now style }
{
    lexemes_in_order(source);
}
