//! The reader of styles.

ghost use Rattle.std.specs.Prelude.{◌≡◌, ◌≤◌, length, Ok, IfOk, IfErr};
ghost use Rattle.bv_base.specs.Answers.{Refuses};
ghost use Rattle.name_table.specs.Sound.{IsSound};
ghost use Rattle.bst_parse.specs.Reading.{style_of};

use crate::fault::StyleFault;
use crate::parser::Parser;
use bst_lex::laws::lexemes_as_spelled;
use bst_lex::lexer::Lexer;
use bv_base::limits::STYLE_BYTES;
use name_table::laws::are_bytes;
use name_table::style::Style;
use std::alloc::Global;

/// Reads a style of at most [`STYLE_BYTES`] bytes, or gives the first fault of the bytes.
///
/// Each byte is read a fixed number of times, and each name is looked up in a hash table.
pub fn parse(alloc: Global, source: &[u8]) -> Result<Style, StyleFault>
    requires { length source.now ≤ STYLE_BYTES }
    ensures ok { IfOk result (λ style. style_of source.now ≡ Ok style) }
    ensures fault { IfErr result (Refuses StyleFault.NoMemory (style_of source.now)) }
    ensures sound { IfOk result IsSound }
{
    are_bytes(source);
    lexemes_as_spelled(source);
    read(alloc, source)
}

/// Takes the lexemes of a source one after the other.
fn read(alloc: Global, source: &[u8]) -> Result<Style, StyleFault>
    requires { length source.now ≤ STYLE_BYTES }
    ensures ok { IfOk result (λ style. style_of source.now ≡ Ok style) }
    ensures fault { IfErr result (Refuses StyleFault.NoMemory (style_of source.now)) }
{
    let mut lexer = Lexer::new(source);
    let mut parser = Parser::new(alloc)?;
    loop {
        match lexer.next() {
            Ok(Some(lexeme)) => parser.take(source, &lexeme)?,
            Ok(None) => return parser.finish(lexer.end()),
            Err(fault) => return Err(StyleFault::Lex(fault)),
        }
    }
}
