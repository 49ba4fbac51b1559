//! Where a command may begin.

ghost use Rattle.std.specs.Prelude.{◌≡◌};
ghost use Rattle.bv_base.specs.Answers.{Leaves};
ghost use Rattle.bst_parse.specs.Progressing.{progress_of};
ghost use Rattle.bst_parse.specs.Words as words;

use crate::fault::StyleFault;
use crate::grammar::{Word, begun_by, word_of};
use crate::parser::{Parser, lower_into};
use bst_lex::lexeme::{Lexeme, Shape};
use bv_base::place::Place;
use name_table::style::CommandAt;

impl Parser {
    /// Takes a lexeme where a command may begin.
    pub(crate) fn take_word(&mut self, lexeme: &Lexeme<'_>) -> Result<(), StyleFault>
        ensures { Leaves StyleFault.NoMemory
            (words.take_word lexeme.now.shape lexeme.now.place lexeme.now.text.now (progress_of self.old))
            (progress_of self.new)
            result }
    {
        let place = lexeme.place;
        match lexeme.shape {
            Shape::Name => {
                lower_into(&mut self.lowered, lexeme.text)?;
                match word_of(self.lowered.as_slice()) {
                    None => Err(StyleFault::UnknownCommand(place)),
                    Some(word) => self.begin(word, place),
                }
            }
            _ => Err(StyleFault::Expected(place, Shape::Name)),
        }
    }

    /// Begins a command.
    fn begin(&mut self, word: Word, place: Place) -> Result<(), StyleFault>
        ensures { Leaves StyleFault.NoMemory (words.begin word place (progress_of self.old)) (progress_of self.new) result }
    {
        if let Some(fault) = self.order_fault(word, place) {
            return Err(fault);
        }
        let (declared, parts) = begun_by(word);
        if let Some(command) = declared {
            self.commands.push(CommandAt { command, place })?;
        }
        self.has_entry = self.has_entry || matches!(word, Word::Entry);
        self.has_read = self.has_read || matches!(word, Word::Read);
        self.parts = parts;
        self.place = place;
        Ok(())
    }

    /// What the order of commands has against a command.
    fn order_fault(&self, word: Word, place: Place) -> Option<StyleFault>
        ensures { result ≡ words.order_fault word place (progress_of self.now) }
    {
        match word {
            Word::Entry if self.has_entry => Some(StyleFault::SecondEntry(place)),
            Word::Read if self.has_read => Some(StyleFault::SecondRead(place)),
            Word::Read if !self.has_entry => Some(StyleFault::ReadBeforeEntry(place)),
            Word::Macro if self.has_read => Some(StyleFault::MacroAfterRead(place)),
            Word::Execute | Word::Iterate | Word::Reverse | Word::Sort if !self.has_read => {
                Some(StyleFault::CommandBeforeRead(place))
            }
            _ => None,
        }
    }
}
