//! What has been read of a style, and the part of it that comes next.

ghost use Rattle.std.specs.Prelude.{◌≡◌, ◌+◌, ◌≤◌, [], ◌∷◌, length, IfOk, OnOk, MatchOption};
ghost use Rattle.bst_lex.specs.Lexemes.{seen};
ghost use Rattle.bst_parse.specs.Names as names;
ghost use Rattle.bv_base.specs.Answers.{Leaves};
ghost use Rattle.bst_parse.specs.Progressing.{progress_of};
ghost use Rattle.bst_parse.specs.Reading as reading;

use crate::bodies::Bodies;
use crate::fault::StyleFault;
use crate::grammar::Part;
use crate::opened::Opened;
use bst_lex::lexeme::Lexeme;
use bv_base::bytes::lower;
use bv_base::keyed_list::KeyedList;
use bv_base::memory::NoMemory;
use bv_base::place::Place;
use bv_base::seq::Seq;
use bv_base::text::Text;
use name_table::names::{NameId, Names};
use name_table::style::{CommandAt, Macro, Style};
use std::alloc::Global;

/// A style of which some lexemes are read.
#[derive(Drop)]
pub(crate) struct Parser {
    pub(crate) alloc: Global,
    pub(crate) names: Names,
    pub(crate) commands: Seq<CommandAt>,
    pub(crate) bodies: Bodies,
    pub(crate) texts: Vec<Text>,
    pub(crate) macros: KeyedList<Macro>,
    /// Whether an ENTRY command stood.
    pub(crate) has_entry: bool,
    /// Whether a READ command stood.
    pub(crate) has_read: bool,
    /// The parts of the last command that are still to come.
    pub(crate) parts: &'static [Part],
    /// The place of the last command's word.
    pub(crate) place: Place,
    /// The function that was defined last.
    pub(crate) function: Option<NameId>,
    /// The name of the macro that was defined last.
    pub(crate) macro_name: Text,
    /// The bodies whose closing braces are still to come.
    pub(crate) opened: Opened,
    /// The last name that was lowered.
    pub(crate) lowered: Vec<u8>,
}

impl Parser {
    /// Before the first command.
    pub(crate) fn new(alloc: Global) -> Result<Parser, NoMemory>
        ensures { IfOk result (λ parser. progress_of parser ≡ reading.opening_progress) }
    {
        Ok(Parser {
            alloc,
            names: Names::opening(alloc)?,
            commands: Seq::new(alloc),
            bodies: Bodies::new(alloc),
            texts: Vec::new(alloc),
            macros: KeyedList::new(alloc),
            has_entry: false,
            has_read: false,
            parts: &[],
            place: Place::START,
            function: None,
            macro_name: Text::from_vec(Vec::new(alloc)),
            opened: Opened::new(alloc),
            lowered: Vec::new(alloc),
        })
    }

    /// Takes the next lexeme of a source.
    pub(crate) fn take(&mut self, source: &[u8], lexeme: &Lexeme<'_>) -> Result<(), StyleFault>
        requires { lexeme.now.place.column + length lexeme.now.text.now ≤ 4294967295 }
        ensures { Leaves StyleFault.NoMemory (reading.take_lexeme source.now (seen lexeme.now) (progress_of self.old)) (progress_of self.new) result }
    {
        match self.opened.innermost() {
            Some(inside) => self.take_token(source, inside, lexeme),
            None => self.take_outside(lexeme),
        }
    }

    /// Takes a lexeme outside bodies.
    fn take_outside(&mut self, lexeme: &Lexeme<'_>) -> Result<(), StyleFault>
        ensures { Leaves StyleFault.NoMemory
            (reading.take_outside self.old.parts.now (seen lexeme.now) (progress_of self.old))
            (progress_of self.new)
            result }
    {
        match next_part(self.parts) {
            None => self.take_word(lexeme),
            Some((part, rest)) => self.take_part(part, rest, lexeme),
        }
    }

    /// The style that has been read, at the end of a source whose lexemes are all taken.
    pub(crate) fn finish(self, end: Place) -> Result<Style, StyleFault>
        ensures { result ≡ reading.complete end (progress_of self) }
    {
        if !self.parts.is_empty() || !self.opened.is_empty() {
            return Err(StyleFault::EndOfFile(end));
        }
        Ok(Style {
            names: self.names,
            commands: self.commands,
            bodies: self.bodies.into_seq(),
            texts: Seq::from_vec(self.texts),
            macros: self.macros.into_seq(),
        })
    }
}

/// The part that comes next, and those after it.
fn next_part(parts: &'static [Part]) -> Option<(Part, &'static [Part])>
    ensures { MatchOption result (parts.now ≡ []) (λ next. parts.now ≡ next.0 ∷ next.1.now) }
{
    match parts {
        [] => None,
        [part, rest @ ..] => Some((*part, rest)),
    }
}

/// Lowers a name into a buffer.
pub(crate) fn lower_into(lowered: &mut Vec<u8>, name: &[u8]) -> Result<(), NoMemory>
    ensures { OnOk result (lowered.new.items ≡ names.lowered name.now) }
{
    lowered.clear();
    for b in name {
        lowered.push(lower(*b))?;
    }
    Ok(())
}
