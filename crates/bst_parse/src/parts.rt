//! The parts of a command.

ghost use Rattle.std.specs.Prelude.{◌≡◌, ◌<◌, length, IfOk, IfSome};
ghost use Rattle.std.specs.List.{list_all};
ghost use Rattle.bv_base.specs.Bytes.{is_name_byte};
ghost use Rattle.bst_parse.specs.Names as names;
ghost use Rattle.bst_parse.specs.Parts as parts;
ghost use Rattle.bv_base.specs.Answers.{Leaves};
ghost use Rattle.bst_parse.specs.Progressing.{progress_of};

use crate::fault::StyleFault;
use crate::grammar::{Caller, Part, call_of};
use crate::parser::{Parser, lower_into};
use bst_lex::lexeme::{Lexeme, Shape};
use bv_base::bytes::is_name_byte;
use bv_base::place::Place;
use bv_base::text::Text;
use name_table::names::{DefineFault, Kind, NameId, Names};
use name_table::style::{Command, CommandAt, MOST_BODIES, Macro};

impl Parser {
    /// Takes a lexeme of a part, after which the rest of the command's parts are to come: a list of names is done with
    /// its closing brace, every other part with one lexeme.
    pub(crate) fn take_part(
        &mut self,
        part: Part,
        rest: &'static [Part],
        lexeme: &Lexeme<'_>,
    ) -> Result<(), StyleFault>
        ensures { Leaves StyleFault.NoMemory
            (parts.take_part part rest.now lexeme.now.shape lexeme.now.place lexeme.now.text.now (progress_of self.old))
            (progress_of self.new)
            result }
    {
        let place = lexeme.place;
        match (part, lexeme.shape) {
            (Part::Open, Shape::OpenBrace) => {}
            (Part::Open, _) => return Err(StyleFault::Expected(place, Shape::OpenBrace)),
            (Part::Close | Part::Names(_), Shape::CloseBrace) => {}
            (Part::Close, _) => return Err(StyleFault::Expected(place, Shape::CloseBrace)),
            (Part::Names(kind), _) => {
                self.define(kind, lexeme)?;
                return Ok(());
            }
            (Part::Target(caller), _) => self.take_target(caller, lexeme)?,
            (Part::FunctionName, _) => self.take_function_name(lexeme)?,
            (Part::Body, _) => self.take_body(lexeme)?,
            (Part::MacroName, _) => self.take_macro_name(lexeme)?,
            (Part::MacroText, _) => self.take_macro_text(lexeme)?,
        }
        self.parts = rest;
        Ok(())
    }

    /// Takes a name that is defined.
    fn define(&mut self, kind: Kind, lexeme: &Lexeme<'_>) -> Result<NameId, StyleFault>
        ensures answers { Leaves StyleFault.NoMemory
            (parts.define kind lexeme.now.shape lexeme.now.place lexeme.now.text.now (progress_of self.old))
            (progress_of self.new)
            result }
        ensures id { IfOk result (λ id. id ≡ parts.next_name self.old.names) }
    {
        definable(&mut self.lowered, lexeme)?;
        define_in(&mut self.names, self.lowered.as_slice(), kind, lexeme.place)
    }

    /// Takes the name of a function that is defined.
    fn take_function_name(&mut self, lexeme: &Lexeme<'_>) -> Result<(), StyleFault>
        ensures { Leaves StyleFault.NoMemory
            (parts.take_function_name lexeme.now.shape lexeme.now.place lexeme.now.text.now (progress_of self.old))
            (progress_of self.new)
            result }
    {
        let body = self.bodies.next();
        let id = self.define(Kind::Wizard(body), lexeme)?;
        self.function = Some(id);
        self.commands.push(CommandAt {
            command: Command::Function(id),
            place: self.place,
        })?;
        Ok(())
    }

    /// Takes the name of a function that a command calls.
    fn take_target(&mut self, caller: Caller, lexeme: &Lexeme<'_>) -> Result<(), StyleFault>
        ensures { Leaves StyleFault.NoMemory
            (parts.take_target caller lexeme.now.shape lexeme.now.place lexeme.now.text.now (progress_of self.old))
            (progress_of self.new)
            result }
    {
        match lexeme.shape {
            Shape::Name => {
                lower_into(&mut self.lowered, lexeme.text)?;
                let found = self.names.find(self.lowered.as_slice());
                self.call(caller, found, lexeme.place)
            }
            _ => Err(StyleFault::Expected(lexeme.place, Shape::Name)),
        }
    }

    /// Calls a name, where it is there.
    fn call(
        &mut self,
        caller: Caller,
        found: Option<NameId>,
        place: Place,
    ) -> Result<(), StyleFault>
        requires { IfSome found (λ id. id.0 < length self.old.names) }
        ensures { Leaves StyleFault.NoMemory (parts.called caller found place (progress_of self.old)) (progress_of self.new) result }
    {
        let Some(id) = found else {
            return Err(StyleFault::UnknownName(place));
        };
        match self.names.kind(id) {
            Kind::Builtin(_) | Kind::Wizard(_) => {
                self.commands.push(CommandAt {
                    command: call_of(caller, id),
                    place: self.place,
                })?;
                Ok(())
            }
            _ => Err(StyleFault::NotCallable(place)),
        }
    }

    /// Takes the name of a macro.
    fn take_macro_name(&mut self, lexeme: &Lexeme<'_>) -> Result<(), StyleFault>
        ensures { Leaves StyleFault.NoMemory
            (parts.take_macro_name lexeme.now.shape lexeme.now.place lexeme.now.text.now (progress_of self.old))
            (progress_of self.new)
            result }
    {
        definable(&mut self.lowered, lexeme)?;
        if self.macros.has(self.lowered.as_slice()) {
            return Err(StyleFault::AlreadyDefined(lexeme.place));
        }
        self.macro_name = Text::from_slice(self.alloc, self.lowered.as_slice())?;
        Ok(())
    }

    /// Takes the value of a macro.
    fn take_macro_text(&mut self, lexeme: &Lexeme<'_>) -> Result<(), StyleFault>
        ensures { Leaves StyleFault.NoMemory
            (parts.take_macro_text lexeme.now.shape lexeme.now.place lexeme.now.text.now (progress_of self.old))
            (progress_of self.new)
            result }
    {
        match lexeme.shape {
            Shape::Text => {
                self.macros.add(Macro {
                    name: Text::from_slice(self.alloc, self.macro_name.as_slice())?,
                    value: Text::from_slice(self.alloc, unmarked(lexeme.text))?,
                })?;
                Ok(())
            }
            _ => Err(StyleFault::Expected(lexeme.place, Shape::Text)),
        }
    }

    /// Takes the opening brace of a function's body.
    fn take_body(&mut self, lexeme: &Lexeme<'_>) -> Result<(), StyleFault>
        ensures { Leaves StyleFault.NoMemory
            (parts.take_body lexeme.now.shape lexeme.now.place (progress_of self.old))
            (progress_of self.new)
            result }
    {
        match lexeme.shape {
            Shape::OpenBrace => {
                let body = self.bodies.next();
                if body.0 == MOST_BODIES {
                    return Err(StyleFault::TooMany(lexeme.place));
                }
                self.bodies.begin_function(lexeme.place)?;
                self.opened.enter(body)?;
                Ok(())
            }
            _ => Err(StyleFault::Expected(lexeme.place, Shape::OpenBrace)),
        }
    }
}

/// The lowered name of a lexeme that may be a defined name, in a buffer.
fn definable(lowered: &mut Vec<u8>, lexeme: &Lexeme<'_>) -> Result<(), StyleFault>
    ensures { Leaves StyleFault.NoMemory (parts.definable lexeme.now.shape lexeme.now.place lexeme.now.text.now) lowered.new.items result }
{
    match lexeme.shape {
        Shape::Name if is_definable(lexeme.text) => {
            lower_into(lowered, lexeme.text)?;
            Ok(())
        }
        _ => Err(StyleFault::Expected(lexeme.place, Shape::Name)),
    }
}

/// Whether a name may be defined.
fn is_definable(name: &[u8]) -> bool
    ensures { result ≡ names.is_definable name.now }
{
    match name {
        [] => false,
        [first, ..] => !first.is_ascii_digit() && are_name_bytes(name),
    }
}

/// Whether all bytes may stand in a defined name.
fn are_name_bytes(bytes: &[u8]) -> bool
    ensures { result ≡ list_all is_name_byte bytes.now }
{
    bytes.iter().all(|b| is_name_byte(*b))
}

/// Defines a lowered name.
fn define_in(names: &mut Names, name: &[u8], kind: Kind, place: Place) -> Result<NameId, StyleFault>
    ensures answers { Leaves StyleFault.NoMemory (parts.defined name.now kind place names.old) names.new result }
    ensures id { IfOk result (λ id. id ≡ parts.next_name names.old) }
{
    match names.define(name, kind) {
        Ok(id) => Ok(id),
        Err(DefineFault::AlreadyDefined(_)) => Err(StyleFault::AlreadyDefined(place)),
        Err(DefineFault::TooMany) => Err(StyleFault::TooMany(place)),
        Err(DefineFault::NoMemory) => Err(StyleFault::NoMemory),
    }
}

/// A text without its marks.
pub(crate) fn unmarked(text: &[u8]) -> &[u8]
    ensures { result.now ≡ parts.unmarked text.now }
{
    match text {
        [_, inside @ .., _] => inside,
        _ => &[],
    }
}
