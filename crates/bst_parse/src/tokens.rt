//! The tokens of a body.

ghost use Rattle.std.specs.Prelude.{◌≡◌, ◌+◌, ◌≤◌, length, drop, OnOk};
ghost use Rattle.bst_lex.specs.Lexemes.{seen};
ghost use Rattle.bv_base.specs.Answers.{Gives, Leaves};
ghost use Rattle.bst_parse.specs.Progressing.{progress_of};
ghost use Rattle.bst_parse.specs.Tokens as tokens;

use crate::fault::StyleFault;
use crate::parser::{Parser, lower_into};
use crate::parts::unmarked;
use bst_lex::lexeme::{LexFault, Lexeme, Shape};
use bv_base::memory::NoMemory;
use bv_base::place::Place;
use bv_base::text::Text;
use name_table::names::NameId;
use name_table::style::{BodyId, MOST_BODIES, TextId, Token, TokenAt};

/// The most blocks that nest within each other.
pub(crate) const DEEPEST: usize = 256;

impl Parser {
    /// Takes a lexeme in a body.
    pub(crate) fn take_token(
        &mut self,
        source: &[u8],
        inside: BodyId,
        lexeme: &Lexeme<'_>,
    ) -> Result<(), StyleFault>
        requires { lexeme.now.place.column + length lexeme.now.text.now ≤ 4294967295 }
        ensures { Leaves StyleFault.NoMemory
            (tokens.take_token source.now inside lexeme.now.shape (seen lexeme.now) (progress_of self.old))
            (progress_of self.new)
            result }
    {
        let place = lexeme.place;
        match lexeme.shape {
            Shape::OpenBrace => return self.begin_block(inside, place),
            Shape::CloseBrace => self.opened.leave(),
            Shape::Integer(value) => self.add(inside, Token::Int(value), place)?,
            Shape::Text => self.add_text(inside, lexeme)?,
            Shape::Quoted => {
                let id = self.used(source, lexeme, after_mark(lexeme.text))?;
                self.add(inside, Token::Quote(id), place)?;
            }
            Shape::Name => {
                let id = self.used(source, lexeme, lexeme.text)?;
                self.add(inside, Token::Call(id), place)?;
            }
        }
        Ok(())
    }

    /// Begins a block in a body.
    fn begin_block(&mut self, inside: BodyId, place: Place) -> Result<(), StyleFault>
        ensures { Leaves StyleFault.NoMemory
            (tokens.begin_block inside place (progress_of self.old))
            (progress_of self.new)
            result }
    {
        if self.opened.len() > DEEPEST {
            return Err(StyleFault::TooDeep(place));
        }
        let body = self.bodies.next();
        if body.0 == MOST_BODIES {
            return Err(StyleFault::TooMany(place));
        }
        self.bodies.begin_block(inside, place)?;
        self.opened.enter(body)?;
        Ok(())
    }

    /// Adds a token at the end of a body.
    fn add(&mut self, inside: BodyId, token: Token, place: Place) -> Result<(), NoMemory>
        ensures { OnOk result (progress_of self.new ≡ tokens.with_token inside token place (progress_of self.old)) }
    {
        self.bodies.add(inside, TokenAt { token, place })?;
        Ok(())
    }

    /// Adds a text at the end of a body.
    fn add_text(&mut self, inside: BodyId, lexeme: &Lexeme<'_>) -> Result<(), NoMemory>
        ensures { OnOk result (progress_of self.new ≡ tokens.with_text inside (seen lexeme.now) (progress_of self.old)) }
    {
        let Ok(number) = u32::try_from(self.texts.len()) else {
            return Err(NoMemory);
        };
        let text = Text::from_slice(self.alloc, unmarked(lexeme.text))?;
        self.texts.push(text)?;
        self.add(inside, Token::Str(TextId(number)), lexeme.place)
    }

    /// The name that a lexeme uses.
    fn used(
        &mut self,
        source: &[u8],
        lexeme: &Lexeme<'_>,
        name: &[u8],
    ) -> Result<NameId, StyleFault>
        requires { lexeme.now.place.column + length lexeme.now.text.now ≤ 4294967295 }
        ensures answers { Gives StyleFault.NoMemory
            (tokens.used source.now (seen lexeme.now) name.now (progress_of self.old))
            result }
        ensures same { progress_of self.new ≡ progress_of self.old }
    {
        let length = lexeme.text.len();
        if begins_block(source, lexeme.start as usize + length) {
            return Err(StyleFault::Lex(LexFault::StuffAfterToken(lexeme.place.along(length))));
        }
        lower_into(&mut self.lowered, name)?;
        match self.names.find(self.lowered.as_slice()) {
            None => Err(StyleFault::UnknownName(lexeme.place)),
            Some(id) if is_own(id, self.function) => Err(StyleFault::SelfUse(lexeme.place)),
            Some(id) => Ok(id),
        }
    }
}

/// Whether a `{` stands at a byte of a source.
fn begins_block(source: &[u8], at: usize) -> bool
    ensures { result ≡ tokens.begins_block (drop at source.now) }
{
    at < source.len() && source[at] == b'{'
}

/// Whether an id is that of a function.
fn is_own(id: NameId, function: Option<NameId>) -> bool
    ensures { result ≡ tokens.is_own id function }
{
    match function {
        None => false,
        Some(function) => id.0 == function.0,
    }
}

/// A quoted name without its mark.
fn after_mark(text: &[u8]) -> &[u8]
    ensures { result.now ≡ drop 1 text.now }
{
    match text {
        [] => &[],
        [_, name @ ..] => name,
    }
}
