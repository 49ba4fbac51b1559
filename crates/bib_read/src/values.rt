//! Values and their pieces.

ghost use Rattle.std.specs.Prelude.{◌≡◌, length, OnOk};
ghost use Rattle.bv_base.specs.Answers.{Leaves};
ghost use Rattle.bib_read.specs.Progressing.{progress_of};
ghost use Rattle.bib_read.specs.Values as values;
ghost use Rattle.bib_read.specs.declared.stop.Stop.TheVariants.{NoMemory as WantOfMemory};

use crate::reader::{Reader, append};
use crate::runs::inside_length;
use crate::stop::Stop;
use crate::warnings::undefined_macro;
use bv_base::memory::NoMemory;
use bv_base::runs::{after_white, digits_length, is_digit};

impl<'a> Reader<'a> {
    /// Takes `=` and a value.
    pub(crate) fn take_equals(&mut self) -> Result<(), Stop>
        ensures { Leaves WantOfMemory (values.take_equals (progress_of self.old)) (progress_of self.new) result }
    {
        self.take_mark(b'=')?;
        self.take_value()
    }

    /// Takes a value.
    pub(crate) fn take_value(&mut self) -> Result<(), Stop>
        ensures { Leaves WantOfMemory (values.take_value (progress_of self.old)) (progress_of self.new) result }
    {
        self.text.clear();
        self.take_pieces()
    }

    /// Takes pieces with `#` between them.
    #[tactic(auto, using(crate::proofs::Rounds::pieces_round))]
    fn take_pieces(&mut self) -> Result<(), Stop>
        ensures { Leaves WantOfMemory
            (values.take_pieces (length self.old.rest.now) (progress_of self.old))
            (progress_of self.new)
            result }
    {
        for _round in 0..self.rest.len() {
            self.take_piece()?;
            if !self.passes(b'#') {
                return Ok(());
            }
        }
        Err(Stop::EndOfFile)
    }

    /// Takes white space, and a piece.
    fn take_piece(&mut self) -> Result<(), Stop>
        ensures { Leaves WantOfMemory (values.take_piece (progress_of self.old)) (progress_of self.new) result }
    {
        let rest = after_white(self.rest);
        match rest {
            [] => Err(Stop::EndOfFile),
            [b'{', inside @ ..] => self.take_closed(b'}', inside),
            [b'"', inside @ ..] => self.take_closed(b'"', inside),
            [b, ..] if is_digit(*b) => {
                self.take_digits(rest)?;
                Ok(())
            }
            _ => self.take_macro(),
        }
    }

    /// Takes a piece in braces or quotes, after the mark that begins it.
    fn take_closed(&mut self, mark: u8, bytes: &'a [u8]) -> Result<(), Stop>
        ensures { Leaves WantOfMemory (values.take_closed mark bytes.now (progress_of self.old)) (progress_of self.new) result }
    {
        let (text, after) = bytes.split_at(inside_length(mark, bytes));
        match after {
            [] => Err(Stop::EndOfFile),
            [b, left @ ..] => {
                if *b != mark {
                    return Err(Stop::Unbalanced(after.len()));
                }
                append(&mut self.text, text)?;
                self.rest = left;
                Ok(())
            }
        }
    }

    /// Takes a run of digits.
    fn take_digits(&mut self, bytes: &'a [u8]) -> Result<(), NoMemory>
        ensures { OnOk result (progress_of self.new ≡ values.take_digits bytes.now (progress_of self.old)) }
    {
        let (digits, left) = bytes.split_at(digits_length(bytes));
        append(&mut self.text, digits)?;
        self.rest = left;
        Ok(())
    }

    /// Takes white space, and the name of a macro.
    fn take_macro(&mut self) -> Result<(), Stop>
        ensures { Leaves WantOfMemory (values.take_macro (progress_of self.old)) (progress_of self.new) result }
    {
        let name = self.take_identifier()?;
        match self.macros.find(name.as_slice()) {
            Some(value) => append(&mut self.text, value)?,
            None => {
                let warning = undefined_macro(self.alloc, name.as_slice())?;
                self.warnings.push(warning)?;
            }
        }
        Ok(())
    }
}
