//! What has been read of a database, and the parts of it that come next.

ghost use Rattle.std.specs.Prelude.{◌≡◌, false, ◌++◌, Ok, length, IfOk, OnOk};
ghost use Rattle.std.specs.Result.{MatchResult};
ghost use Rattle.bv_base.specs.Answers.{GivesAndLeaves, Leaves, Refuses};
ghost use Rattle.name_table.specs.Names as names;
ghost use Rattle.bib_read.specs.Entering as entering;
ghost use Rattle.bib_read.specs.Names.{has_entry, has_field};
ghost use Rattle.bib_read.specs.Parts as parts;
ghost use Rattle.bib_read.specs.Progressing.{progress_of};
ghost use Rattle.bib_read.specs.Reading as reading;
ghost use Rattle.bib_read.specs.declared.stop.Stop.TheVariants.{NoMemory as WantOfMemory};

use crate::entries::Entries;
use crate::fields::Fields;
use crate::macros::Macros;
use crate::runs::{after_at, begins_name, key_length, name_length};
use crate::squeeze::{squeezed, trim_into};
use crate::stop::{Stop, unexpected};
use crate::warnings::second_field;
use bv_base::key_set::lowered;
use bv_base::memory::NoMemory;
use bv_base::runs::after_white;
use bv_base::seq::Seq;
use bv_base::text::Text;
use std::alloc::Global;

/// A database of which some bytes are read.
#[derive(Drop)]
pub(crate) struct Reader<'a> {
    pub(crate) alloc: Global,
    /// The bytes that are left.
    pub(crate) rest: &'a [u8],
    pub(crate) macros: Macros,
    pub(crate) entries: Entries,
    pub(crate) preamble: Vec<u8>,
    pub(crate) warnings: Seq<Text>,
    /// The pieces of the value that is being read, joined.
    pub(crate) text: Vec<u8>,
    /// The value of a field, without white space at its ends: its room serves the next one too.
    pub(crate) value: Vec<u8>,
    /// The lowered name of a field: its room serves the next one too.
    pub(crate) name: Vec<u8>,
    /// The fields of the entry that is being read.
    pub(crate) fields: Fields,
}

impl<'a> Reader<'a> {
    #[tactic(auto, using(crate::proofs::Rounds::items_round))]
    /// Takes what each `@` begins.
    pub(crate) fn take_items(&mut self) -> Result<(), Stop>
        ensures { Leaves WantOfMemory
            (reading.take_items (length self.old.rest.now) (progress_of self.old))
            (progress_of self.new)
            result }
    {
        for _round in 0..self.rest.len() {
            match after_at(self.rest) {
                None => return Ok(()),
                Some(rest) => self.rest = rest,
            }
            self.take_item()?;
        }
        Ok(())
    }

    /// Takes what an `@` begins.
    fn take_item(&mut self) -> Result<(), Stop>
        ensures { Leaves WantOfMemory (reading.take_item (progress_of self.old)) (progress_of self.new) result }
    {
        let word = self.take_identifier()?;
        if word.as_slice() == b"comment".as_slice() {
            return Ok(());
        }
        let close = self.take_opening()?;
        self.take_opened(word, close)
    }

    /// Takes what `{` or `(` opens after a word.
    fn take_opened(&mut self, word: Text, close: u8) -> Result<(), Stop>
        ensures { Leaves WantOfMemory (reading.take_opened word close (progress_of self.old)) (progress_of self.new) result }
    {
        if word.as_slice() == b"string".as_slice() {
            return self.take_string(close);
        }
        if word.as_slice() == b"preamble".as_slice() {
            return self.take_preamble(close);
        }
        self.take_entry(close, word)
    }

    /// Takes the definition of a macro, after what opens it.
    fn take_string(&mut self, close: u8) -> Result<(), Stop>
        ensures { Leaves WantOfMemory (reading.take_string close (progress_of self.old)) (progress_of self.new) result }
    {
        let name = self.take_identifier()?;
        self.take_definition(close, name)
    }

    /// Takes the definition of a macro after its name.
    fn take_definition(&mut self, close: u8, name: Text) -> Result<(), Stop>
        ensures { Leaves WantOfMemory (reading.take_definition close name (progress_of self.old)) (progress_of self.new) result }
    {
        self.take_equals()?;
        self.take_mark(close)?;
        let value = squeezed(self.alloc, self.text.as_slice())?;
        self.macros.define(name.as_slice(), value.as_slice())?;
        Ok(())
    }

    /// Takes a preamble, after what opens it.
    fn take_preamble(&mut self, close: u8) -> Result<(), Stop>
        ensures { Leaves WantOfMemory (reading.take_preamble close (progress_of self.old)) (progress_of self.new) result }
    {
        self.take_value()?;
        self.take_mark(close)?;
        let value = squeezed(self.alloc, self.text.as_slice())?;
        append(&mut self.preamble, value.as_slice())?;
        Ok(())
    }

    /// Takes an entry from its key on.
    fn take_entry(&mut self, close: u8, entry_type: Text) -> Result<(), Stop>
        ensures { Leaves WantOfMemory
            (entering.take_entry close entry_type (progress_of self.old))
            (progress_of self.new)
            result }
    {
        let rest = after_white(self.rest);
        let (key, left) = rest.split_at(key_length(close, rest));
        if key.is_empty() {
            return Err(unexpected(rest));
        }
        let lowered_key = lowered(self.alloc, key)?;
        if self.entries.has(lowered_key.as_slice()) {
            return Err(Stop::RepeatedKey(rest.len()));
        }
        self.rest = left;
        self.fields.clear();
        self.take_fields(close, key)?;
        self.add_entry(lowered_key, key, entry_type)?;
        Ok(())
    }

    /// Adds an entry with the fields that have been read, where no entry has its key, which is given lowered, too.
    fn add_entry(
        &mut self,
        lowered_key: Vec<u8>,
        key: &[u8],
        entry_type: Text,
    ) -> Result<(), NoMemory>
        requires lowered { lowered_key.items ≡ names.lowered key.now }
        requires fresh { has_entry lowered_key.items self.old.entries ≡ false }
        ensures { OnOk result
            (progress_of self.new ≡ entering.with_entry key.now entry_type (progress_of self.old)) }
    {
        self.entries.add(
            self.alloc,
            lowered_key.as_slice(),
            key,
            entry_type.as_slice(),
            self.fields.list(),
        )?;
        self.fields.clear();
        Ok(())
    }

    #[tactic(auto, using(crate::proofs::Rounds::fields_round))]
    /// Takes the rest of an entry after its key.
    fn take_fields(&mut self, close: u8, key: &[u8]) -> Result<(), Stop>
        ensures { Leaves WantOfMemory
            (entering.take_fields (length self.old.rest.now) close key.now (progress_of self.old))
            (progress_of self.new)
            result }
    {
        for _round in 0..self.rest.len() {
            if self.passes(close) {
                return Ok(());
            }
            self.take_mark(b',')?;
            if self.passes(close) {
                return Ok(());
            }
            self.take_field(key)?;
        }
        Err(Stop::EndOfFile)
    }

    /// Takes a field.
    fn take_field(&mut self, key: &[u8]) -> Result<(), Stop>
        ensures { Leaves WantOfMemory (entering.take_field key.now (progress_of self.old)) (progress_of self.new) result }
    {
        let name = self.take_name()?;
        self.take_lowered(key, name)
    }

    /// Takes a field after its name as it stands, which is lowered in room that serves the next one too.
    fn take_lowered(&mut self, key: &[u8], found: &[u8]) -> Result<(), Stop>
        ensures { Leaves WantOfMemory
            (entering.take_named key.now (names.lowered found.now) (progress_of self.old))
            (progress_of self.new)
            result }
    {
        let mut name = std::mem::replace(&mut self.name, Vec::new(self.alloc));
        lower_into(&mut name, found)?;
        let taken = self.take_named(key, name.as_slice());
        self.name = name;
        taken
    }

    /// Takes a field after its name.
    fn take_named(&mut self, key: &[u8], name: &[u8]) -> Result<(), Stop>
        ensures { Leaves WantOfMemory (entering.take_named key.now name.now (progress_of self.old)) (progress_of self.new) result }
    {
        let there = self.note(key, name)?;
        self.take_equals()?;
        self.add_field(name, there)?;
        Ok(())
    }

    /// Adds a warning where a field of this name is there, and says whether it is.
    fn note(&mut self, key: &[u8], name: &[u8]) -> Result<bool, NoMemory>
        ensures there { IfOk result (λ there. there ≡ has_field name.now self.new.fields) }
        ensures noted { OnOk result (progress_of self.new ≡ entering.noted key.now name.now (progress_of self.old)) }
    {
        if !self.fields.has(name) {
            return Ok(false);
        }
        let warning = second_field(self.alloc, name, key)?;
        self.warnings.push(warning)?;
        Ok(true)
    }

    /// Adds a field with the value that has been read, where none of its name is there.
    fn add_field(&mut self, name: &[u8], there: bool) -> Result<(), NoMemory>
        requires { there ≡ has_field name.now self.old.fields }
        ensures { OnOk result (progress_of self.new ≡ entering.with_field name.now (progress_of self.old)) }
    {
        if !there {
            trim_into(&mut self.value, self.text.as_slice())?;
            self.fields.add(name, self.value.as_slice())?;
        }
        Ok(())
    }

    /// Takes white space, and an identifier, which is given lowered.
    pub(crate) fn take_identifier(&mut self) -> Result<Text, Stop>
        ensures { GivesAndLeaves WantOfMemory (parts.take_identifier (progress_of self.old)) (progress_of self.new) result }
    {
        let name = self.take_name()?;
        let name = lowered(self.alloc, name)?;
        Ok(Text::from_vec(name))
    }

    /// Takes white space, and an identifier, which is given as it stands.
    fn take_name(&mut self) -> Result<&'a [u8], Stop>
        ensures { MatchResult result
            (λ name. parts.take_identifier (progress_of self.old) ≡ Ok (names.lowered name.now, progress_of self.new))
            (Refuses WantOfMemory (parts.take_identifier (progress_of self.old))) }
    {
        let rest = after_white(self.rest);
        if !begins_name(rest) {
            return Err(unexpected(rest));
        }
        let (name, left) = rest.split_at(name_length(rest));
        self.rest = left;
        Ok(name)
    }

    /// Takes white space, and `{` or `(`; the byte that closes what it opens is given.
    fn take_opening(&mut self) -> Result<u8, Stop>
        ensures { GivesAndLeaves WantOfMemory (parts.take_opening (progress_of self.old)) (progress_of self.new) result }
    {
        let rest = after_white(self.rest);
        match rest {
            [b'{', left @ ..] => {
                self.rest = left;
                Ok(b'}')
            }
            [b'(', left @ ..] => {
                self.rest = left;
                Ok(b')')
            }
            _ => Err(unexpected(rest)),
        }
    }

    /// Takes white space, and a byte that must stand.
    pub(crate) fn take_mark(&mut self, mark: u8) -> Result<(), Stop>
        ensures { Leaves WantOfMemory (parts.take_mark mark (progress_of self.old)) (progress_of self.new) result }
    {
        if self.passes(mark) {
            Ok(())
        } else {
            Err(unexpected(self.rest))
        }
    }

    /// Passes over white space, and over a byte where it stands then; gives whether it stood.
    pub(crate) fn passes(&mut self, mark: u8) -> bool
        ensures stands { result ≡ parts.stands mark (progress_of self.old) }
        ensures passed { progress_of self.new ≡ parts.passed mark (progress_of self.old) }
    {
        let rest = after_white(self.rest);
        match rest {
            [] => {
                self.rest = rest;
                false
            }
            [b, left @ ..] => {
                let found = *b == mark;
                self.rest = if found { left } else { rest };
                found
            }
        }
    }
}

#[tactic(auto, using(bv_base::proofs::Lowering::lowered_by_ascii))]
/// Leaves of a buffer the lowered bytes.
fn lower_into(found: &mut Vec<u8>, bytes: &[u8]) -> Result<(), NoMemory>
    ensures { OnOk result (found.new.items ≡ names.lowered bytes.now) }
{
    found.clear();
    found.extend_from_slice(bytes)?;
    found.as_mut_slice().make_ascii_lowercase();
    Ok(())
}

/// Appends bytes.
pub(crate) fn append(bytes: &mut Vec<u8>, more: &[u8]) -> Result<(), NoMemory>
    ensures { OnOk result (bytes.new.items ≡ bytes.old.items ++ more.now) }
{
    bytes.extend_from_slice(more)?;
    Ok(())
}
