//! What has been read of a condition, line by line.

ghost use Rattle.std.specs.Prelude.{◌≡◌, IfOk};
ghost use Rattle.bv_base.specs.Answers.{Gives, GivesAndLeaves, Leaves};
ghost use Rattle.cert_format.specs.Conditions as conditions;
ghost use Rattle.cert_format.specs.Items.{last_of};
ghost use Rattle.cert_format.specs.declared.stop.Stop.TheVariants.{NoMemory as WantOfMemory};

use crate::limits::{MOST, MOST_ENTRIES};
use crate::lines::Line;
use crate::stages::CondStage;
use crate::stop::Stop;
use crate::worded::Worded;
use bst_meaning::condition::{Cond, NamesLine};
use bv_base::seq::Seq;
use bv_base::text::Text;
use name_table::names::{NameId, Names};
use std::alloc::Global;

/// What has been read of a condition.
#[derive(Drop)]
pub(crate) struct CondSoFar {
    pub(crate) stage: CondStage,
    pub(crate) cond: Cond,
}

impl CondSoFar {
    /// Before the first line.
    pub(crate) fn new(alloc: Global) -> CondSoFar
        ensures { result ≡ conditions.no_lines }
    {
        CondSoFar {
            stage: CondStage::Entries,
            cond: Cond {
                entries: 0,
                key: 0,
                preamble: 0,
                length: 0,
                names: Seq::new(alloc),
                nonblank: Seq::new(alloc),
                types: Seq::new(alloc),
                other: false,
            },
        }
    }

    /// Takes the next line.
    pub(crate) fn take(&mut self, alloc: Global, names: &Names, line: Line<'_>) -> Result<(), Stop>
        ensures { Leaves WantOfMemory (conditions.cond_line names.now line.entry self.old) self.new result }
    {
        self.take_worded(names, &mut Worded::new(alloc, line)?)
    }

    /// Takes a line, after its first word.
    pub(crate) fn take_worded(&mut self, names: &Names, line: &mut Worded<'_>) -> Result<(), Stop>
        ensures { Leaves WantOfMemory (conditions.worded_line names.now self.old.stage line.old.word line.old.rest self.old) self.new result }
    {
        match self.stage {
            CondStage::Names | CondStage::Nonblank | CondStage::Types => self.take_listed(
                names, line,
            ),
            CondStage::End => self.take_end(line),
            CondStage::Done => Err(Stop::Syntax(line.word.left())),
            _ => self.take_number(line),
        }
    }

    /// Takes a line of a word and a number.
    fn take_number(&mut self, line: &mut Worded<'_>) -> Result<(), Stop>
        ensures { Leaves WantOfMemory (conditions.number_at self.old.stage line.old.word line.old.rest self.old) self.new result }
    {
        match self.stage {
            CondStage::Entries => {
                self.cond.entries = number_line(b"entries", MOST_ENTRIES, line)?;
                self.stage = CondStage::Key;
            }
            CondStage::Key => {
                self.cond.key = number_line(b"key", MOST, line)?;
                self.stage = CondStage::Preamble;
            }
            CondStage::Preamble => {
                self.cond.preamble = number_line(b"preamble", MOST, line)?;
                self.stage = CondStage::Length;
            }
            _ => {
                self.cond.length = number_line(b"length", MOST, line)?;
                self.stage = CondStage::Names;
            }
        }
        Ok(())
    }

    /// Takes a line after the one of `length`.
    fn take_listed(&mut self, names: &Names, line: &mut Worded<'_>) -> Result<(), Stop>
        ensures { Leaves WantOfMemory (conditions.listed_line names.now line.old.word line.old.rest self.old) self.new result }
    {
        if may_have_names(self.stage) && line.word.is_word(b"names") {
            return self.take_names(names, line);
        }
        if may_have_nonblank(self.stage) && line.word.is_word(b"nonblank") {
            return self.take_nonblank(names, line);
        }
        if line.word.is_word(b"type") {
            return self.take_type(line);
        }
        self.take_othertype(line)
    }

    /// Takes a line on names, after its word.
    fn take_names(&mut self, names: &Names, line: &mut Worded<'_>) -> Result<(), Stop>
        ensures { Leaves WantOfMemory (conditions.names_line names.now line.old.rest self.old) self.new result }
    {
        let item = line.rest.item()?;
        let field = item.field_above(last_field(self.cond.names.as_slice()), names)?;
        let most = last_natural(MOST, &mut line.rest)?;
        self.cond.names.push(NamesLine { field, most })?;
        Ok(())
    }

    /// Takes a `nonblank` line, after its word.
    fn take_nonblank(&mut self, names: &Names, line: &mut Worded<'_>) -> Result<(), Stop>
        ensures { Leaves WantOfMemory (conditions.nonblank_line names.now line.old.rest self.old) self.new result }
    {
        let item = line.rest.item()?;
        let field = item.field_above(last_id(self.cond.nonblank.as_slice()), names)?;
        line.rest.end()?;
        self.cond.nonblank.push(field)?;
        self.stage = CondStage::Nonblank;
        Ok(())
    }

    /// Takes a `type` line, after its word.
    fn take_type(&mut self, line: &mut Worded<'_>) -> Result<(), Stop>
        ensures { Leaves WantOfMemory (conditions.type_line line.old.rest self.old) self.new result }
    {
        let item = line.rest.item()?;
        item.type_above(self.cond.types.as_slice().last())?;
        line.rest.end()?;
        self.cond
            .types
            .push(Text::from_slice(line.alloc, item.text())?)?;
        self.stage = CondStage::Types;
        Ok(())
    }

    /// Takes the line of `othertype`.
    fn take_othertype(&mut self, line: &mut Worded<'_>) -> Result<(), Stop>
        ensures { Leaves WantOfMemory (conditions.othertype_line line.old.word line.old.rest self.old) self.new result }
    {
        line.word.expect(b"othertype")?;
        let item = line.rest.item()?;
        let other = item.choice()?;
        line.rest.end()?;
        self.cond.other = other;
        self.stage = CondStage::End;
        Ok(())
    }

    /// Takes the line of `end`.
    fn take_end(&mut self, line: &mut Worded<'_>) -> Result<(), Stop>
        ensures { Leaves WantOfMemory (conditions.end_line line.old.word line.old.rest self.old) self.new result }
    {
        line.only(b"end")?;
        self.stage = CondStage::Done;
        Ok(())
    }

    /// The condition, where its last line has come.
    pub(crate) fn finish(self) -> Result<Cond, Stop>
        ensures { Gives WantOfMemory (conditions.finished self self.stage) result }
    {
        match self.stage {
            CondStage::Done => Ok(self.cond),
            _ => Err(Stop::Syntax(0)),
        }
    }
}

/// Whether a line on names may come.
fn may_have_names(stage: CondStage) -> bool
    ensures { result ≡ conditions.may_have_names stage }
{
    matches!(stage, CondStage::Names)
}

/// The field of the last of some lines on names.
fn last_field(lines: &[NamesLine]) -> Option<NameId>
    ensures { result ≡ conditions.last_field lines.now }
{
    match lines.last() {
        Some(line) => Some(line.field),
        None => None,
    }
}

/// Whether a `nonblank` line may come.
fn may_have_nonblank(stage: CondStage) -> bool
    ensures { result ≡ conditions.may_have_nonblank stage }
{
    matches!(stage, CondStage::Names | CondStage::Nonblank)
}

/// The last of some ids.
pub(crate) fn last_id(ids: &[NameId]) -> Option<NameId>
    ensures { result ≡ last_of ids.now }
{
    match ids.last() {
        Some(id) => Some(*id),
        None => None,
    }
}

/// A line of this word and a number.
fn number_line(text: &[u8], most: u32, line: &mut Worded<'_>) -> Result<u32, Stop>
    ensures { Gives WantOfMemory (conditions.number_line text.now most line.old.word line.old.rest) result }
{
    line.word.expect(text)?;
    last_natural(most, &mut line.rest)
}

/// The last item of a line, as a number of at most so much.
pub(crate) fn last_natural(most: u32, line: &mut Line<'_>) -> Result<u32, Stop>
    ensures { Gives WantOfMemory (conditions.last_natural most line.old) result }
{
    let number = line.item()?.natural(most)?;
    line.end()?;
    Ok(number)
}
