//! What has been read of a certificate, line by line.

ghost use Rattle.std.specs.Prelude.{◌≡◌, OnOk};
ghost use Rattle.bv_base.specs.Answers.{Gives, Leaves};
ghost use Rattle.cert_format.specs.Certs as certs;
ghost use Rattle.cert_format.specs.declared.stop.Stop.TheVariants.{NoMemory as WantOfMemory};

use crate::cert::{Cert, CommandPart, Loop, Summary};
use crate::cond_lines::CondSoFar;
use crate::items::{has_leading_zero, is_numeral};
use crate::limits::{MOST, MOST_LIST, MOST_UNITS};
use crate::lines::{Item, Line};
use crate::stages::{CertStage, CondStage, UnitKind};
use crate::stop::Stop;
use crate::styled::Styled;
use crate::unit_lines::UnitSoFar;
use crate::worded::Worded;
use bst_meaning::value::Target;
use bv_base::memory::NoMemory;
use bv_base::runs::number;
use bv_base::seq::Seq;
use std::alloc::Global;
use sym_state::piece::Piece;

/// What has been read of a certificate.
#[derive(Drop)]
pub(crate) struct CertSoFar {
    stage: CertStage,
    list: u32,
    cond: CondSoFar,
    /// The unit that is being read.
    unit: UnitSoFar,
    summaries: Seq<Summary>,
    loops: Seq<Loop>,
    commands: Seq<CommandPart>,
}

impl CertSoFar {
    /// Before the first line.
    pub(crate) fn new(alloc: Global) -> CertSoFar
        ensures { result ≡ certs.no_cert }
    {
        CertSoFar {
            stage: CertStage::Header,
            list: 0,
            cond: CondSoFar::new(alloc),
            unit: UnitSoFar::new(alloc, UnitKind::Command(0)),
            summaries: Seq::new(alloc),
            loops: Seq::new(alloc),
            commands: Seq::new(alloc),
        }
    }

    /// Takes the next line.
    pub(crate) fn take(
        &mut self,
        alloc: Global,
        style: &Styled<'_>,
        line: Line<'_>,
    ) -> Result<(), Stop>
        ensures { Leaves WantOfMemory (certs.cert_line style.now line.entry self.old) self.new result }
    {
        self.take_worded(style, &mut Worded::new(alloc, line)?)
    }

    /// Takes a line, after its first word.
    fn take_worded(&mut self, style: &Styled<'_>, line: &mut Worded<'_>) -> Result<(), Stop>
        ensures { Leaves WantOfMemory (certs.cert_staged style.now self.old.stage line.old.word line.old.rest self.old) self.new result }
    {
        match self.stage {
            CertStage::Header => self.take_header(line),
            CertStage::Cond => self.take_cond(style, line),
            CertStage::Units => self.take_between(style, line),
            CertStage::InUnit => self.take_in_unit(style, line),
            CertStage::Done => Err(Stop::Syntax(line.word.left())),
        }
    }

    /// Takes the line of `bstcert`.
    fn take_header(&mut self, line: &mut Worded<'_>) -> Result<(), Stop>
        ensures { Leaves WantOfMemory (certs.header_line line.old.word line.old.rest self.old) self.new result }
    {
        line.word.expect(b"bstcert")?;
        let list = line.rest.item()?.positive(MOST_LIST)?;
        line.rest.end()?;
        self.list = list;
        self.stage = CertStage::Cond;
        Ok(())
    }

    /// Takes a line of the condition.
    fn take_cond(&mut self, style: &Styled<'_>, line: &mut Worded<'_>) -> Result<(), Stop>
        ensures { Leaves WantOfMemory (certs.in_cond style.now line.old.word line.old.rest self.old) self.new result }
    {
        self.cond.take_worded(style.names(), line)?;
        self.stage = after_cond(self.cond.stage);
        Ok(())
    }

    /// Takes the first line of a unit, or `done`.
    fn take_between(&mut self, style: &Styled<'_>, line: &mut Worded<'_>) -> Result<(), Stop>
        ensures { Leaves WantOfMemory (certs.between_units style.now line.old.word line.old.rest self.old) self.new result }
    {
        if line.word.is_word(b"summary") && self.is_before_loops() {
            return self.take_summary(style, line);
        }
        if line.word.is_word(b"loop") && self.commands.as_slice().is_empty() {
            return self.take_loop(style, line);
        }
        if line.word.is_word(b"command") {
            return self.take_command(style, line);
        }
        self.take_done(line)
    }

    /// Whether a summary may come.
    fn is_before_loops(&self) -> bool
        ensures { result ≡ certs.is_before_loops self.now }
    {
        self.loops.as_slice().is_empty() && self.commands.as_slice().is_empty()
    }

    /// Takes the first line of a summary, after its word.
    fn take_summary(&mut self, style: &Styled<'_>, line: &mut Worded<'_>) -> Result<(), Stop>
        ensures { Leaves WantOfMemory (certs.summary_line style.now line.old.word line.old.rest self.old) self.new result }
    {
        if self.summaries.as_slice().len() >= MOST_UNITS {
            return Err(Stop::TooMany(line.word.left()));
        }
        let body = line.rest.item()?.body(style)?;
        line.rest.end()?;
        self.begin(line.alloc, UnitKind::Summary(body));
        Ok(())
    }

    /// Takes the first line of a loop, after its word.
    fn take_loop(&mut self, style: &Styled<'_>, line: &mut Worded<'_>) -> Result<(), Stop>
        ensures { Leaves WantOfMemory (certs.loop_line style.now line.old.word line.old.rest self.old) self.new result }
    {
        if self.loops.as_slice().len() >= MOST_UNITS {
            return Err(Stop::TooMany(line.word.left()));
        }
        let test = line.rest.item()?.body(style)?;
        let body = line.rest.item()?.body(style)?;
        line.rest.end()?;
        self.begin(line.alloc, UnitKind::Loop(test, body));
        Ok(())
    }

    /// Takes the first line of a command, after its word.
    fn take_command(&mut self, style: &Styled<'_>, line: &mut Worded<'_>) -> Result<(), Stop>
        ensures { Leaves WantOfMemory (certs.command_line style.now line.old.rest self.old) self.new result }
    {
        let last = last_command(self.commands.as_slice());
        let index = line.rest.item()?.command_number(style.commands(), last)?;
        line.rest.end()?;
        self.begin(line.alloc, UnitKind::Command(index));
        Ok(())
    }

    /// Begins a unit.
    fn begin(&mut self, alloc: Global, kind: UnitKind)
        ensures { self.new ≡ certs.begun_unit kind self.old }
    {
        self.unit = UnitSoFar::new(alloc, kind);
        self.stage = CertStage::InUnit;
    }

    /// Takes `done`.
    fn take_done(&mut self, line: &mut Worded<'_>) -> Result<(), Stop>
        ensures { Leaves WantOfMemory (certs.done_line line.old.word line.old.rest self.old) self.new result }
    {
        line.only(b"done")?;
        self.stage = CertStage::Done;
        Ok(())
    }

    /// Takes a line of a unit.
    fn take_in_unit(&mut self, style: &Styled<'_>, line: &mut Worded<'_>) -> Result<(), Stop>
        ensures { Leaves WantOfMemory (certs.in_unit style.now line.old.word line.old.rest self.old) self.new result }
    {
        self.unit.take(style, line)?;
        if self.unit.is_done() {
            self.finish_unit(line.alloc)?;
        }
        Ok(())
    }

    /// Puts the unit that has been read behind those before it.
    fn finish_unit(&mut self, alloc: Global) -> Result<(), NoMemory>
        ensures { OnOk result (self.new ≡ certs.unit_finished self.old) }
    {
        let unit = std::mem::replace(&mut self.unit, UnitSoFar::new(alloc, UnitKind::Command(0)));
        self.add(alloc, unit)?;
        self.stage = CertStage::Units;
        Ok(())
    }

    /// Adds a unit behind those before it.
    fn add(&mut self, alloc: Global, unit: UnitSoFar) -> Result<(), NoMemory>
        ensures { OnOk result (self.new ≡ certs.with_unit unit.kind unit self.old) }
    {
        match unit.kind {
            UnitKind::Summary(body) => self.summaries.push(summary_of(alloc, body, unit))?,
            UnitKind::Loop(test, body) => self.loops.push(loop_of(test, body, unit))?,
            UnitKind::Command(index) => self.commands.push(command_of(index, unit))?,
        }
        Ok(())
    }

    /// The certificate, where its last line has come.
    pub(crate) fn finish(self) -> Result<Cert, Stop>
        ensures { Gives WantOfMemory (certs.cert_finished self self.stage) result }
    {
        match self.stage {
            CertStage::Done => Ok(cert_of(self)),
            _ => Err(Stop::Syntax(0)),
        }
    }
}

/// What has been read.
fn cert_of(read: CertSoFar) -> Cert
    ensures { result ≡ certs.cert_so_far read }
{
    let CertSoFar {
        list,
        cond,
        summaries,
        loops,
        commands,
        ..
    } = read;
    Cert {
        list,
        cond: cond.cond,
        summaries,
        loops,
        commands,
    }
}

/// A unit as a summary.
fn summary_of(alloc: Global, body: Target, unit: UnitSoFar) -> Summary
    ensures { result ≡ certs.summary_of body unit }
{
    let UnitSoFar {
        entry,
        whole,
        writes,
        pre,
        later,
        hints,
        ..
    } = unit;
    Summary {
        body,
        entry,
        whole,
        writes,
        pre: or_nothing(alloc, pre),
        posts: later,
        hints,
    }
}

/// A unit as a loop.
fn loop_of(test: Target, body: Target, unit: UnitSoFar) -> Loop
    ensures { result ≡ certs.loop_of test body unit }
{
    let UnitSoFar {
        entry,
        whole,
        writes,
        cases,
        later,
        hints,
        ..
    } = unit;
    Loop {
        test,
        body,
        entry,
        whole,
        writes,
        cases,
        exits: later,
        hints,
    }
}

/// A unit as what belongs to a command.
fn command_of(index: u32, unit: UnitSoFar) -> CommandPart
    ensures { result ≡ certs.command_of index unit }
{
    let UnitSoFar {
        after,
        visit,
        keeps,
        hints,
        ..
    } = unit;
    CommandPart {
        index,
        after,
        visit,
        keeps,
        hints,
    }
}

/// A piece that is there, and else one that says nothing.
fn or_nothing(alloc: Global, piece: Option<Piece>) -> Piece
    ensures { result ≡ certs.or_nothing piece }
{
    match piece {
        Some(piece) => piece,
        None => Piece {
            stack: Seq::new(alloc),
            vars: Seq::new(alloc),
            fields: Seq::new(alloc),
            facts: Seq::new(alloc),
            rows: Seq::new(alloc),
        },
    }
}

/// What comes after a line of the condition.
fn after_cond(stage: CondStage) -> CertStage
    ensures { result ≡ certs.after_cond stage }
{
    match stage {
        CondStage::Done => CertStage::Units,
        _ => CertStage::Cond,
    }
}

/// The last command before the next one.
fn last_command(commands: &[CommandPart]) -> Option<u32>
    ensures { result ≡ certs.last_command commands.now }
{
    match commands.last() {
        Some(command) => Some(command.index),
        None => None,
    }
}

/// Whether a command may stand behind the last one.
fn comes_after(last: Option<u32>, index: u32) -> bool
    ensures { result ≡ certs.comes_after last index }
{
    match last {
        Some(last) => last < index,
        None => true,
    }
}

impl<'a> Item<'a> {
    /// The number of a command of the style above the last one.
    fn command_number(&self, count: usize, last: Option<u32>) -> Result<u32, Stop>
        ensures { Gives WantOfMemory (certs.command_number count last self.now) result }
    {
        if !is_numeral(self.text()) {
            return Err(Stop::Syntax(self.left()));
        }
        let value = number(self.text());
        if value > u64::from(MOST) || value >= count as u64 {
            return Err(Stop::OutOfRange(self.left()));
        }
        if has_leading_zero(self.text()) || !comes_after(last, value as u32) {
            return Err(Stop::NotCanonical(self.left()));
        }
        Ok(value as u32)
    }

    /// A body: the name of a function, or `#` and the number of a block.
    fn body(&self, style: &Styled<'_>) -> Result<Target, Stop>
        ensures { Gives WantOfMemory (certs.body style.now self.now) result }
    {
        match self.after(b"#") {
            Some(part) => part.block(style),
            None => Ok(Target::Named(self.name(style.names())?)),
        }
    }

    /// A block by its number.
    fn block(&self, style: &Styled<'_>) -> Result<Target, Stop>
        ensures { Gives WantOfMemory (certs.block_of_number style.now.bodies self.now) result }
    {
        let number = self.block_number(style)?;
        match style.block(number) {
            Some(body) => Ok(Target::Block(body)),
            None => Err(Stop::OutOfRange(self.left())),
        }
    }
}
