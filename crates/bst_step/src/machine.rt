//! The machine that runs a style over a list of entries.

ghost use Rattle.std.specs.Prelude.{◌≡◌, ◌-◌, ◌++◌, ◌≤◌, true, false, option_map, IfOk, IsOk, OnOk, OnErr};
ghost use Rattle.bst_meaning.specs.Config as config;
ghost use Rattle.bst_meaning.specs.Lines as rule;
ghost use Rattle.bst_meaning.specs.Machine.{step, steps};
ghost use Rattle.bst_step.specs.Lines.{added, page_in};
ghost use Rattle.bst_step.specs.Machine.{HasEntriesOf, configuration, marks_of, style_of, is_broken, spare_of, turn_of, log_of, key_at, lent_in, without_events};
ghost use Rattle.bst_step.specs.Marks.{lent_marks};
ghost use Rattle.bst_step.specs.MarkRules.{marks_after, marks_after_steps};
ghost use Rattle.bst_step.specs.Room.{TakeRoom, step_takes_room};

use crate::commands::first_step;
use crate::lines::push_lines;
use crate::opening::opening;
pub use crate::page::Page;
use crate::page::lines_of;
use crate::prepared::PreparedStyle;
pub use crate::state::Site;
use crate::state::State;
use bst_meaning::fault::Fault;
use bv_base::memory::NoMemory;
use entry_store::entry::EntryList;
use name_table::style::Style;
use std::alloc::Global;
use std::marker::Model;

/// What the machine comes to.
#[derive(Clone, Copy, Debug, PartialEq, Eq)]
pub enum Turn {
    /// It goes on.
    Went,
    /// No command is left.
    Ended,
    /// An execution error has stopped it.
    Faulted(Fault, Site),
}

/// A run of a style over a list of entries, step by step (docs/MACHINE.md). The list is borrowed, and nothing of it is
/// copied.
#[derive(Drop)]
pub struct Machine<'a> {
    style: PreparedStyle<'a>,
    state: State<'a>,
    /// Whether memory was wanting: then the configuration is none of the run's.
    broken: bool,
    /// For how many steps there is room.
    spare: u64,
}

impl<'a> Model for Machine<'a> {
    ghost use Rattle.std.specs.Prelude.{◌≤◌};
    ghost use Rattle.bst_step.specs.Machine.{Standing, standing_of};

    ghost Value = { Standing };

    ghost view = { λ m. standing_of m.style m.state m.broken m.spare };

    ghost invariant = { λ m. (m.spare ≤ m.state.frames.room) × (m.spare ≤ m.state.values.room) };
}

impl<'a> Machine<'a> {
    /// The machine before its first step. It isn't broken, has no room to spare, and its strings are lent.
    pub fn new(
        alloc: Global,
        style: &'a Style,
        list: &'a EntryList,
    ) -> Result<Machine<'a>, NoMemory>
        ensures opening { IfOk result (λ machine. configuration machine ≡ config.opening style.now list.now) }
        ensures style { IfOk result (λ machine. style_of machine ≡ style.now) }
        ensures whole { IfOk result (λ machine. is_broken machine ≡ false) }
        ensures marks { IfOk result (λ machine. marks_of machine ≡ lent_marks (config.opening style.now list.now)) }
    {
        Ok(Machine {
            style: PreparedStyle::new(alloc, style)?,
            state: opening(alloc, style, list)?,
            broken: false,
            spare: 0,
        })
    }

    /// Makes room for so many steps. Where it is refused, nothing changes, and the machine isn't broken by it; on a broken
    /// machine it is refused.
    pub fn reserve(&mut self, steps: u32) -> Result<(), NoMemory>
        ensures spare { OnOk result (steps ≤ spare_of self.new) }
        ensures more { spare_of self.old ≤ spare_of self.new }
        ensures same { configuration self.new ≡ configuration self.old }
        ensures marks { marks_of self.new ≡ marks_of self.old }
        ensures style { style_of self.new ≡ style_of self.old }
        ensures kept { is_broken self.new ≡ is_broken self.old }
        ensures whole { OnOk result (is_broken self.old ≡ false) }
        ensures refused { OnErr result (self.new ≡ self.old) }
    {
        if self.broken {
            return Err(NoMemory);
        }
        if self.spare >= u64::from(steps) {
            return Ok(());
        }
        self.state.reserve(steps as usize)?;
        self.spare = u64::from(steps);
        Ok(())
    }

    /// One step. A machine for which memory was wanting is broken from then on: it answers NoMemory to everything but
    /// `key` and `lent`. Even then the entries are those of the list with which the run opened, with their positions. A step
    /// takes one from the steps for which there is room, and while there is one, a step that makes no string and writes
    /// nothing answers no want of memory.
    pub fn step(&mut self) -> Result<Turn, NoMemory>
        ensures moved { OnOk result (configuration self.new ≡ step (style_of self.old) (configuration self.old)) }
        ensures marks { OnOk result (marks_of self.new ≡ marks_after (style_of self.old) (configuration self.old) (marks_of self.old)) }
        ensures spare { OnOk result (spare_of self.new ≡ spare_of self.old - 1) }
        ensures fits { is_broken self.old ≡ false → 1 ≤ spare_of self.old → step_takes_room (style_of self.old) (configuration self.old) ≡ true
            → IsOk result }
        ensures turn { IfOk result (λ turn. turn ≡ turn_of (configuration self.new)) }
        ensures whole { OnOk result ((is_broken self.old ≡ false) × (is_broken self.new ≡ false)) }
        ensures breaks { OnErr result (is_broken self.new ≡ true) }
        ensures places { HasEntriesOf (configuration self.old) (configuration self.new) }
        ensures style { style_of self.new ≡ style_of self.old }
    {
        self.run(1)
    }

    /// So many steps, or those up to the first that doesn't go on. The answer is what the machine then stands at.
    pub fn run(&mut self, n: u64) -> Result<Turn, NoMemory>
        ensures moved { OnOk result (configuration self.new ≡ steps (style_of self.old) n (configuration self.old)) }
        ensures marks { OnOk result (marks_of self.new ≡ marks_after_steps (style_of self.old) n (configuration self.old) (marks_of self.old)) }
        ensures spare { OnOk result (spare_of self.new ≡ spare_of self.old - n) }
        ensures fits { is_broken self.old ≡ false → n ≤ spare_of self.old → TakeRoom (style_of self.old) n (configuration self.old) → IsOk result }
        ensures turn { IfOk result (λ turn. turn ≡ turn_of (configuration self.new)) }
        ensures whole { OnOk result ((is_broken self.old ≡ false) × (is_broken self.new ≡ false)) }
        ensures breaks { OnErr result (is_broken self.new ≡ true) }
        ensures places { HasEntriesOf (configuration self.old) (configuration self.new) }
        ensures style { style_of self.new ≡ style_of self.old }
    {
        if self.broken {
            return Err(NoMemory);
        }
        match self.state.advance_by(&self.style, n) {
            Ok(()) => {
                self.spare = self.spare.saturating_sub(n);
                Ok(self.turn())
            }
            Err(NoMemory) => {
                self.broken = true;
                self.spare = 0;
                Err(NoMemory)
            }
        }
    }

    /// What the machine stands at.
    fn turn(&self) -> Turn
        ensures { result ≡ turn_of (configuration self.now) }
    {
        match self.state.stopped {
            Some(stopped) => Turn::Faulted(stopped.fault, stopped.site),
            None => match first_step(self.state.commands) {
                Some(_) => Turn::Went,
                None => Turn::Ended,
            },
        }
    }

    /// The lines that were written and finished, each with its line end.
    pub fn lines(&self) -> Result<Vec<u8>, NoMemory>
        ensures lines { IfOk result (λ v. v.items ≡ rule.lines_of (configuration self.now)) }
        ensures whole { OnOk result (is_broken self.now ≡ false) }
    {
        if self.broken {
            return Err(NoMemory);
        }
        lines_of(self.state.alloc, &self.state.events)
    }

    /// Takes what was written out of the machine, which goes on without it, and adds it to a page. Where it is refused, the
    /// machine is as it was, and the first of what was written may stand on the page.
    pub fn write_to(&mut self, page: &mut Page) -> Result<(), NoMemory>
        ensures taken { OnOk result (configuration self.new ≡ configuration (without_events self.old)) }
        ensures page { OnOk result (page_in page.new ≡ added (page_in page.old) (configuration self.old).events) }
        ensures marks { marks_of self.new ≡ marks_of self.old }
        ensures spare { spare_of self.new ≡ spare_of self.old }
        ensures style { style_of self.new ≡ style_of self.old }
        ensures kept { is_broken self.new ≡ is_broken self.old }
        ensures whole { OnOk result (is_broken self.old ≡ false) }
        ensures places { HasEntriesOf (configuration self.old) (configuration self.new) }
        ensures refused { OnErr result (self.new ≡ self.old) }
    {
        if self.broken {
            return Err(NoMemory);
        }
        page.add_all(&self.state.events)?;
        self.state.events.clear();
        Ok(())
    }

    /// Adds the lines of the log to a text, each with its line end.
    pub fn add_log(&self, text: &mut Vec<u8>) -> Result<(), NoMemory>
        ensures added { OnOk result (text.new.items ≡ text.old.items ++ log_of (configuration self.now)) }
        ensures whole { OnOk result (is_broken self.now ≡ false) }
    {
        if self.broken {
            return Err(NoMemory);
        }
        push_lines(text, self.state.log.as_slice())
    }

    /// The bytes of the string so far below the top of the literal stack, which is at 0, where they are lent: a slice of the
    /// style, of the list or of a constant text, which outlives the machine. `None` comes exactly where there is no such
    /// place, the value there isn't a lent string, or the machine is broken.
    pub fn lent(&self, from_top: u32) -> Option<&'a [u8]>
        ensures { option_map (λ bytes. bytes.now) result ≡ lent_in from_top self.now }
    {
        if self.broken {
            return None;
        }
        self.state.values.lent_below(from_top as usize)
    }

    /// The key of the entry with this position in the list with which the run opened, and no bytes where there is none.
    pub fn key(&self, entry: u64) -> &[u8]
        ensures { result.now ≡ key_at entry (configuration self.now).entries }
    {
        self.state.values.key(entry)
    }
}
