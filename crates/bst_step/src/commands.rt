//! The steps of commands.

ghost use Rattle.std.specs.Prelude.{◌≡◌, ◌+◌, ◌≤◌, true, [], ◌∷◌, drop, filter, IfOk, IsOk, MatchOption, OnErr, OnOk};
ghost use Rattle.bst_meaning.specs.Config.{is_step as takes_step};
ghost use Rattle.bst_meaning.specs.Machine as rule;
ghost use Rattle.bst_step.specs.AtOnce.{IsWithin};
ghost use Rattle.bst_step.specs.State.{config_of, visit_in, HasRoom, LeavesRoom};
ghost use Rattle.bst_step.specs.Machine.{HasEntriesOf, at_rest};
ghost use Rattle.bst_step.specs.MarkRules as rules;
ghost use Rattle.bst_step.specs.Room.{TakeRoom, step_takes_room};

use crate::prepared::PreparedStyle;
use crate::state::{Part, Rest, State, Visit};
use bst_meaning::fault::Fault;
use bv_base::memory::NoMemory;
use bv_base::place::Place;
use name_table::names::NameId;
use name_table::style::{Command, CommandAt};

impl<'a> State<'a> {
    /// So many steps, or those up to where no step changes anything any more.
    pub fn advance_by(&mut self, style: &PreparedStyle<'a>, n: u64) -> Result<(), NoMemory>
        ensures moved { OnOk result (config_of self.new ≡ rule.steps style.now n (config_of self.old)) }
        ensures places { HasEntriesOf (config_of self.old) (config_of self.new) }
        ensures marks { OnOk result (self.new.values.marks ≡ rules.marks_after_steps style.now n (config_of self.old) self.old.values.marks) }
        ensures fits { TakeRoom style.now n (config_of self.old) → n ≤ self.old.frames.room → n ≤ self.old.values.room → IsOk result }
        ensures room { OnOk result (LeavesRoom n self.old self.new) }
    {
        let mut left = n;
        while left > 0 {
            if self.is_at_rest() {
                return Ok(());
            }
            let more = self.advance(style, left)?;
            left -= more + 1;
        }
        Ok(())
    }

    /// Whether no step changes anything any more.
    fn is_at_rest(&self) -> bool
        ensures { result ≡ at_rest (config_of self.now) }
    {
        if self.stopped.is_some() {
            return true;
        }
        if self.frames.has_token() || !self.frames.is_empty() {
            return false;
        }
        first_step(self.commands).is_none()
    }

    /// One step, and the steps that are taken with it, whose number is given.
    #[inline(always)]
    fn advance(&mut self, style: &PreparedStyle<'a>, left: u64) -> Result<u64, NoMemory>
        ensures moved { IfOk result (λ more. config_of self.new ≡ rule.steps style.now more (rule.step style.now (config_of self.old))) }
        ensures entries { OnErr result (self.new.values.entries ≡ self.old.values.entries) }
        ensures marks { IfOk result (λ more. self.new.values.marks ≡ rules.marks_after_steps style.now more (rule.step style.now (config_of self.old))
            (rules.marks_after style.now (config_of self.old) self.old.values.marks)) }
        ensures fits { step_takes_room style.now (config_of self.old) ≡ true → HasRoom self.old → IsOk result }
        ensures room { IfOk result (λ more. LeavesRoom (more + 1) self.old self.new) }
        ensures few { IfOk result (λ more. IsWithin more left) }
    {
        if self.stopped.is_some() {
            return Ok(0);
        }
        self.going_steps(style, left)
    }

    /// A step where no frame is left.
    pub fn outer_step(&mut self) -> Result<(), NoMemory>
        ensures moved { OnOk result (config_of self.new ≡ rule.outer_step self.old.running (config_of self.old).commands (config_of self.old)) }
        ensures entries { OnErr result (self.new.values.entries ≡ self.old.values.entries) }
        ensures marks { OnOk result (self.new.values.marks ≡ rules.outer_marks self.old.running (config_of self.old).commands (config_of self.old) self.old.values.marks) }
        ensures room { OnOk result (LeavesRoom 1 self.old self.new) }
    {
        match first_step(self.commands) {
            Some(first) if self.running => self.call_end_step(first.place),
            Some(first) => self.command_step(first.command, first.place),
            None => Ok(()),
        }
    }

    /// Begins, goes on with or takes away the first command.
    fn command_step(&mut self, command: Command, place: Place) -> Result<(), NoMemory>
        ensures moved { OnOk result (config_of self.new ≡ rule.command_step command place (drop 1 (config_of self.old).commands) (config_of self.old)) }
        ensures entries { OnErr result (self.new.values.entries ≡ self.old.values.entries) }
        ensures marks { OnOk result (self.new.values.marks ≡ rules.command_marks command (config_of self.old) self.old.values.marks) }
        ensures room { OnOk result (LeavesRoom 1 self.old self.new) }
    {
        match command {
            Command::Execute(name) => self.begin_call(name, place),
            Command::Iterate(name) => self.visit_step(name, place, false),
            Command::Reverse(name) => self.visit_step(name, place, true),
            Command::Sort => {
                self.commands = after_step(self.commands);
                self.values.sort()
            }
            _ => {
                self.commands = after_step(self.commands);
                Ok(())
            }
        }
    }

    /// Begins a call of the first command's name.
    fn begin_call(&mut self, name: NameId, place: Place) -> Result<(), NoMemory>
        ensures moved { OnOk result (config_of self.new ≡ rule.with_call name place (config_of self.old)) }
        ensures entries { OnErr result (self.new.values.entries ≡ self.old.values.entries) }
        ensures marks { OnOk result (self.new.values.marks ≡ self.old.values.marks) }
        ensures room { OnOk result (LeavesRoom 1 self.old self.new) }
    {
        self.values.renew()?;
        self.running = true;
        self.enter(Rest::Call(name, place), place, Part::Whole)
    }

    /// Visits the next entry, or takes the command away where none is left.
    fn visit_step(&mut self, name: NameId, place: Place, backwards: bool) -> Result<(), NoMemory>
        ensures moved { OnOk result (config_of self.new ≡
            rule.visit_step name place (drop 1 (config_of self.old).commands) (rule.visit_of backwards (config_of self.old).visit) (config_of self.old)) }
        ensures entries { OnErr result (self.new.values.entries ≡ self.old.values.entries) }
        ensures marks { OnOk result (self.new.values.marks ≡ self.old.values.marks) }
        ensures room { OnOk result (LeavesRoom 1 self.old self.new) }
    {
        let visit = match self.visit {
            Some(visit) => visit,
            None => Visit {
                backwards,
                visited: 0,
            },
        };
        if visit.visited < self.values.entries() {
            self.visit = Some(visit);
            self.begin_call(name, place)
        } else {
            self.commands = after_step(self.commands);
            self.visit = None;
            Ok(())
        }
    }

    /// Ends a call, whose last frame is gone.
    fn call_end_step(&mut self, place: Place) -> Result<(), NoMemory>
        ensures moved { OnOk result (config_of self.new ≡
            rule.call_end_step self.old.values.stack place (drop 1 (config_of self.old).commands) (config_of self.old)) }
        ensures entries { OnErr result (self.new.values.entries ≡ self.old.values.entries) }
        ensures marks { OnOk result (self.new.values.marks ≡ self.old.values.marks) }
        ensures room { OnOk result (LeavesRoom 1 self.old self.new) }
    {
        if self.values.len() > 0 {
            self.stop(Fault::StackLeft, place);
            return Ok(());
        }
        self.values.trim();
        self.call_ended()
    }

    /// Ends a call that leaves the stack empty: an EXECUTE is taken away, and a visit counts its entry.
    fn call_ended(&mut self) -> Result<(), NoMemory>
        ensures moved { OnOk result (config_of self.new ≡
            rule.call_ended (config_of self.old).visit (drop 1 (config_of self.old).commands) (config_of self.old)) }
        ensures frames { self.new.frames ≡ self.old.frames }
        ensures values { self.new.values ≡ self.old.values }
    {
        self.running = false;
        match self.visit {
            Some(visit) => {
                // A visit counts no more entries than a list in memory has, so this sum exists.
                let visited = visit.visited.checked_add(1).ok_or(NoMemory)?;
                self.visit = Some(Visit {
                    backwards: visit.backwards,
                    visited,
                });
            }
            None => self.commands = after_step(self.commands),
        }
        Ok(())
    }
}

/// Whether a command takes steps.
fn is_step(command: Command) -> bool
    ensures { result ≡ takes_step command }
{
    match command {
        Command::Execute(_)
        | Command::Iterate(_)
        | Command::Read
        | Command::Reverse(_)
        | Command::Sort => true,
        _ => false,
    }
}

/// The first of the commands that takes steps.
pub fn first_step(commands: &[CommandAt]) -> Option<CommandAt>
    ensures { MatchOption result (filter (λ c. takes_step c.command) commands.now ≡ [])
        (λ at. filter (λ c. takes_step c.command) commands.now ≡ at ∷ drop 1 (filter (λ c. takes_step c.command) commands.now)) }
{
    for at in commands {
        if is_step(at.command) {
            return Some(*at);
        }
    }
    None
}

/// The commands behind the first that takes steps.
fn after_step(commands: &[CommandAt]) -> &[CommandAt]
    ensures { filter (λ c. takes_step c.command) result.now ≡ drop 1 (filter (λ c. takes_step c.command) commands.now) }
{
    let mut left = commands;
    while let [first, rest @ ..] = left {
        left = rest;
        if is_step(first.command) {
            return left;
        }
    }
    left
}
