//! The calls of names.

ghost use Rattle.std.specs.Prelude.{◌≡◌, ◌+◌, true, is_some, option_map, None, IfOk, IsOk, OnErr, OnOk};
ghost use Rattle.std.specs.Option.{option_and_then};
ghost use Rattle.bst_meaning.specs.StyleParts as parts;
ghost use Rattle.bst_meaning.specs.Builtins.{built_in};
ghost use Rattle.bst_meaning.specs.Machine as rule;
ghost use Rattle.bst_step.specs.AtOnce.{IsWithin};
ghost use Rattle.bst_step.specs.MarkRules as rules;
ghost use Rattle.bst_step.specs.Marks as mark;
ghost use Rattle.bst_step.specs.Marks.{lent_mark, mark_at};
ghost use Rattle.bst_step.specs.Room.{built_in_takes_room, call_takes_room};
ghost use Rattle.bst_step.specs.State.{config_of, HasRoom, LeavesRoom};
ghost use Rattle.bst_step.specs.Moves.{with_field, with_entry_value, with_global, with_stack};
ghost use Rattle.bst_step.specs.Values.{with_pushed};

use crate::prepared::PreparedStyle;
use crate::state::{Part, Rest, State};
use crate::stop::Stop;
use bst_meaning::fault::Fault;
use bst_meaning::style_parts::{kind_of, tokens_of};
use bv_base::memory::NoMemory;
use bv_base::place::Place;
use name_table::builtin::Builtin;
use name_table::names::{Kind, NameId};
use name_table::style::Style;

impl<'a> State<'a> {
    /// Calls a name, and takes the steps that are taken with it, whose number is given.
    #[inline(always)]
    pub fn call_steps(
        &mut self,
        style: &PreparedStyle<'a>,
        name: NameId,
        place: Place,
        left: u64,
    ) -> Result<u64, NoMemory>
        requires { (config_of self.old).stopped ≡ None }
        ensures moved { IfOk result (λ more. config_of self.new ≡
            rule.steps style.now more (rule.call_step style.now (parts.kind_of style.now name) name place (config_of self.old))) }
        ensures entries { OnErr result (self.new.values.entries ≡ self.old.values.entries) }
        ensures marks { IfOk result (λ more. self.new.values.marks ≡
            rules.marks_after_steps style.now more (rule.call_step style.now (parts.kind_of style.now name) name place (config_of self.old))
            (rules.call_marks style.now (parts.kind_of style.now name) name (config_of self.old) self.old.values.marks)) }
        ensures fits { call_takes_room style.now (parts.kind_of style.now name) (config_of self.old) ≡ true → HasRoom self.old → IsOk result }
        ensures room { IfOk result (λ more. LeavesRoom (more + 1) self.old self.new) }
        ensures few { IfOk result (λ more. IsWithin more left) }
    {
        match kind_of(style.base, name) {
            Some(Kind::IntGlobal) => self.integer_variable_steps(style.base, name, place, left),
            kind => {
                self.kind_step(style, kind, name, place)?;
                Ok(0)
            }
        }
    }

    /// Pushes an integer variable of the whole style, and takes the steps that are taken with it, whose number is given.
    #[inline(always)]
    fn integer_variable_steps(
        &mut self,
        style: &Style,
        name: NameId,
        place: Place,
        left: u64,
    ) -> Result<u64, NoMemory>
        requires { (config_of self.old).stopped ≡ None }
        ensures moved { IfOk result (λ more. config_of self.new ≡ rule.steps style.now more (with_global name place (config_of self.old))) }
        ensures entries { OnErr result (self.new.values.entries ≡ self.old.values.entries) }
        ensures marks { IfOk result (λ more. self.new.values.marks ≡ rules.marks_after_steps style.now more (with_global name place (config_of self.old))
            (mark.found (mark_at name.0 self.old.values.marks.globals) self.old.values.marks)) }
        ensures fits { HasRoom self.old → IsOk result }
        ensures room { IfOk result (λ more. LeavesRoom (more + 1) self.old self.new) }
        ensures few { IfOk result (λ more. IsWithin more left) }
    {
        match self.values.global_integer(name) {
            Some(n) => self.integer_steps(style, n, left),
            None => {
                self.push_global(name, place)?;
                Ok(0)
            }
        }
    }

    /// Calls a name of a kind.
    #[inline(always)]
    fn kind_step(
        &mut self,
        style: &PreparedStyle<'a>,
        kind: Option<Kind>,
        name: NameId,
        place: Place,
    ) -> Result<(), NoMemory>
        ensures moved { OnOk result (config_of self.new ≡ rule.call_step style.now kind name place (config_of self.old)) }
        ensures entries { OnErr result (self.new.values.entries ≡ self.old.values.entries) }
        ensures marks { OnOk result (self.new.values.marks ≡ rules.call_marks style.now kind name (config_of self.old) self.old.values.marks) }
        ensures fits { call_takes_room style.now kind (config_of self.old) ≡ true → HasRoom self.old → IsOk result }
        ensures room { OnOk result (LeavesRoom 1 self.old self.new) }
    {
        match kind {
            Some(Kind::Builtin(op)) => self.built_in_step(style, op, place),
            Some(Kind::Wizard(body)) => {
                self.enter(
                    Rest::Tokens(tokens_of(style.base, body)),
                    place,
                    Part::Whole,
                )
            }
            Some(Kind::Field) => self.push_field(name, place),
            Some(Kind::IntEntry | Kind::StrEntry) => self.push_entry_variable(name, place),
            Some(Kind::IntGlobal | Kind::StrGlobal) => self.push_global(name, place),
            None => Ok(()),
        }
    }

    /// Calls a built-in function.
    #[inline(always)]
    fn built_in_step(
        &mut self,
        style: &PreparedStyle<'a>,
        op: Builtin,
        place: Place,
    ) -> Result<(), NoMemory>
        ensures moved { OnOk result (config_of self.new ≡
            rule.with_effect style.now (built_in op (rule.context_of style.now (config_of self.old)) self.old.values.stack) place (config_of self.old)) }
        ensures entries { OnErr result (self.new.values.entries ≡ self.old.values.entries) }
        ensures marks { OnOk result (self.new.values.marks ≡ rules.unless_fault (built_in op (rule.context_of style.now (config_of self.old)) self.old.values.stack)
            (rules.built_in_marks op style.now (config_of self.old) self.old.values.marks) self.old.values.marks) }
        ensures fits { built_in_takes_room op (built_in op (rule.context_of style.now (config_of self.old)) self.old.values.stack) ≡ true → HasRoom self.old → IsOk result }
        ensures room { OnOk result (LeavesRoom 1 self.old self.new) }
    {
        match self.built_in(style, op, place) {
            Ok(()) => Ok(()),
            Err(Stop::Fault(fault)) => {
                self.stop(fault, place);
                Ok(())
            }
            Err(Stop::NoMemory) => Err(NoMemory),
        }
    }

    /// Pushes a field of the visited entry.
    #[inline(always)]
    fn push_field(&mut self, name: NameId, place: Place) -> Result<(), NoMemory>
        ensures moved { OnOk result (config_of self.new ≡ with_field name place (config_of self.old)) }
        ensures entries { OnErr result (self.new.values.entries ≡ self.old.values.entries) }
        ensures marks { OnOk result (self.new.values.marks ≡ mark.found
            (option_map (λ e. lent_mark (rule.field_in name e.entry.fields)) (rule.visited_entry (config_of self.old))) self.old.values.marks) }
        ensures fits { HasRoom self.old → IsOk result }
        ensures room { OnOk result (LeavesRoom 1 self.old self.new) }
    {
        match self.visited_field(name) {
            Some(value) => self.push(value),
            None => {
                self.stop(Fault::NoEntry, place);
                Ok(())
            }
        }
    }

    /// Pushes a variable of the visited entry.
    #[tactic(auto, using(crate::proofs::FoundSteps::found_pushed, crate::proofs::FoundSteps::found_stopped))]
    fn push_entry_variable(&mut self, name: NameId, place: Place) -> Result<(), NoMemory>
        ensures moved { OnOk result (config_of self.new ≡ with_entry_value name place (config_of self.old)) }
        ensures entries { OnErr result (self.new.values.entries ≡ self.old.values.entries) }
        ensures marks { OnOk result (self.new.values.marks ≡ mark.found (rules.visited_mark name.0 (config_of self.old) self.old.values.marks) self.old.values.marks) }
        ensures fits { HasRoom self.old → IsOk result }
        ensures room { OnOk result (LeavesRoom 1 self.old self.new) }
    {
        if self.push_visited_variable(name)? {
            return Ok(());
        }
        self.stop(Fault::NoEntry, place);
        Ok(())
    }

    /// Pushes a variable of the visited entry, and tells whether there is one.
    fn push_visited_variable(&mut self, name: NameId) -> Result<bool, NoMemory>
        ensures moved { OnOk result (config_of self.new ≡ with_stack
            (with_pushed (option_and_then (λ e. rule.value_at name.0 e.variables) (rule.visited_entry (config_of self.old))) self.old.values.stack)
            (config_of self.old)) }
        ensures found { IfOk result (λ found. found ≡
            is_some (option_and_then (λ e. rule.value_at name.0 e.variables) (rule.visited_entry (config_of self.old)))) }
        ensures entries { OnErr result (self.new.values.entries ≡ self.old.values.entries) }
        ensures marks { OnOk result (self.new.values.marks ≡ mark.found (rules.visited_mark name.0 (config_of self.old) self.old.values.marks) self.old.values.marks) }
        ensures fits { HasRoom self.old → IsOk result }
        ensures room { OnOk result (LeavesRoom 1 self.old self.new) }
    {
        match self.visited_index() {
            Some(at) => self.values.push_entry_variable(at, name),
            None => Ok(false),
        }
    }

    /// Pushes a variable of the whole style.
    #[tactic(auto, using(crate::proofs::FoundSteps::found_pushed, crate::proofs::FoundSteps::found_stopped))]
    #[inline(always)]
    fn push_global(&mut self, name: NameId, place: Place) -> Result<(), NoMemory>
        ensures moved { OnOk result (config_of self.new ≡ with_global name place (config_of self.old)) }
        ensures entries { OnErr result (self.new.values.entries ≡ self.old.values.entries) }
        ensures marks { OnOk result (self.new.values.marks ≡ mark.found (mark_at name.0 self.old.values.marks.globals) self.old.values.marks) }
        ensures fits { HasRoom self.old → IsOk result }
        ensures room { OnOk result (LeavesRoom 1 self.old self.new) }
    {
        if self.values.push_global(name)? {
            return Ok(());
        }
        self.stop(Fault::NoEntry, place);
        Ok(())
    }
}
