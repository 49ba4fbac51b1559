//! What built-in functions do beside what they leave on the literal stack: they enter functions, assign, write and log.

ghost use Rattle.std.specs.Prelude.{◌≡◌, ◌≤◌, true, ◌∷◌, [], drop, map, OnErr, OnOk};
ghost use Rattle.bst_meaning.specs.Config as config;
ghost use Rattle.bst_meaning.specs.Effect.{with_entered, with_logged, with_written};
ghost use Rattle.bst_meaning.specs.StyleParts as parts;
ghost use Rattle.bst_meaning.specs.Builtins as rule;
ghost use Rattle.bst_meaning.specs.Machine.{visited_index};
ghost use Rattle.bst_step.specs.MarkRules as rules;
ghost use Rattle.bst_step.specs.Marks as mark;
ghost use Rattle.bst_step.specs.Frames.{part_of, tokens_left};
ghost use Rattle.bst_step.specs.Moves as change;
ghost use Rattle.bst_step.specs.Moves.{with_log, with_second_assigned, with_second_cut, with_entry_assigned, with_stack, with_top_assigned};
ghost use Rattle.bst_step.specs.Subjects.{Fits, LeavesRoom, Makes, Place, Style, config_of, context_of, cuts_nothing, lent_mark, one_operand, pushed, string, value_of};

use crate::assign::{Assignment, assignment_of};
use crate::held::Operand;
use crate::logs::{all_shown, shown, warning_of};
use crate::operands::{one, one_string};
use crate::state::{Part, Rest, State};
use crate::stop::Stop;
use bst_meaning::style_parts::{kind_of, tokens_of};
use bst_meaning::value::Target;
use bv_base::memory::NoMemory;
use bv_base::place::Place;
use bv_base::text::Text;
use name_table::names::{Kind, NameId};
use name_table::style::Style;

/// What is executed where a target is entered at a place.
pub fn entered_at<'a>(style: &'a Style, target: Target, place: Place) -> Rest<'a>
    ensures { tokens_left result ≡ parts.entered_tokens style.now target place }
{
    match target {
        Target::Named(name) => Rest::Call(name, place),
        Target::Block(body) => Rest::Tokens(tokens_of(style, body)),
    }
}

impl<'a> State<'a> {
    /// Takes values away, and enters a target at a place.
    #[inline(always)]
    pub fn enter_over(
        &mut self,
        style: &'a Style,
        taken: usize,
        target: Target,
        place: Place,
        part: Part,
    ) -> Result<(), Stop>
        ensures made { Makes style.now place result self.old self.new (with_entered target (part_of part) (drop taken self.old.values.stack)) (mark.taken taken) }
        ensures fits { 1 ≤ self.old.frames.room → Fits result }
        ensures entries { OnErr result (self.new.values.entries ≡ self.old.values.entries) }
    {
        self.values.drop_top(taken);
        self.enter(entered_at(style, target, place), place, part)?;
        Ok(())
    }

    /// Pushes a value whose bytes are lent.
    #[inline(always)]
    pub fn push_lent(&mut self, value: Operand<'a>) -> Result<(), Stop>
        ensures made { (style : Style) (place : Place) → Makes style place result self.old self.new (pushed (value_of value.entry) self.old.values.stack) (mark.pushed (lent_mark (value_of value.entry))) }
        ensures fits { 1 ≤ self.old.values.room → Fits result }
        ensures entries { OnErr result (self.new.values.entries ≡ self.old.values.entries) }
    {
        self.push(value)?;
        Ok(())
    }

    /// Logs a line.
    fn log_line(&mut self, line: Text) -> Result<(), NoMemory>
        ensures moved { OnOk result (config_of self.new ≡ with_log (line ∷ []) (config_of self.old)) }
        ensures frames { self.new.frames ≡ self.old.frames }
        ensures values { self.new.values ≡ self.old.values }
    {
        self.log.push(line)?;
        Ok(())
    }

    /// Takes the top off, and logs a line.
    fn log_over(&mut self, line: Text) -> Result<(), Stop>
        ensures made { (style : Style) (place : Place) → Makes style place result self.old self.new (with_logged (line ∷ []) (drop 1 self.old.values.stack)) (mark.taken 1) }
        ensures entries { OnErr result (self.new.values.entries ≡ self.old.values.entries) }
    {
        self.values.drop_top(1);
        self.log_line(line)?;
        Ok(())
    }

    /// `top$`
    #[inline(never)]
    pub fn log_top(&mut self, style: &Style) -> Result<(), Stop>
        ensures made { (place : Place) → Makes style.now place result self.old self.new
            (one_operand self.old.values.stack (λ a rest. with_logged (rule.shown style.now a ∷ []) rest)) (mark.taken 1) }
        ensures entries { OnErr result (self.new.values.entries ≡ self.old.values.entries) }
    {
        let line = shown(self.alloc, style, one(&self.values)?)?;
        self.log_over(line)
    }

    /// `warning$`
    #[inline(never)]
    pub fn warn(&mut self) -> Result<(), Stop>
        ensures made { (style : Style) (place : Place) → Makes style place result self.old self.new
            (string (λ a rest. with_logged (rule.warning a ∷ []) rest) self.old.values.stack) (mark.taken 1) }
        ensures entries { OnErr result (self.new.values.entries ≡ self.old.values.entries) }
    {
        let line = warning_of(self.alloc, one_string(&self.values)?)?;
        self.log_over(line)
    }

    /// `stack$`
    #[inline(never)]
    pub fn log_all(&mut self, style: &Style) -> Result<(), Stop>
        ensures made { (place : Place) → Makes style.now place result self.old self.new
            (with_logged (map (rule.shown style.now) self.old.values.stack) []) mark.cleared }
        ensures entries { OnErr result (self.new.values.entries ≡ self.old.values.entries) }
    {
        let mut lines = all_shown(self.alloc, style, &self.values)?;
        self.log.append(&mut lines)?;
        self.values.clear();
        Ok(())
    }

    /// `newline$`
    #[inline(never)]
    pub fn end_line(&mut self) -> Result<(), Stop>
        ensures made { (style : Style) (place : Place) → Makes style place result self.old self.new (with_written config.EndedLine self.old.values.stack) (λ m. m) }
        ensures entries { OnErr result (self.new.values.entries ≡ self.old.values.entries) }
    {
        self.events.push(None)?;
        Ok(())
    }

    /// `write$`
    #[inline(never)]
    pub fn write_top(&mut self) -> Result<(), Stop>
        ensures made { (style : Style) (place : Place) → Makes style place result self.old self.new
            (string (λ a rest. with_written (config.Wrote a) rest) self.old.values.stack) (mark.taken 1) }
        ensures entries { OnErr result (self.new.values.entries ≡ self.old.values.entries) }
    {
        let bytes = one_string(&self.values)?;
        self.events.push(Some(bytes))?;
        self.values.drop_top(1);
        Ok(())
    }

    /// `:=`
    #[inline(never)]
    pub fn assign(&mut self, style: &'a Style) -> Result<(), Stop>
        ensures made { (place : Place) → Makes style.now place result self.old self.new
            (rule.assign (context_of style.now (config_of self.old)) self.old.values.stack) (rules.assigned style.now self.old.values.stack (visited_index (config_of self.old))) }
        ensures fits { cuts_nothing (rule.assign (context_of style.now (config_of self.old)) self.old.values.stack) ≡ true → Fits result }
        ensures entries { OnErr result (self.new.values.entries ≡ self.old.values.entries) }
    {
        match assignment_of(self.surroundings(style), &self.values)? {
            Assignment::Whole(name) => {
                self.assign_second(style, name);
                Ok(())
            }
            Assignment::Cut(name, size, line) => {
                self.assign_cut(style, name, size, line)?;
                Ok(())
            }
        }
    }

    /// Assigns the second value from the top, and takes both away.
    fn assign_second(&mut self, style: &Style, name: NameId)
        ensures moved { config_of self.new ≡ with_second_assigned style.now name self.old.values.stack (config_of self.old) }
        ensures marks { self.new.values.marks ≡ rules.given (parts.kind_of style.now name) name (visited_index (config_of self.old)) (mark.taken 1 self.old.values.marks) }
        ensures room { LeavesRoom 0 self.old self.new }
    {
        self.values.drop_top(1);
        self.assign_top(style, name);
    }

    /// Logs a line, assigns so many bytes of the string that is second from the top, and takes both values away.
    fn assign_cut(
        &mut self,
        style: &Style,
        name: NameId,
        size: usize,
        line: Text,
    ) -> Result<(), NoMemory>
        ensures moved { OnOk result (config_of self.new ≡
            with_second_cut style.now name size self.old.values.stack (with_log (line ∷ []) (config_of self.old))) }
        ensures entries { OnErr result (self.new.values.entries ≡ self.old.values.entries) }
        ensures marks { OnOk result (self.new.values.marks ≡
            rules.given (parts.kind_of style.now name) name (visited_index (config_of self.old)) (mark.taken 1 self.old.values.marks)) }
        ensures room { LeavesRoom 0 self.old self.new }
    {
        self.log_line(line)?;
        self.values.drop_top(1);
        self.values.cut_top(0, size);
        self.assign_top(style, name);
        Ok(())
    }

    /// Takes the top off, and gives it to a variable.
    #[inline(always)]
    pub fn assign_top(&mut self, style: &Style, name: NameId)
        ensures moved { config_of self.new ≡ with_top_assigned (parts.kind_of style.now name) name self.old.values.stack (config_of self.old) }
        ensures marks { self.new.values.marks ≡ rules.given (parts.kind_of style.now name) name (visited_index (config_of self.old)) self.old.values.marks }
        ensures room { LeavesRoom 0 self.old self.new }
    {
        if is_of_entry(kind_of(style, name)) {
            self.assign_in_entry(name);
        } else {
            self.values.give_globally(name);
        }
    }

    /// Takes the top off, and gives it to a variable of the visited entry.
    fn assign_in_entry(&mut self, name: NameId)
        ensures moved { config_of self.new ≡ with_entry_assigned name self.old.values.stack (config_of self.old) }
        ensures marks { self.new.values.marks ≡
            mark.given_in_entry name (visited_index (config_of self.old)) self.old.values.marks.stack self.old.values.marks }
        ensures room { LeavesRoom 0 self.old self.new }
    {
        let Some(at) = self.visited_index() else {
            self.values.drop_top(1);
            return;
        };
        self.values.give_in_entry(at, name);
    }
}

/// Whether a name of this kind is a variable of an entry.
fn is_of_entry(kind: Option<Kind>) -> bool
    ensures { result ≡ change.is_of_entry kind }
{
    matches!(kind, Some(Kind::IntEntry | Kind::StrEntry))
}
