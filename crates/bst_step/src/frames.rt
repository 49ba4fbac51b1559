//! The steps of frames.

ghost use Rattle.std.specs.Prelude.{◌≡◌, ◌+◌, ◌≤◌, true, map, None, IfOk, IsOk, OnErr, OnOk};
ghost use Rattle.name_table.specs.declared.style.Style.{Style};
ghost use Rattle.bst_meaning.specs.Machine as rule;
ghost use Rattle.bst_step.specs.State.{config_of, HasRoom, LeavesRoom};
ghost use Rattle.bst_step.specs.AtOnce.{IsWithin};
ghost use Rattle.bst_step.specs.Frames.{frame_of, marks_after_next, next_takes_room, part_of, with_next};
ghost use Rattle.bst_step.specs.MarkRules as rules;
ghost use Rattle.bst_step.specs.Room.{frames_take_room, token_takes_room};

use crate::effects::entered_at;
use crate::frame_list::Next;
use crate::held::Operand;
use crate::prepared::PreparedStyle;
use crate::state::{Part, State};
use bst_meaning::fault::Fault;
use bst_meaning::value::Target;
use bv_base::memory::NoMemory;
use bv_base::place::Place;
use name_table::style::{Style, Token};

impl<'a> State<'a> {
    /// A step of the innermost frame, or of the first command where no frame is left, and the steps that are taken with it, whose
    /// number is given.
    #[inline(always)]
    pub fn going_steps(&mut self, style: &PreparedStyle<'a>, left: u64) -> Result<u64, NoMemory>
        requires { (config_of self.old).stopped ≡ None }
        ensures moved { IfOk result (λ more. config_of self.new
            ≡ rule.steps style.now more (rule.going_step style.now (map frame_of self.old.frames.items) (config_of self.old))) }
        ensures entries { OnErr result (self.new.values.entries ≡ self.old.values.entries) }
        ensures marks { IfOk result (λ more. self.new.values.marks
            ≡ rules.marks_after_steps style.now more (rule.going_step style.now (map frame_of self.old.frames.items) (config_of self.old))
            (rules.going_marks style.now (map frame_of self.old.frames.items) (config_of self.old) self.old.values.marks)) }
        ensures fits { frames_take_room style.now (map frame_of self.old.frames.items) (config_of self.old) ≡ true → HasRoom self.old → IsOk result }
        ensures room { IfOk result (λ more. LeavesRoom (more + 1) self.old self.new) }
        ensures few { IfOk result (λ more. IsWithin more left) }
    {
        let next = self.frames.next();
        self.steps_left(style, next, left)
    }

    /// What is left of a step, once the innermost frame has moved on, and the steps that are taken with it.
    #[inline(always)]
    fn steps_left(
        &mut self,
        style: &PreparedStyle<'a>,
        next: Next,
        left: u64,
    ) -> Result<u64, NoMemory>
        requires { (config_of self.old).stopped ≡ None }
        ensures moved { IfOk result (λ more. config_of self.new ≡ rule.steps style.now more (with_next style.now next (config_of self.old))) }
        ensures entries { OnErr result (self.new.values.entries ≡ self.old.values.entries) }
        ensures marks { IfOk result (λ more. self.new.values.marks ≡ rules.marks_after_steps style.now more (with_next style.now next (config_of self.old))
            (marks_after_next style.now next (config_of self.old) self.old.values.marks)) }
        ensures fits { next_takes_room style.now next (config_of self.old) ≡ true → HasRoom self.old → IsOk result }
        ensures room { IfOk result (λ more. LeavesRoom (more + 1) self.old self.new) }
        ensures few { IfOk result (λ more. IsWithin more left) }
    {
        match next {
            Next::Token(token, place) => self.token_steps(style, token, place, left),
            Next::Left => Ok(0),
            Next::Return(part, place) => {
                self.return_step(style.base, part, place)?;
                Ok(0)
            }
            Next::Outer => {
                self.outer_step()?;
                Ok(0)
            }
        }
    }

    /// Executes a token, which its frame no longer has, and takes the steps that are taken with it, whose number is given.
    #[inline(always)]
    fn token_steps(
        &mut self,
        style: &PreparedStyle<'a>,
        token: Token,
        place: Place,
        left: u64,
    ) -> Result<u64, NoMemory>
        requires { (config_of self.old).stopped ≡ None }
        ensures moved { IfOk result (λ more. config_of self.new ≡ rule.steps style.now more (rule.token_step style.now token place (config_of self.old))) }
        ensures entries { OnErr result (self.new.values.entries ≡ self.old.values.entries) }
        ensures marks { IfOk result (λ more. self.new.values.marks ≡ rules.marks_after_steps style.now more (rule.token_step style.now token place (config_of self.old))
            (rules.token_marks style.now token (config_of self.old) self.old.values.marks)) }
        ensures fits { token_takes_room style.now token (config_of self.old) ≡ true → HasRoom self.old → IsOk result }
        ensures room { IfOk result (λ more. LeavesRoom (more + 1) self.old self.new) }
        ensures few { IfOk result (λ more. IsWithin more left) }
    {
        match token {
            Token::Quote(name) => self.function_steps(style.base, Target::Named(name), left),
            Token::Block(body) => self.function_steps(style.base, Target::Block(body), left),
            Token::Int(n) => self.integer_steps(style.base, n, left),
            Token::Str(text) => self.text_steps(style.base, text, left),
            Token::Call(name) => self.call_steps(style, name, place, left),
        }
    }

    /// Returns from a frame.
    #[inline(always)]
    fn return_step(&mut self, style: &'a Style, part: Part, place: Place) -> Result<(), NoMemory>
        ensures moved { OnOk result (config_of self.new ≡ rule.return_step style.now (part_of part) place (config_of self.old)) }
        ensures entries { OnErr result (self.new.values.entries ≡ self.old.values.entries) }
        ensures marks { OnOk result (self.new.values.marks ≡ rules.return_marks (part_of part) (config_of self.old) self.old.values.marks) }
        ensures fits { HasRoom self.old → IsOk result }
        ensures room { OnOk result (LeavesRoom 1 self.old self.new) }
    {
        match part {
            Part::Whole => Ok(()),
            Part::Testing(test, body) => self.test_ended(style, test, body, place),
            Part::Turning(test, body) => {
                self.enter(
                    entered_at(style, test, place),
                    place,
                    Part::Testing(test, body),
                )
            }
        }
    }

    /// Ends the test of a `while$`: pops an integer, and above 0 enters the body.
    fn test_ended(
        &mut self,
        style: &'a Style,
        test: Target,
        body: Target,
        place: Place,
    ) -> Result<(), NoMemory>
        ensures moved { OnOk result (config_of self.new ≡ rule.test_ended style.now test body place self.old.values.stack (config_of self.old)) }
        ensures entries { OnErr result (self.new.values.entries ≡ self.old.values.entries) }
        ensures marks { OnOk result (self.new.values.marks ≡ rules.test_marks self.old.values.stack self.old.values.marks) }
        ensures fits { HasRoom self.old → IsOk result }
        ensures room { OnOk result (LeavesRoom 1 self.old self.new) }
    {
        match self.values.top() {
            Some(Operand::Int(n)) => {
                self.values.drop_top(1);
                if n > 0 {
                    self.enter(
                        entered_at(style, body, place),
                        place,
                        Part::Turning(test, body),
                    )
                } else {
                    Ok(())
                }
            }
            Some(_) => {
                self.stop(Fault::WrongKind, place);
                Ok(())
            }
            None => {
                self.stop(Fault::EmptyPop, place);
                Ok(())
            }
        }
    }
}
