//! The built-in functions that enter others.

ghost use Rattle.std.specs.Prelude.{◌≡◌, ◌≤◌, OnErr};
ghost use Rattle.bst_meaning.specs.Builtins as rule;
ghost use Rattle.bst_step.specs.Marks as mark;
ghost use Rattle.bst_step.specs.Subjects.{Fits, Makes, built_in, config_of, context_of};

use crate::held::Operand;
use crate::operands::{three, two};
use crate::prepared::PreparedStyle;
use crate::state::{Part, State};
use crate::stop::Stop;
use bst_meaning::fault::Fault;
use bst_meaning::value::Target;
use bv_base::place::Place;
use name_table::builtin::Builtin;
use name_table::opening::SKIP;
use name_table::style::{Style, TypeTarget};

impl<'a> State<'a> {
    /// `if$`
    pub fn if_else(&mut self, style: &'a Style, place: Place) -> Result<(), Stop>
        ensures made { Makes style.now place result self.old self.new (rule.if_else self.old.values.stack) (mark.taken 3) }
        ensures fits { 1 ≤ self.old.frames.room → Fits result }
        ensures entries { OnErr result (self.new.values.entries ≡ self.old.values.entries) }
    {
        match three(&self.values)? {
            (Operand::Int(n), Operand::Func(first), Operand::Func(other)) => {
                let target = if n > 0 { first } else { other };
                self.enter_over(style, 3, target, place, Part::Whole)
            }
            _ => Err(Stop::Fault(Fault::WrongKind)),
        }
    }

    /// `while$`
    #[inline(never)]
    pub fn while_do(&mut self, style: &'a Style, place: Place) -> Result<(), Stop>
        ensures made { Makes style.now place result self.old self.new (rule.while_do self.old.values.stack) (mark.taken 2) }
        ensures fits { 1 ≤ self.old.frames.room → Fits result }
        ensures entries { OnErr result (self.new.values.entries ≡ self.old.values.entries) }
    {
        match two(&self.values)? {
            (Operand::Func(test), Operand::Func(body)) => {
                self.enter_over(style, 2, test, place, Part::Testing(test, body))
            }
            _ => Err(Stop::Fault(Fault::WrongKind)),
        }
    }

    /// `call.type$`, for the visited entry.
    #[inline(never)]
    pub fn call_type(&mut self, style: &PreparedStyle<'a>, place: Place) -> Result<(), Stop>
        ensures made { Makes style.now place result self.old self.new
            (built_in Builtin.CallType (context_of style.now (config_of self.old)) self.old.values.stack) (λ m. m) }
        ensures entries { OnErr result (self.new.values.entries ≡ self.old.values.entries) }
    {
        let Some(typed) = self.visited_typed() else {
            return Err(Stop::Fault(Fault::NoEntry));
        };
        let entry_type = typed.entry().entry_type();
        let name = match style.type_target_by(typed.type_id(), entry_type) {
            TypeTarget::Function(name) => name,
            TypeTarget::Default(name) => name,
            TypeTarget::Skip => SKIP,
        };
        self.enter_over(style.base, 0, Target::Named(name), place, Part::Whole)
    }
}
