//! The built-in functions.

ghost use Rattle.std.specs.Prelude.{◌≡◌, true, OnErr};
ghost use Rattle.bst_meaning.specs.Builtins as rule;
ghost use Rattle.bst_step.specs.MarkRules.{built_in_marks};
ghost use Rattle.bst_step.specs.Room.{built_in_takes_room};
ghost use Rattle.bst_step.specs.Subjects.{Fits, HasRoom, Makes, config_of, context_of};

use crate::held::Operand;
use crate::prepared::PreparedStyle;
use crate::state::State;
use crate::stop::Stop;
use crate::{moves, names, numbers, texts};
use bv_base::place::Place;
use name_table::builtin::Builtin;

impl<'a> State<'a> {
    /// Calls a built-in function that stands at a place. A fault leaves all as it was.
    #[tactic(auto, using(crate::proofs::EffectSteps::left_makes))]
    #[inline(always)]
    pub fn built_in(
        &mut self,
        style: &PreparedStyle<'a>,
        op: Builtin,
        place: Place,
    ) -> Result<(), Stop>
        ensures made { Makes style.now place result self.old self.new
            (rule.built_in op (context_of style.now (config_of self.old)) self.old.values.stack) (built_in_marks op style.now (config_of self.old)) }
        ensures fits { built_in_takes_room op (rule.built_in op (context_of style.now (config_of self.old)) self.old.values.stack) ≡ true
            → HasRoom self.old → Fits result }
        ensures entries { OnErr result (self.new.values.entries ≡ self.old.values.entries) }
    {
        match op {
            Builtin::Equal => numbers::equal(&mut self.values),
            Builtin::Greater => numbers::greater(&mut self.values),
            Builtin::Less => numbers::less(&mut self.values),
            Builtin::Plus => numbers::plus(&mut self.values),
            Builtin::Minus => numbers::minus(&mut self.values),
            Builtin::Join => texts::join(&mut self.values),
            Builtin::Assign => self.assign(style.base),
            Builtin::AddPeriod => texts::add_period(self.alloc, &mut self.values),
            Builtin::CallType => self.call_type(style, place),
            Builtin::ChangeCase => texts::change_case(self.alloc, &mut self.values),
            Builtin::ChrToInt => numbers::chr_to_int(&mut self.values),
            Builtin::Cite => self.cite(),
            Builtin::Duplicate => moves::duplicate(&mut self.values),
            Builtin::Empty => texts::empty(&mut self.values),
            Builtin::FormatName => names::format_name(self.alloc, &mut self.values),
            Builtin::IfElse => self.if_else(style.base, place),
            Builtin::IntToChr => numbers::int_to_chr(&mut self.values),
            Builtin::IntToStr => numbers::int_to_str_of(self.alloc, &mut self.values),
            Builtin::Missing => texts::missing(&mut self.values),
            Builtin::Newline => self.end_line(),
            Builtin::NumNames => names::num_names(&mut self.values),
            Builtin::Pop => moves::pop(&mut self.values),
            Builtin::Preamble => self.push_lent(Operand::Str(self.preamble)),
            Builtin::Purify => texts::purify(self.alloc, &mut self.values),
            Builtin::Quote => self.push_lent(Operand::Str(b"\"")),
            Builtin::Skip => Ok(()),
            Builtin::Stack => self.log_all(style.base),
            Builtin::Substring => texts::substring(&mut self.values),
            Builtin::Swap => moves::swap(&mut self.values),
            Builtin::TextLength => texts::text_length(&mut self.values),
            Builtin::TextPrefix => texts::text_prefix(self.alloc, &mut self.values),
            Builtin::Top => self.log_top(style.base),
            Builtin::TypeName => self.type_of(style),
            Builtin::Warning => self.warn(),
            Builtin::WhileDo => self.while_do(style.base, place),
            Builtin::Width => texts::width(&mut self.values),
            Builtin::Write => self.write_top(),
        }
    }
}
