//! The built-in functions that read the visited entry.

ghost use Rattle.std.specs.Prelude.{◌≡◌, ◌≤◌, OnErr};
ghost use Rattle.bst_meaning.specs.Builtins.{type_name};
ghost use Rattle.bst_step.specs.Marks as mark;
ghost use Rattle.bst_step.specs.Subjects.{Fits, Makes, Place, Style, built_in, config_of, context_of};

use crate::held::Operand;
use crate::prepared::PreparedStyle;
use crate::state::State;
use crate::stop::Stop;
use bst_meaning::fault::Fault;
use name_table::builtin::Builtin;
use name_table::names::NameId;
use name_table::style::TypeTarget;

impl<'a> State<'a> {
    /// `cite$`
    #[inline(never)]
    pub fn cite(&mut self) -> Result<(), Stop>
        ensures made { (style : Style) (place : Place) → Makes style place result self.old self.new
            (built_in Builtin.Cite (context_of style (config_of self.old)) self.old.values.stack) (mark.pushed mark.Lent) }
        ensures fits { 1 ≤ self.old.values.room → Fits result }
        ensures entries { OnErr result (self.new.values.entries ≡ self.old.values.entries) }
    {
        match self.visited_entry() {
            Some(entry) => self.push_lent(Operand::Str(entry.key())),
            None => Err(Stop::Fault(Fault::NoEntry)),
        }
    }

    /// `type$`
    #[inline(never)]
    pub fn type_of(&mut self, style: &PreparedStyle<'a>) -> Result<(), Stop>
        ensures made { (place : Place) → Makes style.now place result self.old self.new
            (built_in Builtin.TypeName (context_of style.now (config_of self.old)) self.old.values.stack) (mark.pushed mark.Lent) }
        ensures fits { 1 ≤ self.old.values.room → Fits result }
        ensures entries { OnErr result (self.new.values.entries ≡ self.old.values.entries) }
    {
        match self.visited_typed() {
            Some(typed) => {
                let entry_type = typed.entry().entry_type();
                let name = defined_type(style, typed.type_id(), entry_type);
                self.push_lent(Operand::Str(name))
            }
            None => Err(Stop::Fault(Fault::NoEntry)),
        }
    }
}

/// The type, where the style defines it, and else no bytes.
fn defined_type<'a>(style: &PreparedStyle<'_>, id: Option<NameId>, entry_type: &'a [u8]) -> &'a [u8]
    ensures { result.now ≡ type_name style.now entry_type.now }
{
    if let Some(id) = id {
        if style.is_type_function(id, entry_type) {
            return entry_type;
        }
    }
    match style.type_target(entry_type) {
        TypeTarget::Function(_) => entry_type,
        _ => &[],
    }
}
