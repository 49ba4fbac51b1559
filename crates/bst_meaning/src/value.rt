//! The values of the machine.

use bv_base::text::Text;
use name_table::names::NameId;
use name_table::style::BodyId;

/// The most bytes of a string variable of an entry, of which a longer string keeps the first.
pub const ENTRY_SIZE: u32 = 250;

/// The most bytes of a string variable of the whole style.
pub const GLOBAL_SIZE: u32 = 20000;

/// What can be entered: a name of the style, or a block.
#[derive(Clone, Copy, Debug, PartialEq, Eq)]
pub enum Target {
    Named(NameId),
    Block(BodyId),
}

/// A value on the literal stack or in a variable.
#[derive(Debug, Drop)]
pub enum Value {
    /// An integer of 32 bits.
    Int(i32),
    /// A byte string.
    Str(Text),
    /// A field that the entry doesn't have.
    Missing(NameId),
    /// A function, by its name or as a block.
    Func(Target),
}
