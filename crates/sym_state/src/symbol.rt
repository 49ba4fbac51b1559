//! Symbols, and what is known of the values that they stand for.

use bv_base::copied::Copied;
use bv_base::memory::NoMemory;
use bv_base::text::Text;
use name_table::names::NameId;
use std::alloc::Global;

/// A symbol, which stands for a value: symbols are numbered from 0 in each piece and in each state.
#[derive(Clone, Copy, Debug, PartialEq, Eq)]
pub struct Sym(pub u32);

/// The kinds of values.
#[derive(Clone, Copy, Debug, PartialEq, Eq)]
pub enum Kinds {
    /// An integer.
    Int,
    /// A string.
    Str,
    /// A missing field.
    Missing,
    /// A string or a missing field.
    Optional,
    /// A function.
    Func,
    /// Every value.
    Any,
}

/// What is known of the value of one symbol (docs/STATES.md, "Facts").
#[derive(Debug, Drop)]
pub enum Fact {
    /// It is of this kind.
    Is(Sym, Kinds),
    /// It is this integer.
    Int(Sym, i32),
    /// It is this string.
    Text(Sym, Text),
    /// It is the function of this name.
    Call(Sym, NameId),
    /// It is the block of this number.
    Block(Sym, u32),
    /// `empty$` gives 1 for it.
    Blank(Sym),
    /// `empty$` gives 0 for it.
    Nonblank(Sym),
    /// Each name in it is well formed; so of every value that is no string.
    Wellformed(Sym),
}

impl Copied for Fact {
    fn copied(&self, alloc: Global) -> Result<Fact, NoMemory> {
        Ok(match self {
            Fact::Is(sym, kind) => Fact::Is(*sym, *kind),
            Fact::Int(sym, n) => Fact::Int(*sym, *n),
            Fact::Text(sym, text) => Fact::Text(*sym, text.copied(alloc)?),
            Fact::Call(sym, name) => Fact::Call(*sym, *name),
            Fact::Block(sym, number) => Fact::Block(*sym, *number),
            Fact::Blank(sym) => Fact::Blank(*sym),
            Fact::Nonblank(sym) => Fact::Nonblank(*sym),
            Fact::Wellformed(sym) => Fact::Wellformed(*sym),
        })
    }
}

/// A variable or a field, and the symbol of its value.
#[derive(Clone, Copy, Debug, PartialEq, Eq)]
pub struct Bind {
    pub name: NameId,
    pub sym: Sym,
}
