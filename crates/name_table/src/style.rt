//! A style as it has been read.

ghost use Rattle.std.specs.Prelude.{◌≡◌};
ghost use Rattle.name_table.specs.TypeTarget.{stands_before_read, target_of, type_function};

use crate::names::{NameId, Names};
use bv_base::copied::Copied;
use bv_base::keyed_list::Keyed;
use bv_base::memory::NoMemory;
use bv_base::place::Place;
use bv_base::seq::Seq;
use bv_base::text::Text;
use std::alloc::Global;

/// A body of a function or a block, as its number in `Style::bodies`.
#[derive(Clone, Copy, Debug, PartialEq, Eq)]
pub struct BodyId(pub u32);

/// The most bodies that a style has.
pub const MOST_BODIES: u32 = 65536;

/// A text of a body, as its number in `Style::texts`.
#[derive(Clone, Copy, Debug, PartialEq, Eq)]
pub struct TextId(pub u32);

/// One token of a body.
#[derive(Clone, Copy, Debug, PartialEq, Eq)]
pub enum Token {
    /// An integer, which is pushed.
    Int(i32),
    /// A text, which is pushed.
    Str(TextId),
    /// A quoted name, whose function is pushed.
    Quote(NameId),
    /// A block in braces, whose function is pushed.
    Block(BodyId),
    /// A name, which is called.
    Call(NameId),
}

/// A token with the place of its first byte.
#[derive(Clone, Copy, Debug, PartialEq, Eq)]
pub struct TokenAt {
    pub token: Token,
    pub place: Place,
}

/// The tokens between two braces.
#[derive(Debug, Drop)]
pub struct Body {
    pub tokens: Seq<TokenAt>,
    /// The block's number, and `None` for the body of a FUNCTION command. Blocks are numbered from 0 in the order
    /// of their opening braces.
    pub block: Option<u32>,
    /// The place of the opening brace.
    pub place: Place,
}

/// A command of a style. Declarations are known by the names and bodies that they made.
#[derive(Clone, Copy, Debug, PartialEq, Eq)]
pub enum Command {
    Entry,
    Execute(NameId),
    Function(NameId),
    Integers,
    Iterate(NameId),
    Macro,
    Read,
    Reverse(NameId),
    Sort,
    Strings,
}

/// A command with the place of its first byte.
#[derive(Clone, Copy, Debug, PartialEq, Eq)]
pub struct CommandAt {
    pub command: Command,
    pub place: Place,
}

/// A macro of a style: its lowered name, and its value without the marks.
#[derive(Debug, Drop)]
pub struct Macro {
    pub name: Text,
    pub value: Text,
}

impl Copied for Macro {
    fn copied(&self, alloc: Global) -> Result<Macro, NoMemory> {
        Ok(Macro {
            name: self.name.copied(alloc)?,
            value: self.value.copied(alloc)?,
        })
    }
}

impl Keyed for Macro {
    ghost key = { λ one. one.name };

    fn copied_key(&self, alloc: Global) -> Result<Vec<u8>, NoMemory> {
        Ok(self.name.as_slice().to_vec(alloc)?)
    }
}

/// A style as it has been read.
#[derive(Drop)]
pub struct Style {
    pub names: Names,
    /// The commands in order, declarations included.
    pub commands: Seq<CommandAt>,
    /// The bodies of functions and blocks, in the order of their opening braces.
    pub bodies: Seq<Body>,
    /// The texts of the bodies, in order and without their marks.
    pub texts: Seq<Text>,
    /// The MACRO commands, in order.
    pub macros: Seq<Macro>,
}

/// What `call.type$` enters for an entry's type.
#[derive(Clone, Copy, Debug, PartialEq, Eq)]
pub enum TypeTarget {
    /// The function of the type's name.
    Function(NameId),
    /// `default.type`.
    Default(NameId),
    /// `skip$`, where neither is there.
    Skip,
}

impl Style {
    /// What `call.type$` enters for a lowered type: the function of that name whose FUNCTION command stands before
    /// READ, else `default.type` where it so stands, else `skip$`.
    pub fn type_target(&self, entry_type: &[u8]) -> TypeTarget
        ensures { result ≡ target_of entry_type.now self.now }
    {
        if let Some(id) = self.type_function(entry_type) {
            return TypeTarget::Function(id);
        }
        match self.type_function(b"default.type") {
            Some(id) => TypeTarget::Default(id),
            None => TypeTarget::Skip,
        }
    }

    /// The function of this name whose FUNCTION command stands before READ.
    fn type_function(&self, name: &[u8]) -> Option<NameId>
        ensures { result ≡ type_function name.now self.now }
    {
        let id = self.names.find(name)?;
        if stands_before_read(self.commands.as_slice(), id) {
            Some(id)
        } else {
            None
        }
    }
}

/// Whether a FUNCTION command of this name stands before a READ command.
fn stands_before_read(commands: &[CommandAt], id: NameId) -> bool
    ensures { result ≡ stands_before_read id commands.now }
{
    let mut defined = false;
    for at in commands {
        match at.command {
            Command::Function(other) => defined = defined || id.0 == other.0,
            Command::Read if defined => return true,
            _ => {}
        }
    }
    false
}
