//! A style that is prepared to be run.

ghost use Rattle.std.specs.Prelude.{◌≡◌, ◌<◌, ◌∷◌, List, true, get_or, length, Some, IfOk};
ghost use Rattle.bv_base.specs.declared.place.Place.{Place};
ghost use Rattle.name_table.specs.declared.style.CommandAt.{CommandAt};
ghost use Rattle.name_table.specs.TypeTarget as rule;
ghost use Rattle.name_table.specs.TypeTarget.{has_read, target_of, type_function};
ghost use Rattle.bst_step.specs.Prepared.{AreDefined, finds_itself};

use bv_base::memory::NoMemory;
use name_table::names::{NameId, Names};
use name_table::style::{Command, CommandAt, Style, TypeTarget};
use std::alloc::Global;
use std::marker::Model;

/// A style with a table of the functions that stand before READ, so that an entry's type is looked up without passing over the
/// commands. Contracts see the style.
#[derive(Drop)]
pub struct PreparedStyle<'a> {
    pub base: &'a Style,
    /// By the id of its name, whether a function stands before READ, and its name's bytes are found under this id.
    defined: Vec<bool>,
}

impl<'a> Model for PreparedStyle<'a> {
    ghost use Rattle.std.specs.Prelude.{◌≡◌, length};
    ghost use Rattle.name_table.specs.declared.style.Style.{Style};
    ghost use Rattle.bst_step.specs.Prepared.{AreDefined};

    ghost Value = { Style };

    ghost view = { λ s. s.base.now };

    ghost invariant = { λ s. (AreDefined s.defined.items s.base.now.names s.base.now.commands) × (length s.defined.items ≡ length s.base.now.names) };
}

impl<'a> PreparedStyle<'a> {
    /// The style, prepared.
    pub fn new(alloc: Global, base: &'a Style) -> Result<PreparedStyle<'a>, NoMemory>
        ensures { IfOk result (λ prepared. prepared ≡ base.now) }
    {
        let defined = defined_before_read(alloc, base)?;
        Ok(PreparedStyle { base, defined })
    }

    /// What `call.type$` enters for a lowered type. Where the function with the given id has this name and stands before READ, no
    /// name is looked up.
    pub fn type_target_by(&self, id: Option<NameId>, entry_type: &[u8]) -> TypeTarget
        ensures { result ≡ target_of entry_type.now self.now }
    {
        match id {
            Some(id) if self.is_type_function(id, entry_type) => TypeTarget::Function(id),
            _ => self.type_target(entry_type),
        }
    }

    /// What `call.type$` enters for a lowered type.
    pub fn type_target(&self, entry_type: &[u8]) -> TypeTarget
        ensures { result ≡ target_of entry_type.now self.now }
    {
        if let Some(id) = self.type_function(entry_type) {
            return TypeTarget::Function(id);
        }
        match self.type_function(b"default.type") {
            Some(id) => TypeTarget::Default(id),
            None => TypeTarget::Skip,
        }
    }

    /// Whether the function with this id has this name and stands before READ.
    pub fn is_type_function(&self, id: NameId, name: &[u8]) -> bool
        ensures { result ≡ true → type_function name.now self.now ≡ Some id }
    {
        let at = id.0 as usize;
        at < self.defined.len() && self.defined[at] && self.base.names.text(id) == name
    }

    /// The function of this name that stands before READ.
    fn type_function(&self, name: &[u8]) -> Option<NameId>
        ensures { result ≡ type_function name.now self.now }
    {
        let id = self.base.names.find(name)?;
        if self.defined[id.0 as usize] {
            Some(id)
        } else {
            None
        }
    }
}

/// By the id of each name of a style, whether its function stands before READ, and its bytes are found under this id. The commands
/// are passed over once, from the last to the first.
fn defined_before_read(alloc: Global, style: &Style) -> Result<Vec<bool>, NoMemory>
    ensures defined { IfOk result (λ table. AreDefined table.items style.now.names style.now.commands) }
    ensures all { IfOk result (λ table. length table.items ≡ length style.now.names) }
{
    let commands = style.commands.as_slice();
    let mut table = vec![in alloc; false; style.names.len() as usize]?;
    let mut read = false;
    let mut at = commands.len();
    while at > 0 {
        at -= 1;
        let first = command_at(commands, at);
        if read {
            note(&mut table, &style.names, first.command);
        } else {
            read = is_read(first.command);
        }
    }
    Ok(table)
}

/// The command at a place.
fn command_at(commands: &[CommandAt], at: usize) -> CommandAt
    requires { at < length commands.now }
    ensures { (other : CommandAt) → result ≡ get_or commands.now at other }
{
    commands[at]
}

/// Notes the function that a command in front of READ defines.
fn note(table: &mut Vec<bool>, names: &Names, command: Command)
    requires { length table.old.items ≡ length names.now }
    ensures noted { (rest : List CommandAt) (place : Place) → has_read rest ≡ true → AreDefined table.old.items names.now rest
        → AreDefined table.new.items names.now (record { command = command; place = place } ∷ rest) }
    ensures length { length table.new.items ≡ length table.old.items }
{
    if let Command::Function(name) = command {
        let at = name.0 as usize;
        if at < table.len() {
            table[at] = is_found(names, name);
        }
    }
}

/// Whether a name's bytes are found under its id.
fn is_found(names: &Names, id: NameId) -> bool
    requires { id.0 < length names.now }
    ensures { result ≡ finds_itself id names.now }
{
    match names.find(names.text(id)) {
        Some(found) => found.0 == id.0,
        None => false,
    }
}

/// Whether a command is READ.
fn is_read(command: Command) -> bool
    ensures { result ≡ rule.is_read command }
{
    matches!(command, Command::Read)
}
