//! The names of a style, each with its kind.

ghost use Rattle.std.specs.Prelude.{◌≡◌, ◌<◌, ◌≤◌, [], ◌∷◌, ◌++◌, length, map, Some, None, IfOk, OnOk, IfErr, IfSome};
ghost use Rattle.name_table.specs.Defining.{IsCause};
ghost use Rattle.name_table.specs.Names.{id_of, kind_at, text_at};
ghost use Rattle.name_table.specs.Opening.{opening_names};

use crate::builtin::Builtin;
use crate::opening::OPENING;
use crate::style::BodyId;
use bv_base::memory::NoMemory;
use indexmap::IndexMap;
use std::alloc::Global;
use std::marker::Model;
use thiserror::Error;

/// A name of a style, as its number: names are numbered from 0 in the order in which they are defined.
#[derive(Clone, Copy, Debug, PartialEq, Eq)]
pub struct NameId(pub u32);

/// What a name stands for.
#[derive(Clone, Copy, Debug, PartialEq, Eq)]
pub enum Kind {
    /// A built-in function.
    Builtin(Builtin),
    /// A function that the style defines, with its body.
    Wizard(BodyId),
    /// A field of an entry.
    Field,
    /// An integer variable of each entry.
    IntEntry,
    /// A string variable of each entry.
    StrEntry,
    /// An integer variable of the whole style.
    IntGlobal,
    /// A string variable of the whole style.
    StrGlobal,
}

/// Why a name isn't defined.
#[derive(Clone, Copy, Debug, PartialEq, Eq, Error)]
pub enum DefineFault {
    /// The name is there already, with this id.
    #[error("the name is there already")]
    AlreadyDefined(NameId),
    /// There are [`MOST_NAMES`] names.
    #[error("too many names")]
    TooMany,
    /// Want of memory, where neither of the others holds.
    #[error("no memory")]
    NoMemory,
}

/// The most names that a style has, those of every style included.
pub const MOST_NAMES: u32 = 65536;

/// The names of a style in the order of their ids, each with its kind. Contracts see the list of the pairs.
#[derive(Drop)]
pub struct Names {
    alloc: Global,
    table: IndexMap<Vec<u8>, Kind>,
}

impl Model for Names {
    ghost use Rattle.std.specs.Prelude.{List, ℕ, ◌≤◌, length, map};
    ghost use Rattle.name_table.specs.declared.names.Kind.{Kind};
    ghost use Rattle.name_table.specs.declared.names.TheConstants.{MOST_NAMES};

    ghost Value = { List (List ℕ × Kind) };

    ghost view = { λ n. map (λ e. (e.0.items, e.1)) n.table.entries };

    ghost invariant = { λ n. length n.table.entries ≤ MOST_NAMES };
}

impl Names {
    /// The names of every style: the built-in functions with ids 0 to 36, then `crossref`, `sort.key$`,
    /// `entry.max$` and `global.max$`.
    pub fn opening(alloc: Global) -> Result<Names, NoMemory>
        ensures { IfOk result (λ names. names ≡ opening_names) }
    {
        table_of(alloc, &OPENING)
    }

    /// How many names there are.
    pub fn len(&self) -> u32
        ensures { result ≡ length self.now }
    {
        self.table.len() as u32
    }

    /// The id of a lowered name, by one look-up in a hash table. `None` comes exactly where it isn't there.
    pub fn find(&self, name: &[u8]) -> Option<NameId>
        ensures found { result ≡ id_of name.now self.now }
        ensures within { IfSome result (λ id. id.0 < length self.now) }
    {
        match self.table.get_index_of(name) {
            Some(index) => Some(NameId(index as u32)),
            None => None,
        }
    }

    /// What a name stands for.
    pub fn kind(&self, id: NameId) -> Kind
        requires { id.0 < length self.now }
        ensures { kind_at id self.now ≡ Some result }
    {
        match self.table.get_index(id.0 as usize) {
            Some((_, kind)) => *kind,
            None => Kind::Field,
        }
    }

    /// The bytes of a name.
    pub fn text(&self, id: NameId) -> &[u8]
        requires { id.0 < length self.now }
        ensures { text_at id self.now ≡ Some result.now }
    {
        match self.table.get_index(id.0 as usize) {
            Some((name, _)) => name.as_slice(),
            None => &[],
        }
    }

    /// Defines a lowered name, which takes the next id. A fault leaves the names as they were.
    pub fn define(&mut self, name: &[u8], kind: Kind) -> Result<NameId, DefineFault>
        ensures defined { IfOk result (λ id. (id_of name.now self.old ≡ None)
            × (id ≡ record { 0 = length self.old })
            × (self.new ≡ self.old ++ (name.now, kind) ∷ [])) }
        ensures within { length self.new ≤ MOST_NAMES }
        ensures fault { IfErr result (λ fault. IsCause name.now self.old fault × (self.new ≡ self.old)) }
    {
        if let Some(id) = self.find(name) {
            return Err(DefineFault::AlreadyDefined(id));
        }
        let id = self.len();
        if id == MOST_NAMES {
            return Err(DefineFault::TooMany);
        }
        let Ok(bytes) = name.to_vec(self.alloc) else {
            return Err(DefineFault::NoMemory);
        };
        append(&mut self.table, bytes, kind)?;
        Ok(NameId(id))
    }
}

/// Appends a name that isn't there.
fn append(table: &mut IndexMap<Vec<u8>, Kind>, name: Vec<u8>, kind: Kind) -> Result<(), DefineFault>
    requires { id_of name.items (map (λ e. (e.0.items, e.1)) table.old.entries) ≡ None }
    ensures appended { OnOk result (table.new.entries ≡ table.old.entries ++ (name, kind) ∷ []) }
    ensures fault { IfErr result (λ fault. (fault ≡ DefineFault.NoMemory) × (table.new.entries ≡ table.old.entries)) }
{
    let Ok(_) = table.insert(name, kind) else {
        return Err(DefineFault::NoMemory);
    };
    Ok(())
}

/// The names of a table that names none twice.
fn table_of(alloc: Global, table: &[(&[u8], Kind)]) -> Result<Names, NoMemory>
    ensures { IfOk result (λ names. names ≡ map (λ entry. (entry.0.now, entry.1)) table.now) }
{
    let mut names = Names {
        alloc,
        table: IndexMap::new(alloc),
    };
    for (text, kind) in table {
        if names.define(text, *kind).is_err() {
            return Err(NoMemory);
        }
    }
    Ok(names)
}
