//! The macros while a database is read.

ghost use Rattle.std.specs.Prelude.{◌≡◌, [], OnOk, IfOk};
ghost use Rattle.std.specs.Option.{option_map};
ghost use Rattle.bib_read.specs.Names as names;

use bv_base::memory::NoMemory;
use bv_base::seq::Seq;
use bv_base::text::Text;
use indexmap::IndexMap;
use name_table::style::Macro;
use std::alloc::Global;
use std::marker::Model;

/// The macros so far, in order, in a hash table by their names. Contracts see their list.
#[derive(Drop)]
pub(crate) struct Macros {
    alloc: Global,
    table: IndexMap<Vec<u8>, Vec<u8>>,
}

impl Model for Macros {
    ghost use Rattle.std.specs.Prelude.{List, map};
    ghost use Rattle.name_table.specs.declared.style.Macro.{Macro};
    ghost use Rattle.bib_read.specs.Tables.{macro_of};

    ghost Value = { List Macro };

    ghost view = { λ m. map macro_of m.table.entries };
}

impl Macros {
    /// No macro.
    pub(crate) fn new(alloc: Global) -> Macros
        ensures { result ≡ [] }
    {
        Macros {
            alloc,
            table: IndexMap::new(alloc),
        }
    }

    /// The value of the macro of this name, by one look-up in a hash table.
    pub(crate) fn find(&self, name: &[u8]) -> Option<&[u8]>
        ensures { option_map (λ value. value.now) result ≡ names.value_of name.now self.now }
    {
        match self.table.get(name) {
            Some(value) => Some(value.as_slice()),
            None => None,
        }
    }

    /// Defines a macro, in the place of one of its name or as the last.
    pub(crate) fn define(&mut self, name: &[u8], value: &[u8]) -> Result<(), NoMemory>
        ensures { OnOk result (self.new ≡ names.defined name.now value.now self.old) }
    {
        let name = name.to_vec(self.alloc)?;
        let value = value.to_vec(self.alloc)?;
        let Ok(_) = self.table.insert(name, value) else {
            return Err(NoMemory);
        };
        Ok(())
    }

    /// The macros as a list.
    pub(crate) fn to_seq(&self) -> Result<Seq<Macro>, NoMemory>
        ensures { IfOk result (λ list. list ≡ self.now) }
    {
        let mut list = Seq::new(self.alloc);
        for i in 0..self.table.len() {
            let Some((name, value)) = self.table.get_index(i) else {
                unreachable!()
            };
            list.push(Macro {
                name: Text::from_slice(self.alloc, name.as_slice())?,
                value: Text::from_slice(self.alloc, value.as_slice())?,
            })?;
        }
        Ok(list)
    }
}
