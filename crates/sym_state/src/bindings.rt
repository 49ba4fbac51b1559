//! Bindings of variables and fields.

ghost use Rattle.std.specs.Prelude.{◌≡◌, nat_eq, reverse, IfOk};
ghost use Rattle.std.specs.List.{find};
ghost use Rattle.std.specs.Option.{option_map_or};
ghost use Rattle.sym_state.specs.Changes as change;

use crate::shared_list::SharedList;
use crate::symbol::{Bind, Sym};
use bv_base::memory::NoMemory;
use bv_base::seq::Seq;
use name_table::names::NameId;
use std::alloc::Global;
use std::marker::Model;
use std::rc::Rc;

/// Names with their symbols: those of the beginning, which all branches share, and the changes since then. Contracts see
/// the list of bindings as the changes leave it.
#[derive(Drop)]
pub struct Bindings {
    first: Rc<Seq<Bind>>,
    changes: SharedList<Bind>,
}

impl Model for Bindings {
    ghost use Rattle.std.specs.Prelude.{List, reverse};
    ghost use Rattle.sym_state.specs.declared.symbol.Bind.{Bind};

    ghost Value = { List Bind };

    ghost use Rattle.sym_state.specs.Changes.{changed};

    ghost view = { λ b. changed (reverse b.changes) b.first.value };
}

impl Bindings {
    /// These bindings.
    pub fn new(alloc: Global, binds: Seq<Bind>) -> Result<Bindings, NoMemory>
        ensures { IfOk result (λ bindings. bindings ≡ binds) }
    {
        Ok(Bindings {
            first: Rc::new(alloc, binds)?,
            changes: SharedList::new(alloc)?,
        })
    }

    /// The symbol that is bound to a name.
    pub fn symbol(&self, name: NameId) -> Option<Sym>
        ensures { result ≡ change.symbol_at name self.now }
    {
        match symbol_at(name, self.first.as_slice()) {
            Some(first) => Some(newest(&self.changes, name, first)),
            None => None,
        }
    }

    /// The bindings, with another symbol for a name.
    pub fn rebound(&self, name: NameId, sym: Sym) -> Result<Bindings, NoMemory>
        ensures { IfOk result (λ new. new ≡ change.rebound name sym self.now) }
    {
        if symbol_at(name, self.first.as_slice()).is_none() {
            return self.branch();
        }
        let mut changes = self.changes.branch()?;
        changes.push(Bind { name, sym })?;
        Ok(Bindings {
            first: self.first.clone()?,
            changes,
        })
    }

    /// The same bindings.
    pub fn branch(&self) -> Result<Bindings, NoMemory>
        ensures { IfOk result (λ new. new ≡ self.now) }
    {
        Ok(Bindings {
            first: self.first.clone()?,
            changes: self.changes.branch()?,
        })
    }
}

/// The symbol that the newest change of a name binds to it, and the first one where none does.
fn newest(changes: &SharedList<Bind>, name: NameId, first: Sym) -> Sym
    ensures { result ≡ option_map_or (λ bind. bind.sym) (find (λ bind. nat_eq bind.name.0 name.0) (reverse changes.now)) first }
{
    match changes.rfind(|bind| bind.name.0 == name.0) {
        Some(bind) => bind.sym,
        None => first,
    }
}

/// The symbol that is bound to a name in a list of bindings.
pub fn symbol_at(name: NameId, binds: &[Bind]) -> Option<Sym>
    ensures { result ≡ change.symbol_at name binds.now }
{
    for bind in binds {
        if bind.name.0 == name.0 {
            return Some(bind.sym);
        }
    }
    None
}
