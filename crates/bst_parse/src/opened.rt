//! The bodies whose closing braces are still to come.

ghost use Rattle.std.specs.Prelude.{◌≡◌, ◌==◌, [], ◌∷◌, length, drop, OnOk};
ghost use Rattle.bst_parse.specs.Bodies.{innermost};

use bv_base::memory::NoMemory;
use name_table::style::BodyId;
use std::alloc::Global;
use std::marker::Model;

/// The bodies that are open. Contracts see their list, the innermost first.
#[derive(Drop)]
pub(crate) struct Opened {
    list: Vec<BodyId>,
}

impl Model for Opened {
    ghost use Rattle.std.specs.Prelude.{List, reverse};
    ghost use Rattle.name_table.specs.declared.style.BodyId.{BodyId};

    ghost Value = { List BodyId };

    ghost view = { λ o. reverse o.list.items };
}

impl Opened {
    /// No body is open.
    pub(crate) fn new(alloc: Global) -> Opened
        ensures { result ≡ [] }
    {
        Opened {
            list: Vec::new(alloc),
        }
    }

    /// The innermost body that is open.
    pub(crate) fn innermost(&self) -> Option<BodyId>
        ensures { result ≡ innermost self.now }
    {
        match self.list.as_slice() {
            [] => None,
            [.., last] => Some(*last),
        }
    }

    /// How many bodies are open.
    pub(crate) fn len(&self) -> usize
        ensures { result ≡ length self.now }
    {
        self.list.len()
    }

    /// Whether no body is open.
    pub(crate) fn is_empty(&self) -> bool
        ensures { result ≡ (length self.now == 0) }
    {
        self.list.is_empty()
    }

    /// Opens a body within the innermost one.
    pub(crate) fn enter(&mut self, body: BodyId) -> Result<(), NoMemory>
        ensures { OnOk result (self.new ≡ body ∷ self.old) }
    {
        self.list.push(body)?;
        Ok(())
    }

    /// Closes the innermost body.
    pub(crate) fn leave(&mut self)
        ensures { self.new ≡ drop 1 self.old }
    {
        let _ = self.list.pop();
    }
}
