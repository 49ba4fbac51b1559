//! The fields of the entry that is being read.

ghost use Rattle.std.specs.Prelude.{◌≡◌, ◌≤◌, [], ◌∷◌, ◌++◌, length, OnOk};
ghost use Rattle.bib_read.specs.Names.{has_field};
ghost use Rattle.bib_read.specs.declared.fields.TheConstants.{FEW};

use crate::raw_fields::RawFields;
use bv_base::key_set::KeySet;
use bv_base::memory::NoMemory;
use std::alloc::Global;
use std::marker::Model;

/// So many fields of an entry are looked through one after the other.
pub(crate) const FEW: usize = 16;

/// Fields in order, with a hash table of the names of those behind the first few. Their room serves the next entry too.
/// Contracts see their list.
#[derive(Drop)]
pub(crate) struct Fields {
    alloc: Global,
    fields: RawFields,
    more: KeySet,
}

impl Model for Fields {
    ghost use Rattle.std.specs.Prelude.{◌≡◌, ℕ, List, drop};
    ghost use Rattle.bv_base.specs.KeySets.{has_key};
    ghost use Rattle.bib_read.specs.Names.{has_field};
    ghost use Rattle.bib_read.specs.RawFields.{RawField};
    ghost use Rattle.bib_read.specs.declared.fields.TheConstants.{FEW};

    ghost Value = { List RawField };

    ghost view = { λ f. f.fields };

    ghost invariant = { λ f. (name : List ℕ) → has_key name f.more ≡ has_field name (drop FEW f.fields) };
}

impl Fields {
    /// No field.
    pub(crate) fn new(alloc: Global) -> Fields
        ensures { result ≡ [] }
    {
        Fields {
            alloc,
            fields: RawFields::new(alloc),
            more: KeySet::new(alloc),
        }
    }

    /// Whether a field of this name is there.
    pub(crate) fn has(&self, name: &[u8]) -> bool
        ensures { result ≡ has_field name.now self.now }
    {
        self.fields.find_among(FEW, name).is_some() || self.more.has(name)
    }

    /// Adds a field. Where there is no memory for it, no field is left.
    pub(crate) fn add(&mut self, name: &[u8], value: &[u8]) -> Result<(), NoMemory>
        ensures { OnOk result (self.new ≡ self.old ++ record { name = name.now; value = value.now } ∷ []) }
    {
        if self.fields.len() >= FEW {
            return self.add_behind(name, value);
        }
        self.fields.push(name, value)
    }

    /// Adds a field behind the first few.
    fn add_behind(&mut self, name: &[u8], value: &[u8]) -> Result<(), NoMemory>
        requires { FEW ≤ length self.old }
        ensures { OnOk result (self.new ≡ self.old ++ record { name = name.now; value = value.now } ∷ []) }
    {
        let key = name.to_vec(self.alloc)?;
        let Ok(_) = self.fields.push(name, value) else {
            self.more = KeySet::new(self.alloc);
            return Err(NoMemory);
        };
        let Ok(_) = self.more.add(key) else {
            self.fields.clear();
            self.more = KeySet::new(self.alloc);
            return Err(NoMemory);
        };
        Ok(())
    }

    /// The fields, in order.
    pub(crate) fn list(&self) -> &RawFields
        ensures { result.now ≡ self.now }
    {
        &self.fields
    }

    /// Lets all fields go.
    pub(crate) fn clear(&mut self)
        ensures { self.new ≡ [] }
    {
        self.fields.clear();
        self.more = KeySet::new(self.alloc);
    }
}
