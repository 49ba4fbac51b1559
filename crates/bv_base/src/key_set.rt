//! Sets of keys, and keys as they are compared.

ghost use Rattle.std.specs.Prelude.{◌≡◌, ℕ, ◌||◌, nat_eq, not, List, [], map, IfOk, OnOk, OnErr};
ghost use Rattle.std.specs.Cmp.Lexicographic.{pointwise};
ghost use Rattle.bv_base.specs.Bytes as bytes;
ghost use Rattle.bv_base.specs.KeySets.{has_key, has_lowered, with_key};

use crate::memory::NoMemory;
use indexmap::IndexSet;
use std::alloc::Global;
use std::marker::Model;

/// Keys in a hash table, in the order in which they were put in. Contracts see their list.
///
/// Keys are the same where their bytes are. Where upper and lower case are the same, all keys of a set are lowered.
#[derive(Drop)]
pub struct KeySet {
    alloc: Global,
    table: IndexSet<Vec<u8>>,
}

impl Model for KeySet {
    ghost use Rattle.std.specs.Prelude.{List, ℕ, map};

    ghost Value = { List (List ℕ) };

    ghost view = { λ s. map (λ key. key.items) s.table.keys };
}

impl KeySet {
    /// No key.
    pub fn new(alloc: Global) -> KeySet
        ensures { result ≡ [] }
    {
        KeySet {
            alloc,
            table: IndexSet::new(alloc),
        }
    }

    /// Whether a key is there, by one look-up.
    pub fn has(&self, key: &[u8]) -> bool
        ensures { result ≡ has_key key.now self.now }
    {
        self.table.contains(key)
    }

    /// Puts a key in, and says whether it is new. Where memory is wanting the keys stay.
    pub fn add(&mut self, key: Vec<u8>) -> Result<bool, NoMemory>
        ensures fresh { IfOk result (λ fresh. fresh ≡ not (has_key key.items self.old)) }
        ensures keys { OnOk result (self.new ≡ with_key key.items self.old) }
        ensures members { OnOk result
            ((other : List ℕ) → has_key other self.new ≡ (pointwise nat_eq other key.items || has_key other self.old)) }
        ensures unchanged { OnErr result (self.new ≡ self.old) }
    {
        let Ok(fresh) = self.table.insert(key) else {
            return Err(NoMemory);
        };
        Ok(fresh)
    }

    /// Whether a key is there once it is lowered.
    pub fn has_lowered(&self, key: &[u8]) -> Result<bool, NoMemory>
        ensures { IfOk result (λ there. there ≡ has_lowered key.now self.now) }
    {
        let key = lowered(self.alloc, key)?;
        Ok(self.has(key.as_slice()))
    }

    /// Puts a key in once it is lowered, and says whether it is new.
    pub fn add_lowered(&mut self, key: &[u8]) -> Result<bool, NoMemory>
        ensures fresh { IfOk result (λ fresh. fresh ≡ not (has_lowered key.now self.old)) }
        ensures keys { OnOk result (self.new ≡ with_key (map bytes.lower key.now) self.old) }
        ensures members { OnOk result
            ((other : List ℕ) → has_lowered other self.new
            ≡ (pointwise nat_eq (map bytes.lower other) (map bytes.lower key.now) || has_lowered other self.old)) }
    {
        let key = lowered(self.alloc, key)?;
        self.add(key)
    }
}

#[tactic(auto, using(crate::proofs::Lowering::lowered_by_ascii))]
/// A key as it is compared where upper and lower case are the same, in one piece of memory of its length.
pub fn lowered(alloc: Global, key: &[u8]) -> Result<Vec<u8>, NoMemory>
    ensures { IfOk result (λ found. found.items ≡ map bytes.lower key.now) }
{
    Ok(key.to_ascii_lowercase(alloc)?)
}
