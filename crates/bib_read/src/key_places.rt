//! Keys, and at which place each stands.

ghost use Rattle.std.specs.Prelude.{◌≡◌, false, nat_eq, is_some, [], ◌∷◌, ◌++◌, Some, get_or, length, position, slice_get, take, IfOk, OnOk, OnErr};
ghost use Rattle.std.proofs.Common.{ap};
ghost use Rattle.std.specs.Cmp.Lexicographic.{pointwise, bytes_decides, nat_list_eq_equiv};
ghost use Rattle.std.specs.Hash as fed;
ghost use Rattle.bv_base.specs.KeySets.{has_key};

use bv_base::memory::NoMemory;
use indexmap::{Equivalent, IndexSet};
use smallvec::SmallVec;
use std::alloc::Global;
use std::hash::Hash;
use std::marker::Model;

/// A key, whose bytes stand in the table itself where they are few. Nearly all keys of databases have 24 bytes or less; one that has
/// more has an allocation of its own.
#[derive(Drop, PartialEq, Eq, Hash)]
struct Key {
    bytes: SmallVec<u8, 24>,
}

/// Bytes stand for the key that has them, so that a look-up copies none.
impl Equivalent<Key> for &[u8] {
    ghost equivalent = { λ q k. pointwise nat_eq q.now k.bytes.items };

    ghost respects_hash = { λ q k same. ap (fed.slice fed.u8) ((bytes_decides q.now k.bytes.items).0 same) };

    ghost respects_eq = { λ q x y. nat_list_eq_equiv.congr q.now x.bytes.items y.bytes.items };

    fn equivalent(&self, key: &Key) -> bool {
        *self == key.bytes.as_slice()
    }
}

/// Lowered keys in order, none twice, in a hash table that tells their places. Contracts see their list.
#[derive(Drop)]
pub(crate) struct KeyPlaces {
    table: IndexSet<Key>,
}

impl Model for KeyPlaces {
    ghost use Rattle.std.specs.Prelude.{List, ℕ, map};

    ghost Value = { List (List ℕ) };

    ghost view = { λ p. map (λ key. key.bytes.items) p.table.keys };
}

impl KeyPlaces {
    /// No key.
    pub(crate) fn new(alloc: Global) -> KeyPlaces
        ensures { result ≡ [] }
    {
        KeyPlaces {
            table: IndexSet::new(alloc),
        }
    }

    /// Whether a key is there, by one look-up.
    pub(crate) fn has(&self, key: &[u8]) -> bool
        ensures { result ≡ has_key key.now self.now }
    {
        self.table.contains(key)
    }

    /// The place of a key, counted from 0, by one look-up.
    pub(crate) fn place(&self, key: &[u8]) -> Option<usize>
        ensures place { result ≡ position (pointwise nat_eq key.now) self.now }
        ensures found { is_some result ≡ has_key key.now self.now }
    {
        self.table.get_index_of(key)
    }

    /// The key at a place, and nothing where none stands.
    pub(crate) fn text(&self, at: usize) -> &[u8]
        ensures { result.now ≡ get_or self.now at [] }
    {
        match self.table.get_index(at) {
            Some(key) => key.bytes.as_slice(),
            None => &[],
        }
    }

    /// The place of a key, which is put behind those that are there where it is new.
    pub(crate) fn place_or_add(&mut self, alloc: Global, key: &[u8]) -> Result<usize, NoMemory>
        ensures placed { IfOk result (λ at. slice_get self.new at ≡ Some key.now) }
        ensures grown { take (length self.old) self.new ≡ self.old }
    {
        if let Some(at) = self.place(key) {
            return Ok(at);
        }
        let at = self.table.len();
        self.add(alloc, key)?;
        Ok(at)
    }

    /// Puts a new key behind those that are there. Where memory is wanting the keys stay.
    pub(crate) fn add(&mut self, alloc: Global, key: &[u8]) -> Result<(), NoMemory>
        requires { has_key key.now self.old ≡ false }
        ensures added { OnOk result (self.new ≡ self.old ++ key.now ∷ []) }
        ensures unchanged { OnErr result (self.new ≡ self.old) }
    {
        let bytes = SmallVec::from_slice(alloc, key)?;
        let Ok(_) = self.table.insert(Key { bytes }) else {
            return Err(NoMemory);
        };
        Ok(())
    }
}
