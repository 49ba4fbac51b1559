//! Lists whose items have a key each, by which they are looked up.

ghost use Rattle.std.specs.Prelude.{◌≡◌, ℕ, List, [], ◌∷◌, ◌++◌, IfOk, OnOk};
ghost use Rattle.bv_base.specs.KeySets.{has_item};

use crate::key_set::KeySet;
use crate::memory::NoMemory;
use crate::seq::Seq;
use std::alloc::Global;
use std::marker::Model;

/// An item of a list. `key` is its key as keys are compared.
pub trait Keyed {
    ghost key: { Self → List ℕ };

    /// A copy of the key.
    fn copied_key(&self, alloc: Global) -> Result<Vec<u8>, NoMemory>
        ensures { IfOk result (λ copy. copy.items ≡ key self.now) };
}

/// Items in order, with the set of their keys. Contracts see their list.
#[derive(Drop)]
pub struct KeyedList<T: Keyed> {
    alloc: Global,
    list: Seq<T>,
    keys: KeySet,
}

impl<T: Keyed> Model for KeyedList<T> {
    ghost use Rattle.std.specs.Prelude.{◌≡◌, ℕ, List};
    ghost use Rattle.bv_base.specs.KeySets.{has_item, has_key};

    ghost Value = { List T };

    ghost view = { λ l. l.list };

    ghost invariant = { λ l. (key : List ℕ) → has_item T.key key l.list ≡ has_key key l.keys };
}

impl<T: Keyed + Drop> KeyedList<T> {
    /// No item.
    pub fn new(alloc: Global) -> KeyedList<T>
        ensures { result ≡ [] }
    {
        KeyedList {
            alloc,
            list: Seq::new(alloc),
            keys: KeySet::new(alloc),
        }
    }

    /// Whether an item with this key is there, by one look-up in a hash table.
    pub fn has(&self, key: &[u8]) -> bool
        ensures { result ≡ has_item T.key key.now self.now }
    {
        self.keys.has(key)
    }

    /// Adds an item.
    pub fn add(&mut self, item: T) -> Result<(), NoMemory>
        ensures { OnOk result (self.new ≡ self.old ++ item ∷ []) }
    {
        let key = item.copied_key(self.alloc)?;
        self.list.push(item)?;
        let Ok(_) = self.keys.add(key) else {
            let _ = self.list.pop();
            return Err(NoMemory);
        };
        Ok(())
    }

    /// The items as a list, which aren't copied.
    pub fn into_seq(self) -> Seq<T>
        ensures { result ≡ self }
    {
        let KeyedList { list, .. } = self;
        list
    }
}
