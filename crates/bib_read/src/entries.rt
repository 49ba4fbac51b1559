//! The entries of databases in order, and their keys.

ghost use Rattle.std.specs.Prelude.{◌≡◌, false, [], ◌∷◌, ◌++◌, length, slice_get, OnOk};
ghost use Rattle.name_table.specs.Names.{lowered};
ghost use Rattle.bib_read.specs.Names.{entry_under, has_entry};

use crate::key_places::KeyPlaces;
use crate::packed_entries::PackedEntries;
use crate::raw_entry::RawEntry;
use crate::raw_fields::RawFields;
use bv_base::memory::NoMemory;
use std::alloc::Global;
use std::marker::Model;

/// Entries in order, with the places of their lowered keys, which stay from one text to the next and are the table by which
/// entries are joined. Contracts see their list.
#[derive(Drop)]
pub struct Entries {
    list: PackedEntries,
    places: KeyPlaces,
}

impl Model for Entries {
    ghost use Rattle.std.specs.Prelude.{◌≡◌, List};
    ghost use Rattle.bib_read.specs.Names.{lowered_keys};
    ghost use Rattle.bib_read.specs.RawEntries as raw;

    ghost Value = { List raw.RawEntry };

    ghost view = { λ e. e.list };

    ghost invariant = { λ e. e.places ≡ lowered_keys e.list };
}

impl Entries {
    /// No entry.
    pub fn new(alloc: Global) -> Entries
        ensures { result ≡ [] }
    {
        Entries {
            list: PackedEntries::new(alloc),
            places: KeyPlaces::new(alloc),
        }
    }

    /// How many entries there are.
    pub fn len(&self) -> usize
        ensures { result ≡ length self.now }
    {
        self.list.len()
    }

    /// The entry at a place, counted from 0.
    pub fn get(&self, at: usize) -> Option<RawEntry<'_>>
        ensures { result ≡ slice_get self.now at }
    {
        self.list.get(at)
    }

    /// Whether an entry with this lowered key is there, by one look-up in a hash table.
    pub(crate) fn has(&self, key: &[u8]) -> bool
        ensures { result ≡ has_entry key.now self.now }
    {
        self.places.has(key)
    }

    /// The entry with this lowered key, by one look-up in a hash table.
    pub fn find(&self, key: &[u8]) -> Option<RawEntry<'_>>
        ensures { result ≡ entry_under key.now self.now }
    {
        match self.places.place(key) {
            Some(at) => self.get(at),
            None => None,
        }
    }

    /// Adds an entry, of which the lowered key is given, too, where no entry has it.
    pub(crate) fn add(
        &mut self,
        alloc: Global,
        lowered_key: &[u8],
        key: &[u8],
        entry_type: &[u8],
        fields: &RawFields,
    ) -> Result<(), NoMemory>
        requires lowered { lowered_key.now ≡ lowered key.now }
        requires fresh { has_entry lowered_key.now self.old ≡ false }
        ensures { OnOk result (self.new
            ≡ self.old ++ record { key = key.now; entry_type = entry_type.now; fields = fields.now } ∷ []) }
    {
        self.list.push(key, entry_type, fields)?;
        let Ok(()) = self.places.add(alloc, lowered_key) else {
            self.list.drop_last();
            return Err(NoMemory);
        };
        Ok(())
    }
}
