//! The entries of the databases by their keys.

ghost use Rattle.std.specs.Prelude.{◌≡◌, length, slice_get, IfOk};
ghost use Rattle.bib_read.specs.Names.{entry_under};
ghost use Rattle.entry_list.specs.Keys.{entry_of};

use bib_read::entries::Entries;
use bib_read::raw_entry::RawEntry;
use bv_base::key_set::lowered;
use bv_base::memory::NoMemory;
use std::alloc::Global;
use std::marker::Model;

/// The entries of the databases, which are found by the table of keys that was made as they were read. Contracts see the
/// entries.
#[derive(Drop)]
pub(crate) struct EntryTable<'a> {
    alloc: Global,
    entries: &'a Entries,
}

impl<'a> Model for EntryTable<'a> {
    ghost use Rattle.std.specs.Prelude.{List};
    ghost use Rattle.bib_read.specs.RawEntries.{RawEntry};

    ghost Value = { List RawEntry };

    ghost view = { λ t. t.entries.now };
}

impl<'a> EntryTable<'a> {
    /// The table of these entries, which are lent.
    pub(crate) fn new(alloc: Global, entries: &'a Entries) -> EntryTable<'a>
        ensures { result ≡ entries.now }
    {
        EntryTable { alloc, entries }
    }

    /// How many entries there are.
    pub(crate) fn len(&self) -> usize
        ensures { result ≡ length self.now }
    {
        self.entries.len()
    }

    /// The entry at a place, counted from 0.
    pub(crate) fn get(&self, at: usize) -> Option<RawEntry<'a>>
        ensures { result ≡ slice_get self.now at }
    {
        self.entries.get(at)
    }

    /// The entry with this key, by one look-up in a hash table.
    pub(crate) fn find(&self, key: &[u8]) -> Result<Option<RawEntry<'a>>, NoMemory>
        ensures { IfOk result (λ found. found ≡ entry_of key.now self.now) }
    {
        let key = lowered(self.alloc, key)?;
        Ok(self.find_lowered(key.as_slice()))
    }

    /// The entry with a key that is given lowered, by one look-up in a hash table.
    pub(crate) fn find_lowered(&self, key: &[u8]) -> Option<RawEntry<'a>>
        ensures { result ≡ entry_under key.now self.now }
    {
        self.entries.find(key)
    }
}
