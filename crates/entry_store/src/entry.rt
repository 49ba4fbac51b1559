//! The entries that a style formats.

ghost use Rattle.std.specs.Prelude.{◌≡◌, ◌<◌, length, map, slice_get};

use crate::packed_entries::PackedEntries;
use bv_base::text::Text;
use name_table::names::NameId;
use std::marker::Model;

/// A field of an entry: its bytes, or `None` where the entry doesn't have it.
#[derive(Drop)]
pub struct FieldValue<'a> {
    pub name: NameId,
    pub value: Option<&'a [u8]>,
}

impl<'a> Model for FieldValue<'a> {
    ghost use Rattle.std.specs.Prelude.{option_map};
    ghost use Rattle.bst_meaning.specs.FieldValues as fields;

    ghost Value = { fields.FieldValue };

    ghost view = { λ f. record { name = f.name; value = option_map (λ bytes. bytes.now) f.value } };
}

/// An entry of a list, which has its texts. Contracts see its key as the citation spells it, its type, and each declared field and
/// `crossref`, in the order of their ids.
#[derive(Drop)]
pub struct Entry<'a> {
    entries: &'a PackedEntries,
    at: usize,
}

impl<'a> Model for Entry<'a> {
    ghost use Rattle.std.specs.Prelude.{◌<◌, get_or, length};
    ghost use Rattle.bst_meaning.specs.EntryLists as lists;
    ghost use Rattle.entry_store.specs.PackedEntries.{nothing};

    ghost Value = { lists.Entry };

    ghost view = { λ e. get_or e.entries.now.entries e.at nothing };

    ghost invariant = { λ e. e.at < length e.entries.now.entries };
}

impl<'a> Entry<'a> {
    /// The same again.
    pub fn copied(&self) -> Entry<'a>
        ensures { result ≡ self.now }
    {
        Entry {
            entries: self.entries,
            at: self.at,
        }
    }

    /// The key.
    pub fn key(&self) -> &'a [u8]
        ensures { result.now ≡ self.now.key }
    {
        let entries = self.entries;
        entries.key(self.at)
    }

    /// The type.
    pub fn entry_type(&self) -> &'a [u8]
        ensures { result.now ≡ self.now.entry_type }
    {
        let entries = self.entries;
        entries.entry_type(self.at)
    }

    /// The names of the fields, with those that are missing.
    pub fn names(&self) -> &'a [NameId]
        ensures { result.now ≡ map (λ f. f.name) self.now.fields }
    {
        let entries = self.entries;
        entries.field_names(self.at)
    }

    /// The field at a place, counted from 0.
    pub fn field(&self, at: usize) -> Option<FieldValue<'a>>
        ensures { result ≡ slice_get self.now.fields at }
    {
        let entries = self.entries;
        entries.field(self.at, at)
    }
}

/// The entries of a run in order, and the database's preamble.
#[derive(Drop)]
pub struct EntryList {
    entries: PackedEntries,
    preamble: Text,
}

impl Model for EntryList {
    ghost use Rattle.bst_meaning.specs.EntryLists as lists;

    ghost Value = { lists.EntryList };

    ghost view = { λ l. record { entries = l.entries.entries; preamble = l.preamble } };
}

impl EntryList {
    /// These entries with this preamble.
    pub fn new(entries: PackedEntries, preamble: Text) -> EntryList
        ensures { result ≡ record { entries = entries.entries; preamble = preamble } }
    {
        EntryList { entries, preamble }
    }

    /// How many entries there are.
    pub fn len(&self) -> usize
        ensures { result ≡ length self.now.entries }
    {
        self.entries.len()
    }

    /// The entry at a place, counted from 0.
    pub fn at(&self, at: usize) -> Option<Entry<'_>>
        ensures { result ≡ slice_get self.now.entries at }
    {
        let entries = &self.entries;
        if at < entries.len() {
            Some(Entry { entries, at })
        } else {
            None
        }
    }

    /// The database's preamble.
    pub fn preamble(&self) -> &[u8]
        ensures { result.now ≡ self.now.preamble }
    {
        self.preamble.as_slice()
    }
}
