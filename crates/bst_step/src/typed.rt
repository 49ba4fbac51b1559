//! Entries with the names that their types are.

ghost use Rattle.std.specs.Prelude.{◌≡◌, IfOk};

use crate::rows::place_at;
use bv_base::memory::NoMemory;
use entry_store::entry::{Entry, EntryList};
use name_table::names::{NameId, Names};
use std::alloc::Global;
use std::marker::Model;

/// The id of no name.
const NO_NAME: NameId = NameId(4294967295);

/// An entry, with a hint to its type. Contracts see the entry.
#[derive(Drop)]
pub struct TypedEntry<'a> {
    entry: Entry<'a>,
    /// The id of the name that its type is, where the style has one when the run opens; a hint, which is tested where it is used.
    type_id: Option<NameId>,
}

impl<'a> Model for TypedEntry<'a> {
    ghost use Rattle.bst_meaning.specs.EntryLists.{Entry};

    ghost Value = { Entry };

    ghost view = { λ e. e.entry };
}

impl<'a> TypedEntry<'a> {
    /// An entry with a hint to its type.
    pub fn new(entry: Entry<'a>, type_id: Option<NameId>) -> TypedEntry<'a>
        ensures { result ≡ entry.entry }
    {
        TypedEntry { entry, type_id }
    }

    /// The entry.
    pub fn entry(&self) -> &Entry<'a>
        ensures { result.now ≡ self.now }
    {
        &self.entry
    }

    /// The id that was given for its type, which is tested where it is used.
    pub fn type_id(&self) -> Option<NameId> {
        self.type_id
    }
}

/// By the places of entries, the id of the name that the type of each is, or of none where there is no such name.
pub fn type_ids(alloc: Global, list: &EntryList, names: &Names) -> Result<Vec<NameId>, NoMemory> {
    let mut ids = Vec::with_capacity(alloc, list.len())?;
    for place in 0..list.len() {
        ids.push(type_id_of(list, place, names))?;
    }
    Ok(ids)
}

/// The id of the name that the type of the entry at a place is.
fn type_id_of(list: &EntryList, place: usize, names: &Names) -> NameId {
    match list.at(place) {
        Some(entry) => names.find(entry.entry_type()).unwrap_or(NO_NAME),
        None => NO_NAME,
    }
}

/// The id of the name that the type of the entry of a row is, by the places of entries.
pub fn type_id_at(ids: &[NameId], rows: &[u32], at: usize) -> Option<NameId> {
    let Some(place) = place_at(rows, at) else {
        return None;
    };
    match ids.get(place) {
        Some(id) => Some(*id),
        None => None,
    }
}
