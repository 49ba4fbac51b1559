//! The entries of a run, each with its variables.

ghost use Rattle.std.specs.Prelude.{◌≡◌, ◌≤◌, ℕ, List, [], length, map, option_map, slice_get, IfOk, OnErr, OnOk};
ghost use Rattle.std.specs.Option.{option_and_then};
ghost use Rattle.bst_meaning.specs.Config as config;
ghost use Rattle.bst_meaning.specs.Machine as rule;
ghost use Rattle.bst_meaning.specs.Sorting.{sorted};
ghost use Rattle.bst_step.specs.EntryStates.{EntriesWithin, state_in, with_held_in};
ghost use Rattle.bst_step.specs.Held.{value_of};
ghost use Rattle.bst_step.specs.Machine.{key_at};
ghost use Rattle.bst_step.specs.Marks.{AreLent, AreLentIn, marked_in, marked_of, sorted_marks};
ghost use Rattle.bst_step.specs.Variables.{VariablesWithin, held_at, variable_in};

use crate::fields::{field_of, standing};
use crate::held::{Held, Operand};
use crate::order::sort_rows;
use crate::packed_values::PackedValues;
use crate::rows::{entry_at, place_at, rows_of, value_at};
use crate::typed::{TypedEntry, type_id_at, type_ids};
use crate::variables::{Variable, Variables};
use bv_base::memory::NoMemory;
use entry_store::entry::EntryList;
use name_table::names::{NameId, Names};
use std::alloc::Global;
use std::marker::Model;

/// The entries of a run with their variables, whose values stand in one list, so that an entry takes no allocation. Contracts
/// see the list of the entries.
#[derive(Drop)]
pub struct EntryTable<'a> {
    /// The variables that each entry has, as the run opens.
    own: Variables<'a>,
    /// The list with which the run opened.
    list: &'a EntryList,
    /// By the id of its name, the place of each field, where the fields of all entries stand so.
    places: Option<Vec<usize>>,
    /// By the place of each entry in the list, the id of the name that its type is.
    type_ids: Vec<NameId>,
    /// The places of the entries in the list, in their order now.
    rows: Vec<u32>,
    /// What the variables of the entry at each place hold.
    values: PackedValues<'a>,
}

impl<'a> Model for EntryTable<'a> {
    ghost use Rattle.std.specs.Prelude.{List, length, IfSome};
    ghost use Rattle.bst_step.specs.EntryStates.{EntryState, IsTable, states_at};
    ghost use Rattle.bst_step.specs.Places.{FieldsStandAt};
    ghost use Rattle.bst_step.specs.Variables.{names_in};

    ghost Value = { List EntryState };

    ghost view = { λ t. states_at (names_in t.own) t.values t.list.now.entries t.rows.items };

    ghost invariant = { λ t.
        IsTable (length (names_in t.own)) t.values t.list.now.entries t.rows.items
        × IfSome t.places (λ places. FieldsStandAt places.items t.list.now.entries) };
}

impl<'a> EntryTable<'a> {
    /// The entries of a list, each with the same variables, with the places of their fields.
    pub fn new(
        alloc: Global,
        own: Variables<'a>,
        list: &'a EntryList,
        names: &Names,
        places: Vec<usize>,
    ) -> Result<EntryTable<'a>, NoMemory>
        requires within { VariablesWithin 0 own }
        requires marks { AreLent own }
        ensures within { IfOk result (EntriesWithin 0) }
        ensures marks { IfOk result AreLentIn }
        ensures opened { IfOk result (λ table.
            map (state_in []) table ≡ config.opening_entries (map (variable_in []) own.entry) 0 list.now.entries) }
    {
        let count = list.len();
        let rows = rows_of(alloc, count)?;
        let values = PackedValues::repeated(alloc, own.values(), count)?;
        let type_ids = type_ids(alloc, list, names)?;
        Ok(EntryTable {
            own,
            list,
            places: standing(places, list),
            type_ids,
            rows,
            values,
        })
    }

    /// How many entries there are.
    pub fn len(&self) -> usize
        ensures { result ≡ length self.now }
    {
        self.rows.as_slice().len()
    }

    /// The entry at a place.
    pub fn entry(&self, at: usize) -> Option<TypedEntry<'a>>
        ensures { result ≡ option_map (λ e. e.entry) (slice_get self.now at) }
    {
        let list = self.list;
        let rows = self.rows.as_slice();
        match entry_at(list, rows, at) {
            Some(entry) => Some(TypedEntry::new(
                entry,
                type_id_at(self.type_ids.as_slice(), rows, at),
            )),
            None => None,
        }
    }

    /// The value of a field of the entry at a place.
    pub fn field(&self, at: usize, name: NameId) -> Option<Operand<'a>>
        ensures { option_map value_of result ≡ option_map (λ e. rule.field_in name e.entry.fields) (slice_get self.now at) }
    {
        let list = self.list;
        match entry_at(list, self.rows.as_slice(), at) {
            Some(entry) => Some(field_of(&self.places, name, &entry)),
            None => None,
        }
    }

    /// The position of the entry at a place in the list with which the run opened.
    pub fn position(&self, at: usize) -> Option<u64>
        ensures { result ≡ option_map (λ e. e.position) (slice_get self.now at) }
    {
        match place_at(self.rows.as_slice(), at) {
            Some(place) => Some(place as u64),
            None => None,
        }
    }

    /// The key of the entry with this position.
    pub fn key(&self, position: u64) -> &'a [u8]
        ensures { (pool : List ℕ) → result.now ≡ key_at position (map (state_in pool) self.now) }
    {
        let list = self.list;
        match list.at(position as usize) {
            Some(entry) => entry.key(),
            None => &[],
        }
    }

    /// What a variable of the entry at a place holds.
    pub fn value(&self, at: usize, name: NameId) -> Option<Held<'a>>
        ensures { result ≡ option_and_then (λ e. held_at name.0 e.variables) (slice_get self.now at) }
    {
        let Some(index) = self.own.place(name) else {
            return None;
        };
        let count = self.own.values().len();
        match place_at(self.rows.as_slice(), at) {
            Some(place) => value_at(&self.values, place, count, index),
            None => None,
        }
    }

    /// Gives a variable of the entry at a place, where there is one, its value.
    pub fn set(&mut self, at: usize, new: Variable<'a>)
        ensures { self.new ≡ with_held_in new.entry at self.old }
    {
        let Some(among) = self.own.place(new.name) else {
            return;
        };
        let count = self.own.values().len();
        if let Some(place) = place_at(self.rows.as_slice(), at) {
            let index = place.saturating_mul(count).saturating_add(among);
            if index < self.values.len() {
                self.values.set(index, new.value);
            }
        }
    }

    /// Orders the entries by their sort keys, whose bytes may stand in a pool. Equal keys keep their order.
    pub fn sort(&mut self, pool: &[u8]) -> Result<(), NoMemory>
        ensures sorted { OnOk result (map (state_in pool.now) self.new ≡ sorted (map (state_in pool.now) self.old)) }
        ensures within { (end : ℕ) → EntriesWithin end self.old → EntriesWithin end self.new }
        ensures marks { OnOk result (map marked_in self.new ≡ sorted_marks (map (state_in pool.now) self.old) (map marked_in self.old)) }
        ensures kept { OnErr result (self.new ≡ self.old) }
    {
        sort_rows(pool, &self.own, &self.values, &mut self.rows)
    }

    /// Brings the bytes of the strings that these variables and those of entries hold to the front of their pool.
    pub fn renew(
        &mut self,
        globals: &mut Variables<'a>,
        pool: &mut Vec<u8>,
        front: usize,
    ) -> Result<(), NoMemory>
        requires globals { VariablesWithin (length pool.old.items) globals.old }
        requires entries { EntriesWithin (length pool.old.items) self.old }
        ensures globals_within { VariablesWithin (length pool.new.items) globals.new }
        ensures globals_seen { map (variable_in pool.new.items) globals.new ≡ map (variable_in pool.old.items) globals.old }
        ensures globals_marks { map marked_of globals.new ≡ map marked_of globals.old }
        ensures within { EntriesWithin (length pool.new.items) self.new }
        ensures seen { map (state_in pool.new.items) self.new ≡ map (state_in pool.old.items) self.old }
        ensures marks { map marked_in self.new ≡ map marked_in self.old }
    {
        globals.renew(&mut self.values, pool, front)
    }
}
