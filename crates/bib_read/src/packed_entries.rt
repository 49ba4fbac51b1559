//! The entries of databases in one piece of memory.

ghost use Rattle.std.specs.Prelude.{◌≡◌, [], ◌∷◌, ◌++◌, List, length, slice_get, take, IfOk, OnErr, OnOk};
ghost use Rattle.bib_read.specs.RawEntries as raw;

use crate::packed_fields::PackedFields;
use crate::raw_entry::RawEntry;
use crate::raw_fields::RawFields;
use crate::row::Row;
use bv_base::memory::NoMemory;
use std::alloc::Global;
use std::marker::Model;

/// Entries in order. Each stands as its key under its type, and then its fields; where it begins is its row. Contracts see the
/// list of entries.
#[derive(Drop)]
pub(crate) struct PackedEntries {
    fields: PackedFields,
    rows: Vec<Row>,
}

impl Model for PackedEntries {
    ghost use Rattle.std.specs.Prelude.{List};
    ghost use Rattle.bib_read.specs.RawEntries as raw;

    ghost Value = { List raw.RawEntry };

    ghost view = { λ e. raw.entries_in e.fields e.rows.items };

    ghost invariant = { λ e. raw.AreWithin e.fields e.rows.items };
}

impl PackedEntries {
    /// No entry.
    pub(crate) fn new(alloc: Global) -> PackedEntries
        ensures { result ≡ [] }
    {
        PackedEntries {
            fields: PackedFields::new(alloc),
            rows: Vec::new(alloc),
        }
    }

    /// How many entries there are.
    pub(crate) fn len(&self) -> usize
        ensures { result ≡ length self.now }
    {
        self.rows.len()
    }

    /// The entry at a place, counted from 0.
    pub(crate) fn get(&self, at: usize) -> Option<RawEntry<'_>>
        ensures { result ≡ slice_get self.now at }
    {
        match self.rows.as_slice().get(at) {
            Some(row) => Some(RawEntry {
                fields: &self.fields,
                row: *row,
            }),
            None => None,
        }
    }

    /// Adds an entry. Where there is no memory for it, the entries stay.
    pub(crate) fn push(
        &mut self,
        key: &[u8],
        entry_type: &[u8],
        fields: &RawFields,
    ) -> Result<(), NoMemory>
        ensures ok { OnOk result (self.new
            ≡ self.old ++ record { key = key.now; entry_type = entry_type.now; fields = fields.now } ∷ []) }
        ensures err { OnErr result (self.new ≡ self.old) }
    {
        let row = append(&mut self.fields, key, entry_type, fields)?;
        self.rows.push(row)?;
        Ok(())
    }

    /// Lets the last entry go. What it has stays in memory, behind all entries.
    pub(crate) fn drop_last(&mut self)
        ensures { (before : List raw.RawEntry) (last : raw.RawEntry) → self.old ≡ before ++ last ∷ [] → self.new ≡ before }
    {
        self.rows.truncate(self.rows.len().saturating_sub(1));
    }
}

/// Appends what an entry has, and gives its row.
fn append(
    packed: &mut PackedFields,
    key: &[u8],
    entry_type: &[u8],
    fields: &RawFields,
) -> Result<Row, NoMemory>
    ensures grown { take (length packed.old) packed.new ≡ packed.old }
    ensures entry { IfOk result (λ row. raw.entry_in packed.new row
        ≡ record { key = key.now; entry_type = entry_type.now; fields = fields.now }) }
    ensures within { IfOk result (raw.IsWithin packed.new) }
{
    let Ok(begin) = u32::try_from(packed.len()) else {
        return Err(NoMemory);
    };
    let Ok(count) = u32::try_from(fields.len()) else {
        return Err(NoMemory);
    };
    packed.push(entry_type, key)?;
    append_fields(packed, fields)?;
    Ok(Row { begin, count })
}

/// Appends fields.
fn append_fields(packed: &mut PackedFields, fields: &RawFields) -> Result<(), NoMemory>
    ensures grown { take (length packed.old) packed.new ≡ packed.old }
    ensures appended { OnOk result (packed.new ≡ packed.old ++ fields.now) }
{
    for at in 0..fields.len() {
        let Some(field) = fields.get(at) else {
            unreachable!()
        };
        packed.push(field.name, field.value)?;
    }
    Ok(())
}
