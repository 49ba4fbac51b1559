//! An entry of a database.

ghost use Rattle.std.specs.Prelude.{◌≡◌, length, option_map, slice_get};
ghost use Rattle.bib_read.specs.Names.{text_of};

use crate::packed_fields::PackedFields;
use crate::raw_fields::RawField;
use crate::row::Row;
use std::marker::Model;

/// An entry as it stands in its database, lent out of the memory that all entries share.
#[derive(Drop)]
pub struct RawEntry<'a> {
    pub(crate) fields: &'a PackedFields,
    pub(crate) row: Row,
}

impl<'a> Model for RawEntry<'a> {
    ghost use Rattle.bib_read.specs.RawEntries as raw;

    ghost Value = { raw.RawEntry };

    ghost view = { λ e. raw.entry_in e.fields.now e.row };

    ghost invariant = { λ e. raw.IsWithin e.fields.now e.row };
}

impl<'a> RawEntry<'a> {
    /// The same entry again.
    pub fn copied(&self) -> RawEntry<'a>
        ensures { result ≡ self.now }
    {
        RawEntry {
            fields: self.fields,
            row: self.row,
        }
    }

    /// The key, spelled as in the database.
    pub fn key(&self) -> &'a [u8]
        ensures { result.now ≡ self.now.key }
    {
        self.fields.value(self.row.begin as usize)
    }

    /// The lowered type.
    pub fn entry_type(&self) -> &'a [u8]
        ensures { result.now ≡ self.now.entry_type }
    {
        self.fields.name(self.row.begin as usize)
    }

    /// How many fields there are.
    pub fn len(&self) -> usize
        ensures { result ≡ length self.now.fields }
    {
        self.row.count as usize
    }

    /// The field at a place, counted from 0.
    pub fn field(&self, at: usize) -> Option<RawField<'a>>
        ensures { result ≡ slice_get self.now.fields at }
    {
        if at >= self.row.count as usize {
            return None;
        }
        self.fields.get(self.row.begin as usize + 1 + at)
    }

    /// The value of the field of this name. Fields are passed over one after the other.
    pub fn find(&self, name: &[u8]) -> Option<&'a [u8]>
        ensures { option_map (λ value. value.now) result ≡ text_of name.now self.now.fields }
    {
        for at in 0..self.len() {
            let Some(field) = self.field(at) else {
                return None;
            };
            if name == field.name {
                return Some(field.value);
            }
        }
        None
    }
}
