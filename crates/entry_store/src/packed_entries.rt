//! Entries whose texts stand one after the other in one piece of memory, and take none for what they don't have.

ghost use Rattle.std.specs.Prelude.{◌≡◌, ◌<◌, [], ◌∷◌, ◌++◌, get_or, length, map, option_map, slice_get, IfOk, OnErr, OnOk};
ghost use Rattle.entry_store.specs.NumberedTexts.{under_places};
ghost use Rattle.entry_store.specs.PackedEntries.{bytes_in, no_row, nothing, texts_of, values_of, with_entry};

use crate::entry::FieldValue;
use crate::numbered_texts::NumberedTexts;
use crate::row::Row;
use bv_base::memory::NoMemory;
use name_table::names::NameId;
use std::alloc::Global;
use std::marker::Model;

/// Entries in order, whose fields have the same names. Contracts see these names and the list of the entries. An entry takes the
/// bytes of its key, its type and the values that it has, eight more for each of these, and eight for where they begin and how many
/// values they are. A field that it doesn't have takes none. No entry begins behind more than 4294967295 of these texts: there is
/// no memory for it.
#[derive(Drop)]
pub struct PackedEntries {
    names: Vec<NameId>,
    rows: Vec<Row>,
    texts: NumberedTexts,
}

impl Model for PackedEntries {
    ghost use Rattle.entry_store.specs.PackedEntries.{Alike, AreWithin, entries_in};

    ghost Value = { Alike };

    ghost view = { λ e. record { names = e.names.items; entries = entries_in e.names.items e.texts e.rows.items } };

    ghost invariant = { λ e. AreWithin e.texts e.rows.items };
}

impl PackedEntries {
    /// No entry, with these names of fields.
    pub fn new(alloc: Global, names: Vec<NameId>) -> PackedEntries
        ensures { result ≡ record { names = names.items; entries = [] } }
    {
        PackedEntries {
            names,
            rows: Vec::new(alloc),
            texts: NumberedTexts::new(alloc),
        }
    }

    /// Appends an entry with a key, a type, and the values of its fields in the order of their names. Fields behind the last value
    /// are missing. Where there is no memory for it, no entry is left.
    pub fn push(
        &mut self,
        key: &[u8],
        entry_type: &[u8],
        values: &[Option<&[u8]>],
    ) -> Result<(), NoMemory>
        ensures ok { OnOk result
            (self.new ≡ with_entry key.now entry_type.now (map (option_map (λ text. text.now)) values.now) self.old) }
        ensures err { OnErr result (self.new ≡ record { names = self.old.names; entries = [] }) }
    {
        let fields = self.names.len();
        let Ok(_) = append(
            &mut self.texts,
            &mut self.rows,
            fields,
            key,
            entry_type,
            values,
        ) else {
            self.texts.clear();
            self.rows.clear();
            return Err(NoMemory);
        };
        Ok(())
    }

    /// How many entries there are.
    pub fn len(&self) -> usize
        ensures { result ≡ length self.now.entries }
    {
        self.rows.len()
    }

    /// The names of the fields.
    pub fn names(&self) -> &[NameId]
        ensures { result.now ≡ self.now.names }
    {
        self.names.as_slice()
    }

    /// The key of the entry at a place.
    pub(crate) fn key(&self, at: usize) -> &[u8]
        requires { at < length self.now.entries }
        ensures { result.now ≡ (get_or self.now.entries at nothing).key }
    {
        let row = row_at(self.rows.as_slice(), at);
        bytes_of(self.texts.at(row.begin as usize))
    }

    /// The type of the entry at a place.
    pub(crate) fn entry_type(&self, at: usize) -> &[u8]
        requires { at < length self.now.entries }
        ensures { result.now ≡ (get_or self.now.entries at nothing).entry_type }
    {
        let row = row_at(self.rows.as_slice(), at);
        bytes_of(self.texts.at(row.begin as usize + 1))
    }

    /// The names of the fields of the entry at a place.
    pub(crate) fn field_names(&self, at: usize) -> &[NameId]
        requires { at < length self.now.entries }
        ensures { result.now ≡ map (λ f. f.name) (get_or self.now.entries at nothing).fields }
    {
        self.names.as_slice()
    }

    /// A field of the entry at a place.
    #[inline]
    pub(crate) fn field(&self, at: usize, field: usize) -> Option<FieldValue<'_>>
        requires { at < length self.now.entries }
        ensures { result ≡ slice_get (get_or self.now.entries at nothing).fields field }
    {
        let row = row_at(self.rows.as_slice(), at);
        match self.names.as_slice().get(field) {
            Some(name) => Some(FieldValue {
                name: *name,
                value: self
                    .texts
                    .under(field, row.begin as usize + 2, row.count as usize),
            }),
            None => None,
        }
    }
}

/// The bytes of a text, and none where it is missing.
fn bytes_of(text: Option<&[u8]>) -> &[u8]
    ensures { result.now ≡ bytes_in (option_map (λ bytes. bytes.now) text.entry) }
{
    match text {
        Some(bytes) => bytes,
        None => &[],
    }
}

/// Where the entry at a place stands, and the beginning where none is.
#[inline]
fn row_at(rows: &[Row], at: usize) -> Row
    ensures { result ≡ get_or rows.now at no_row }
{
    match rows.get(at) {
        Some(row) => *row,
        None => Row { begin: 0, count: 0 },
    }
}

/// Appends an entry with so many fields: its texts to those of the others, and its row.
fn append(
    texts: &mut NumberedTexts,
    rows: &mut Vec<Row>,
    fields: usize,
    key: &[u8],
    entry_type: &[u8],
    values: &[Option<&[u8]>],
) -> Result<(), NoMemory>
    ensures texts { OnOk result
        (texts.new ≡ texts.old ++ texts_of fields key.now entry_type.now (map (option_map (λ text. text.now)) values.now)) }
    ensures rows { OnOk result (rows.new.items ≡ rows.old.items ++ record {
      begin = length texts.old;
      count = length (values_of fields (map (option_map (λ text. text.now)) values.now));
    } ∷ []) }
{
    let row = append_texts(texts, fields, key, entry_type, values)?;
    rows.push(row)?;
    Ok(())
}

/// Appends the texts of an entry with so many fields to those of the others, and gives its row.
fn append_texts(
    texts: &mut NumberedTexts,
    fields: usize,
    key: &[u8],
    entry_type: &[u8],
    values: &[Option<&[u8]>],
) -> Result<Row, NoMemory>
    ensures texts { OnOk result
        (texts.new ≡ texts.old ++ texts_of fields key.now entry_type.now (map (option_map (λ text. text.now)) values.now)) }
    ensures row { IfOk result (λ row. row ≡ record {
      begin = length texts.old;
      count = length (values_of fields (map (option_map (λ text. text.now)) values.now));
    }) }
{
    let Ok(begin) = u32::try_from(texts.len()) else {
        return Err(NoMemory);
    };
    texts.push(0, key)?;
    texts.push(0, entry_type)?;
    let count = append_values(texts, fields, values)?;
    Ok(Row { begin, count })
}

/// Appends the values that an entry with so many fields has, and gives how many these are.
fn append_values(
    texts: &mut NumberedTexts,
    fields: usize,
    values: &[Option<&[u8]>],
) -> Result<u32, NoMemory>
    ensures texts { OnOk result (texts.new ≡ texts.old ++ values_of fields (map (option_map (λ text. text.now)) values.now)) }
    ensures count { IfOk result (λ count. count ≡ length (values_of fields (map (option_map (λ text. text.now)) values.now))) }
{
    let before = texts.len();
    for at in 0..fields.min(values.len()) {
        append_value(texts, at, values[at])?;
    }
    let Ok(count) = u32::try_from(texts.len().saturating_sub(before)) else {
        return Err(NoMemory);
    };
    Ok(count)
}

/// Appends the value of the field at a place, where it is there.
fn append_value(
    texts: &mut NumberedTexts,
    place: usize,
    value: Option<&[u8]>,
) -> Result<(), NoMemory>
    ensures { OnOk result (texts.new ≡ texts.old ++ under_places place (option_map (λ text. text.now) value.entry ∷ [])) }
{
    let Some(text) = value else {
        return Ok(());
    };
    let Ok(number) = u32::try_from(place) else {
        return Err(NoMemory);
    };
    texts.push(number, text)
}
