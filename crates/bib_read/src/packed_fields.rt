//! Fields in one piece of memory, with each name once.

ghost use Rattle.std.specs.Prelude.{◌≡◌, [], ◌∷◌, ◌++◌, get_or, length, option_map, slice_get, Some, OnErr, OnOk};
ghost use Rattle.bib_read.specs.RawFields as raw;

use crate::key_places::KeyPlaces;
use crate::raw_fields::RawField;
use bv_base::memory::NoMemory;
use bv_base::packed_texts::PackedTexts;
use std::alloc::Global;
use std::marker::Model;

/// Fields in order: their values one after the other, for each the number of its name, and each name once. Contracts see the
/// list of fields.
#[derive(Drop)]
pub(crate) struct PackedFields {
    alloc: Global,
    names: KeyPlaces,
    numbers: Vec<u32>,
    values: PackedTexts,
}

impl Model for PackedFields {
    ghost use Rattle.std.specs.Prelude.{List};
    ghost use Rattle.bib_read.specs.RawFields as raw;

    ghost Value = { List raw.RawField };

    ghost view = { λ f. raw.fields_named f.names f.numbers.items f.values };

    ghost invariant = { λ f. raw.AreNumbered f.names f.numbers.items f.values };
}

impl PackedFields {
    /// No field.
    pub(crate) fn new(alloc: Global) -> PackedFields
        ensures { result ≡ [] }
    {
        PackedFields {
            alloc,
            names: KeyPlaces::new(alloc),
            numbers: Vec::new(alloc),
            values: PackedTexts::new(alloc),
        }
    }

    /// How many fields there are.
    pub(crate) fn len(&self) -> usize
        ensures { result ≡ length self.now }
    {
        self.numbers.len()
    }

    /// The name of the field at a place, counted from 0, and nothing where no field stands.
    pub(crate) fn name(&self, at: usize) -> &[u8]
        ensures { result.now ≡ (get_or self.now at raw.no_field).name }
    {
        match self.numbers.as_slice().get(at) {
            Some(number) => self.names.text(*number as usize),
            None => &[],
        }
    }

    /// The value of the field at a place, and nothing where no field stands.
    pub(crate) fn value(&self, at: usize) -> &[u8]
        ensures { result.now ≡ (get_or self.now at raw.no_field).value }
    {
        or_nothing(self.values.at(at))
    }

    /// The field at a place.
    pub(crate) fn get(&self, at: usize) -> Option<RawField<'_>>
        ensures { result ≡ slice_get self.now at }
    {
        if at >= self.len() {
            return None;
        }
        Some(RawField {
            name: self.name(at),
            value: self.value(at),
        })
    }

    /// Adds a field. Where there is no memory for it, the fields stay.
    pub(crate) fn push(&mut self, name: &[u8], value: &[u8]) -> Result<(), NoMemory>
        ensures ok { OnOk result (self.new ≡ self.old ++ record { name = name.now; value = value.now } ∷ []) }
        ensures err { OnErr result (self.new ≡ self.old) }
    {
        let place = self.names.place_or_add(self.alloc, name)?;
        let Ok(number) = u32::try_from(place) else {
            return Err(NoMemory);
        };
        push_numbered(&mut self.numbers, &mut self.values, number, value)
    }
}

/// A text that is there, and nothing where it isn't.
fn or_nothing(text: Option<&[u8]>) -> &[u8]
    ensures { result.now ≡ raw.or_nothing (option_map (λ bytes. bytes.now) text.entry) }
{
    match text {
        Some(bytes) => bytes,
        None => &[],
    }
}

/// Appends a value and the number of its name, or neither.
fn push_numbered(
    numbers: &mut Vec<u32>,
    values: &mut PackedTexts,
    number: u32,
    value: &[u8],
) -> Result<(), NoMemory>
    ensures numbers { OnOk result (numbers.new.items ≡ numbers.old.items ++ number ∷ []) }
    ensures values { OnOk result (values.new ≡ values.old ++ Some value.now ∷ []) }
    ensures same_numbers { OnErr result (numbers.new.items ≡ numbers.old.items) }
    ensures same_values { OnErr result (values.new ≡ values.old) }
{
    numbers.push(number)?;
    let Ok(_) = values.push(Some(value)) else {
        let _ = numbers.pop();
        return Err(NoMemory);
    };
    Ok(())
}
