//! The fields of an entry, in one piece of memory.

ghost use Rattle.std.specs.Prelude.{◌≡◌, [], ◌∷◌, ◌++◌, length, option_map, slice_get, take, OnErr, OnOk};
ghost use Rattle.bib_read.specs.Names.{text_of};
ghost use Rattle.bib_read.specs.RawFields.{ArePaired, fields_in};

use bv_base::memory::NoMemory;
use bv_base::packed_texts::PackedTexts;
use std::alloc::Global;
use std::marker::Model;

/// A field of an entry: its lowered name and its value.
#[derive(Drop)]
pub struct RawField<'a> {
    pub name: &'a [u8],
    /// The value, with one space for each run of white space, and none at its ends.
    pub value: &'a [u8],
}

impl<'a> Model for RawField<'a> {
    ghost use Rattle.bib_read.specs.RawFields as fields;

    ghost Value = { fields.RawField };

    ghost view = { λ f. record { name = f.name.now; value = f.value.now } };
}

/// Fields in order: their names and values, one after the other. Contracts see the list of fields.
#[derive(Drop)]
pub(crate) struct RawFields {
    texts: PackedTexts,
}

impl Model for RawFields {
    ghost use Rattle.std.specs.Prelude.{List};
    ghost use Rattle.bib_read.specs.RawFields as fields;

    ghost Value = { List fields.RawField };

    ghost view = { λ f. fields.fields_in f.texts };

    ghost invariant = { λ f. fields.ArePaired f.texts };
}

impl RawFields {
    /// No field.
    pub(crate) fn new(alloc: Global) -> RawFields
        ensures { result ≡ [] }
    {
        RawFields {
            texts: PackedTexts::new(alloc),
        }
    }

    /// How many fields there are.
    pub(crate) fn len(&self) -> usize
        ensures { result ≡ length self.now }
    {
        self.texts.len() / 2
    }

    /// The field at a place, counted from 0.
    pub(crate) fn get(&self, at: usize) -> Option<RawField<'_>>
        ensures { result ≡ slice_get self.now at }
    {
        let count = self.texts.len();
        if at >= count / 2 {
            return None;
        }
        let Some(name) = self.texts.at(at * 2) else {
            return None;
        };
        let Some(value) = self.texts.at(at * 2 + 1) else {
            return None;
        };
        Some(RawField { name, value })
    }

    /// The name of the field at a place.
    fn name(&self, at: usize) -> Option<&[u8]>
        ensures { option_map (λ name. name.now) result ≡ option_map (λ f. f.name) (slice_get self.now at) }
    {
        if at >= self.texts.len() / 2 {
            return None;
        }
        self.texts.at(at * 2)
    }

    /// The value of the field of this name, where it is among the first so many.
    pub(crate) fn find_among(&self, most: usize, name: &[u8]) -> Option<&[u8]>
        ensures { option_map (λ value. value.now) result ≡ text_of name.now (take most self.now) }
    {
        for at in 0..most {
            let Some(found) = self.name(at) else {
                return None;
            };
            if name == found {
                let Some(field) = self.get(at) else {
                    return None;
                };
                return Some(field.value);
            }
        }
        None
    }

    /// Adds a field. Where there is no memory for it, no field is left.
    pub(crate) fn push(&mut self, name: &[u8], value: &[u8]) -> Result<(), NoMemory>
        ensures ok { OnOk result (self.new ≡ self.old ++ record { name = name.now; value = value.now } ∷ []) }
        ensures none { OnErr result (self.new ≡ []) }
    {
        push_pair(&mut self.texts, name, value)
    }

    /// Lets all fields go. Their room stays.
    pub(crate) fn clear(&mut self)
        ensures { self.new ≡ [] }
    {
        self.texts.clear();
    }
}

/// Appends a name and its value. Where there is no memory for them, no text is left.
fn push_pair(texts: &mut PackedTexts, name: &[u8], value: &[u8]) -> Result<(), NoMemory>
    requires { ArePaired texts.old }
    ensures paired { ArePaired texts.new }
    ensures pushed { OnOk result (fields_in texts.new
        ≡ fields_in texts.old ++ record { name = name.now; value = value.now } ∷ []) }
    ensures none { OnErr result (fields_in texts.new ≡ []) }
{
    let Ok(_) = texts.push(Some(name)) else {
        texts.clear();
        return Err(NoMemory);
    };
    let Ok(_) = texts.push(Some(value)) else {
        texts.clear();
        return Err(NoMemory);
    };
    Ok(())
}
