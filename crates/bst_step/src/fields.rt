//! The fields of entries, which are found by their places.

ghost use Rattle.std.specs.Prelude.{◌≡◌, true, map, option_map, IfSome};
ghost use Rattle.bst_meaning.specs.Machine as rule;
ghost use Rattle.bst_step.specs.Held.{value_of};
ghost use Rattle.bst_step.specs.Places.{FieldsStandAt, StandAt};

use crate::held::Operand;
use entry_store::entry::{Entry, EntryList};
use name_table::names::NameId;

/// The value of a field of an entry: its bytes, or that the entry doesn't have it. Where there is a table, the entry's fields stand at
/// the places that it has.
pub fn field_of<'a>(places: &Option<Vec<usize>>, name: NameId, entry: &Entry<'a>) -> Operand<'a>
    requires { IfSome places.now (λ places. StandAt places.items (map (λ f. f.name) entry.now.fields)) }
    ensures { value_of result ≡ rule.field_in name entry.now.fields }
{
    match places {
        Some(places) => field_by(places.as_slice(), name, entry),
        None => field_among(name, entry),
    }
}

/// A table of places, where the fields of all entries of a list stand so.
pub fn standing(places: Vec<usize>, list: &EntryList) -> Option<Vec<usize>>
    ensures { IfSome result (λ places. FieldsStandAt places.items list.now.entries) }
{
    if all_stand(places.as_slice(), list) {
        Some(places)
    } else {
        None
    }
}

/// Whether the fields of each entry of a list stand at the places that a table has for them.
fn all_stand(places: &[usize], list: &EntryList) -> bool
    ensures { result ≡ true → FieldsStandAt places.now list.now.entries }
{
    for at in 0..list.len() {
        let Some(entry) = list.at(at) else {
            return false;
        };
        if !stand(places, entry.names()) {
            return false;
        }
    }
    true
}

/// Whether each of the names of fields stands at the place that a table has for it.
fn stand(places: &[usize], names: &[NameId]) -> bool
    ensures { result ≡ true → StandAt places.now names.now }
{
    for at in 0..names.len() {
        let Some(place) = places.get(names[at].0 as usize) else {
            return false;
        };
        if *place != at {
            return false;
        }
    }
    true
}

/// The value of a field, by a table that has the place of each.
fn field_by<'a>(places: &[usize], name: NameId, entry: &Entry<'a>) -> Operand<'a>
    requires { StandAt places.now (map (λ f. f.name) entry.now.fields) }
    ensures { value_of result ≡ rule.field_in name entry.now.fields }
{
    let Some(at) = places.get(name.0 as usize) else {
        return Operand::Missing(name);
    };
    let Some(field) = entry.field(*at) else {
        return Operand::Missing(name);
    };
    if field.name.0 == name.0 {
        field_value(name, field.value)
    } else {
        Operand::Missing(name)
    }
}

/// The value of a field where the fields stand in another order: that of the first of its name.
fn field_among<'a>(name: NameId, entry: &Entry<'a>) -> Operand<'a>
    ensures { value_of result ≡ rule.field_in name entry.now.fields }
{
    for at in 0..entry.names().len() {
        let Some(field) = entry.field(at) else {
            return Operand::Missing(name);
        };
        if field.name.0 == name.0 {
            return field_value(name, field.value);
        }
    }
    Operand::Missing(name)
}

/// The value of a field with these bytes, or that the entry doesn't have it.
fn field_value(name: NameId, bytes: Option<&[u8]>) -> Operand<'_>
    ensures { value_of result ≡ rule.field_value name (option_map (λ text. text.now) bytes.entry) }
{
    match bytes {
        Some(bytes) => Operand::Str(bytes),
        None => Operand::Missing(name),
    }
}
