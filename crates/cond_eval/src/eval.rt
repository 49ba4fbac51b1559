//! The lines of a condition, over a list and over its entries.

ghost use Rattle.std.specs.Prelude.{◌≡◌, ◌+◌, ◌<◌, ◌↔◌, length, None};
ghost use Rattle.std.specs.List.{list_all};
ghost use Rattle.std.specs.Option.{option_or};
ghost use Rattle.bv_base.specs.KeySets.{has_key};
ghost use Rattle.bst_meaning.specs.Condition.{Meets};
ghost use Rattle.cond_eval.specs.Unmet as rule;
ghost use Rattle.cond_eval.specs.declared.eval.Wanted.TheVariants as Wanted;

use crate::unmet::Unmet;
use bst_meaning::condition::{Cond, NamesLine};
use bv_base::bytes::is_white;
use entry_store::entry::{Entry, EntryList, FieldValue};
use name_split::names::{count, names_ok};
use name_table::names::NameId;
use name_table::style::{Style, TypeTarget};

/// How each field of an entry is wanted.
#[derive(Clone, Copy)]
pub(crate) enum Wanted {
    /// With at most so many bytes, where it is there.
    Length(u32),
    /// With such names, where it is the line's and there.
    Names(NamesLine),
    /// There and not blank, where it is this one.
    Ink(NameId),
}

/// The first line of a condition that a list doesn't keep: the lines on the number of entries and on the preamble, and then,
/// entry by entry, those on its key, its fields, their names, blank fields and its type. `None` comes exactly where the list
/// meets the condition. It takes no memory, and looks at each entry once.
pub fn meets(style: &Style, cond: &Cond, list: &EntryList) -> Option<Unmet>
    requires lines { length cond.now.names + length cond.now.nonblank + length cond.now.types < 4294967291 }
    ensures first { result ≡ rule.first_unmet style.now cond.now list.now }
    ensures meets { (result ≡ None) ↔ Meets style.now cond.now list.now }
{
    first_unmet(style, cond, list)
}

/// The first line that a list doesn't keep.
fn first_unmet(style: &Style, cond: &Cond, list: &EntryList) -> Option<Unmet>
    requires lines { length cond.now.names + length cond.now.nonblank + length cond.now.types < 4294967291 }
    ensures { result ≡ rule.first_unmet style.now cond.now list.now }
{
    if list.len() > cond.entries as usize {
        return Some(of_list(0));
    }
    if list.preamble().len() > cond.preamble as usize {
        return Some(of_list(2));
    }
    entries_unmet(style, cond, list)
}

/// A line about the whole list.
fn of_list(line: u32) -> Unmet
    ensures { result ≡ record { entry = None; line = line } }
{
    Unmet { entry: None, line }
}

/// The first entry that doesn't keep a line.
fn entries_unmet(style: &Style, cond: &Cond, list: &EntryList) -> Option<Unmet>
    requires lines { length cond.now.names + length cond.now.nonblank + length cond.now.types < 4294967291 }
    ensures { result ≡ rule.entries_unmet style.now cond.now 0 list.now.entries }
{
    for at in 0..list.len() {
        let Some(entry) = list.at(at) else {
            return None;
        };
        if let Some(line) = entry_unmet(style, cond, &entry) {
            return Some(Unmet {
                entry: Some(at as u64),
                line,
            });
        }
    }
    None
}

/// The first line that an entry doesn't keep.
fn entry_unmet(style: &Style, cond: &Cond, entry: &Entry<'_>) -> Option<u32>
    requires lines { length cond.now.names + length cond.now.nonblank + length cond.now.types < 4294967291 }
    ensures { result ≡ rule.entry_unmet style.now cond.now entry.now }
{
    if entry.key().len() > cond.key as usize {
        Some(1)
    } else if are_short(cond, entry) {
        listed_unmet(style, cond, entry)
    } else {
        Some(3)
    }
}

/// The first line on a field's names, on its ink or on types that an entry doesn't keep.
fn listed_unmet(style: &Style, cond: &Cond, entry: &Entry<'_>) -> Option<u32>
    requires lines { length cond.now.names + length cond.now.nonblank + length cond.now.types < 4294967291 }
    ensures { result ≡ rule.listed_unmet style.now cond.now entry.now }
{
    let names = cond.names.as_slice();
    let first = names_unmet(entry, names);
    let second = ink_unmet(entry, 4 + names.len() as u32, cond.nonblank.as_slice());
    first_line(first, first_line(second, type_unmet(style, cond, entry)))
}

/// The first of two lines, where there is one.
fn first_line(first: Option<u32>, second: Option<u32>) -> Option<u32>
    ensures { result ≡ option_or first second }
{
    match first {
        Some(line) => Some(line),
        None => second,
    }
}

/// The last line, where an entry's type isn't admitted.
fn type_unmet(style: &Style, cond: &Cond, entry: &Entry<'_>) -> Option<u32>
    requires lines { length cond.now.names + length cond.now.nonblank + length cond.now.types < 4294967291 }
    ensures { result ≡ rule.type_unmet style.now cond.now entry.now }
{
    if is_admitted(style, cond, entry.entry_type()) {
        None
    } else {
        Some(last_line(cond))
    }
}

/// The line on other types, which is the last.
fn last_line(cond: &Cond) -> u32
    requires lines { length cond.now.names + length cond.now.nonblank + length cond.now.types < 4294967291 }
    ensures { result ≡ rule.last_line cond.now }
{
    let names = cond.names.as_slice().len() as u32;
    let nonblank = cond.nonblank.as_slice().len() as u32;
    4 + names + nonblank + cond.types.as_slice().len() as u32
}

/// The first of the lines on names that the fields of an entry don't keep.
fn names_unmet(entry: &Entry<'_>, lines: &[NamesLine]) -> Option<u32>
    requires { length lines.now < 4294967291 }
    ensures { result ≡ rule.first_of rule.keeps_names entry.now.fields 4 lines.now }
{
    for (at, line) in lines.iter().enumerate() {
        if !keep_names(*line, entry) {
            return Some(4 + at as u32);
        }
    }
    None
}

/// Whether all fields of an entry keep a line on names.
fn keep_names(line: NamesLine, entry: &Entry<'_>) -> bool
    ensures { result ≡ list_all (rule.keeps_names line) entry.now.fields }
{
    all_keep(Wanted::Names(line), entry)
}

/// The first of the lines on nonblank fields, from this number on, that the fields of an entry don't keep.
fn ink_unmet(entry: &Entry<'_>, first: u32, names: &[NameId]) -> Option<u32>
    requires { first + length names.now < 4294967296 }
    ensures { result ≡ rule.first_of rule.keeps_ink entry.now.fields first names.now }
{
    for (at, name) in names.iter().enumerate() {
        if !keep_ink(*name, entry) {
            return Some(first + at as u32);
        }
    }
    None
}

/// Whether all fields of an entry keep the line that wants one nonblank.
fn keep_ink(name: NameId, entry: &Entry<'_>) -> bool
    ensures { result ≡ list_all (rule.keeps_ink name) entry.now.fields }
{
    all_keep(Wanted::Ink(name), entry)
}

/// Whether all fields of an entry that are there have at most so many bytes.
fn are_short(cond: &Cond, entry: &Entry<'_>) -> bool
    ensures { result ≡ list_all (rule.is_short cond.now) entry.now.fields }
{
    all_keep(Wanted::Length(cond.length), entry)
}

/// Whether each field of an entry is as it is wanted.
fn all_keep(wanted: Wanted, entry: &Entry<'_>) -> bool
    ensures { result ≡ list_all (rule.keeps wanted) entry.now.fields }
{
    for at in 0..entry.names().len() {
        let Some(field) = entry.field(at) else {
            return true;
        };
        if !keeps(wanted, &field) {
            return false;
        }
    }
    true
}

/// Whether a field is as it is wanted.
fn keeps(wanted: Wanted, field: &FieldValue<'_>) -> bool
    ensures { result ≡ rule.keeps wanted field.now }
{
    match wanted {
        Wanted::Length(most) => is_short(most, field),
        Wanted::Names(line) => keeps_names(line, field),
        Wanted::Ink(name) => keeps_ink(name, field),
    }
}

/// Whether a field, where it is there, has at most so many bytes.
fn is_short(most: u32, field: &FieldValue<'_>) -> bool
    ensures { result ≡ rule.keeps (Wanted.Length most) field.now }
{
    match field.value {
        Some(bytes) => bytes.len() <= most as usize,
        None => true,
    }
}

/// Whether a field keeps a line on names.
fn keeps_names(line: NamesLine, field: &FieldValue<'_>) -> bool
    ensures { result ≡ rule.keeps_names line field.now }
{
    if field.name.0 != line.field.0 {
        return true;
    }
    match field.value {
        Some(text) => has_names(line, text),
        None => true,
    }
}

/// Whether a text has at most so many names, each well formed.
fn has_names(line: NamesLine, text: &[u8]) -> bool
    ensures { result ≡ rule.has_names line text.now }
{
    count(text) <= u64::from(line.most) && names_ok(text)
}

/// Whether a field keeps the line that wants it nonblank.
fn keeps_ink(name: NameId, field: &FieldValue<'_>) -> bool
    ensures { result ≡ rule.keeps_ink name field.now }
{
    if field.name.0 != name.0 {
        return true;
    }
    match field.value {
        Some(bytes) => has_ink(bytes),
        None => false,
    }
}

/// Whether a byte isn't white space.
fn has_ink(bytes: &[u8]) -> bool
    ensures { result ≡ rule.has_ink bytes.now }
{
    bytes.iter().any(|byte| !is_white(*byte))
}

/// Whether an entry may have a type.
fn is_admitted(style: &Style, cond: &Cond, entry_type: &[u8]) -> bool
    ensures { result ≡ rule.is_admitted style.now cond.now entry_type.now }
{
    is_listed(cond, entry_type) || (is_other(style, entry_type) && cond.other)
}

/// Whether a type is listed.
fn is_listed(cond: &Cond, entry_type: &[u8]) -> bool
    ensures { result ≡ has_key entry_type.now cond.now.types }
{
    cond.types
        .as_slice()
        .iter()
        .any(|listed| entry_type == listed.as_slice())
}

/// Whether the style doesn't define a type.
fn is_other(style: &Style, entry_type: &[u8]) -> bool
    ensures { result ≡ rule.is_other style.now entry_type.now }
{
    !matches!(style.type_target(entry_type), TypeTarget::Function(_))
}
