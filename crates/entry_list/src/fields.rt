//! The fields of the entries of the list.

ghost use Rattle.std.specs.Prelude.{◌≡◌, ◌++◌, ℕ, List, [], ◌∷◌, map, IfOk, OnOk};
ghost use Rattle.std.specs.Option.{ForSome, option_map};
ghost use Rattle.bst_meaning.specs.Entries.{IsByteList};
ghost use Rattle.entry_store.specs.PackedEntries.{with_one};
ghost use Rattle.entry_list.specs.Fields as fields;
ghost use Rattle.entry_list.specs.Sources.{value_among};
ghost use Rattle.entry_list.specs.Tables.{TellsParents, entry_by, has_parent};
ghost use Rattle.entry_list.specs.Bytes.{AreByteTexts, HasBytes, HaveBytes};

use crate::chosen::Chosen;
use crate::entry_table::EntryTable;
use crate::parents::{crossref_of, parent_of};
use crate::sources::Sources;
use crate::warnings::no_parent;
use bib_read::raw_entry::RawEntry;
use bv_base::key_set::KeySet;
use bv_base::memory::NoMemory;
use bv_base::seq::Seq;
use bv_base::text::Text;
use entry_store::packed_entries::PackedEntries;
use name_table::laws::are_bytes;
use name_table::names::{Kind, NameId};
use name_table::style::Style;
use std::alloc::Global;
use std::marker::Model;

/// A field of a style: its id and its name.
#[derive(Drop)]
pub(crate) struct DeclaredField<'a> {
    id: NameId,
    name: &'a [u8],
}

impl<'a> Model for DeclaredField<'a> {
    ghost use Rattle.entry_list.specs.Fields.{Declared};

    ghost Value = { Declared };

    ghost view = { λ f. record { id = f.id; name = f.name.now } };
}

/// The fields of a style, `crossref` among them, in the order of their ids.
pub(crate) fn declared_fields(
    alloc: Global,
    style: &Style,
) -> Result<Vec<DeclaredField<'_>>, NoMemory>
    ensures { IfOk result (λ found. found.items ≡ fields.declared_fields style.now) }
{
    let mut found = Vec::new(alloc);
    for i in 0..style.names.len() {
        let id = NameId(i);
        push_declared(&mut found, id, style.names.text(id), style.names.kind(id))?;
    }
    Ok(found)
}

/// Adds a name, where it is a field.
fn push_declared<'a>(
    found: &mut Vec<DeclaredField<'a>>,
    id: NameId,
    name: &'a [u8],
    kind: Kind,
) -> Result<(), NoMemory>
    ensures { OnOk result (found.new.items ≡ found.old.items ++ fields.declared_at id.0 name.now kind []) }
{
    match kind {
        Kind::Field => {
            found.push(DeclaredField { id, name })?;
            Ok(())
        }
        _ => Ok(()),
    }
}

/// The names of fields.
fn names_of(alloc: Global, fields: &[DeclaredField<'_>]) -> Result<Vec<NameId>, NoMemory>
    ensures { IfOk result (λ names. names.items ≡ map (λ field. field.id) fields.now) }
{
    let mut names = Vec::with_capacity(alloc, fields.len())?;
    for field in fields {
        names.push(field.id)?;
    }
    Ok(names)
}

/// The entries of a list with these fields and no other. Keys say of each parent whether it is in the list.
pub(crate) fn join_entries<'a>(
    alloc: Global,
    declared: &[DeclaredField<'_>],
    table: &EntryTable<'a>,
    list: &[Chosen<'a>],
    listed: &KeySet,
) -> Result<PackedEntries, NoMemory>
    requires { TellsParents listed.now table.now list.now }
    ensures joined { IfOk result (λ found. found.entries ≡ map (fields.joined_entry declared.now table.now list.now) list.now) }
    ensures bytes { IfOk result (λ found. HaveBytes found.entries) }
{
    let mut found = PackedEntries::new(alloc, names_of(alloc, declared)?);
    let mut buffers = Buffers::new(alloc);
    for chosen in list {
        join_entry(&mut found, &mut buffers, declared, table, listed, chosen)?;
    }
    Ok(found)
}

/// Whether a parent is there, and is in the list.
fn is_parent_listed(listed: &KeySet, parent: Option<&RawEntry<'_>>) -> Result<bool, NoMemory>
    ensures { IfOk result (λ keeps. keeps
        ≡ has_parent listed.now (option_map (λ e. e.now) parent.entry)) }
{
    match parent {
        Some(found) => listed.has_lowered(found.key()),
        None => Ok(false),
    }
}

/// Appends an entry of the list with these fields and no other.
fn join_entry<'a>(
    found: &mut PackedEntries,
    buffers: &mut Buffers<'a>,
    declared: &[DeclaredField<'_>],
    table: &EntryTable<'a>,
    listed: &KeySet,
    chosen: &Chosen<'a>,
) -> Result<(), NoMemory>
    requires { found.old.names ≡ map (λ field. field.id) declared.now }
    ensures joined { OnOk result (found.new ≡ with_one (entry_by listed.now declared.now table.now chosen.now) found.old) }
    ensures bytes { OnOk result (HasBytes (entry_by listed.now declared.now table.now chosen.now)) }
{
    let parent = parent_of(table, &chosen.entry)?;
    let keeps = is_parent_listed(listed, parent.as_ref())?;
    append_entry(found, buffers, declared, chosen, parent.as_ref(), keeps)
}

/// Appends an entry of the list with these fields and no other, by its parent.
fn append_entry<'a>(
    found: &mut PackedEntries,
    buffers: &mut Buffers<'a>,
    declared: &[DeclaredField<'_>],
    chosen: &Chosen<'a>,
    parent: Option<&RawEntry<'a>>,
    keeps: bool,
) -> Result<(), NoMemory>
    requires { found.old.names ≡ map (λ field. field.id) declared.now }
    ensures joined { OnOk result (found.new
        ≡ with_one (fields.entry_with declared.now chosen.now (option_map (λ e. e.now) parent.entry) keeps) found.old) }
    ensures bytes { OnOk result (HasBytes (fields.entry_with declared.now chosen.now (option_map (λ e. e.now) parent.entry) keeps)) }
{
    buffers.fill(declared, &chosen.entry, parent, keeps)?;
    let entry_type = chosen.entry.entry_type();
    are_bytes(chosen.key);
    are_bytes(entry_type);
    found.push(chosen.key, entry_type, buffers.values.as_slice())?;
    Ok(())
}

/// What one entry after the other is joined in: the fields that it takes its values from, and the values.
#[derive(Drop)]
struct Buffers<'a> {
    sources: Sources<'a>,
    values: Vec<Option<&'a [u8]>>,
}

impl<'a> Buffers<'a> {
    /// No field and no value.
    fn new(alloc: Global) -> Buffers<'a>
        ensures own { result.sources.own.items ≡ [] }
        ensures lent { result.sources.lent.items ≡ [] }
        ensures values { result.values.items ≡ [] }
    {
        Buffers {
            sources: Sources::new(alloc),
            values: Vec::new(alloc),
        }
    }

    /// Leaves the values of these fields of an entry.
    fn fill(
        &mut self,
        declared: &[DeclaredField<'_>],
        entry: &RawEntry<'a>,
        parent: Option<&RawEntry<'a>>,
        keeps: bool,
    ) -> Result<(), NoMemory>
        ensures values { OnOk result (map (option_map (λ text. text.now)) self.new.values.items
            ≡ map (λ field. fields.value_of entry.now (option_map (λ e. e.now) parent.entry) keeps field.name) declared.now) }
        ensures bytes { OnOk result (AreByteTexts (map (option_map (λ text. text.now)) self.new.values.items)) }
    {
        self.sources.fill(entry, parent)?;
        values_into(&mut self.values, declared, &self.sources, keeps)
    }
}

/// Leaves of a buffer the values of fields.
fn values_into<'a>(
    found: &mut Vec<Option<&'a [u8]>>,
    declared: &[DeclaredField<'_>],
    sources: &Sources<'a>,
    keeps: bool,
) -> Result<(), NoMemory>
    ensures values { OnOk result (map (option_map (λ text. text.now)) found.new.items
        ≡ map (λ field. value_among sources.now.own.items sources.now.lent.items keeps field.name) declared.now) }
    ensures bytes { OnOk result (AreByteTexts (map (option_map (λ text. text.now)) found.new.items)) }
{
    found.clear();
    for field in declared {
        push_value(found, sources.value_of(keeps, field.name))?;
    }
    Ok(())
}

/// Appends a value.
fn push_value<'a>(
    found: &mut Vec<Option<&'a [u8]>>,
    value: Option<&'a [u8]>,
) -> Result<(), NoMemory>
    ensures pushed { OnOk result (map (option_map (λ text. text.now)) found.new.items
        ≡ map (option_map (λ text. text.now)) found.old.items ++ option_map (λ text. text.now) value.entry ∷ []) }
    ensures bytes { ForSome (option_map (λ text. text.now) value.entry) IsByteList }
{
    if let Some(text) = value {
        are_bytes(text);
    }
    found.push(value)?;
    Ok(())
}

/// A copy of bytes.
pub(crate) fn copied(alloc: Global, bytes: &[u8]) -> Result<Text, NoMemory>
    ensures copied { IfOk result (λ text. text ≡ bytes.now) }
    ensures bytes { IfOk result IsByteList }
{
    are_bytes(bytes);
    Text::from_slice(alloc, bytes)
}

/// Warns of each `crossref` of a list that names no entry.
pub(crate) fn warn_of_parents(
    alloc: Global,
    warnings: &mut Seq<Text>,
    table: &EntryTable<'_>,
    list: &[Chosen<'_>],
) -> Result<(), NoMemory>
    ensures { OnOk result (warnings.new ≡ warnings.old ++ fields.without_parents table.now list.now) }
{
    for chosen in list {
        warn_of_parent(alloc, warnings, table, chosen)?;
    }
    Ok(())
}

/// Warns of a `crossref` that names no entry.
fn warn_of_parent(
    alloc: Global,
    warnings: &mut Seq<Text>,
    table: &EntryTable<'_>,
    chosen: &Chosen<'_>,
) -> Result<(), NoMemory>
    ensures { OnOk result (warnings.new ≡ warnings.old ++ fields.without_parent table.now chosen.now) }
{
    let Some(name) = crossref_of(&chosen.entry) else {
        return Ok(());
    };
    if let Some(_) = table.find(name)? {
        return Ok(());
    }
    warnings.push(no_parent(alloc, name, chosen.key)?)?;
    Ok(())
}
