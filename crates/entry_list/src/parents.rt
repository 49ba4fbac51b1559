//! The entries that others name by `crossref`, and those of them that are appended.

ghost use Rattle.std.specs.Prelude.{◌≡◌, ℕ, ◌&&◌, ◌||◌, ◌++◌, if◌then◌else◌, List, [], ◌∷◌, IfOk, OnOk};
ghost use Rattle.std.specs.Option.{option_map, option_to_list};
ghost use Rattle.bv_base.specs.KeySets.{has_lowered};
ghost use Rattle.entry_list.specs.Keys as keys;
ghost use Rattle.entry_list.specs.Parents as naming;
ghost use Rattle.entry_list.specs.Tables.{TellsParents};

use crate::chosen::Chosen;
use crate::entry_table::EntryTable;
use crate::listed::listed_of;
use bib_read::raw_entry::RawEntry;
use bv_base::key_set::{KeySet, lowered};
use bv_base::memory::NoMemory;
use std::alloc::Global;

/// Appends the parents that at least two entries of a list name and that aren't in it.
pub(crate) fn append_parents<'a>(
    alloc: Global,
    list: &mut Vec<Chosen<'a>>,
    table: &EntryTable<'a>,
) -> Result<(), NoMemory>
    ensures { OnOk result (list.new.items ≡ list.old.items ++ naming.appended table.now list.old.items) }
{
    let parents = parents_of(alloc, list.as_slice(), table)?;
    let wanted = wanted(alloc, parents.as_slice(), list.as_slice())?;
    append(list, wanted.as_slice())
}

/// Keys that say of the parent of each entry of a list whether it is in the list.
pub(crate) fn listed_parents<'a>(
    alloc: Global,
    list: &[Chosen<'a>],
    table: &EntryTable<'a>,
) -> Result<KeySet, NoMemory>
    ensures { IfOk result (λ listed. TellsParents listed table.now list.now) }
{
    let parents = parents_of(alloc, list, table)?;
    listed_of(alloc, parents.as_slice(), list)
}

/// The entries that a list names by `crossref`, one for each naming.
fn parents_of<'a>(
    alloc: Global,
    list: &[Chosen<'a>],
    table: &EntryTable<'a>,
) -> Result<Vec<Chosen<'a>>, NoMemory>
    ensures { IfOk result (λ found. found.items ≡ naming.parents_of table.now list.now) }
{
    let mut found = Vec::new(alloc);
    for chosen in list {
        push_parent(&mut found, table, &chosen.entry)?;
    }
    Ok(found)
}

/// Adds the parent of an entry, where it has one.
fn push_parent<'a>(
    found: &mut Vec<Chosen<'a>>,
    table: &EntryTable<'a>,
    entry: &RawEntry<'a>,
) -> Result<(), NoMemory>
    ensures { OnOk result (found.new.items
        ≡ found.old.items ++ option_to_list (option_map keys.own (naming.parent_of table.now entry.now))) }
{
    let parent = parent_of(table, entry)?;
    push_own(found, parent)
}

/// Adds an entry under its own key, where there is one.
fn push_own<'a>(found: &mut Vec<Chosen<'a>>, entry: Option<RawEntry<'a>>) -> Result<(), NoMemory>
    ensures { OnOk result (found.new.items
        ≡ found.old.items ++ option_to_list (option_map keys.own entry.entry)) }
{
    if let Some(entry) = entry {
        found.push(Chosen::own(entry))?;
    }
    Ok(())
}

/// The entry that an entry's `crossref` names.
pub(crate) fn parent_of<'a>(
    table: &EntryTable<'a>,
    entry: &RawEntry<'a>,
) -> Result<Option<RawEntry<'a>>, NoMemory>
    ensures { IfOk result (λ found. found ≡ naming.parent_of table.now entry.now) }
{
    match crossref_of(entry) {
        Some(name) => table.find(name),
        None => Ok(None),
    }
}

/// What an entry has as `crossref`.
pub(crate) fn crossref_of<'a>(entry: &RawEntry<'a>) -> Option<&'a [u8]>
    ensures { option_map (λ text. text.now) result ≡ naming.crossref_of entry.now }
{
    entry.find(b"crossref")
}

/// The wanted ones of these parents, in the order in which they are first named.
fn wanted<'a>(
    alloc: Global,
    parents: &[Chosen<'a>],
    list: &[Chosen<'_>],
) -> Result<Vec<Chosen<'a>>, NoMemory>
    ensures { IfOk result (λ found. found.items ≡ naming.wanted parents.now list.now) }
{
    let twice = named_twice(alloc, parents)?;
    let listed = listed_of(alloc, parents, list)?;
    wanted_of(alloc, parents, &twice, &listed)
}

/// Those of these parents that are named twice and not listed, in the order in which they are first named.
fn wanted_of<'a>(
    alloc: Global,
    parents: &[Chosen<'a>],
    twice: &KeySet,
    listed: &KeySet,
) -> Result<Vec<Chosen<'a>>, NoMemory>
    ensures { IfOk result (λ found. found.items ≡ naming.chosen_of twice.now listed.now parents.now) }
{
    let mut found = Vec::new(alloc);
    take_parents(alloc, &mut found, parents, twice, listed)?;
    Ok(found)
}

/// Takes these parents, those with one key once.
fn take_parents<'a>(
    alloc: Global,
    found: &mut Vec<Chosen<'a>>,
    parents: &[Chosen<'a>],
    twice: &KeySet,
    listed: &KeySet,
) -> Result<(), NoMemory>
    ensures { OnOk result (found.new.items ≡ found.old.items ++ naming.chosen_of twice.now listed.now parents.now) }
{
    let mut done = KeySet::new(alloc);
    for parent in parents {
        take_parent(alloc, found, &mut done, twice, listed, parent)?;
    }
    Ok(())
}

/// Takes a parent that is named twice and isn't in the list, where none with its key was taken before. Its key is lowered once.
fn take_parent<'a>(
    alloc: Global,
    found: &mut Vec<Chosen<'a>>,
    done: &mut KeySet,
    twice: &KeySet,
    listed: &KeySet,
    parent: &Chosen<'a>,
) -> Result<(), NoMemory>
    ensures found { OnOk result (found.new.items ≡ found.old.items
        ++ (if has_lowered parent.now.key done.old then []
        else if naming.is_chosen twice.now listed.now parent.now then parent.now ∷ [] else [])) }
    ensures done { OnOk result ((key : List ℕ)
        → has_lowered key done.new ≡ (keys.same_key key parent.now.key || has_lowered key done.old)) }
{
    let key = lowered(alloc, parent.key)?;
    let wanted = twice.has(key.as_slice()) && !listed.has(key.as_slice());
    if !done.add(key)? {
        return Ok(());
    }
    if wanted {
        found.push(parent.copied())?;
    }
    Ok(())
}

/// The keys that at least two of these parents have.
fn named_twice(alloc: Global, parents: &[Chosen<'_>]) -> Result<KeySet, NoMemory>
    ensures { IfOk result (λ twice. (key : List ℕ) → has_lowered key twice ≡ naming.is_named_twice key parents.now) }
{
    let mut twice = KeySet::new(alloc);
    add_named_twice(alloc, &mut twice, parents)?;
    Ok(twice)
}

/// Adds the keys that at least two of these parents have.
fn add_named_twice(
    alloc: Global,
    twice: &mut KeySet,
    parents: &[Chosen<'_>],
) -> Result<(), NoMemory>
    ensures { OnOk result ((key : List ℕ)
        → has_lowered key twice.new ≡ (has_lowered key twice.old || naming.is_named_twice key parents.now)) }
{
    let mut once = KeySet::new(alloc);
    for parent in parents {
        name(&mut once, twice, parent.key)?;
    }
    Ok(())
}

/// Adds a key to those that are named, or to those that are named twice too.
fn name(once: &mut KeySet, twice: &mut KeySet, key: &[u8]) -> Result<(), NoMemory>
    ensures once { OnOk result ((other : List ℕ)
        → has_lowered other once.new ≡ (keys.same_key other key.now || has_lowered other once.old)) }
    ensures twice { OnOk result ((other : List ℕ) → has_lowered other twice.new
        ≡ ((has_lowered key.now once.old && keys.same_key other key.now) || has_lowered other twice.old)) }
{
    if once.add_lowered(key)? {
        return Ok(());
    }
    add(twice, key)
}

/// Adds a key to a set.
fn add(set: &mut KeySet, key: &[u8]) -> Result<(), NoMemory>
    ensures { OnOk result ((other : List ℕ)
        → has_lowered other set.new ≡ (keys.same_key other key.now || has_lowered other set.old)) }
{
    set.add_lowered(key)?;
    Ok(())
}

/// Appends entries to a list.
fn append<'a>(list: &mut Vec<Chosen<'a>>, more: &[Chosen<'a>]) -> Result<(), NoMemory>
    ensures { OnOk result (list.new.items ≡ list.old.items ++ more.now) }
{
    for chosen in more {
        list.push(chosen.copied())?;
    }
    Ok(())
}
