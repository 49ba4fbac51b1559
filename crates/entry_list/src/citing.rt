//! The entries that are cited.

ghost use Rattle.std.specs.Prelude.{◌≡◌, ℕ, ◌||◌, ◌++◌, if◌then◌else◌, is_some, List, [], ◌∷◌, IfOk, OnOk};
ghost use Rattle.std.specs.Option.{option_map, option_to_list};
ghost use Rattle.bv_base.specs.KeySets.{has_lowered};
ghost use Rattle.aux_read.specs.declared.aux.AuxItem.{AuxItem};
ghost use Rattle.aux_read.specs.declared.aux.AuxItem.TheVariants.{Cite};
ghost use Rattle.entry_list.specs.Citing as citing;
ghost use Rattle.entry_list.specs.Keys.{own, same_key};
ghost use Rattle.entry_list.specs.Tables.{was_asked};
ghost use Rattle.entry_list.specs.Warnings as warnings;

use crate::chosen::Chosen;
use crate::entry_table::EntryTable;
use crate::warnings::no_entry;
use aux_read::aux::AuxItem;
use bib_read::raw_entry::RawEntry;
use bv_base::key_set::{KeySet, lowered};
use bv_base::memory::NoMemory;
use bv_base::seq::Seq;
use bv_base::text::Text;
use std::alloc::Global;

/// The entries that are cited, and the warnings of the citations without an entry.
#[derive(Drop)]
pub(crate) struct Cited<'a> {
    pub(crate) list: Vec<Chosen<'a>>,
    pub(crate) warnings: Seq<Text>,
}

/// What was asked for before: the entries with some keys, and maybe all entries.
#[derive(Drop)]
pub(crate) struct Seen {
    pub(crate) keys: KeySet,
    pub(crate) all: bool,
}

/// The entries that are cited, each at its first citation.
pub(crate) fn cited_list<'a>(
    alloc: Global,
    items: &'a [AuxItem],
    table: &EntryTable<'a>,
) -> Result<Cited<'a>, NoMemory>
    ensures list { IfOk result (λ cited. cited.list.items ≡ citing.cited_list items.now table.now) }
    ensures warnings { IfOk result (λ cited. cited.warnings ≡ citing.no_entries items.now table.now) }
{
    let mut cited = Cited {
        list: Vec::new(alloc),
        warnings: Seq::new(alloc),
    };
    let mut seen = Seen {
        keys: KeySet::new(alloc),
        all: false,
    };
    for item in items {
        take(alloc, &mut cited, &mut seen, items, table, item)?;
    }
    Ok(cited)
}

/// Takes a request, where nothing asked for the same before.
fn take<'a>(
    alloc: Global,
    cited: &mut Cited<'a>,
    seen: &mut Seen,
    items: &[AuxItem],
    table: &EntryTable<'a>,
    item: &'a AuxItem,
) -> Result<(), NoMemory>
    ensures list { OnOk result (cited.new.list.items ≡ cited.old.list.items
        ++ (if was_asked item.now seen.old then [] else citing.asked_for items.now table.now item.now)) }
    ensures warnings { OnOk result (cited.new.warnings ≡ cited.old.warnings
        ++ (if was_asked item.now seen.old then [] else citing.not_found table.now item.now)) }
    ensures noted { OnOk result ((later : AuxItem)
        → was_asked later seen.new ≡ (citing.asks_same later item.now || was_asked later seen.old)) }
{
    match item {
        AuxItem::Cite(key) => take_key(alloc, cited, &mut seen.keys, table, key.as_slice()),
        AuxItem::All => {
            if std::mem::replace(&mut seen.all, true) {
                return Ok(());
            }
            put_uncited(alloc, &mut cited.list, items, table)
        }
        AuxItem::Input(_, _) => Ok(()),
    }
}

/// Takes the key of a citation, where no citation before has it. It is lowered once.
fn take_key<'a>(
    alloc: Global,
    cited: &mut Cited<'a>,
    keys: &mut KeySet,
    table: &EntryTable<'a>,
    key: &'a [u8],
) -> Result<(), NoMemory>
    ensures list { OnOk result (cited.new.list.items ≡ cited.old.list.items
        ++ (if has_lowered key.now keys.old then [] else citing.asked_for [] table.now (Cite key.now))) }
    ensures warnings { OnOk result (cited.new.warnings ≡ cited.old.warnings
        ++ (if has_lowered key.now keys.old then [] else citing.not_found table.now (Cite key.now))) }
    ensures noted { OnOk result ((later : List ℕ)
        → has_lowered later keys.new ≡ (same_key later key.now || has_lowered later keys.old)) }
{
    let lowered = lowered(alloc, key)?;
    let entry = table.find_lowered(lowered.as_slice());
    if !keys.add(lowered)? {
        return Ok(());
    }
    put_cited(alloc, cited, key, entry)
}

/// Puts an entry into the list under the key of its citation, or warns where there is none.
fn put_cited<'a>(
    alloc: Global,
    cited: &mut Cited<'a>,
    key: &'a [u8],
    entry: Option<RawEntry<'a>>,
) -> Result<(), NoMemory>
    ensures list { OnOk result (cited.new.list.items ≡ cited.old.list.items
        ++ option_to_list (option_map (citing.cited_as key.now) entry.entry)) }
    ensures warnings { OnOk result (cited.new.warnings ≡ cited.old.warnings
        ++ (if is_some entry.entry then [] else warnings.no_entry key.now ∷ [])) }
{
    match entry {
        Some(entry) => cited.list.push(Chosen { key, entry })?,
        None => cited.warnings.push(no_entry(alloc, key)?)?,
    }
    Ok(())
}

/// Puts the entries that no citation names into the list.
fn put_uncited<'a>(
    alloc: Global,
    list: &mut Vec<Chosen<'a>>,
    items: &[AuxItem],
    table: &EntryTable<'a>,
) -> Result<(), NoMemory>
    ensures { OnOk result (list.new.items ≡ list.old.items ++ citing.uncited items.now table.now) }
{
    let cited = cited_keys(alloc, items)?;
    for at in 0..table.len() {
        let Some(entry) = table.get(at) else {
            unreachable!()
        };
        push_uncited(list, &cited, entry)?;
    }
    Ok(())
}

/// Puts an entry into the list, where its key isn't cited.
fn push_uncited<'a>(
    list: &mut Vec<Chosen<'a>>,
    cited: &KeySet,
    entry: RawEntry<'a>,
) -> Result<(), NoMemory>
    ensures { OnOk result (list.new.items
        ≡ list.old.items ++ (if has_lowered entry.entry.key cited.now then [] else own entry.entry ∷ [])) }
{
    if cited.has_lowered(entry.key())? {
        return Ok(());
    }
    list.push(Chosen::own(entry))?;
    Ok(())
}

/// The keys that are cited.
fn cited_keys(alloc: Global, items: &[AuxItem]) -> Result<KeySet, NoMemory>
    ensures { IfOk result (λ keys. (key : List ℕ) → has_lowered key keys ≡ citing.is_cited key items.now) }
{
    let mut keys = KeySet::new(alloc);
    for item in items {
        add_cited(&mut keys, item)?;
    }
    Ok(keys)
}

/// Adds the key of a citation.
fn add_cited(keys: &mut KeySet, item: &AuxItem) -> Result<(), NoMemory>
    ensures { OnOk result ((key : List ℕ)
        → has_lowered key keys.new ≡ (citing.cites key item.now || has_lowered key keys.old)) }
{
    if let AuxItem::Cite(key) = item {
        keys.add_lowered(key.as_slice())?;
    }
    Ok(())
}
