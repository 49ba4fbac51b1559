//! The keys of the parents that are in a list.

ghost use Rattle.std.specs.Prelude.{◌≡◌, ℕ, ◌&&◌, ◌||◌, true, List, IfOk, OnOk};
ghost use Rattle.bv_base.specs.KeySets.{has_lowered};
ghost use Rattle.entry_list.specs.Keys as keys;

use crate::chosen::Chosen;
use bv_base::key_set::{KeySet, lowered};
use bv_base::memory::NoMemory;
use std::alloc::Global;

/// The keys of those of these parents that are in a list: of its other entries no key is kept.
pub(crate) fn listed_of(
    alloc: Global,
    parents: &[Chosen<'_>],
    list: &[Chosen<'_>],
) -> Result<KeySet, NoMemory>
    ensures { IfOk result (λ listed. (key : List ℕ) → keys.is_listed key parents.now ≡ true
        → has_lowered key listed ≡ keys.is_listed key list.now) }
{
    if parents.is_empty() {
        return Ok(KeySet::new(alloc));
    }
    let named = keys_of(alloc, parents)?;
    listed_among(alloc, &named, list)
}

/// Those of these keys that a list has.
fn listed_among(alloc: Global, named: &KeySet, list: &[Chosen<'_>]) -> Result<KeySet, NoMemory>
    ensures { IfOk result (λ listed. (key : List ℕ)
        → has_lowered key listed ≡ (has_lowered key named.now && keys.is_listed key list.now)) }
{
    let mut listed = KeySet::new(alloc);
    for chosen in list {
        add_named(alloc, &mut listed, named, chosen.key)?;
    }
    Ok(listed)
}

/// Adds a key, where it is one of these.
fn add_named(alloc: Global, listed: &mut KeySet, named: &KeySet, key: &[u8]) -> Result<(), NoMemory>
    ensures { OnOk result ((other : List ℕ) → has_lowered other listed.new
        ≡ ((has_lowered key.now named.now && keys.same_key other key.now) || has_lowered other listed.old)) }
{
    let key = lowered(alloc, key)?;
    if !named.has(key.as_slice()) {
        return Ok(());
    }
    listed.add(key)?;
    Ok(())
}

/// The keys of parents.
fn keys_of(alloc: Global, parents: &[Chosen<'_>]) -> Result<KeySet, NoMemory>
    ensures { IfOk result (λ set. (key : List ℕ) → has_lowered key set ≡ keys.is_listed key parents.now) }
{
    let mut set = KeySet::new(alloc);
    add_keys(&mut set, parents)?;
    Ok(set)
}

/// Adds the keys of parents.
fn add_keys(set: &mut KeySet, parents: &[Chosen<'_>]) -> Result<(), NoMemory>
    ensures { OnOk result ((key : List ℕ)
        → has_lowered key set.new ≡ (has_lowered key set.old || keys.is_listed key parents.now)) }
{
    for parent in parents {
        set.add_lowered(parent.key)?;
    }
    Ok(())
}
