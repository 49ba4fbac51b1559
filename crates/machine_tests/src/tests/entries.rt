//! The entries over which small styles run.

use bv_base::memory::NoMemory;
use bv_base::text::Text;
use entry_store::entry::EntryList;
use entry_store::packed_entries::PackedEntries;
use name_table::names::NameId;
use std::alloc::Global;

/// The key, the type and the title of each entry. `-` is a title that is missing.
static ENTRIES: [(&[u8], &[u8], &[u8]); 5] = [
    (b"A1", b"book", b"b"),
    (b"B2", b"misc", b"-"),
    (b"C3", b"none", b"Z"),
    (b"D4", b"book", b"b"),
    (b"E5", b"misc", b""),
];

/// The entries, and the preamble.
pub fn list(alloc: Global) -> Result<EntryList, NoMemory> {
    let mut entries = PackedEntries::new(alloc, names(alloc)?);
    for (key, entry_type, title) in &ENTRIES {
        push_entry(&mut entries, key, entry_type, title)?;
    }
    Ok(EntryList::new(entries, Text::from_slice(alloc, b"Preamble")?))
}

/// One entry with this title.
pub fn titled(alloc: Global, title: &[u8]) -> Result<EntryList, NoMemory> {
    let mut entries = PackedEntries::new(alloc, names(alloc)?);
    push_entry(&mut entries, b"A1", b"book", title)?;
    Ok(EntryList::new(entries, Text::from_slice(alloc, b"")?))
}

/// The names of the fields: `crossref` and the title.
fn names(alloc: Global) -> Result<Vec<NameId>, NoMemory> {
    let mut names = Vec::new(alloc);
    names.push(NameId(37))?;
    names.push(NameId(41))?;
    Ok(names)
}

/// Adds an entry with this title.
fn push_entry(
    entries: &mut PackedEntries,
    key: &[u8],
    entry_type: &[u8],
    title: &[u8],
) -> Result<(), NoMemory> {
    entries.push(key, entry_type, &[None, value_of(title)])
}

/// The value of a title.
fn value_of(title: &[u8]) -> Option<&[u8]> {
    match title {
        [b'-'] => None,
        _ => Some(title),
    }
}
