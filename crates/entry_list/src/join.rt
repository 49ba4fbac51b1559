//! Joining citations and databases.

ghost use Rattle.std.specs.Prelude.{◌≡◌, ◌++◌, IfOk};
ghost use Rattle.bib_read.specs.Additions.{AreKeyed};
ghost use Rattle.bst_meaning.specs.Entries.{Fits};
ghost use Rattle.entry_list.specs.Bytes.{HaveBytes};
ghost use Rattle.entry_list.specs.Joining as joining;
ghost use Rattle.entry_list.specs.Tables.{TellsParents};

use crate::chosen::Chosen;
use crate::citing::{Cited, cited_list};
use crate::entry_table::EntryTable;
use crate::fields::{copied, declared_fields, join_entries, warn_of_parents};
use crate::joined::Joined;
use crate::parents::{append_parents, listed_parents};
use aux_read::aux::AuxItem;
use bib_read::database::Database;
use bv_base::key_set::KeySet;
use bv_base::memory::NoMemory;
use bv_base::seq::Seq;
use bv_base::text::Text;
use entry_store::entry::EntryList;
use entry_store::packed_entries::PackedEntries;
use name_table::style::Style;
use std::alloc::Global;

/// The list of entries that a style's functions see, and the warnings of joining it. Keys are compared lowered.
///
/// The list takes each cited entry at its first citation, with the key as the citation spells it. The first `*`
/// takes in its place all entries that no citation names, before it or after it. Then each entry that `crossref`
/// names in at least two entries of the list is appended, once. A field that is missing takes its value from the
/// entry that `crossref` names, and `crossref` stays where that entry is in the list. Fields that the style doesn't
/// declare are dropped.
///
/// Keys are looked up in hash tables, those of the databases' entries in the table that was made as they were read, so the time
/// is linear in the citations and the entries of the databases. Of each listed entry every field that the style declares is
/// looked for among the entry's fields and its parent's.
pub fn join(
    alloc: Global,
    style: &Style,
    items: &[AuxItem],
    database: &Database,
) -> Result<Joined, NoMemory>
    requires items { joining.AreCitations items.now }
    requires keys { AreKeyed database.now.entries }
    ensures joined { IfOk result (λ found. found ≡ joining.joined style.now items.now database.now) }
    ensures fits { IfOk result (λ found. Fits style.now found.list) }
{
    let table = EntryTable::new(alloc, &database.entries);
    let cited = cited_list(alloc, items, &table)?;
    let whole = with_parents(alloc, cited, &table)?;
    let entries = entries_of(alloc, style, &table, whole.list.as_slice(), &whole.listed)?;
    let preamble = copied(alloc, database.preamble.as_slice())?;
    Ok(Joined {
        list: EntryList::new(entries, preamble),
        warnings: whole.warnings,
    })
}

/// The whole list, keys that say of each parent whether it is in the list, and the warnings.
#[derive(Drop)]
struct Whole<'a> {
    list: Vec<Chosen<'a>>,
    listed: KeySet,
    warnings: Seq<Text>,
}

/// Appends the parents of cited entries to them, and their warnings.
fn with_parents<'a>(
    alloc: Global,
    cited: Cited<'a>,
    table: &EntryTable<'a>,
) -> Result<Whole<'a>, NoMemory>
    ensures list { IfOk result (λ whole. whole.list.items ≡ cited.entry.list.items ++ joining.appended table.now cited.entry.list.items) }
    ensures listed { IfOk result (λ whole. TellsParents whole.listed table.now whole.list.items) }
    ensures warnings { IfOk result (λ whole. whole.warnings
        ≡ cited.entry.warnings ++ joining.without_parents table.now whole.list.items) }
{
    let mut list = cited.list;
    let mut warnings = cited.warnings;
    append_parents(alloc, &mut list, table)?;
    warn_of_parents(alloc, &mut warnings, table, list.as_slice())?;
    let listed = listed_parents(alloc, list.as_slice(), table)?;
    Ok(Whole {
        list,
        listed,
        warnings,
    })
}

/// The entries of a list with the fields that the style declares. Keys say of each parent whether it is in the list.
fn entries_of<'a>(
    alloc: Global,
    style: &Style,
    table: &EntryTable<'a>,
    list: &[Chosen<'a>],
    listed: &KeySet,
) -> Result<PackedEntries, NoMemory>
    requires { TellsParents listed.now table.now list.now }
    ensures joined { IfOk result (λ found. found.entries ≡ joining.all_joined style.now table.now list.now) }
    ensures bytes { IfOk result (λ found. HaveBytes found.entries) }
{
    let declared = declared_fields(alloc, style)?;
    join_entries(alloc, declared.as_slice(), table, list, listed)
}
