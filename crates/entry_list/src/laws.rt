//! What holds of every joined list.

ghost use Rattle.std.specs.Prelude.{List, []};
ghost use Rattle.std.specs.List.{AllByRecursion};
ghost use Rattle.aux_read.specs.declared.aux.AuxItem.{AuxItem};
ghost use Rattle.bib_read.specs.Additions.{AreNew};
ghost use Rattle.bib_read.specs.RawEntries.{RawEntry};
ghost use Rattle.entry_list.specs.Apart.{AreApart, IsFrom};
ghost use Rattle.entry_list.specs.Parents.{whole_list};

/// Where no two entries of the databases have one key, as in every database that is read, each entry of the list is
/// the one that the databases have under its key, and no two entries of the list have one key. Keys are compared
/// lowered.
pub fn the_list_is_of_the_databases()
    ensures from { (items : List AuxItem) (entries : List RawEntry) → AreNew [] entries
        → AllByRecursion (IsFrom entries) (whole_list items entries) }
    ensures apart { (items : List AuxItem) (entries : List RawEntry) → AreNew [] entries
        → AreApart (whole_list items entries) }
{}
