//! Entries of the list before their fields are joined.

ghost use Rattle.std.specs.Prelude.{◌≡◌};
ghost use Rattle.entry_list.specs.Keys as keys;

use bib_read::raw_entry::RawEntry;
use std::marker::Model;

/// An entry of the list: its key there, and the entry of the databases.
#[derive(Drop)]
pub(crate) struct Chosen<'a> {
    pub(crate) key: &'a [u8],
    pub(crate) entry: RawEntry<'a>,
}

impl<'a> Model for Chosen<'a> {
    ghost use Rattle.entry_list.specs.Keys.{Listed};

    ghost Value = { Listed };

    ghost view = { λ c. record { key = c.key.now; entry = c.entry } };
}

impl<'a> Chosen<'a> {
    /// An entry under its own key.
    pub(crate) fn own(entry: RawEntry<'a>) -> Chosen<'a>
        ensures { result ≡ keys.own entry.entry }
    {
        Chosen {
            key: entry.key(),
            entry,
        }
    }

    /// The same again.
    pub(crate) fn copied(&self) -> Chosen<'a>
        ensures { result ≡ self.now }
    {
        Chosen {
            key: self.key,
            entry: self.entry.copied(),
        }
    }
}
