//! The fields that an entry takes its values from.

ghost use Rattle.std.specs.Prelude.{◌≡◌, [], if◌then◌else◌, None, codes, OnOk};
ghost use Rattle.std.specs.Option.{option_map};
ghost use Rattle.bib_read.specs.Names.{text_of};
ghost use Rattle.entry_list.specs.Sources as sources;

use bib_read::raw_entry::RawEntry;
use bib_read::raw_fields::RawField;
use bv_base::memory::NoMemory;
use std::alloc::Global;

/// The fields of an entry and those of its parent, each read out of its database once: every field that the style declares is
/// looked for among them, and of names that are read out a look at their lengths tells most apart. Their room serves one entry
/// after the other.
#[derive(Drop)]
pub(crate) struct Sources<'a> {
    own: Vec<RawField<'a>>,
    lent: Vec<RawField<'a>>,
}

impl<'a> Sources<'a> {
    /// No field.
    pub(crate) fn new(alloc: Global) -> Sources<'a>
        ensures own { result.own.items ≡ [] }
        ensures lent { result.lent.items ≡ [] }
    {
        Sources {
            own: Vec::new(alloc),
            lent: Vec::new(alloc),
        }
    }

    /// Leaves the fields of an entry and of its parent.
    pub(crate) fn fill(
        &mut self,
        entry: &RawEntry<'a>,
        parent: Option<&RawEntry<'a>>,
    ) -> Result<(), NoMemory>
        ensures own { OnOk result (self.new.own.items ≡ entry.now.fields) }
        ensures lent { OnOk result (self.new.lent.items ≡ sources.fields_of (option_map (λ e. e.now) parent.entry)) }
    {
        read_into(&mut self.own, entry)?;
        lend_into(&mut self.lent, parent)
    }

    /// The value of the field of this name: the entry's own text or else its parent's; `crossref` is kept or missing.
    pub(crate) fn value_of(&self, keeps: bool, name: &[u8]) -> Option<&'a [u8]>
        ensures { option_map (λ text. text.now) result
            ≡ sources.value_among self.now.own.items self.now.lent.items keeps name.now }
    {
        if name == b"crossref".as_slice() {
            return self.kept(keeps);
        }
        match text_in(self.own.as_slice(), name) {
            Some(text) => Some(text),
            None => text_in(self.lent.as_slice(), name),
        }
    }

    /// The entry's own `crossref`, where it is kept.
    fn kept(&self, keeps: bool) -> Option<&'a [u8]>
        ensures { option_map (λ text. text.now) result
            ≡ (if keeps then text_of (codes "crossref") self.now.own.items else None) }
    {
        if !keeps {
            return None;
        }
        text_in(self.own.as_slice(), b"crossref")
    }
}

/// Leaves of a buffer the fields of a parent, or none where there is no parent.
fn lend_into<'a>(
    found: &mut Vec<RawField<'a>>,
    parent: Option<&RawEntry<'a>>,
) -> Result<(), NoMemory>
    ensures { OnOk result (found.new.items ≡ sources.fields_of (option_map (λ e. e.now) parent.entry)) }
{
    match parent {
        Some(entry) => read_into(found, entry),
        None => {
            found.clear();
            Ok(())
        }
    }
}

/// Leaves of a buffer the fields of an entry, each read out.
fn read_into<'a>(found: &mut Vec<RawField<'a>>, entry: &RawEntry<'a>) -> Result<(), NoMemory>
    ensures { OnOk result (found.new.items ≡ entry.now.fields) }
{
    found.clear();
    for at in 0..entry.len() {
        let Some(field) = entry.field(at) else {
            unreachable!()
        };
        found.push(field)?;
    }
    Ok(())
}

/// The value of the first field of this name.
#[inline(always)]
fn text_in<'a>(fields: &[RawField<'a>], name: &[u8]) -> Option<&'a [u8]>
    ensures { option_map (λ text. text.now) result ≡ text_of name.now fields.now }
{
    for field in fields {
        if name == field.name {
            return Some(field.value);
        }
    }
    None
}
