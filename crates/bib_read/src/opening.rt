//! The database before the first text, and the macros before each text.

ghost use Rattle.std.specs.Prelude.{◌≡◌, IfOk, [], ◌++◌};
ghost use Rattle.bib_read.specs.Names.{all_defined};
ghost use Rattle.bib_read.specs.Reading as reading;

use crate::database::Database;
use crate::entries::Entries;
use crate::macros::Macros;
use bv_base::copied::Copied;
use bv_base::memory::NoMemory;
use bv_base::seq::Seq;
use bv_base::text::Text;
use name_table::style::{Macro, Style};
use std::alloc::Global;

/// The macros of a style and nothing else.
pub(crate) fn opening(alloc: Global, style: &Style) -> Result<Database, NoMemory>
    ensures { IfOk result (λ database. database ≡ reading.opening style.now.macros) }
{
    Ok(Database {
        macros: style.macros.copied(alloc)?,
        entries: Entries::new(alloc),
        preamble: Text::from_vec(Vec::new(alloc)),
        warnings: Seq::new(alloc),
    })
}

/// A table of macros that are defined one after the other.
pub(crate) fn defined(alloc: Global, list: &[Macro]) -> Result<Macros, NoMemory>
    ensures { IfOk result (λ macros. macros ≡ all_defined list.now []) }
{
    let mut macros = Macros::new(alloc);
    for one in list {
        macros.define(one.name.as_slice(), one.value.as_slice())?;
    }
    Ok(macros)
}
