//! The reader of databases.

ghost use Rattle.std.specs.Prelude.{◌≡◌, ◌≢◌, ◌≤◌, length, Ok, Err, IfOk, IfErr};
ghost use Rattle.bib_read.specs.Additions.{AreKeyed};
ghost use Rattle.bib_read.specs.Reading as reading;
ghost use Rattle.bib_read.specs.Progressing.{progress_of};
ghost use Rattle.bib_read.specs.declared.fault.BibFault.TheVariants.{NoMemory as WantOfMemory};

use crate::database::Database;
use crate::fault::BibFault;
use crate::fields::Fields;
use crate::opening::defined;
use crate::reader::Reader;
use crate::stop::fault_of;
use bv_base::limits::DATA_BYTES;
use bv_base::memory::NoMemory;
use bv_base::text::Text;
use name_table::style::Style;
use std::alloc::Global;

/// The macros of a style and nothing else.
pub fn opening(alloc: Global, style: &Style) -> Result<Database, NoMemory>
    ensures { IfOk result (λ database. database ≡ reading.opening style.now.macros) }
{
    crate::opening::opening(alloc, style)
}

/// Reads a text of at most 16777216 bytes: takes over what was read before and gives it with what the text adds, or the first
/// fault that the reading meets.
///
/// Where each key before is a key, one byte or more without white space, each key of what is read is one.
///
/// Each byte of the text is read a fixed number of times. Each macro and key is looked up in a hash table, and each field
/// among the first few of its entry and in a hash table behind them. A macro's value is copied wherever its name stands;
/// entries and warnings that were read before aren't copied.
pub fn read(alloc: Global, source: &[u8], before: Database) -> Result<Database, BibFault>
    requires { length source.now ≤ DATA_BYTES }
    ensures ok { IfOk result (λ database. reading.database_of source.now before ≡ Ok database) }
    ensures keys { IfOk result (λ database. AreKeyed before.entries → AreKeyed database.entries) }
    ensures fault { IfErr result (λ fault. fault ≢ WantOfMemory
        → reading.database_of source.now before ≡ Err fault) }
{
    let database = read_after(alloc, source, before)?;
    Ok(database)
}

/// Reads a text after what was read before.
fn read_after(alloc: Global, source: &[u8], before: Database) -> Result<Database, BibFault>
    requires { length source.now ≤ DATA_BYTES }
    ensures ok { IfOk result (λ database. reading.database_of source.now before ≡ Ok database) }
    ensures fault { IfErr result (λ fault. fault ≢ WantOfMemory
        → reading.database_of source.now before ≡ Err fault) }
{
    let Ok(mut reader) = start(alloc, source, before) else {
        return Err(BibFault::NoMemory);
    };
    match reader.take_items() {
        Err(stop) => Err(fault_of(source, stop)),
        Ok(()) => match finish(reader) {
            Ok(database) => Ok(database),
            Err(_) => Err(BibFault::NoMemory),
        },
    }
}

/// The reader before the first byte.
fn start<'a>(alloc: Global, source: &'a [u8], before: Database) -> Result<Reader<'a>, NoMemory>
    ensures { IfOk result (λ reader. (progress_of reader ≡ reading.start source.now before)
        × (reader.rest.now ≡ source.now)) }
{
    let macros = defined(alloc, before.macros.as_slice())?;
    let mut preamble = Vec::new(alloc);
    preamble.extend_from_slice(before.preamble.as_slice())?;
    Ok(Reader {
        alloc,
        rest: source,
        macros,
        entries: before.entries,
        preamble,
        warnings: before.warnings,
        text: Vec::new(alloc),
        value: Vec::new(alloc),
        name: Vec::new(alloc),
        fields: Fields::new(alloc),
    })
}

/// What has been read at the end.
fn finish(reader: Reader<'_>) -> Result<Database, NoMemory>
    ensures { IfOk result (λ database. database ≡ reading.database (progress_of reader.entry)) }
{
    let macros = reader.macros.to_seq()?;
    let Reader {
        entries,
        preamble,
        warnings,
        ..
    } = reader;
    Ok(Database {
        macros,
        entries,
        preamble: Text::from_vec(preamble),
        warnings,
    })
}
