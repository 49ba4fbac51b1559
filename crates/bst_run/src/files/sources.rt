//! All that a run reads.

ghost use Rattle.std.specs.Prelude.{◌≡◌, ◌≤◌, codes, length, IfOk, IfErr};
ghost use Rattle.bst_run.specs.FileNames.{NeedsFiles};
ghost use Rattle.bst_run.specs.Files as file;
ghost use Rattle.bst_run.specs.FilesBegun.{Begins, databases_begun, file_begun, sources_begun, sources_begun_for};
ghost use Rattle.bst_run.specs.Sources as rule;
ghost use Rattle.bst_run.specs.Reads.{Reads};
ghost use Rattle.bst_run.specs.Stops as stops;
ghost use Rattle.bst_run.specs.Subjects.{AreCitations, AreFileNames, AreKeyed, IsFileName, IsSound, database_of};

use crate::data_fault::DataFault;
use crate::files::aux_chain::needs_of;
use crate::files::names::{text_of, with_ending};
use crate::files::requests::Needs;
use crate::files::style::style_from;
use crate::files::whole::{data_file, style_file};
use crate::report::bad_data;
use crate::stop::Stop;
use aux_read::aux::AuxItem;
use bib_read::database::Database;
use bib_read::fault::BibFault;
use bib_read::read::{opening, read};
use bv_base::files::Files;
use bv_base::limits::DATA_BYTES;
use bv_base::seq::Seq;
use bv_base::text::Text;
use name_table::style::Style;
use std::alloc::Global;

/// All that a run reads.
#[derive(Drop)]
pub struct Sources {
    pub style: Style,
    /// The citations in order, and no inputs.
    pub items: Seq<AuxItem>,
    pub database: Database,
}

/// Reads the `.aux` file of this name with its inputs, the style and the databases, in this order.
pub fn sources_of<F: Files>(alloc: Global, files: &mut F, name: &str) -> Result<Sources, Stop>
    ensures reads { Reads ⟦<F as Files>⟧ files.old files.new (λ told. rule.sources_of told name.now) result }
    ensures begun { Begins (F.told files.old) (λ told. sources_begun told name.now) (F.begun files.old) (F.begun files.new) result }
    ensures sound { IfOk result (λ sources. IsSound sources.style) }
    ensures cited { IfOk result (λ sources. AreCitations sources.items) }
    ensures keyed { IfOk result (λ sources. AreKeyed sources.database.entries) }
{
    let needs = needs_of(alloc, files, name)?;
    sources_for(alloc, files, needs)
}

/// Reads the style, and then the databases.
fn sources_for<F: Files>(alloc: Global, files: &mut F, needs: Needs) -> Result<Sources, Stop>
    requires { NeedsFiles needs }
    ensures reads { Reads ⟦<F as Files>⟧ files.old files.new (λ told. rule.sources_for told needs) result }
    ensures begun { Begins (F.told files.old) (λ told. sources_begun_for told needs) (F.begun files.old) (F.begun files.new) result }
    ensures sound { IfOk result (λ sources. IsSound sources.style) }
    ensures same { IfOk result (λ sources. sources.items ≡ needs.items) }
    ensures keyed { IfOk result (λ sources. AreKeyed sources.database.entries) }
{
    let Needs {
        items,
        style,
        databases,
    } = needs;
    let style = style_named(alloc, files, &style)?;
    let before = opening(alloc, &style)?;
    let database = databases_in(alloc, files, databases.as_slice(), before)?;
    Ok(Sources {
        style,
        items,
        database,
    })
}

/// The style of this name.
fn style_named<F: Files>(alloc: Global, files: &mut F, name: &Text) -> Result<Style, Stop>
    requires { IsFileName name.now }
    ensures reads { Reads ⟦<F as Files>⟧ files.old files.new (λ told. rule.style_named told name.now) result }
    ensures begun { Begins (F.told files.old) (λ told. file_begun told (file.with_ending name.now (codes ".bst"))) (F.begun files.old) (F.begun files.new) result }
    ensures sound { IfOk result IsSound }
{
    let name = with_ending(alloc, text_of(name), ".bst")?;
    let text = style_file(alloc, files, name.as_str())?;
    style_from(alloc, text.as_slice())
}

/// The databases of these names in order, after what was read before.
fn databases_in<F: Files>(
    alloc: Global,
    files: &mut F,
    names: &[Text],
    before: Database,
) -> Result<Database, Stop>
    requires keyed { AreKeyed before.entries }
    requires named { AreFileNames names.now }
    ensures reads { Reads ⟦<F as Files>⟧ files.old files.new (λ told. rule.databases_in told names.now before) result }
    ensures begun { Begins (F.told files.old) (λ told. databases_begun told names.now before) (F.begun files.old) (F.begun files.new) result }
    ensures keyed { IfOk result (λ database. AreKeyed database.entries) }
{
    let mut database = before;
    for name in names {
        database = database_named(alloc, files, name, database)?;
    }
    Ok(database)
}

/// What the database of this name adds to those before it.
fn database_named<F: Files>(
    alloc: Global,
    files: &mut F,
    name: &Text,
    before: Database,
) -> Result<Database, Stop>
    requires keyed { AreKeyed before.entries }
    requires named { IsFileName name.now }
    ensures reads { Reads ⟦<F as Files>⟧ files.old files.new (λ told. rule.database_named told name.now before) result }
    ensures begun { Begins (F.told files.old) (λ told. file_begun told (file.with_ending name.now (codes ".bib"))) (F.begun files.old) (F.begun files.new) result }
    ensures keyed { IfOk result (λ database. AreKeyed database.entries) }
{
    let name = with_ending(alloc, text_of(name), ".bib")?;
    let text = data_file(alloc, files, name.as_str())?;
    database_from(alloc, name.as_str(), text.as_slice(), before)
}

/// What the bytes of a database add to those before it.
fn database_from(alloc: Global, name: &str, text: &[u8], before: Database) -> Result<Database, Stop>
    requires short { length text.now ≤ DATA_BYTES }
    requires keyed { AreKeyed before.entries }
    ensures decides { stops.Decides (rule.read_database name.now (database_of text.now before)) result }
    ensures keyed { IfOk result (λ database. AreKeyed database.entries) }
    ensures inside { IfErr result stops.IsInside }
{
    match read(alloc, text, before) {
        Ok(database) => Ok(database),
        Err(BibFault::NoMemory) => Err(Stop::NoMemory),
        Err(fault) => Err(Stop::Told(bad_data(alloc, name, DataFault::Bib(fault))?)),
    }
}
