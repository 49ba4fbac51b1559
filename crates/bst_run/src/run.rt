//! A run of a style over the entries that an `.aux` file asks for.

ghost use Rattle.std.specs.Prelude.{◌≡◌, IfOk};
ghost use Rattle.bst_run.specs.FilesBegun.{Begins, sources_begun};
ghost use Rattle.bst_run.specs.Ran as rule;
ghost use Rattle.bst_run.specs.Reads.{Reads};
ghost use Rattle.bst_run.specs.Stops.{IsDecided};
ghost use Rattle.bst_run.specs.Subjects.{AreCitations, AreKeyed, Fits, joined};

use crate::answer::{Answer, Run};
use crate::files::sources::{Sources, sources_of};
use crate::stop::Stop;
use bib_read::database::Database;
use bv_base::files::Files;
use bv_base::memory::NoMemory;
use bv_base::seq::Seq;
use bv_base::text::Text;
use entry_list::join::join;
use entry_list::joined::Joined;
use name_table::style::Style;
use std::alloc::Global;

/// Reads what the `.aux` file of this name asks for, and asks for the first steps of the style over it.
pub fn run<F: Files>(alloc: Global, files: &mut F, aux: &str, steps: u32) -> Result<Answer, Stop>
    ensures reads { Reads ⟦<F as Files>⟧ files.old files.new (λ told. rule.run_outcome told aux.now steps) result }
    ensures begun { Begins (F.told files.old) (λ told. sources_begun told aux.now) (F.begun files.old) (F.begun files.new) result }
    ensures decided { IfOk result (λ outcome. IsDecided outcome.status) }
{
    let sources = sources_of(alloc, files, aux)?;
    Ok(run_over(alloc, sources, steps)?)
}

/// Joins the citations and the databases, and asks for the first steps of the style over them.
fn run_over(alloc: Global, sources: Sources, steps: u32) -> Result<Answer, NoMemory>
    requires cited { AreCitations sources.items }
    requires keyed { AreKeyed sources.database.entries }
    ensures { IfOk result (λ outcome. outcome ≡ rule.run_over steps sources) }
{
    let (style, found, reading) = join_all(alloc, sources)?;
    Ok(Answer::asked(Run {
        style,
        found,
        reading,
        front: Text::from_vec(Vec::new(alloc)),
        steps,
    }))
}

/// The style, the joined entries, and the warnings of the databases. What was read of the databases ends here, so that no
/// run holds it.
pub fn join_all(alloc: Global, sources: Sources) -> Result<(Style, Joined, Seq<Text>), NoMemory>
    requires cited { AreCitations sources.items }
    requires keyed { AreKeyed sources.database.entries }
    ensures style { IfOk result (λ all. all.0 ≡ sources.style) }
    ensures found { IfOk result (λ all. all.1 ≡ joined sources.style sources.items sources.database) }
    ensures reading { IfOk result (λ all. all.2 ≡ sources.database.warnings) }
    ensures fits { IfOk result (λ all. Fits all.0 all.1.list) }
{
    let Sources {
        style,
        items,
        database,
    } = sources;
    let found = join(alloc, &style, items.as_slice(), &database)?;
    let Database { warnings, .. } = database;
    Ok((style, found, warnings))
}
