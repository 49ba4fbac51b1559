//! The `.aux` file of a run and its inputs.

ghost use Rattle.std.specs.Prelude.{◌≡◌, ◌≤◌, length, IfOk, IfErr};
ghost use Rattle.bst_run.specs.AuxChain as chain;
ghost use Rattle.bst_run.specs.FileNames.{NamesFiles, NeedsFiles};
ghost use Rattle.bst_run.specs.FilesBegun.{Begins, aux_begun, file_begun, input_begun, inputs_begun, needs_begun};
ghost use Rattle.bst_run.specs.Reads.{Reads};
ghost use Rattle.bst_run.specs.Stops as stops;
ghost use Rattle.bst_run.specs.Subjects.{AreCitations, GivesFileNames, HaveKeys, IsFileName};

use crate::data_fault::DataFault;
use crate::files::names::text_of;
use crate::files::requests::{Needs, Requests, fault_after, first_databases, first_style};
use crate::files::whole::data_file;
use crate::report::bad_data;
use crate::stop::Stop;
use aux_read::aux::{Aux, AuxItem};
use aux_read::fault::AuxFault;
use aux_read::read::read;
use bv_base::files::Files;
use bv_base::limits::DATA_BYTES;
use bv_base::place::Place;
use bv_base::text::Text;
use std::alloc::Global;

/// How deep inputs may nest below the first file.
const MOST_LEVELS: u32 = 16;

/// What the `.aux` file of this name and its inputs ask for.
pub fn needs_of<F: Files>(alloc: Global, files: &mut F, name: &str) -> Result<Needs, Stop>
    ensures reads { Reads ⟦<F as Files>⟧ files.old files.new (λ told. chain.needs_of told name.now) result }
    ensures begun { Begins (F.told files.old) (λ told. needs_begun told name.now) (F.begun files.old) (F.begun files.new) result }
    ensures cited { IfOk result (λ needs. AreCitations needs.items) }
    ensures named { IfOk result NeedsFiles }
{
    let text = data_file(alloc, files, name)?;
    needs_after(alloc, files, name, text.as_slice())
}

/// What a first file, which has been read, and its inputs ask for.
fn needs_after<F: Files>(
    alloc: Global,
    files: &mut F,
    name: &str,
    text: &[u8],
) -> Result<Needs, Stop>
    requires { length text.now ≤ DATA_BYTES }
    ensures reads { Reads ⟦<F as Files>⟧ files.old files.new (λ told. chain.needs_after told name.now text.now) result }
    ensures begun { Begins (F.told files.old) (λ told. inputs_begun told name.now text.now) (F.begun files.old) (F.begun files.new) result }
    ensures cited { IfOk result (λ needs. AreCitations needs.items) }
    ensures named { IfOk result NeedsFiles }
{
    let aux = aux_from(alloc, name, text)?;
    let requests = take_aux(
        alloc,
        files,
        MOST_LEVELS,
        name,
        Requests::nothing(alloc),
        aux,
    )?;
    complete(alloc, name, text, requests)
}

/// Takes a file that has been read, after those before it. So many levels of inputs may lie below it.
#[cycle(inputs)]
fn take_aux<F: Files>(
    alloc: Global,
    files: &mut F,
    levels: u32,
    name: &str,
    before: Requests,
    aux: Aux,
) -> Result<Requests, Stop>
    requires before { AreCitations before.items }
    requires keys { HaveKeys aux.items }
    requires named_before { NamesFiles before }
    requires named { GivesFileNames aux }
    ensures reads { Reads ⟦<F as Files>⟧ files.old files.new (λ told.
        chain.take_aux levels (chain.take_input levels told) name.now before aux) result }
    ensures begun { Begins (F.told files.old) (λ told. aux_begun levels (chain.take_input levels told) (input_begun levels told) before aux) (F.begun files.old) (F.begun files.new) result }
    ensures cited { IfOk result (λ requests. AreCitations requests.items) }
    ensures named { IfOk result NamesFiles }
{
    if let Some(fault) = fault_after(&before, &aux, levels) {
        return Err(Stop::Told(bad_data(alloc, name, fault)?));
    }
    let mut requests = Requests {
        items: before.items,
        style: first_style(before.style, aux.style),
        databases: first_databases(before.databases, aux.databases),
    };
    for item in aux.items.into_vec() {
        match item {
            AuxItem::Input(input, _) => {
                requests = take_input(alloc, files, levels, &input, requests)?;
            }
            citation => requests.items.push(citation)?,
        }
    }
    Ok(requests)
}

/// Takes an input, which is one of so many levels below the file that names it. Where there is none, that file is at
/// fault.
#[cycle(inputs)]
fn take_input<F: Files>(
    alloc: Global,
    files: &mut F,
    levels: u32,
    name: &Text,
    before: Requests,
) -> Result<Requests, Stop>
    requires before { AreCitations before.items }
    requires named_before { NamesFiles before }
    requires named { IsFileName name.now }
    ensures reads { Reads ⟦<F as Files>⟧ files.old files.new (λ told. chain.take_input levels told name.now before) result }
    ensures begun { Begins (F.told files.old) (λ told. input_begun levels told name.now before) (F.begun files.old) (F.begun files.new) result }
    ensures cited { IfOk result (λ requests. AreCitations requests.items) }
    ensures named { IfOk result NamesFiles }
{
    if levels == 0 {
        return Ok(before);
    }
    let name = text_of(name);
    let aux = aux_file(alloc, files, name)?;
    take_aux(alloc, files, levels - 1, name, before, aux)
}

/// What the file of this name asks for by itself.
fn aux_file<F: Files>(alloc: Global, files: &mut F, name: &str) -> Result<Aux, Stop>
    ensures reads { Reads ⟦<F as Files>⟧ files.old files.new (λ told. chain.aux_file told name.now) result }
    ensures begun { Begins (F.told files.old) (λ told. file_begun told name.now) (F.begun files.old) (F.begun files.new) result }
    ensures keys { IfOk result (λ aux. HaveKeys aux.items) }
    ensures named { IfOk result GivesFileNames }
{
    let text = data_file(alloc, files, name)?;
    aux_from(alloc, name, text.as_slice())
}

/// What a file that was read asks for.
fn aux_from(alloc: Global, name: &str, text: &[u8]) -> Result<Aux, Stop>
    requires { length text.now ≤ DATA_BYTES }
    ensures decides { stops.Decides (chain.aux_in name.now text.now) result }
    ensures keys { IfOk result (λ aux. HaveKeys aux.items) }
    ensures named { IfOk result GivesFileNames }
    ensures inside { IfErr result stops.IsInside }
{
    match read(alloc, text) {
        Ok(aux) => Ok(aux),
        Err(AuxFault::NoMemory) => Err(Stop::NoMemory),
        Err(fault) => Err(Stop::Told(bad_data(alloc, name, DataFault::Aux(fault))?)),
    }
}

/// What all the files ask for, where they name a style and databases. Else the first file is at fault at its end.
fn complete(alloc: Global, name: &str, text: &[u8], requests: Requests) -> Result<Needs, Stop>
    requires short { length text.now ≤ DATA_BYTES }
    requires named { NamesFiles requests }
    ensures decides { stops.Decides (chain.complete name.now text.now requests) result }
    ensures same { IfOk result (λ needs. needs.items ≡ requests.items) }
    ensures named { IfOk result NeedsFiles }
    ensures inside { IfErr result stops.IsInside }
{
    let Requests {
        items,
        style,
        databases,
    } = requests;
    let Some(style) = style else {
        return Err(Stop::Told(bad_data(
            alloc,
            name,
            DataFault::NoStyle(Place::START.after(text)),
        )?));
    };
    match databases.as_slice() {
        [] => Err(Stop::Told(bad_data(alloc, name, DataFault::NoData(Place::START.after(text)))?)),
        _ => Ok(Needs {
            items,
            style,
            databases,
        }),
    }
}
