//! The lines that count.

ghost use Rattle.std.specs.Prelude.{◌≡◌, OnOk, IfOk};
ghost use Rattle.aux_read.specs.Items.{stretches};
ghost use Rattle.aux_read.specs.Lines as lines;
ghost use Rattle.aux_read.specs.declared.fault.AuxFault.TheVariants.{NoMemory as WantOfMemory};
ghost use Rattle.bv_base.specs.Answers.{Gives};

use crate::aux::{Aux, AuxItem};
use crate::fault::AuxFault;
use crate::items::{after_front, file_name_of, inside_of, item_of};
use bstr::ByteSlice;
use bv_base::memory::NoMemory;
use bv_base::place::Place;
use bv_base::seq::Seq;
use bv_base::text::Text;
use std::alloc::Global;

/// Takes a line that stands at a place.
pub(crate) fn take_line(alloc: Global, aux: Aux, place: Place, line: &[u8]) -> Result<Aux, AuxFault>
    ensures { Gives WantOfMemory (lines.take_line place line.now aux) result }
{
    if let Some(rest) = after_front(b"\\citation{", line) {
        return take_citations(alloc, aux, place, rest);
    }
    if let Some(rest) = after_front(b"\\bibdata{", line) {
        return take_databases(alloc, aux, place, rest);
    }
    if let Some(rest) = after_front(b"\\bibstyle{", line) {
        return take_style(alloc, aux, place, rest);
    }
    if let Some(rest) = after_front(b"\\@input{", line) {
        return take_input(alloc, aux, place, rest);
    }
    Ok(aux)
}

/// Takes the citations after an opening brace.
fn take_citations(alloc: Global, aux: Aux, place: Place, rest: &[u8]) -> Result<Aux, AuxFault>
    ensures { Gives WantOfMemory (lines.take_citations place rest.now aux) result }
{
    match inside_of(rest) {
        Some(inside) => add_citations(alloc, aux, place, inside),
        None => Err(AuxFault::BadCommand(place)),
    }
}

/// Adds the citations that some bytes list.
fn add_citations(alloc: Global, aux: Aux, place: Place, inside: &[u8]) -> Result<Aux, AuxFault>
    ensures { Gives WantOfMemory (lines.add_citations place (stretches inside.now) aux) result }
{
    let mut aux = aux;
    let mut stretches = inside.split_str(b",");
    while let Some(stretch) = stretches.next() {
        let Some(item) = item_of(stretch) else {
            return Err(AuxFault::BadCommand(place));
        };
        aux.items.push(citation(alloc, item)?)?;
    }
    Ok(aux)
}

/// What an item of a citation asks for.
fn citation(alloc: Global, item: &[u8]) -> Result<AuxItem, NoMemory>
    ensures { IfOk result (λ found. found ≡ lines.citation item.now) }
{
    match item {
        b"*" => Ok(AuxItem::All),
        _ => Ok(AuxItem::Cite(Text::from_slice(alloc, item)?)),
    }
}

/// Takes the names of databases after an opening brace.
fn take_databases(alloc: Global, aux: Aux, place: Place, rest: &[u8]) -> Result<Aux, AuxFault>
    ensures { Gives WantOfMemory (lines.take_databases place rest.now aux) result }
{
    let Some(inside) = inside_of(rest) else {
        return Err(AuxFault::BadCommand(place));
    };
    let names = file_names(alloc, place, inside)?;
    match aux.databases.as_slice() {
        [] => Ok(Aux {
            databases: names,
            data_place: place,
            ..aux
        }),
        _ => Err(AuxFault::SecondData(place)),
    }
}

/// The names of files that some bytes list.
fn file_names(alloc: Global, place: Place, inside: &[u8]) -> Result<Seq<Text>, AuxFault>
    ensures { Gives WantOfMemory (lines.file_names place inside.now) result }
{
    let mut names = Seq::new(alloc);
    let mut stretches = inside.split_str(b",");
    while let Some(stretch) = stretches.next() {
        let Some(name) = file_name_of(stretch) else {
            return Err(AuxFault::BadCommand(place));
        };
        names.push(Text::from_slice(alloc, name)?)?;
    }
    Ok(names)
}

/// Takes the name of a style after an opening brace.
fn take_style(alloc: Global, aux: Aux, place: Place, rest: &[u8]) -> Result<Aux, AuxFault>
    ensures { Gives WantOfMemory (lines.take_style place rest.now aux) result }
{
    let name = file_name(alloc, place, rest)?;
    match aux.style {
        None => Ok(Aux {
            style: Some(name),
            style_place: place,
            ..aux
        }),
        Some(_) => Err(AuxFault::SecondStyle(place)),
    }
}

/// Takes the name of a further file after an opening brace.
fn take_input(alloc: Global, aux: Aux, place: Place, rest: &[u8]) -> Result<Aux, AuxFault>
    ensures { Gives WantOfMemory (lines.take_input place rest.now aux) result }
{
    let name = file_name(alloc, place, rest)?;
    let mut aux = aux;
    aux.items.push(AuxItem::Input(name, place))?;
    Ok(aux)
}

/// The one name of a file after an opening brace.
fn file_name(alloc: Global, place: Place, rest: &[u8]) -> Result<Text, AuxFault>
    ensures { Gives WantOfMemory (lines.file_name place rest.now) result }
{
    let Some(inside) = inside_of(rest) else {
        return Err(AuxFault::BadCommand(place));
    };
    let Some(name) = file_name_of(inside) else {
        return Err(AuxFault::BadCommand(place));
    };
    Ok(Text::from_slice(alloc, name)?)
}
