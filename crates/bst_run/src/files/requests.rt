//! What `.aux` files ask for together.

ghost use Rattle.std.specs.Prelude.{◌≡◌, IfSome};
ghost use Rattle.bst_run.specs.FileNames.{NamesFiles};
ghost use Rattle.bst_run.specs.Requests as requests;
ghost use Rattle.bst_run.specs.Subjects.{AreFileNames, IsFileName};

use crate::data_fault::DataFault;
use aux_read::aux::{Aux, AuxItem};
use aux_read::fault::AuxFault;
use bv_base::seq::Seq;
use bv_base::text::Text;
use std::alloc::Global;

/// What the `.aux` files read so far ask for.
#[derive(Drop)]
pub struct Requests {
    /// The citations in order, those of an input in its place, and no inputs.
    pub items: Seq<AuxItem>,
    /// The name of the style as it stands.
    pub style: Option<Text>,
    /// The names of the databases as they stand, in order; none exactly where no line names databases.
    pub databases: Seq<Text>,
}

/// What a run needs: what its `.aux` files ask for, with a style and at least one database.
#[derive(Drop)]
pub struct Needs {
    /// The citations in order, and no inputs.
    pub items: Seq<AuxItem>,
    /// The name of the style as it stands.
    pub style: Text,
    /// The names of the databases as they stand, in order.
    pub databases: Seq<Text>,
}

impl Requests {
    /// Before the first file.
    pub fn nothing(alloc: Global) -> Requests
        ensures nothing { result ≡ requests.nothing }
        ensures named { NamesFiles result }
    {
        Requests {
            items: Seq::new(alloc),
            style: None,
            databases: Seq::new(alloc),
        }
    }
}

/// The requests with the style that a file names, where none was named before.
pub fn first_style(before: Option<Text>, found: Option<Text>) -> Option<Text>
    ensures first { result ≡ requests.first_style before found }
    ensures named { IfSome before IsFileName → IfSome found IsFileName → IfSome result IsFileName }
{
    match before {
        Some(style) => Some(style),
        None => found,
    }
}

/// The databases that were named before, or else those of a file.
pub fn first_databases(before: Seq<Text>, found: Seq<Text>) -> Seq<Text>
    ensures first { result ≡ requests.first_databases before found }
    ensures named { AreFileNames before → AreFileNames found → AreFileNames result }
{
    match before.as_slice() {
        [] => found,
        _ => before,
    }
}

/// The fault of a file after those before it: of those that it has, the one that stands first. So many levels of inputs
/// may lie below the file.
pub fn fault_after(before: &Requests, aux: &Aux, levels: u32) -> Option<DataFault>
    ensures { result ≡ requests.fault_after levels before.now aux.now }
{
    first_fault(
        first_fault(second_style(before, aux), second_databases(before, aux)),
        too_deep(levels, aux.items.as_slice()),
    )
}

/// The one of two faults that stands first.
fn first_fault(a: Option<DataFault>, b: Option<DataFault>) -> Option<DataFault>
    ensures { result ≡ requests.first_fault a b }
{
    match (a, b) {
        (Some(x), Some(y)) => {
            if y.place().line < x.place().line {
                Some(y)
            } else {
                Some(x)
            }
        }
        (Some(x), None) => Some(x),
        (None, y) => y,
    }
}

/// A style is named, and one was named before.
fn second_style(before: &Requests, aux: &Aux) -> Option<DataFault>
    ensures { result ≡ requests.second_style before.now aux.now }
{
    match (&before.style, &aux.style) {
        (Some(_), Some(_)) => Some(DataFault::Aux(AuxFault::SecondStyle(aux.style_place))),
        _ => None,
    }
}

/// Databases are named, and some were named before.
fn second_databases(before: &Requests, aux: &Aux) -> Option<DataFault>
    ensures { result ≡ requests.second_databases before.now aux.now }
{
    match (before.databases.as_slice(), aux.databases.as_slice()) {
        ([_, ..], [_, ..]) => Some(DataFault::Aux(AuxFault::SecondData(aux.data_place))),
        _ => None,
    }
}

/// The first input, where no level is left for it.
fn too_deep(levels: u32, items: &[AuxItem]) -> Option<DataFault>
    ensures { result ≡ requests.too_deep levels items.now }
{
    if levels > 0 { None } else { first_input(items) }
}

/// The first input.
fn first_input(items: &[AuxItem]) -> Option<DataFault>
    ensures { result ≡ requests.first_input items.now }
{
    for item in items {
        if let AuxItem::Input(_, place) = item {
            return Some(DataFault::TooDeep(*place));
        }
    }
    None
}
