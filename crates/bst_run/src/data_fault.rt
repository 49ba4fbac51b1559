//! Why data files aren't what a run needs.

ghost use Rattle.std.specs.Prelude.{◌≡◌};
ghost use Rattle.bst_run.specs.DataFaults as faults;

use aux_read::fault::AuxFault;
use bib_read::fault::BibFault;
use bv_base::place::Place;

/// A fault of an `.aux` file, of several `.aux` files together, or of a database.
#[derive(Clone, Copy, Debug, PartialEq, Eq)]
pub enum DataFault {
    /// A fault of one `.aux` file, or a second style or second databases after those of an earlier file.
    Aux(AuxFault),
    /// An input nests deeper than 16 files. It stands at its line.
    TooDeep(Place),
    /// No file names a style. It stands at the end of the first.
    NoStyle(Place),
    /// No file names databases. It stands at the end of the first.
    NoData(Place),
    /// A fault of a database.
    Bib(BibFault),
}

impl DataFault {
    /// The place of the fault. Want of memory, which no answer tells, has the first.
    pub fn place(self) -> Place
        ensures { result ≡ faults.place_of self }
    {
        match self {
            DataFault::Aux(fault) => fault.place(),
            DataFault::TooDeep(place) | DataFault::NoStyle(place) | DataFault::NoData(place) => {
                place
            }
            DataFault::Bib(fault) => fault.place(),
        }
    }

    /// The name that a last line tells.
    pub fn name(self) -> &'static str
        ensures { result.now ≡ faults.name_of self }
    {
        match self {
            DataFault::Aux(fault) => fault.name(),
            DataFault::TooDeep(_) => "TooDeep",
            DataFault::NoStyle(_) => "NoStyle",
            DataFault::NoData(_) => "NoData",
            DataFault::Bib(fault) => fault.name(),
        }
    }
}
