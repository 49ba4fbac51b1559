//! What an `.aux` file asks for.

ghost use Rattle.std.specs.Prelude.{◌≡◌};
ghost use Rattle.aux_read.specs.Lines as lines;

use bv_base::place::Place;
use bv_base::seq::Seq;
use bv_base::text::Text;
use std::alloc::Global;

/// One request among the citations.
#[derive(Debug, Drop)]
pub enum AuxItem {
    /// The entry with this key, spelled as it is cited.
    Cite(Text),
    /// All entries, cited as `*`.
    All,
    /// Another `.aux` file, by its name as it stands, with the place of the line's start.
    Input(Text, Place),
}

/// What an `.aux` file asks for. Each place is that of its line's start, and 1:1 where there is no such line.
#[derive(Debug, Drop)]
pub struct Aux {
    /// The citations and inputs, in order.
    pub items: Seq<AuxItem>,
    /// The name of the style as it stands.
    pub style: Option<Text>,
    pub style_place: Place,
    /// The names of the databases as they stand, in order; none exactly where no line names databases.
    pub databases: Seq<Text>,
    pub data_place: Place,
}

impl Aux {
    /// Before the first line.
    pub(crate) fn nothing(alloc: Global) -> Aux
        ensures { result ≡ lines.nothing }
    {
        Aux {
            items: Seq::new(alloc),
            style: None,
            style_place: Place::START,
            databases: Seq::new(alloc),
            data_place: Place::START,
        }
    }
}
