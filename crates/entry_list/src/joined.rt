//! What joining gives.

use bv_base::seq::Seq;
use bv_base::text::Text;
use entry_store::entry::EntryList;

/// What citations and databases are joined to.
#[derive(Drop)]
pub struct Joined {
    /// The entries and the preamble, as the style's functions see them.
    pub list: EntryList,
    /// The warnings, as lines of the log. Those of the databases come before them and are none of these.
    pub warnings: Seq<Text>,
}
