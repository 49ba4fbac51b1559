//! What has been read of databases.

use crate::entries::Entries;
use bv_base::seq::Seq;
use bv_base::text::Text;
use name_table::style::Macro;

/// What has been read of databases.
#[derive(Drop)]
pub struct Database {
    /// The macros in order, those of the style first.
    pub macros: Seq<Macro>,
    /// The entries in order. No two lowered keys are equal.
    pub entries: Entries,
    /// The values of the preambles, one directly after the other.
    pub preamble: Text,
    /// The warnings, as lines of the log.
    pub warnings: Seq<Text>,
}
