//! What a certificate asks of the entries.

use bv_base::seq::Seq;
use bv_base::text::Text;
use name_table::names::NameId;

/// A bound on the names of a field: where the field is there, it has at most so many names, and each is well formed.
#[derive(Clone, Copy, Debug, PartialEq, Eq)]
pub struct NamesLine {
    pub field: NameId,
    pub most: u32,
}

/// A condition on an entry list.
#[derive(Debug, Drop)]
pub struct Cond {
    /// At most so many entries.
    pub entries: u32,
    /// At most so many bytes in a key.
    pub key: u32,
    /// At most so many bytes in the preamble.
    pub preamble: u32,
    /// At most so many bytes in a field.
    pub length: u32,
    /// Bounds on the names of fields, upwards by the fields' ids.
    pub names: Seq<NamesLine>,
    /// Fields that every entry has, with a byte that isn't white space; upwards by id.
    pub nonblank: Seq<NameId>,
    /// Types that an entry may have, upwards by their bytes.
    pub types: Seq<Text>,
    /// Whether an entry may have a type that the style doesn't define.
    pub other: bool,
}
