//! Lines of a condition that aren't kept.

/// The first line of a condition that an entry list doesn't keep.
#[derive(Clone, Copy, Debug, PartialEq, Eq)]
pub struct Unmet {
    /// The entry that doesn't keep it, counted from 0; `None` where the line is about the whole list.
    pub entry: Option<u64>,
    /// The line, numbered from 0 as the condition is printed.
    pub line: u32,
}
