//! Where an entry stands.

/// Where an entry stands among the fields of all entries: the place of its key, and how many fields stand behind it.
#[derive(Clone, Copy)]
pub(crate) struct Row {
    pub(crate) begin: u32,
    pub(crate) count: u32,
}
