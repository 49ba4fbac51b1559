//! Where an entry stands.

/// Where an entry stands among the texts of all: the place of its key, behind which its type stands, and how many values behind
/// that are its own.
#[derive(Clone, Copy)]
pub(crate) struct Row {
    pub(crate) begin: u32,
    pub(crate) count: u32,
}
