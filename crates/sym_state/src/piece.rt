//! Pieces: what a certificate says of a configuration.

use crate::symbol::{Bind, Fact, Sym};
use bv_base::seq::Seq;
use lin_facts::row::Row;

/// A description of configurations, as a certificate gives it. Its symbols are its own.
#[derive(Debug, Drop)]
pub struct Piece {
    /// The known top of the literal stack, its top last.
    pub stack: Seq<Sym>,
    /// Variables, upwards by id.
    pub vars: Seq<Bind>,
    /// Fields of the visited entry, upwards by id.
    pub fields: Seq<Bind>,
    pub facts: Seq<Fact>,
    pub rows: Seq<Row>,
}
