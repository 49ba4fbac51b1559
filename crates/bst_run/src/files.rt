//! The files that a call reads.

pub mod aux_chain;
pub mod names;
pub mod requests;
pub mod sources;
pub mod style;
pub mod whole;
