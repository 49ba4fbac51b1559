//! Certificates and conditions: each has one spelling, in which it is read and printed.
#![tactic(auto)]

pub mod cert;
mod cert_lines;
mod cond_lines;
pub mod fault;
mod hex;
mod hint_lines;
mod items;
pub mod laws;
mod limits;
mod lines;
mod piece_items;
mod piece_lines;
pub mod print;
mod printer;
mod put_hints;
mod put_pieces;
mod put_units;
pub mod read;
mod stages;
mod stop;
mod styled;
mod unit_lines;
mod worded;

pub use crate::piece_items::is_before;
