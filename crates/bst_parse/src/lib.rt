//! The reader of styles: commands, bodies of tokens, and the rules of names and of order.
#![tactic(auto)]

mod bodies;
pub mod fault;
pub mod grammar;
pub mod laws;
mod opened;
pub mod parse;
mod parser;
mod parts;
mod tokens;
mod words;
