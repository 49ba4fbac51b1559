//! The reader of `.aux` files: what is cited, and which style, databases and further files are asked for.
#![tactic(auto)]

pub mod aux;
pub mod fault;
mod items;
pub mod laws;
mod lines;
pub mod read;
