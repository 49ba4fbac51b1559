//! The rules of commands, and what it means that a certificate is accepted.
#![tactic(auto)]

mod at;
mod between;
mod decision;
mod ends;
mod finding;
mod flow;
mod kept;
pub mod laws;
mod leaving;
mod moving;
mod shape;
mod templates;

pub use decision::check;
pub use finding::find;
pub use templates::{Lasting, Made, make};
