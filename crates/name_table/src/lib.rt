//! What a style is once it has been read: the names that it knows, its commands, the bodies of its functions and
//! blocks, and its texts.
#![tactic(auto)]

pub mod builtin;
pub mod laws;
pub mod names;
pub mod opening;
pub mod style;
