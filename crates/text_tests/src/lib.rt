//! Tests of the crates of bytes and texts: of files and sinks, names, lexemes, texts, names of people and their formats, and `.aux` files. A crate is proved once
//! more with its tests, so they stand here.
#![tactic(auto)]

#[cfg(test)]
mod tests;
