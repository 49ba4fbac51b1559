//! Tests of the readers: of styles, of databases, and of the entry list that is joined from a database. A crate is proved once
//! more with its tests, so they stand here.
#![tactic(auto)]

#[cfg(test)]
mod tests;
