//! Tests of the machine: runs of small styles. A crate is proved once
//! more with its tests, so they stand here.
#![tactic(auto)]

#[cfg(test)]
mod tests;
