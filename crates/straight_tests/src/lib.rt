//! Tests of `straight_proofs`. A crate is proved once more with its tests, so they stand here.
#![tactic(auto)]

#[cfg(test)]
mod tests;
