//! Tests of what the checker knows of a configuration: of the rows of lin_facts, the states of sym_state, the cases of
//! refinements and the effects of builtin_effects. A crate is proved once more with its tests, so those of these four stand
//! here, beside one reader of their rows and one writer of what comes of them.
#![tactic(auto)]

#[cfg(test)]
mod tests;
pub mod walk;
