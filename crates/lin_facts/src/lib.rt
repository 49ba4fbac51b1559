//! Linear rows over integers, and a step that shows one row from others.
#![tactic(auto)]

pub mod follows;
pub mod row;
