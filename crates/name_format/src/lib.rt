//! Names written by a pattern (docs/NAMES.md, "Formatting").
#![tactic(auto)]

pub mod format;
mod group;
mod initial;
pub mod known;
mod known_name;
mod known_patterns;
mod pattern;
mod tie;
mod tokens;
