//! What the built-in functions on texts make of a text (docs/TEXTS.md).
#![tactic(auto)]

pub mod add_period;
pub mod change_case;
pub mod int_to_str;
pub mod is_blank;
pub mod laws;
mod levels;
pub mod purify;
pub mod substring;
pub mod text_length;
pub mod text_prefix;
pub mod width;
