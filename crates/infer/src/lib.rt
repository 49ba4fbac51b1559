//! The analyser: a certificate for a style, or where and why none is found.
#![tactic(auto)]

mod analyser;
mod condition;
mod fragment;
mod unknown;

pub use crate::analyser::infer;
pub use crate::condition::default_cond;
pub use crate::unknown::{Unknown, UnknownReason};
