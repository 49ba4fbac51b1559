//! The command in hand.

use bst_meaning::condition::Cond;
use cert_check::Checker;
use name_table::style::{CommandAt, Style};
use std::alloc::Global;

/// A command of a style, and by what it is checked, or its hints are found.
#[derive(Clone, Copy)]
pub(crate) struct At<'a> {
    pub(crate) checker: &'a Checker<'a>,
    pub(crate) alloc: Global,
    pub(crate) style: &'a Style,
    pub(crate) cond: &'a Cond,
    pub(crate) command: CommandAt,
}
