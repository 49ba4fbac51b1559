//! Where a rule is taken.

use crate::making::Loops;
use crate::scope::Scope;
use bv_base::place::Place;

/// The walk, how its loops are made, the place of the token in hand, and how much further it may go from there: so many more bodies
/// one in the other, and from a state of which so many operands may be known.
#[derive(Clone, Copy)]
pub(crate) struct At<'a, M: Loops> {
    pub(crate) scope: &'a Scope<'a>,
    pub(crate) maker: &'a M,
    pub(crate) place: Place,
    pub(crate) more: u32,
    pub(crate) known: u64,
}
