//! How the loops of a walk are made (docs/ANALYSER.md, "Loops").

ghost use Rattle.std.specs.Prelude.{◌≡◌, Some};
ghost use Rattle.infer_loops.specs.Invariants.{invariant_of};

use crate::laws::invariants_are_loops;
use crate::sequence::invariant;
use bst_meaning::value::Target;
use bv_base::memory::NoMemory;
use cert_check::{Checker, Loops};
use cert_format::cert::Loop;
use std::alloc::Global;
use std::marker::Model;
use sym_state::state::State;

/// A loop is made as its invariant, by the checker of a certificate that has the condition and no unit.
#[derive(Clone, Copy)]
pub struct Invariants<'a> {
    alloc: Global,
    checker: &'a Checker<'a>,
}

impl<'a> Invariants<'a> {
    /// The invariants that a checker shows.
    pub fn new(alloc: Global, checker: &'a Checker<'a>) -> Invariants<'a>
        ensures { result.checker.now ≡ checker.now }
    {
        Invariants { alloc, checker }
    }
}

impl<'a> Loops for Invariants<'a> {
    ghost style = { λ i. i.checker.now.style };

    ghost made = { λ i. Some (invariant_of i.checker.now.style i.checker.now.cert) };

    fn makes(&self) -> bool {
        invariants_are_loops();
        let _sound = self.checker.style();
        let _certified = self.checker.cond();
        true
    }

    fn make(
        &self,
        test: Target,
        body: Target,
        entering: &[State],
    ) -> Result<Option<Loop>, NoMemory> {
        invariant(self.alloc, self.checker, test, body, entering)
    }
}
