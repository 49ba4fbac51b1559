//! What is asked of one state under one condition (docs/STATES.md, "Straight proofs").

ghost use Rattle.std.specs.Prelude.{◌≡◌, ◌≤◌, ◌^◌, true, length, IfOk, IfSome};
ghost use Rattle.straight_proofs.specs.Subjects.{HasBounds, IsBounded, IsWithin, absurdity, shows};
ghost use Rattle.straight_proofs.specs.Floors as greatest;
ghost use Rattle.straight_proofs.specs.Straight as rule;

use crate::floors::floor_within;
use crate::known::Known;
use crate::learnt::{Learnt, nothing};
use crate::lookup::rows_in_reach;
use crate::remainders::canonical;
use crate::straight::{MOST_REFERENCES, first_drop, first_proof};
use bst_meaning::condition::Cond;
use bv_base::memory::NoMemory;
use lin_facts::row::Row;
use std::alloc::Global;
use std::marker::Model;
use sym_state::proof::Proof;
use sym_state::state::State;

/// Of one state under one condition, what straight proofs show. What it learns stays at hand, so that what is asked
/// next needs no search for it. Contracts see the state and the condition.
#[derive(Drop)]
pub struct Search<'a> {
    known: Known<'a>,
    learnt: Learnt,
}

impl<'a> Model for Search<'a> {
    ghost use Rattle.straight_proofs.specs.Asked.{Asked, IsReady};

    ghost Value = { Asked };

    ghost view = { λ s. record { state = s.known.state.now; cond = s.known.cond.now } };

    ghost invariant = { λ s. IsReady s.known.cond.now s.known.state.now s.known.rows.items s.learnt };
}

impl<'a> Search<'a> {
    /// What is asked of a state under a condition: its rows that references can name are copied.
    pub fn new(alloc: Global, state: &'a State, cond: &'a Cond) -> Result<Search<'a>, NoMemory>
        requires { HasBounds state.now }
        ensures { IfOk result (λ search. search ≡ record { state = state.now; cond = cond.now }) }
    {
        let rows = rows_in_reach(alloc, state)?;
        let known = Known {
            alloc,
            state,
            cond,
            rows,
        };
        Ok(Search {
            known,
            learnt: nothing(alloc),
        })
    }

    /// The state.
    pub fn state(&self) -> &'a State
        ensures state { result.now ≡ self.now.state }
        ensures bounds { HasBounds result.now }
    {
        self.known.state
    }

    /// The straight proof of a goal, as the function of this name gives it.
    pub fn straight_proof(&mut self, goal: &Row) -> Result<Option<Proof>, NoMemory>
        requires { IsBounded goal.now }
        ensures first { IfOk result (λ found. found ≡ rule.straight_proof self.old.cond self.old.state goal.now) }
        ensures shown { IfOk result (λ found. IfSome found (λ proof. shows self.old.cond self.old.state proof goal.now ≡ true)) }
        ensures few { IfOk result (λ found. IfSome found (λ proof. length proof.uses ≤ MOST_REFERENCES)) }
        ensures stays { self.new ≡ self.old }
    {
        first_proof(&self.known, &mut self.learnt, goal)
    }

    /// The straight proof that a case can't come about, as the function of this name gives it.
    pub fn drop_proof(&mut self) -> Result<Option<Proof>, NoMemory>
        ensures first { IfOk result (λ found. found ≡ rule.drop_proof self.old.cond self.old.state) }
        ensures shown { IfOk result (λ found. IfSome found (λ proof. shows self.old.cond self.old.state proof absurdity ≡ true)) }
        ensures few { IfOk result (λ found. IfSome found (λ proof. length proof.uses ≤ MOST_REFERENCES)) }
        ensures stays { self.new ≡ self.old }
    {
        first_drop(&self.known, &mut self.learnt)
    }

    /// The floor of a sum, as the function of this name gives it.
    pub fn floor(&mut self, sum: &Row) -> Result<Option<i64>, NoMemory>
        requires { IsBounded sum.now }
        ensures greatest { IfOk result (λ found. found ≡ greatest.floor self.old.cond self.old.state sum.now) }
        ensures small { IfOk result (λ found. IfSome found (IsWithin (2 ^ 49))) }
        ensures stays { self.new ≡ self.old }
    {
        let remainder = canonical(self.known.alloc, sum)?;
        floor_within(&self.known, &mut self.learnt, &remainder, MOST_REFERENCES)
    }
}
