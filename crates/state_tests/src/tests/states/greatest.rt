//! Rows, uses and divisors of the greatest sizes.

ghost use Rattle.std.specs.Prelude.{◌≤◌, ◌≤ℤ◌, pos, length, IfOk};
ghost use Rattle.sym_state.specs.WellMade.{HasBounds};

use crate::tests::lines::compare;
use crate::tests::reading::{Unread, halves, natural};
use crate::tests::states::{Asked, add_goal_shown};
use bv_base::memory::NoMemory;
use bv_base::seq::Seq;
use lin_facts::row::{Part, Row, Term};
use std::alloc::Global;
use sym_state::proof::{Proof, Reference, Use};
use sym_state::state::{Parts, State};

/// A state with the row 2^39 + value 0 >= 0.
fn greatest_state(alloc: Global) -> Result<State, NoMemory>
    ensures { IfOk result HasBounds }
{
    let part = Part {
        coefficient: 1,
        term: Term::Value(0),
    };
    let used = Row {
        constant: 549755813888,
        parts: Seq::from_vec([part].to_vec(alloc)?),
    };
    let mut rows = Seq::new(alloc);
    rows.push(used)?;
    let parts = Parts {
        stack: Seq::new(alloc),
        whole: false,
        at_entry: false,
        vars: Seq::new(alloc),
        fields: Seq::new(alloc),
        facts: Seq::new(alloc),
        rows,
        next: 1,
    };
    State::from_parts(alloc, parts)
}

/// A constant, how many uses of that row, each taken 4294967295 times, and whether they show 64 values and the constant.
static GREATEST: [&str; 3] = [
    "the greatest: 35184372088832 64 => true",
    "one less: 35184372088831 64 => false",
    "one use less: 35184372088832 63 => false",
];

/// Adds whether they show it.
pub fn add_greatest(line: &mut String, given: &'static str) -> Result<(), Unread> {
    let (constant, uses) = halves(given, " ");
    let (constant, uses) = (large(constant)?, natural(uses)? as usize);
    let state = greatest_state(*line.allocator())?;
    add_by_uses(line, &state, constant, uses)
}

/// An integer from 0 to 2^45.
fn large(text: &'static str) -> Result<i64, Unread>
    ensures low { IfOk result (λ n. pos 0 ≤ℤ n) }
    ensures high { IfOk result (λ n. n ≤ℤ pos 35184372088832) }
{
    if let Ok(number) = text.parse::<i64>() {
        if 0 <= number && number <= 35184372088832 {
            return Ok(number);
        }
    }
    Err(Unread::At(text))
}

/// Adds whether so many uses show it by the greatest divisor.
fn add_by_uses(line: &mut String, state: &State, constant: i64, uses: usize) -> Result<(), Unread>
    requires bounds { HasBounds state.now }
    requires low { pos 0 ≤ℤ constant }
    requires high { constant ≤ℤ pos 35184372088832 }
{
    let take = Use {
        reference: Reference::Row(0),
        times: 4294967295,
    };
    let proof = Proof {
        divisor: 4294967295,
        uses: Seq::from_vec([take; 64][..uses.min(64)].to_vec(state.alloc())?),
    };
    add_goal(line, state, constant, &proof)
}

/// Adds whether a proof shows 64 values and a constant.
fn add_goal(line: &mut String, state: &State, constant: i64, proof: &Proof) -> Result<(), Unread>
    requires bounds { HasBounds state.now }
    requires low { pos 0 ≤ℤ constant }
    requires high { constant ≤ℤ pos 35184372088832 }
    requires proof { length proof.now.uses ≤ 64 }
{
    let twice = Part {
        coefficient: 2,
        term: Term::Value(0),
    };
    let goal = Row {
        constant,
        parts: Seq::from_vec([twice; 32].to_vec(state.alloc())?),
    };
    add_goal_shown(line, state, proof, &goal)
}

#[test]
fn greatest_sizes(rt: HostRuntime) {
    compare(&rt, rt.alloc(), &Asked::Greatest, &GREATEST);
}
