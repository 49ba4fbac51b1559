//! The hints for the cases of a test.

ghost use Rattle.std.specs.Prelude.{◌≡◌, ◌<◌, [], map, IfOk};
ghost use Rattle.std.specs.List.{All};
ghost use Rattle.straight_hints.specs.Found as rule;
ghost use Rattle.straight_hints.specs.Subjects.{Each, HasBounds, HasFewUses, IsHint};

use crate::finding::Finding;
use bst_meaning::condition::Cond;
use bv_base::memory::NoMemory;
use refinements::split;
use std::alloc::Global;
use straight_proofs::drop_proof;
use sym_state::demand::EffectFault;
use sym_state::hint::{Hint, Hints};
use sym_state::proof::Proof;
use sym_state::state::State;
use sym_state::symbol::Sym;
use sym_state::test::Test;

/// The hints for the cases of a test, in their order: a case is dropped where a proof is found that it can't come about, and
/// else kept. A test that takes no hint has none: one that is decided, one on strings, and one whose demands aren't met.
pub fn test_hints(
    finding: Finding,
    state: &State,
    cond: &Cond,
    test: Test,
) -> Result<Vec<Hint>, NoMemory>
    requires bounds { HasBounds state.now }
    requires room { state.now.next < 4294967295 }
    ensures found { IfOk result (λ hints. hints.items ≡ rule.test_hints finding cond.now state.now test) }
    ensures few { IfOk result (λ hints. All HasFewUses hints.items) }
    ensures written { IfOk result (λ hints. Each IsHint hints.items) }
{
    let alloc = state.alloc();
    let kept = [Hint::Keep, Hint::Keep];
    let mut hints = Hints::new(&kept);
    match split(state, cond, test, &mut hints) {
        Ok(states) => case_hints(alloc, finding, cond, states.as_slice(), hints.rest()),
        Err(EffectFault::NoMemory) => Err(NoMemory),
        Err(_) => Ok(Vec::new(alloc)),
    }
}

/// The same for whether an integer is above 0.
pub fn above_hints(
    finding: Finding,
    state: &State,
    cond: &Cond,
    sym: Sym,
) -> Result<Vec<Hint>, NoMemory>
    requires bounds { HasBounds state.now }
    requires room { state.now.next < 4294967295 }
    ensures found { IfOk result (λ hints. hints.items ≡ rule.above_hints finding cond.now state.now sym) }
    ensures few { IfOk result (λ hints. All HasFewUses hints.items) }
    ensures written { IfOk result (λ hints. Each IsHint hints.items) }
{
    test_hints(finding, state, cond, Test::Above(sym))
}

/// The hints for the cases of a test, of which all were kept, where no hint is left.
fn case_hints(
    alloc: Global,
    finding: Finding,
    cond: &Cond,
    states: &[State],
    left: &[Hint],
) -> Result<Vec<Hint>, NoMemory>
    requires { left.now ≡ [] → All HasBounds states.now }
    ensures { IfOk result (λ hints. hints.items ≡ rule.case_hints finding cond.now states.now left.now) }
{
    if left.is_empty() {
        each_case(alloc, finding, cond, states)
    } else {
        Ok(Vec::new(alloc))
    }
}

/// A hint for each case.
fn each_case(
    alloc: Global,
    finding: Finding,
    cond: &Cond,
    states: &[State],
) -> Result<Vec<Hint>, NoMemory>
    requires { All HasBounds states.now }
    ensures { IfOk result (λ hints. hints.items ≡ map (rule.case_hint finding cond.now) states.now) }
{
    let mut hints = Vec::new(alloc);
    for state in states {
        hints.push(case_hint(finding, state, cond)?)?;
    }
    Ok(hints)
}

/// A case is dropped where a proof is found that it can't come about, and else kept.
fn case_hint(finding: Finding, state: &State, cond: &Cond) -> Result<Hint, NoMemory>
    requires { HasBounds state.now }
    ensures { IfOk result (λ hint. hint ≡ rule.case_hint finding cond.now state.now) }
{
    match drop_found(finding, state, cond)? {
        Some(proof) => Ok(Hint::Drop(proof)),
        None => Ok(Hint::Keep),
    }
}

/// The proof that is found for a case that can't come about.
fn drop_found(finding: Finding, state: &State, cond: &Cond) -> Result<Option<Proof>, NoMemory>
    requires { HasBounds state.now }
    ensures { IfOk result (λ found. found ≡ rule.drop_found finding cond.now state.now) }
{
    match finding {
        Finding::Bare => Ok(None),
        Finding::Straight => drop_proof(state, cond),
    }
}
