//! Steps that are found (docs/ANALYSER.md, "Hints").

ghost use Rattle.std.specs.Prelude.{◌≡◌, [], ◌∷◌, IfOk};
ghost use Rattle.straight_hints.specs.Found as rule;
ghost use Rattle.straight_hints.specs.Subjects.{HasBounds, IsBounded};

use crate::at::At;
use crate::finding::Finding;
use bv_base::memory::NoMemory;
use bv_base::seq::Seq;
use lin_facts::row::Row;
use std::alloc::Global;
use straight_proofs::straight_proof;
use sym_state::hint::Hint;
use sym_state::proof::Proof;

/// The steps for two rows of one demand.
pub fn both_steps(at: &At<'_>, first: &Row, second: &Row) -> Result<Vec<Hint>, NoMemory>
    requires state { HasBounds at.now.state.now }
    requires first { IsBounded first.now }
    requires second { IsBounded second.now }
    ensures { IfOk result (λ hints. hints.items
        ≡ rule.step_found at.now.finding at.now.cond.now at.now.state.now first.now
        ∷ (rule.step_found at.now.finding at.now.cond.now at.now.state.now second.now ∷ [])) }
{
    let mut hints = one_step(at, first)?;
    hints.push(step(at, second)?)?;
    Ok(hints)
}

/// The step for a row alone.
pub fn one_step(at: &At<'_>, row: &Row) -> Result<Vec<Hint>, NoMemory>
    requires state { HasBounds at.now.state.now }
    requires row { IsBounded row.now }
    ensures { IfOk result (λ hints. hints.items ≡ rule.step_found at.now.finding at.now.cond.now at.now.state.now row.now ∷ []) }
{
    one_hint(at, step(at, row)?)
}

/// The step for a row: with no proof its demand isn't met.
pub fn step(at: &At<'_>, row: &Row) -> Result<Hint, NoMemory>
    requires state { HasBounds at.now.state.now }
    requires row { IsBounded row.now }
    ensures { IfOk result (λ hint. hint ≡ rule.step_found at.now.finding at.now.cond.now at.now.state.now row.now) }
{
    match proof_found(at, row)? {
        Some(proof) => Ok(Hint::Step(proof)),
        None => Ok(Hint::Step(no_proof(at.state.alloc()))),
    }
}

/// A proof that takes no reference.
fn no_proof(alloc: Global) -> Proof
    ensures { result ≡ rule.no_proof }
{
    Proof {
        divisor: 1,
        uses: Seq::new(alloc),
    }
}

/// The proof that is found for a row.
fn proof_found(at: &At<'_>, row: &Row) -> Result<Option<Proof>, NoMemory>
    requires state { HasBounds at.now.state.now }
    requires row { IsBounded row.now }
    ensures { IfOk result (λ found. found ≡ rule.proof_found at.now.finding at.now.cond.now at.now.state.now row.now) }
{
    match at.finding {
        Finding::Bare => Ok(None),
        Finding::Straight => straight_proof(at.state, at.cond, row),
    }
}

/// One hint.
fn one_hint(at: &At<'_>, hint: Hint) -> Result<Vec<Hint>, NoMemory>
    ensures { IfOk result (λ hints. hints.items ≡ hint ∷ []) }
{
    let mut hints = none(at);
    hints.push(hint)?;
    Ok(hints)
}

/// No hint.
pub fn none(at: &At<'_>) -> Vec<Hint>
    ensures { result.items ≡ [] }
{
    Vec::new(at.state.alloc())
}

/// The choice of a built-in function: a step, where one is wanted and has a proof, and else `plain`.
pub fn choice(at: &At<'_>, wanted: bool, row: &Row) -> Result<Vec<Hint>, NoMemory>
    requires state { HasBounds at.now.state.now }
    requires row { IsBounded row.now }
    ensures { IfOk result (λ hints. hints.items
        ≡ rule.by_choice (rule.choice_found at.now.finding at.now.cond.now at.now.state.now wanted row.now) [] []) }
{
    match choice_found(at, wanted, row)? {
        Some(proof) => one_hint(at, Hint::Step(proof)),
        None => one_hint(at, Hint::Plain),
    }
}

/// The proof of a choice where a step is wanted.
fn choice_found(at: &At<'_>, wanted: bool, row: &Row) -> Result<Option<Proof>, NoMemory>
    requires state { HasBounds at.now.state.now }
    requires row { IsBounded row.now }
    ensures { IfOk result (λ found. found ≡ rule.choice_found at.now.finding at.now.cond.now at.now.state.now wanted row.now) }
{
    if wanted {
        proof_found(at, row)
    } else {
        Ok(None)
    }
}
