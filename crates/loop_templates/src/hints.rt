//! The hints by which states entail cases (docs/ANALYSER.md, "Loops").

ghost use Rattle.std.specs.Prelude.{◌≡◌, ◌+◌, ◌<◌, ◌≤◌, length, IfOk};
ghost use Rattle.std.specs.List.{All};
ghost use Rattle.straight_hints.specs.Found.{no_proof as empty_proof, step_found};
ghost use Rattle.straight_hints.specs.declared.finding.Finding.TheVariants.{Straight};
ghost use Rattle.loop_templates.specs.Candidates as rule;
ghost use Rattle.loop_templates.specs.Subjects.{HasBounds, IsBounded};

use crate::candidates::Added;
use crate::skeletons::has_skeleton;
use bst_meaning::condition::Cond;
use bv_base::memory::NoMemory;
use bv_base::seq::Seq;
use lin_facts::row::Row;
use std::alloc::Global;
use straight_proofs::Search;
use sym_state::Matching;
use sym_state::hint::Hint;
use sym_state::piece::Piece;
use sym_state::proof::Proof;
use sym_state::state::State;

/// The hints by which a state entails the case with its skeleton among these, which are numbered from here. There are none where no
/// case has it. A row without a proof has a step that shows nothing.
pub fn entailing_one(
    alloc: Global,
    cond: &Cond,
    state: &State,
    number: u32,
    added: &[Added],
) -> Result<Vec<Hint>, NoMemory>
    requires state { HasBounds state.now }
    requires made { All rule.IsMade added.now }
    requires few { number + length added.now < 4294967296 }
    ensures { IfOk result (λ hints. hints.items ≡ rule.entailing_one cond.now state.now number added.now) }
{
    for (k, one) in added.iter().enumerate() {
        if has_skeleton(alloc, state, one.bones.as_slice())? {
            return entailing(alloc, cond, state, number + k as u32, &one.case);
        }
    }
    Ok(Vec::new(alloc))
}

/// The hints by which a state entails a case of this number: a step for each of its rows.
pub fn entailing(
    alloc: Global,
    cond: &Cond,
    state: &State,
    number: u32,
    case: &Piece,
) -> Result<Vec<Hint>, NoMemory>
    requires state { HasBounds state.now }
    requires stack { length case.now.stack ≤ length state.now.stack }
    requires rows { All IsBounded case.now.rows }
    ensures { IfOk result (λ hints. hints.items ≡ rule.entailing cond.now state.now number case.now) }
{
    let matching = Matching::new(alloc, state, case, 0)?;
    let mut search = Search::new(alloc, state, cond)?;
    let mut hints = Vec::new(alloc);
    hints.push(Hint::Case(number))?;
    for row in case.rows.as_slice() {
        let goal = matching.row(alloc, row)?;
        hints.push(step(alloc, &mut search, &goal)?)?;
    }
    Ok(hints)
}

/// The step for a row, by its straight proof where it has one.
fn step(alloc: Global, search: &mut Search<'_>, row: &Row) -> Result<Hint, NoMemory>
    requires { IsBounded row.now }
    ensures hint { IfOk result (λ hint. hint ≡ step_found Straight search.old.cond search.old.state row.now) }
    ensures stays { search.new ≡ search.old }
{
    match search.straight_proof(row)? {
        Some(proof) => Ok(Hint::Step(proof)),
        None => Ok(Hint::Step(no_proof(alloc))),
    }
}

/// A proof that takes no reference.
fn no_proof(alloc: Global) -> Proof
    ensures { result ≡ empty_proof }
{
    Proof {
        divisor: 1,
        uses: Seq::new(alloc),
    }
}
