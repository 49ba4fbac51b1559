//! The straight proofs of a goal and of an absurdity (docs/STATES.md, "Straight proofs").

ghost use Rattle.std.specs.Prelude.{◌≡◌, ◌≤◌, true, length, map, option_map, reverse, IfOk, IfSome};
ghost use Rattle.straight_proofs.specs.Subjects.{HasBounds, IsBounded, absurdity, shows};
ghost use Rattle.straight_proofs.specs.Asked.{IsReady};
ghost use Rattle.straight_proofs.specs.Straight as rule;

use crate::asked::Search;
use crate::known::Known;
use crate::learnt::Learnt;
use crate::lookup::references;
use crate::remainders::{canonical, never};
use crate::search::{first_list, list_within};
use bst_meaning::condition::Cond;
use bv_base::memory::NoMemory;
use bv_base::seq::Seq;
use lin_facts::row::Row;
use std::alloc::Global;
use sym_state::proof::{Proof, Reference, Use};
use sym_state::state::State;

/// How many references stand in the list of a straight proof at most.
pub const MOST_REFERENCES: u32 = 8;

/// The straight proof of a goal from what a state knows: the first list of at most eight references that shows it, each
/// taken once. `None` comes exactly where there is none.
pub fn straight_proof(state: &State, cond: &Cond, goal: &Row) -> Result<Option<Proof>, NoMemory>
    requires state { HasBounds state.now }
    requires goal { IsBounded goal.now }
    ensures first { IfOk result (λ found. found ≡ rule.straight_proof cond.now state.now goal.now) }
    ensures shown { IfOk result (λ found. IfSome found (λ proof. shows cond.now state.now proof goal.now ≡ true)) }
    ensures few { IfOk result (λ found. IfSome found (λ proof. length proof.uses ≤ MOST_REFERENCES)) }
{
    let mut search = Search::new(state.alloc(), state, cond)?;
    search.straight_proof(goal)
}

/// The straight proof that a case can't come about, which shows that -1 is at least 0: its first reference may be any that
/// is there. `None` comes exactly where there is none.
pub fn drop_proof(state: &State, cond: &Cond) -> Result<Option<Proof>, NoMemory>
    requires { HasBounds state.now }
    ensures first { IfOk result (λ found. found ≡ rule.drop_proof cond.now state.now) }
    ensures shown { IfOk result (λ found. IfSome found (λ proof. shows cond.now state.now proof absurdity ≡ true)) }
    ensures few { IfOk result (λ found. IfSome found (λ proof. length proof.uses ≤ MOST_REFERENCES)) }
{
    let mut search = Search::new(state.alloc(), state, cond)?;
    search.drop_proof()
}

/// The proof of the first list that shows a goal.
pub(crate) fn first_proof(
    known: &Known,
    learnt: &mut Learnt,
    goal: &Row,
) -> Result<Option<Proof>, NoMemory>
    requires ready { IsReady known.now.cond.now known.now.state.now known.now.rows.items learnt.old }
    requires goal { IsBounded goal.now }
    ensures first { IfOk result (λ found. found ≡ rule.straight_proof known.now.cond.now known.now.state.now goal.now) }
    ensures ready { IsReady known.now.cond.now known.now.state.now known.now.rows.items learnt.new }
{
    match first_list_of(known, learnt, goal)? {
        Some(list) => Ok(Some(proof_of(known.alloc, list.as_slice())?)),
        None => Ok(None),
    }
}

/// The first list that shows a goal, its last reference first.
fn first_list_of(
    known: &Known,
    learnt: &mut Learnt,
    goal: &Row,
) -> Result<Option<Vec<Reference>>, NoMemory>
    requires ready { IsReady known.now.cond.now known.now.state.now known.now.rows.items learnt.old }
    requires goal { IsBounded goal.now }
    ensures found { IfOk result (λ found. option_map (λ list. reverse list.items) found
        ≡ rule.list_within MOST_REFERENCES known.now.cond.now known.now.state.now goal.now) }
    ensures ready { IsReady known.now.cond.now known.now.state.now known.now.rows.items learnt.new }
{
    let remainder = canonical(known.alloc, goal)?;
    list_within(known, learnt, &remainder, MOST_REFERENCES)
}

/// The proof of the first list that shows that a case can't come about.
pub(crate) fn first_drop(known: &Known, learnt: &mut Learnt) -> Result<Option<Proof>, NoMemory>
    requires { IsReady known.now.cond.now known.now.state.now known.now.rows.items learnt.old }
    ensures first { IfOk result (λ found. found ≡ rule.drop_proof known.now.cond.now known.now.state.now) }
    ensures ready { IsReady known.now.cond.now known.now.state.now known.now.rows.items learnt.new }
{
    match list_among_all(known, learnt)? {
        Some(list) => Ok(Some(proof_of(known.alloc, list.as_slice())?)),
        None => Ok(None),
    }
}

/// The list that shows that a case can't come about, its last reference first.
fn list_among_all(known: &Known, learnt: &mut Learnt) -> Result<Option<Vec<Reference>>, NoMemory>
    requires { IsReady known.now.cond.now known.now.state.now known.now.rows.items learnt.old }
    ensures found { IfOk result (λ found. option_map (λ list. reverse list.items) found
        ≡ rule.drop_list known.now.cond.now known.now.state.now) }
    ensures ready { IsReady known.now.cond.now known.now.state.now known.now.rows.items learnt.new }
{
    let goal = never(known.alloc);
    let all = references(known.alloc, known.state)?;
    first_list(
        known,
        learnt,
        None,
        &goal,
        MOST_REFERENCES - 1,
        all.as_slice(),
    )
}

/// The proof that takes each of these references once, the last of them first.
fn proof_of(alloc: Global, list: &[Reference]) -> Result<Proof, NoMemory>
    ensures { IfOk result (λ proof. proof ≡ rule.proof_of (reverse list.now)) }
{
    Ok(Proof {
        divisor: 1,
        uses: Seq::from_vec(uses_of(alloc, list)?),
    })
}

/// These references, each taken once, the last of them first.
fn uses_of(alloc: Global, list: &[Reference]) -> Result<Vec<Use>, NoMemory>
    ensures { IfOk result (λ uses. uses.items ≡ map rule.once (reverse list.now)) }
{
    Ok(
        list.iter()
            .rev()
            .map(|reference| once(*reference))
            .collect(alloc)?,
    )
}

/// A reference that is taken once.
fn once(reference: Reference) -> Use
    ensures { result ≡ rule.once reference }
{
    Use {
        reference,
        times: 1,
    }
}
