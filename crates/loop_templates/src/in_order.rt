//! Facts in their order, each once (docs/ANALYSER.md, "Loops").

ghost use Rattle.std.specs.Prelude.{◌≡◌, ◌≤◌, length, IfOk, IfSome, MatchOption, OnOk};
ghost use Rattle.std.specs.List.{insert, list_any};
ghost use Rattle.sym_state.specs.Decided as decided;
ghost use Rattle.loop_templates.specs.Cases as rule;

use crate::limits::MOST_ITEMS;
use crate::skeletons::same_kind;
use bv_base::memory::NoMemory;
use std::alloc::Global;
use sym_state::subject;
use sym_state::symbol::{Fact, Kinds};

/// The facts of a case: in their order, each once, without those that the start gives, and no more than a case keeps.
pub(crate) fn kept_facts(
    alloc: Global,
    given: &[Fact],
    facts: Vec<Fact>,
) -> Result<Vec<Fact>, NoMemory>
    ensures { IfOk result (λ kept. kept.items ≡ rule.kept_facts given.now facts.items) }
{
    let mut kept = ordered_facts(alloc, given, facts)?;
    kept.truncate(MOST_ITEMS);
    Ok(kept)
}

/// The same, and as many as there are.
fn ordered_facts(alloc: Global, given: &[Fact], facts: Vec<Fact>) -> Result<Vec<Fact>, NoMemory>
    ensures { IfOk result (λ kept. kept.items ≡ rule.ordered_facts given.now facts.items) }
{
    let mut kept = Vec::new(alloc);
    for fact in facts {
        keep(&mut kept, given, fact)?;
    }
    Ok(kept)
}

/// Puts a fact that the start doesn't give where it belongs.
fn keep(kept: &mut Vec<Fact>, given: &[Fact], fact: Fact) -> Result<(), NoMemory>
    ensures { OnOk result (kept.new.items ≡ rule.keep given.now kept.old.items fact) }
{
    if is_given(given, &fact) {
        Ok(())
    } else {
        put(kept, fact)
    }
}

/// Puts a fact where it belongs, if it isn't there.
fn put(kept: &mut Vec<Fact>, fact: Fact) -> Result<(), NoMemory>
    ensures { OnOk result (kept.new.items ≡ rule.with_fact fact kept.old.items) }
{
    match place_for(kept.as_slice(), &fact) {
        Some(at) => Ok(kept.insert(at, fact)?),
        None => Ok(()),
    }
}

/// The place of a fact among facts in their order. `None` comes exactly where it stands there.
#[tactic(auto, using(crate::proofs::Ordered::passed, crate::proofs::Ordered::put_before, crate::proofs::Ordered::is_there, crate::proofs::Ordered::put_last))]
fn place_for(kept: &[Fact], fact: &Fact) -> Option<usize>
    ensures within { IfSome result (λ at. at ≤ length kept.now) }
    ensures place { MatchOption result (rule.with_fact fact.now kept.now ≡ kept.now) (λ at. rule.with_fact fact.now kept.now ≡ insert kept.now at fact.now) }
{
    for (at, other) in kept.iter().enumerate() {
        if stands_before(fact, other) {
            return Some(at);
        }
        if same_fact(fact, other) {
            return None;
        }
    }
    Some(kept.len())
}

/// Whether the start gives a fact anyway, or it says nothing.
fn is_given(given: &[Fact], fact: &Fact) -> bool
    ensures { result ≡ rule.is_given given.now fact.now }
{
    says_nothing(fact) || is_among(given, fact)
}

/// Whether a fact is among these.
fn is_among(facts: &[Fact], fact: &Fact) -> bool
    ensures { result ≡ list_any (rule.same_fact fact.now) facts.now }
{
    facts.iter().any(|other| same_fact(fact, other))
}

/// Whether a fact says no more than that there is a value.
fn says_nothing(fact: &Fact) -> bool
    ensures { result ≡ decided.says_nothing fact.now }
{
    match fact {
        Fact::Is(_, Kinds::Any) => true,
        _ => false,
    }
}

/// Whether a fact stands before another: by its kind, then by its symbol.
fn stands_before(fact: &Fact, other: &Fact) -> bool
    ensures { result ≡ rule.stands_before fact.now other.now }
{
    let rank = fact_rank(fact);
    let limit = fact_rank(other);
    rank < limit || (rank == limit && subject(fact).0 < subject(other).0)
}

/// The order of the kinds of facts.
fn fact_rank(fact: &Fact) -> u32
    ensures { result ≡ rule.fact_rank fact.now }
{
    match fact {
        Fact::Is(_, _) => 0,
        Fact::Int(_, _) => 1,
        Fact::Text(_, _) => 2,
        Fact::Call(_, _) => 3,
        Fact::Block(_, _) => 4,
        Fact::Blank(_) => 5,
        Fact::Nonblank(_) => 6,
        Fact::Wellformed(_) => 7,
    }
}

/// Whether two facts are one.
fn same_fact(fact: &Fact, other: &Fact) -> bool
    ensures { result ≡ rule.same_fact fact.now other.now }
{
    subject(fact).0 == subject(other).0 && same_claim(fact, other)
}

/// Whether two facts say the same of their symbols.
fn same_claim(fact: &Fact, other: &Fact) -> bool
    ensures { result ≡ rule.same_claim fact.now other.now }
{
    match (fact, other) {
        (Fact::Is(_, a), Fact::Is(_, b)) => same_kind(*a, *b),
        (Fact::Int(_, a), Fact::Int(_, b)) => *a == *b,
        (Fact::Text(_, a), Fact::Text(_, b)) => a.as_slice() == b.as_slice(),
        (Fact::Call(_, a), Fact::Call(_, b)) => a.0 == b.0,
        (Fact::Block(_, a), Fact::Block(_, b)) => *a == *b,
        (Fact::Blank(_), Fact::Blank(_)) => true,
        (Fact::Nonblank(_), Fact::Nonblank(_)) => true,
        (Fact::Wellformed(_), Fact::Wellformed(_)) => true,
        _ => false,
    }
}
