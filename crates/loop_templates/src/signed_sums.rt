//! Sums of terms (docs/ANALYSER.md, "Loops").

ghost use Rattle.std.specs.Prelude.{◌≡◌, ◌++◌, [], ◌∷◌, flat_map, map, IfOk, OnOk};
ghost use Rattle.std.specs.List.{All};
ghost use Rattle.loop_templates.specs.Sums as rule;

use bv_base::memory::NoMemory;
use bv_base::seq::Seq;
use lin_facts::row::{Part, Term};
use std::alloc::Global;

/// The sums of one, two and three of some terms, each added or taken away, the first one added: shorter ones first.
pub fn sums(alloc: Global, terms: &[Term]) -> Result<Vec<Seq<Part>>, NoMemory>
    ensures sums { IfOk result (λ all. all.items ≡ rule.sums terms.now) }
    ensures small { IfOk result (λ all. All rule.IsSmallSum all.items) }
{
    let mut all = Vec::new(alloc);
    push_ones(alloc, &mut all, terms)?;
    push_twos(alloc, &mut all, terms)?;
    push_threes(alloc, &mut all, terms)?;
    Ok(all)
}

/// Adds the sums of one term.
fn push_ones(alloc: Global, all: &mut Vec<Seq<Part>>, terms: &[Term]) -> Result<(), NoMemory>
    ensures { OnOk result (all.new.items ≡ all.old.items ++ flat_map rule.first_added (rule.choices 1 terms.now)) }
{
    for term in terms {
        push_sum(alloc, all, &[plus(*term)])?;
    }
    Ok(())
}

/// Adds the sums of two terms.
fn push_twos(alloc: Global, all: &mut Vec<Seq<Part>>, terms: &[Term]) -> Result<(), NoMemory>
    ensures { OnOk result (all.new.items ≡ all.old.items ++ flat_map rule.first_added (rule.choices 2 terms.now)) }
{
    let mut left = terms;
    while let [first, rest @ ..] = left {
        push_twos_with(alloc, all, *first, rest)?;
        left = rest;
    }
    Ok(())
}

/// Adds the sums of a term and one behind it.
fn push_twos_with(
    alloc: Global,
    all: &mut Vec<Seq<Part>>,
    first: Term,
    terms: &[Term],
) -> Result<(), NoMemory>
    ensures { OnOk result (all.new.items ≡ all.old.items
        ++ flat_map rule.first_added (map (λ chosen. first ∷ chosen) (rule.choices 1 terms.now))) }
{
    for second in terms {
        push_sum(alloc, all, &[plus(first), plus(*second)])?;
        push_sum(alloc, all, &[plus(first), less(*second)])?;
    }
    Ok(())
}

/// Adds the sums of three terms.
fn push_threes(alloc: Global, all: &mut Vec<Seq<Part>>, terms: &[Term]) -> Result<(), NoMemory>
    ensures { OnOk result (all.new.items ≡ all.old.items ++ flat_map rule.first_added (rule.choices 3 terms.now)) }
{
    let mut left = terms;
    while let [first, rest @ ..] = left {
        push_threes_with(alloc, all, *first, rest)?;
        left = rest;
    }
    Ok(())
}

/// Adds the sums of a term and two behind it.
fn push_threes_with(
    alloc: Global,
    all: &mut Vec<Seq<Part>>,
    first: Term,
    terms: &[Term],
) -> Result<(), NoMemory>
    ensures { OnOk result (all.new.items ≡ all.old.items
        ++ flat_map rule.first_added (map (λ chosen. first ∷ chosen) (rule.choices 2 terms.now))) }
{
    let mut left = terms;
    while let [second, rest @ ..] = left {
        push_threes_behind(alloc, all, first, *second, rest)?;
        left = rest;
    }
    Ok(())
}

/// Adds the sums of two terms and one behind them.
fn push_threes_behind(
    alloc: Global,
    all: &mut Vec<Seq<Part>>,
    first: Term,
    second: Term,
    terms: &[Term],
) -> Result<(), NoMemory>
    ensures { OnOk result (all.new.items ≡ all.old.items
        ++ flat_map rule.first_added (map (λ chosen. first ∷ chosen) (map (λ chosen. second ∷ chosen) (rule.choices 1 terms.now)))) }
{
    for third in terms {
        push_signed(alloc, all, first, second, *third)?;
    }
    Ok(())
}

/// Adds the sums of three terms, each added or taken away.
fn push_signed(
    alloc: Global,
    all: &mut Vec<Seq<Part>>,
    first: Term,
    second: Term,
    third: Term,
) -> Result<(), NoMemory>
    ensures { OnOk result (all.new.items ≡ all.old.items ++ rule.first_added (first ∷ (second ∷ (third ∷ [])))) }
{
    push_sum(alloc, all, &[plus(first), plus(second), plus(third)])?;
    push_sum(alloc, all, &[plus(first), plus(second), less(third)])?;
    push_sum(alloc, all, &[plus(first), less(second), plus(third)])?;
    push_sum(alloc, all, &[plus(first), less(second), less(third)])
}

/// Adds a sum.
fn push_sum(alloc: Global, all: &mut Vec<Seq<Part>>, parts: &[Part]) -> Result<(), NoMemory>
    ensures { OnOk result (all.new.items ≡ all.old.items ++ parts.now ∷ []) }
{
    all.push(Seq::from_vec(parts.to_vec(alloc)?))?;
    Ok(())
}

/// A term that is added.
fn plus(term: Term) -> Part
    ensures { result ≡ rule.plus term }
{
    Part {
        coefficient: 1,
        term,
    }
}

/// A term that is taken away.
fn less(term: Term) -> Part
    ensures { result ≡ rule.less term }
{
    Part {
        coefficient: -1,
        term,
    }
}
