//! Rows of sums (docs/EFFECTS.md, "Results").

ghost use Rattle.std.specs.Prelude.{◌≡◌, ◌≤◌, ◌^◌, ◌+ℤ◌, ◌++◌, [], length, IfOk, OnOk};
ghost use Rattle.std.specs.List.{All, sum_by};
ghost use Rattle.lin_facts.specs.Rows.{IsWithin};
ghost use Rattle.sym_state.specs.Results as rule;
ghost use Rattle.sym_state.specs.WellMade.{IsBounded, size};

use bv_base::memory::NoMemory;
use bv_base::seq::Seq;
use lin_facts::follows::same_term;
use lin_facts::row::{Part, Row, Term};
use std::alloc::Global;

/// The sum of a number and two terms with their coefficients.
pub fn sum_of_two(alloc: Global, constant: i64, first: Part, second: Part) -> Result<Row, NoMemory>
    requires constant { IsWithin (2 ^ 45) constant }
    requires first { IsWithin (2 ^ 40) first.coefficient }
    requires second { IsWithin (2 ^ 40) second.coefficient }
    ensures said { IfOk result (λ row. row ≡ rule.sum_of_two constant first.coefficient first.term second.coefficient second.term) }
    ensures bounded { IfOk result IsBounded }
{
    let parts = and_part(alloc, &[], first)?;
    let parts = and_part(alloc, parts.as_slice(), second)?;
    Ok(row(constant, parts))
}

/// The same with a third term.
pub fn sum_of_three(
    alloc: Global,
    constant: i64,
    first: Part,
    second: Part,
    third: Part,
) -> Result<Row, NoMemory>
    requires constant { IsWithin (2 ^ 45) constant }
    requires first { IsWithin (2 ^ 40) first.coefficient }
    requires second { IsWithin (2 ^ 40) second.coefficient }
    requires third { IsWithin (2 ^ 40) third.coefficient }
    ensures said { IfOk result (λ row. row ≡ rule.sum_of_three constant first.coefficient first.term
        second.coefficient second.term third.coefficient third.term) }
    ensures bounded { IfOk result IsBounded }
{
    let parts = and_part(alloc, &[], first)?;
    let parts = and_part(alloc, parts.as_slice(), second)?;
    let parts = and_part(alloc, parts.as_slice(), third)?;
    Ok(row(constant, parts))
}

/// A constant and parts.
fn row(constant: i64, parts: Vec<Part>) -> Row
    requires constant { IsWithin (2 ^ 45) constant }
    requires parts { (length parts.items ≤ 32) × (sum_by (λ part. size part.coefficient) parts.items ≤ 2 ^ 45) }
    ensures said { result ≡ rule.row constant parts.items }
    ensures bounded { IsBounded result }
{
    Row {
        constant,
        parts: Seq::from_vec(parts),
    }
}

/// Parts and one more: it is added to the first part with its term, or else comes last, and what comes to zero is left
/// out.
pub fn and_part(alloc: Global, parts: &[Part], more: Part) -> Result<Vec<Part>, NoMemory>
    requires parts { All (λ part. IsWithin (2 ^ 45) part.coefficient) parts.now }
    requires more { IsWithin (2 ^ 45) more.coefficient }
    ensures { IfOk result (λ all. all.items ≡ rule.and_part more.coefficient more.term parts.now) }
{
    let mut all = Vec::new(alloc);
    for (k, part) in parts.iter().enumerate() {
        if same_term(part.term, more.term) {
            return Ok(with_rest(all, more, *part, &parts[k + 1..])?);
        }
        all.push(*part)?;
    }
    push_kept(&mut all, more.coefficient, more.term)?;
    Ok(all)
}

/// Parts, then a part that is added to another, unless they come to zero, and then the rest.
fn with_rest(
    passed: Vec<Part>,
    more: Part,
    first: Part,
    rest: &[Part],
) -> Result<Vec<Part>, NoMemory>
    requires first { IsWithin (2 ^ 45) first.coefficient }
    requires more { IsWithin (2 ^ 45) more.coefficient }
    ensures { IfOk result (λ all. all.items
        ≡ (passed.items ++ rule.kept_part (more.coefficient +ℤ first.coefficient) more.term []) ++ rest.now) }
{
    let mut all = passed;
    push_kept(&mut all, more.coefficient + first.coefficient, more.term)?;
    all.extend_from_slice(rest)?;
    Ok(all)
}

/// Adds a part last, unless it comes to zero.
fn push_kept(all: &mut Vec<Part>, coefficient: i64, term: Term) -> Result<(), NoMemory>
    ensures { OnOk result (all.new.items ≡ all.old.items ++ rule.kept_part coefficient term []) }
{
    if coefficient != 0 {
        all.push(Part { coefficient, term })?;
    }
    Ok(())
}
