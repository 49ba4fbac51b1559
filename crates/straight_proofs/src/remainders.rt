//! What is left of a goal from which rows are subtracted, and its lead (docs/STATES.md, "Straight proofs").

ghost use Rattle.std.specs.Prelude.{◌≡◌, ℕ, ◌+◌, ◌*◌, ◌<◌, ◌≤◌, ◌^◌, [], ◌+ℤ◌, ◌-ℤ◌, length, pos, int_lt, IfOk, IfSome, OnOk};
ghost use Rattle.std.specs.List.{All, fold};
ghost use Rattle.lin_facts.specs.Rows as sums;
ghost use Rattle.straight_proofs.specs.Subjects.{IsSmall, IsWithin, absurdity};
ghost use Rattle.straight_proofs.specs.Remainders as rule;
ghost use Rattle.straight_proofs.specs.Remainders.{Alike, HasRoom};

use bv_base::memory::NoMemory;
use bv_base::seq::Seq;
use lin_facts::follows::{coefficient_of, same_term};
use lin_facts::row::{Part, Row, Term};
use std::alloc::Global;

/// The row that never holds: -1 is at least 0.
pub(crate) fn never(alloc: Global) -> Row
    ensures said { result ≡ absurdity }
    ensures room { HasRoom 8 result }
{
    Row {
        constant: -1,
        parts: Seq::new(alloc),
    }
}

/// The lead of a remainder: the highest of its terms whose coefficients don't come to 0.
pub(crate) fn lead(remainder: &Row) -> Option<Term>
    requires { HasRoom 0 remainder.now }
    ensures { result ≡ rule.lead remainder.now }
{
    let parts = remainder.parts.as_slice();
    let mut highest = None;
    for part in parts {
        highest = counted_in(coefficient_of(parts, part.term), part.term, highest);
    }
    highest
}

/// The highest term so far, and one whose coefficients come to this.
fn counted_in(sum: i64, term: Term, highest: Option<Term>) -> Option<Term>
    ensures { result ≡ rule.counted_in sum term highest }
{
    if sum == 0 {
        highest
    } else {
        Some(higher(term, highest))
    }
}

/// The higher of two terms, where the second is there.
fn higher(term: Term, other: Option<Term>) -> Term
    ensures { result ≡ rule.higher term other }
{
    match other {
        Some(other) => {
            if rank(term) < rank(other) {
                other
            } else {
                term
            }
        }
        None => term,
    }
}

/// How high a term stands among those that may lead.
pub(crate) fn rank(term: Term) -> u64
    ensures said { result ≡ rule.rank term }
    ensures small { result < 2 ^ 40 }
{
    match term {
        Term::Pos => 0,
        Term::Count => 1,
        Term::Value(s) => 3 * u64::from(s) + 2,
        Term::Length(s) => 3 * u64::from(s) + 3,
        Term::Names(s) => 3 * u64::from(s) + 4,
    }
}

/// Whether a row may be subtracted: it has the lead with the sign that the remainder has it with.
pub(crate) fn fits(leads: Option<Term>, remainder: &Row, row: &Row) -> bool
    requires remainder { HasRoom 0 remainder.now }
    requires row { IsSmall row.now }
    ensures { result ≡ rule.fits leads remainder.now row.now }
{
    match leads {
        Some(term) => same_sign(
            coefficient_of(remainder.parts.as_slice(), term),
            coefficient_of(row.parts.as_slice(), term),
        ),
        None => true,
    }
}

/// Whether a remainder has a term with a coefficient above 0.
pub(crate) fn is_above(remainder: &Row, term: Term) -> bool
    requires { HasRoom 0 remainder.now }
    ensures { result ≡ int_lt (pos 0) (sums.coefficient_of remainder.now.parts term) }
{
    0 < coefficient_of(remainder.parts.as_slice(), term)
}

/// Whether two numbers are both above 0 or both below.
fn same_sign(m: i64, n: i64) -> bool
    ensures { result ≡ rule.same_sign m n }
{
    (0 < m && 0 < n) || (m < 0 && n < 0)
}

/// A row with each term once, the higher before the lower, and no coefficient 0.
pub(crate) fn canonical(alloc: Global, row: &Row) -> Result<Row, NoMemory>
    requires { IsSmall row.now }
    ensures said { IfOk result (λ same. same ≡ rule.canonical row.now) }
    ensures alike { IfOk result (λ same. Alike same row.now) }
    ensures room { IfOk result (HasRoom 8) }
{
    let parts = in_order(alloc, row.parts.as_slice())?;
    Ok(Row {
        constant: row.constant,
        parts: Seq::from_vec(parts),
    })
}

/// A remainder less a row: what is left has the form that the remainder has.
pub(crate) fn minus(alloc: Global, remainder: &Row, row: &Row) -> Result<Row, NoMemory>
    requires remainder { HasRoom 1 remainder.now }
    requires row { IsSmall row.now }
    ensures said { IfOk result (λ left. left ≡ rule.less remainder.now row.now) }
    ensures alike { IfOk result (λ left. Alike left (rule.minus remainder.now row.now)) }
    ensures near { IfOk result (λ left. IsWithin (2 ^ 45) (left.constant -ℤ remainder.now.constant)) }
    ensures room { (more : ℕ) → HasRoom (more + 1) remainder.now → IfOk result (HasRoom more) }
{
    let parts = parts_less(alloc, remainder.parts.as_slice(), row.parts.as_slice())?;
    Ok(Row {
        constant: difference(remainder.constant, row.constant),
        parts: Seq::from_vec(parts),
    })
}

/// Two numbers added up.
fn sum(m: i64, n: i64) -> i64
    requires first { IsWithin (2 ^ 54) m }
    requires second { IsWithin (2 ^ 45) n }
    ensures { result ≡ m +ℤ n }
{
    m + n
}

/// A number less another.
fn difference(m: i64, n: i64) -> i64
    requires first { IsWithin (2 ^ 50) m }
    requires second { IsWithin (2 ^ 45) n }
    ensures { result ≡ m -ℤ n }
{
    m - n
}

/// Parts that are added up, the higher before the lower.
fn in_order(alloc: Global, others: &[Part]) -> Result<Vec<Part>, NoMemory>
    requires few { length others.now ≤ 32 }
    requires small { All (λ part. IsWithin (2 ^ 45) part.coefficient) others.now }
    ensures { IfOk result (λ all. all.items ≡ fold (λ parts part. rule.added part parts) [] others.now) }
{
    let mut all = Vec::new(alloc);
    for part in others {
        add_part(&mut all, *part)?;
    }
    Ok(all)
}

/// Parts from which others are taken away.
fn parts_less(alloc: Global, parts: &[Part], others: &[Part]) -> Result<Vec<Part>, NoMemory>
    requires parts { All (λ part. IsWithin (2 ^ 50 * 8) part.coefficient) parts.now }
    requires few { length others.now ≤ 32 }
    requires small { All (λ part. IsWithin (2 ^ 45) part.coefficient) others.now }
    ensures { IfOk result (λ all. all.items ≡ fold (λ parts part. rule.added (rule.turned part) parts) parts.now others.now) }
{
    let mut all = parts.to_vec(alloc)?;
    for part in others {
        add_part(&mut all, turned(*part))?;
    }
    Ok(all)
}

/// A part with the other sign.
fn turned(part: Part) -> Part
    requires { IsWithin (2 ^ 45) part.coefficient }
    ensures said { result ≡ rule.turned part }
    ensures small { IsWithin (2 ^ 45) result.coefficient }
{
    Part {
        coefficient: -part.coefficient,
        term: part.term,
    }
}

/// Adds a part to parts that have each term once, the higher before the lower.
fn add_part(parts: &mut Vec<Part>, part: Part) -> Result<(), NoMemory>
    requires part { IsWithin (2 ^ 45) part.coefficient }
    requires parts { All (λ part. IsWithin (2 ^ 50 * 9) part.coefficient) parts.old.items }
    ensures { OnOk result (parts.new.items ≡ rule.added part parts.old.items) }
{
    let at = place_of(parts.as_slice(), part.term);
    match coefficient_at(parts.as_slice(), at, part.term) {
        Some(n) => {
            change(parts, at, sum(n, part.coefficient), part.term);
            Ok(())
        }
        None => widen(parts, at, part),
    }
}

/// The place of a term: behind the higher ones.
fn place_of(parts: &[Part], term: Term) -> usize
    ensures said { result ≡ rule.place_of parts.now term }
    ensures within { result ≤ length parts.now }
{
    for (k, part) in parts.iter().enumerate() {
        if rank(part.term) <= rank(term) {
            return k;
        }
    }
    parts.len()
}

/// The coefficient of a term at a place, where it stands there.
fn coefficient_at(parts: &[Part], at: usize, term: Term) -> Option<i64>
    requires { All (λ part. IsWithin (2 ^ 50 * 9) part.coefficient) parts.now }
    ensures said { result ≡ rule.coefficient_at parts.now at term }
    ensures within { IfSome result (λ _. at < length parts.now) }
    ensures small { IfSome result (IsWithin (2 ^ 50 * 9)) }
{
    match parts.get(at) {
        Some(part) => {
            if same_term(part.term, term) {
                Some(part.coefficient)
            } else {
                None
            }
        }
        None => None,
    }
}

/// Gives a place another coefficient, or leaves it out at 0.
fn change(parts: &mut Vec<Part>, at: usize, coefficient: i64, term: Term)
    requires { at < length parts.old.items }
    ensures { parts.new.items ≡ rule.changed parts.old.items at coefficient term }
{
    if coefficient == 0 {
        let _ = parts.remove(at);
    } else {
        parts[at] = Part { coefficient, term };
    }
}

/// Puts a part at a place, unless its coefficient is 0.
fn widen(parts: &mut Vec<Part>, at: usize, part: Part) -> Result<(), NoMemory>
    requires { at ≤ length parts.old.items }
    ensures { OnOk result (parts.new.items ≡ rule.widened parts.old.items at part) }
{
    if part.coefficient != 0 {
        parts.insert(at, part)?;
    }
    Ok(())
}
