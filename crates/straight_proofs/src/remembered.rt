//! What a search remembers of the sums that it has been at (docs/STATES.md, "Straight proofs").

ghost use Rattle.std.specs.Prelude.{◌≡◌, ℤ, List, [], ◌∷◌, ◌++◌, Some, pos, if◌then◌else◌, option_map, IfOk, OnErr, OnOk};
ghost use Rattle.std.specs.Cmp.Lexicographic.{pointwise};
ghost use Rattle.std.specs.Ordering.{int_eq};
ghost use Rattle.straight_proofs.specs.Remainders as subtracting;
ghost use Rattle.straight_proofs.specs.Remembered as rule;
ghost use Rattle.straight_proofs.specs.Remembered.{remembered};

use crate::remainders::rank;
use bv_base::memory::NoMemory;
use indexmap::IndexMap;
use lin_facts::row::{Part, Term};
use std::alloc::Global;
use std::marker::Model;

/// Values by keys of numbers, in a hash table. Contracts see the pairs.
#[derive(Drop)]
pub(crate) struct Remembered<T> {
    table: IndexMap<Vec<i64>, T>,
}

impl<T> Model for Remembered<T> {
    ghost use Rattle.std.specs.Prelude.{List, ℤ, map};

    ghost Value = { List (List ℤ × T) };

    ghost view = { λ r. map (λ e. (e.0.items, e.1)) r.table.entries };
}

impl<T: Drop> Remembered<T> {
    /// No value.
    pub(crate) fn new(alloc: Global) -> Remembered<T>
        ensures { result ≡ [] }
    {
        Remembered {
            table: IndexMap::new(alloc),
        }
    }

    /// The value of a key, by one look-up.
    pub(crate) fn find(&self, key: &[i64]) -> Option<&T>
        ensures { option_map (λ value. value.now) result ≡ remembered key.now self.now }
    {
        self.table.get(key)
    }

    /// Gives a key a value.
    pub(crate) fn add(&mut self, key: Vec<i64>, value: T) -> Result<(), NoMemory>
        ensures added { OnOk result ((other : List ℤ)
            → remembered other self.new ≡ (if pointwise int_eq other key.items then Some value else remembered other self.old)) }
        ensures kept { OnErr result (self.new ≡ self.old) }
    {
        let Ok(_) = self.table.insert(key, value) else {
            return Err(NoMemory);
        };
        Ok(())
    }
}

/// Parts and how many references may follow, as the numbers by which they are remembered.
pub(crate) fn numbers(alloc: Global, more: u32, parts: &[Part]) -> Result<Vec<i64>, NoMemory>
    ensures { IfOk result (λ key. key.items ≡ rule.numbers more parts.now) }
{
    let mut key = Vec::new(alloc);
    key.push(more as i64)?;
    push_parts(&mut key, parts)?;
    Ok(key)
}

/// Adds the numbers of parts.
fn push_parts(key: &mut Vec<i64>, parts: &[Part]) -> Result<(), NoMemory>
    ensures { OnOk result (key.new.items ≡ key.old.items ++ rule.numbers_of parts.now) }
{
    for part in parts {
        push_part(key, *part)?;
    }
    Ok(())
}

/// Adds the numbers of a part.
fn push_part(key: &mut Vec<i64>, part: Part) -> Result<(), NoMemory>
    ensures { OnOk result (key.new.items ≡ key.old.items ++ part.coefficient ∷ pos (subtracting.rank part.term) ∷ []) }
{
    key.push(part.coefficient)?;
    key.push(rank(part.term) as i64)?;
    Ok(())
}

/// A term and a sign, as the numbers by which they are remembered.
pub(crate) fn signed(alloc: Global, above: bool, term: Term) -> Result<Vec<i64>, NoMemory>
    ensures { IfOk result (λ key. key.items ≡ rule.signed above term) }
{
    let mut key = Vec::new(alloc);
    key.push(if above { 1 } else { 0 })?;
    key.push(rank(term) as i64)?;
    Ok(key)
}
