//! `substring$`.

ghost use Rattle.std.specs.Prelude.{◌≡◌, ◌≤◌, ◌&&◌, ◌+◌, ◌-◌, pos, IfOk};
ghost use Rattle.lin_facts.specs.declared.row.Term.TheVariants.{Length};
ghost use Rattle.straight_hints.specs.Given.{Finds, hints_at};
ghost use Rattle.straight_hints.specs.Subjects.{HasBounds, IsBounded, without};
ghost use Rattle.sym_state.specs.Effects as rule;
ghost use Rattle.sym_state.specs.References as references;

use crate::at::{At, Found};
use crate::steps::choice;
use bv_base::memory::NoMemory;
use lin_facts::row::{Row, Term};
use std::alloc::Global;
use sym_state::operands::three;
use sym_state::references::at_least;
use sym_state::symbol::{Kinds, Sym};

/// `substring$`
pub fn substring(at: &At<'_>) -> Found
    requires { HasBounds at.now.state.now }
    ensures { Finds result (hints_at at.now (rule.substring at.now.state.now)) }
{
    let (a, b, c) = three(at.state, Kinds::Str, Kinds::Int, Kinds::Int)?;
    let (start, len) = (at.state.exact_integer(b), at.state.exact_integer(c));
    substring_of(at, a, start, len)
}

/// A choice of the string from a start, of a length: a step shows that the string is long enough.
fn substring_of(at: &At<'_>, a: Sym, start: Option<i32>, len: Option<i32>) -> Found
    requires { HasBounds at.now.state.now }
    ensures { Finds result (hints_at at.now (rule.substring_of a start len (without 3 at.now.state.now))) }
{
    let row = enough(at.state.alloc(), a, start, len)?;
    Ok(choice(at, is_wanted(start, len), &row)?)
}

/// Whether a step may show that the string is long enough.
fn is_wanted(start: Option<i32>, len: Option<i32>) -> bool
    ensures { result ≡ (rule.is_start start && rule.is_length len) }
{
    match (start, len) {
        (Some(first), Some(count)) => first != 0 && count >= 1,
        _ => false,
    }
}

/// The string has as many bytes as a start and a length reach over.
fn enough(alloc: Global, a: Sym, start: Option<i32>, len: Option<i32>) -> Result<Row, NoMemory>
    ensures said { IfOk result (λ row. row ≡ references.at_least (Length a.0) (pos (rule.known_size start + rule.known_size len - 1))) }
    ensures bounded { IfOk result IsBounded }
{
    let count = (known_size(start) + known_size(len)).saturating_sub(1);
    at_least(alloc, Term::Length(a.0), count as i64)
}

/// How great a number is, whatever its sign, and 0 where it isn't known.
fn known_size(found: Option<i32>) -> u64
    ensures size { result ≡ rule.known_size found }
    ensures few { result ≤ 2147483648 }
{
    match found {
        Some(n) => u64::from(n.unsigned_abs()),
        None => 0,
    }
}
