//! `substring$`.

ghost use Rattle.sym_state.specs.declared.hint.Hint.{Hint};
ghost use Rattle.std.specs.Prelude.{◌≡◌, ◌<◌, ◌≤◌, ◌+◌, ◌-◌, ◌&&◌, pos, IfOk, List};
ghost use Rattle.std.specs.Option.{option_to_list};
ghost use Rattle.sym_state.specs.Demands.{IsReady, without};
ghost use Rattle.lin_facts.specs.declared.row.Term.TheVariants.{Length};
ghost use Rattle.sym_state.specs.Effects as rule;
ghost use Rattle.sym_state.specs.References as references;
ghost use Rattle.sym_state.specs.WellMade.{IsBounded};
ghost use Rattle.builtin_effects.specs.Given.{Gives, outcome_at};

use crate::at::At;
use crate::results::{Said, with_result};
use crate::steps::choice;
use bv_base::memory::NoMemory;
use lin_facts::row::{Row, Term};
use std::alloc::Global;
use sym_state::demand::EffectFault;
use sym_state::hint::Hints;
use sym_state::operands::three;
use sym_state::references::{at_least, at_most, exceeds};
use sym_state::state::State;
use sym_state::symbol::{Kinds, Sym};

/// `substring$`
pub fn substring(at: &At<'_>, hints: &mut Hints<'_>) -> Result<State, EffectFault>
    requires { IsReady at.now.state.now hints.old }
    ensures { Gives result hints.new (outcome_at at.now (rule.substring at.now.state.now) hints.old) }
{
    let (a, b, c) = three(at.state, Kinds::Str, Kinds::Int, Kinds::Int)?;
    let (start, len) = (at.state.exact_integer(b), at.state.exact_integer(c));
    substring_of(at, a, start, len, hints)
}

/// The string from a start, of a length: of that length where a step shows that the string is long enough.
fn substring_of(
    at: &At<'_>,
    a: Sym,
    start: Option<i32>,
    len: Option<i32>,
    hints: &mut Hints<'_>,
) -> Result<State, EffectFault>
    requires { IsReady at.now.state.now hints.old }
    ensures { Gives result hints.new (outcome_at at.now (rule.substring_of a start len (without 3 at.now.state.now)) hints.old) }
{
    let row = enough(at.state.alloc(), a, start, len)?;
    let wanted = is_wanted(start, len);
    if choice(at, wanted, &row, hints)? {
        long_enough(at, len)
    } else {
        no_longer(at, a, len)
    }
}

/// The string has as many bytes as a start and a length reach over.
fn enough(alloc: Global, a: Sym, start: Option<i32>, len: Option<i32>) -> Result<Row, NoMemory>
    ensures said { IfOk result (λ row. row ≡ references.at_least (Length a.0) (pos (rule.known_size start + rule.known_size len - 1))) }
    ensures bounded { IfOk result IsBounded }
{
    let count = (known_size(start) + known_size(len)).saturating_sub(1);
    at_least(alloc, Term::Length(a.0), count as i64)
}

/// Whether a step may show that the string is long enough.
fn is_wanted(start: Option<i32>, len: Option<i32>) -> bool
    ensures { result ≡ (rule.is_start start && rule.is_length len) }
{
    is_start(start) && is_length(len)
}

/// A new string of a length that is known.
fn long_enough(at: &At<'_>, len: Option<i32>) -> Result<State, EffectFault>
    requires { at.now.state.now.next < 4294967295 }
    ensures { (hints : List Hint) → Gives result hints (outcome_at at.now (rule.of_length (rule.known_size len) (without 3 at.now.state.now)) hints) }
{
    let r = Term::Length(at.state.next());
    let size = known_size(len);
    let alloc = at.state.alloc();
    let said = Said::rows(
        at_least(alloc, r, size as i64)?,
        at_most(alloc, r, size as i64)?,
    );
    Ok(with_result(at.state, 3, Kinds::Str, said)?)
}

/// A new string that is no longer than another, nor than a length that is known.
fn no_longer(at: &At<'_>, a: Sym, len: Option<i32>) -> Result<State, EffectFault>
    requires { at.now.state.now.next < 4294967295 }
    ensures { (hints : List Hint) → Gives result hints (outcome_at at.now (rule.shorter a len (without 3 at.now.state.now)) hints) }
{
    let alloc = at.state.alloc();
    let r = Sym(at.state.next());
    let said = Said {
        fact: None,
        first: Some(exceeds(alloc, Term::Length(a.0), Term::Length(r.0), 0)?),
        second: at_most_known(alloc, len, r)?,
    };
    Ok(with_result(at.state, 3, Kinds::Str, said)?)
}

/// A string is no longer than a length that is known.
fn at_most_known(alloc: Global, len: Option<i32>, r: Sym) -> Result<Option<Row>, NoMemory>
    ensures { IfOk result (λ row. option_to_list row ≡ rule.at_most_known len r) }
{
    match len {
        Some(n) => Ok(Some(at_most(alloc, Term::Length(r.0), n.max(0) as i64)?)),
        None => Ok(None),
    }
}

/// Whether a start is known and isn't 0.
fn is_start(start: Option<i32>) -> bool
    ensures { result ≡ rule.is_start start }
{
    match start {
        Some(n) => n != 0,
        None => false,
    }
}

/// Whether a length is known and at least 1.
fn is_length(len: Option<i32>) -> bool
    ensures { result ≡ rule.is_length len }
{
    match len {
        Some(n) => n >= 1,
        None => false,
    }
}

/// How great a number is, whatever its sign, and 0 where it isn't known.
fn known_size(found: Option<i32>) -> u64
    ensures size { result ≡ rule.known_size found }
    ensures few { result ≤ 2147483648 }
{
    match found {
        Some(n) => n.unsigned_abs() as u64,
        None => 0,
    }
}
