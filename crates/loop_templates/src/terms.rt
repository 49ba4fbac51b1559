//! The terms over the names that occur (docs/ANALYSER.md, "Loops").

ghost use Rattle.std.specs.Prelude.{◌≡◌, ◌++◌, map, IfOk, OnOk};
ghost use Rattle.loop_templates.specs.Reaching as rule;

use crate::cases::Bound;
use crate::names::occurring_of;
use crate::reaching::{Occurrences, is_marked};
use bst_meaning::style_parts::kind_of;
use bv_base::memory::NoMemory;
use lin_facts::row::Term;
use name_table::names::{Kind, NameId};
use name_table::style::Style;
use std::alloc::Global;

/// The terms over the names that occur, in the order of terms: the value of each integer variable, the length and the names
/// of each field and of each string variable that isn't quoted. Entry variables and fields have terms at an entry only. The
/// number in a term is that of a name.
pub fn terms_over(
    alloc: Global,
    style: &Style,
    found: &Occurrences,
    at_entry: bool,
) -> Result<Vec<Term>, NoMemory>
    ensures { IfOk result (λ terms. terms.items ≡ rule.terms_over style.now found.now at_entry) }
{
    let bound = Bound {
        globals: true,
        entry: at_entry,
    };
    let integers = integers_of(alloc, style, found, bound)?;
    let strings = strings_of(alloc, style, found, at_entry)?;
    let mut terms = Vec::new(alloc);
    push_values(&mut terms, integers.as_slice())?;
    push_lengths(&mut terms, strings.as_slice())?;
    push_names(&mut terms, strings.as_slice())?;
    Ok(terms)
}

/// The terms of what commands leave: the value of each integer variable of these that occurs, and behind them, where it may stand, the
/// number of visited entries.
pub fn command_terms(
    alloc: Global,
    style: &Style,
    found: &Occurrences,
    bound: Bound,
    has_pos: bool,
) -> Result<Vec<Term>, NoMemory>
    ensures { IfOk result (λ terms. terms.items ≡ rule.command_terms style.now found.now bound has_pos) }
{
    let integers = integers_of(alloc, style, found, bound)?;
    let mut terms = Vec::new(alloc);
    push_values(&mut terms, integers.as_slice())?;
    if has_pos {
        terms.push(Term::Pos)?;
    }
    Ok(terms)
}

/// The integer variables that occur.
fn integers_of(
    alloc: Global,
    style: &Style,
    found: &Occurrences,
    bound: Bound,
) -> Result<Vec<NameId>, NoMemory>
    ensures { IfOk result (λ names. names.items ≡ rule.occurring_of (rule.is_integer bound) style.now found.now.named) }
{
    let named = found.named.as_slice();
    occurring_of(alloc, style, named, |kind| is_integer(bound, kind))
}

/// The strings that occur.
fn lengths_of(
    alloc: Global,
    style: &Style,
    found: &Occurrences,
    at_entry: bool,
) -> Result<Vec<NameId>, NoMemory>
    ensures { IfOk result (λ names. names.items ≡ rule.occurring_of (rule.has_length at_entry) style.now found.now.named) }
{
    let named = found.named.as_slice();
    occurring_of(alloc, style, named, |kind| has_length(at_entry, kind))
}

/// The strings that occur and stay what they are.
fn strings_of(
    alloc: Global,
    style: &Style,
    found: &Occurrences,
    at_entry: bool,
) -> Result<Vec<NameId>, NoMemory>
    ensures { IfOk result (λ names. names.items ≡ rule.strings_of style.now found.now at_entry) }
{
    let quoted = found.quoted.as_slice();
    let mut names = lengths_of(alloc, style, found, at_entry)?;
    names.retain(|name| stays(style, quoted, at_entry, *name));
    Ok(names)
}

/// Whether a name isn't a string variable that is quoted, which counts as written.
fn stays(style: &Style, quoted: &[bool], at_entry: bool, name: NameId) -> bool
    ensures { result ≡ rule.stays style.now quoted.now at_entry name }
{
    match kind_of(style, name) {
        Some(kind) => !(is_marked(quoted, name.0 as usize) && is_string(at_entry, kind)),
        None => true,
    }
}

/// Adds the value of each of some integer variables.
fn push_values(terms: &mut Vec<Term>, names: &[NameId]) -> Result<(), NoMemory>
    ensures { OnOk result (terms.new.items ≡ terms.old.items ++ map (λ name. Term.Value name.0) names.now) }
{
    for name in names {
        terms.push(Term::Value(name.0))?;
    }
    Ok(())
}

/// Adds the length of each of some strings.
fn push_lengths(terms: &mut Vec<Term>, names: &[NameId]) -> Result<(), NoMemory>
    ensures { OnOk result (terms.new.items ≡ terms.old.items ++ map (λ name. Term.Length name.0) names.now) }
{
    for name in names {
        terms.push(Term::Length(name.0))?;
    }
    Ok(())
}

/// Adds the number of names of each of some strings.
fn push_names(terms: &mut Vec<Term>, names: &[NameId]) -> Result<(), NoMemory>
    ensures { OnOk result (terms.new.items ≡ terms.old.items ++ map (λ name. Term.Names name.0) names.now) }
{
    for name in names {
        terms.push(Term::Names(name.0))?;
    }
    Ok(())
}

/// Whether an integer variable of a kind is bound.
fn is_integer(bound: Bound, kind: Kind) -> bool
    ensures { result ≡ rule.is_integer bound kind }
{
    match kind {
        Kind::IntGlobal => bound.globals,
        Kind::IntEntry => bound.entry,
        _ => false,
    }
}

/// Whether a string variable of a kind has a value.
fn is_string(at_entry: bool, kind: Kind) -> bool
    ensures { result ≡ rule.is_string at_entry kind }
{
    match kind {
        Kind::StrGlobal => true,
        Kind::StrEntry => at_entry,
        _ => false,
    }
}

/// Whether a field or a string variable of a kind has a value.
fn has_length(at_entry: bool, kind: Kind) -> bool
    ensures { result ≡ rule.has_length at_entry kind }
{
    match kind {
        Kind::Field => at_entry,
        kind => is_string(at_entry, kind),
    }
}
