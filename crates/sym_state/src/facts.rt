//! What the facts of a state decide (docs/STATES.md, "What facts decide").

ghost use Rattle.std.specs.Prelude.{◌≡◌, ◌≤◌, ◌^◌, ◌&&◌, false, nat_eq, length, option_map, is_some, ℕ, IfOk, IfSome};
ghost use Rattle.std.specs.List.{All, list_any};
ghost use Rattle.std.specs.Option.{option_and_then, option_map_or};
ghost use Rattle.std.specs.Ordering.{int_eq};
ghost use Rattle.std.specs.Cmp.Lexicographic.{pointwise};
ghost use Rattle.sym_state.specs.Decided as decided;
ghost use Rattle.sym_state.specs.Facts as rule;
ghost use Rattle.sym_state.specs.Renaming.{fact_renamed};
ghost use Rattle.sym_state.specs.WellMade.{HasShortText};

use crate::shared_list::SharedList;
use crate::symbol::{Fact, Kinds, Sym};
use bv_base::memory::NoMemory;
use bv_base::text::Text;
use name_split::names::names_ok;
use name_table::names::NameId;
use std::alloc::Global;
use text_ops::is_blank::is_blank;

/// The exact integer of a symbol.
pub fn exact_integer(facts: &SharedList<Fact>, sym: Sym) -> Option<i32>
    ensures { result ≡ decided.exact_integer facts.now sym.0 }
{
    facts
        .find(|fact| subject(fact).0 == sym.0 && integer_said(fact).is_some())
        .and_then(|fact| integer_said(fact))
}

/// The exact text of a symbol.
pub fn exact_text<'a>(facts: &'a SharedList<Fact>, sym: Sym) -> Option<&'a [u8]>
    ensures said { option_map (λ text. text.now) result ≡ decided.exact_text facts.now sym.0 }
    ensures short { All HasShortText facts.now → IfSome result (λ text. length text.now ≤ 2 ^ 45) }
{
    let found = facts.find(|fact| subject(fact).0 == sym.0 && text_said(fact).is_some());
    match found {
        Some(fact) => text_said(fact),
        None => None,
    }
}

/// What `empty$` gives for a symbol, true for 1, by the first fact on it that decides that.
pub fn known_emptiness(facts: &SharedList<Fact>, sym: Sym) -> Option<bool>
    ensures { result ≡ decided.first_said decided.emptiness_said sym.0 facts.now }
{
    facts
        .find(|fact| subject(fact).0 == sym.0 && emptiness_said(fact).is_some())
        .and_then(|fact| emptiness_said(fact))
}

/// Whether the first fact on a symbol that decides `empty$` decides 0.
pub fn is_known_nonblank(facts: &SharedList<Fact>, sym: Sym) -> bool
    ensures { result ≡ decided.is_known_nonblank facts.now sym.0 }
{
    match known_emptiness(facts, sym) {
        Some(empty) => !empty,
        None => false,
    }
}

/// The name of a symbol that is exactly the function of that name.
pub fn exact_name(facts: &SharedList<Fact>, sym: Sym) -> Option<NameId>
    ensures { result ≡ option_and_then decided.name_of (decided.exact_function facts.now sym.0) }
{
    facts
        .find(|fact| subject(fact).0 == sym.0 && is_function_said(fact))
        .and_then(|fact| function_name(fact))
}

/// The number of the block that a symbol exactly is.
pub fn exact_block(facts: &SharedList<Fact>, sym: Sym) -> Option<u32>
    ensures { result ≡ option_and_then decided.number_of (decided.exact_function facts.now sym.0) }
{
    facts
        .find(|fact| subject(fact).0 == sym.0 && is_function_said(fact))
        .and_then(|fact| block_said(fact))
}

/// The kind of a symbol: the first single kind that a fact says, and where none does that of strings and missing fields
/// if one says it.
pub fn known_kind(facts: &SharedList<Fact>, sym: Sym) -> Kinds
    ensures { result ≡ decided.known_kind facts.now sym.0 }
{
    match single_kind(facts, sym) {
        Some(kind) => kind,
        None => {
            if is_optional(facts, sym) {
                Kinds::Optional
            } else {
                Kinds::Any
            }
        }
    }
}

/// The first single kind that a fact on a symbol says.
fn single_kind(facts: &SharedList<Fact>, sym: Sym) -> Option<Kinds>
    ensures { result ≡ decided.first_said (λ fact. decided.single (decided.kind_said fact)) sym.0 facts.now }
{
    facts
        .find(|fact| subject(fact).0 == sym.0 && single(kind_said(fact)).is_some())
        .and_then(|fact| single(kind_said(fact)))
}

/// A kind, where all its values are integers, or strings, or missing fields, or functions.
fn single(kind: Kinds) -> Option<Kinds>
    ensures { result ≡ decided.single kind }
{
    match kind {
        Kinds::Optional | Kinds::Any => None,
        _ => Some(kind),
    }
}

/// Whether a fact on a symbol says that it is a string or a missing field.
fn is_optional(facts: &SharedList<Fact>, sym: Sym) -> bool
    ensures { result ≡ list_any (λ fact. nat_eq (rule.subject fact) sym.0 && decided.includes Kinds.Optional (decided.kind_said fact)) facts.now }
{
    facts
        .find(|fact| subject(fact).0 == sym.0 && includes(Kinds::Optional, kind_said(fact)))
        .is_some()
}

/// Whether a fact follows for a symbol from one of the facts on it. That it is of some kind follows always.
pub fn is_known(facts: &SharedList<Fact>, sym: Sym, wanted: &Fact) -> bool
    ensures { result ≡ decided.is_known facts.now sym.0 wanted.now }
{
    if says_nothing(wanted) {
        return true;
    }
    facts
        .find(|fact| subject(fact).0 == sym.0 && gives(fact, wanted))
        .is_some()
}

/// The symbol that a fact is about.
pub fn subject(fact: &Fact) -> Sym
    ensures { result.0 ≡ rule.subject fact.now }
{
    match fact {
        Fact::Is(sym, _) => *sym,
        Fact::Int(sym, _) => *sym,
        Fact::Text(sym, _) => *sym,
        Fact::Call(sym, _) => *sym,
        Fact::Block(sym, _) => *sym,
        Fact::Blank(sym) => *sym,
        Fact::Nonblank(sym) => *sym,
        Fact::Wellformed(sym) => *sym,
    }
}

/// A fact on another symbol.
pub(crate) fn renamed_to(alloc: Global, sym: Sym, fact: &Fact) -> Result<Fact, NoMemory>
    ensures { (name : ℕ → ℕ) → sym.0 ≡ name (rule.subject fact.now) → IfOk result (λ new. new ≡ fact_renamed name fact.now) }
{
    Ok(match fact {
        Fact::Is(_, kind) => Fact::Is(sym, *kind),
        Fact::Int(_, n) => Fact::Int(sym, *n),
        Fact::Text(_, text) => Fact::Text(sym, Text::from_slice(alloc, text.as_slice())?),
        Fact::Call(_, name) => Fact::Call(sym, *name),
        Fact::Block(_, number) => Fact::Block(sym, *number),
        Fact::Blank(_) => Fact::Blank(sym),
        Fact::Nonblank(_) => Fact::Nonblank(sym),
        Fact::Wellformed(_) => Fact::Wellformed(sym),
    })
}

/// Whether a fact is a consequence of another, on the same symbol.
fn gives(fact: &Fact, wanted: &Fact) -> bool
    ensures { result ≡ decided.gives fact.now wanted.now }
{
    match wanted {
        Fact::Is(_, kind) => includes(*kind, kind_said(fact)),
        Fact::Int(_, n) => gives_integer(*n, integer_said(fact)),
        Fact::Text(_, text) => gives_text(text.as_slice(), text_said(fact)),
        Fact::Call(_, name) => gives_number(name.0, name_said(fact)),
        Fact::Block(_, number) => gives_number(*number, block_said(fact)),
        Fact::Blank(_) => emptiness_said(fact).unwrap_or(false),
        Fact::Nonblank(_) => !emptiness_said(fact).unwrap_or(true),
        Fact::Wellformed(_) => wellformed_said(fact),
    }
}

/// Whether an integer that is said is this one.
fn gives_integer(wanted: i32, said: Option<i32>) -> bool
    ensures { result ≡ option_map_or (int_eq wanted) said false }
{
    match said {
        Some(n) => wanted == n,
        None => false,
    }
}

/// Whether a text that is said is this one.
fn gives_text(wanted: &[u8], said: Option<&[u8]>) -> bool
    ensures { result ≡ option_map_or (pointwise nat_eq wanted.now) (option_map (λ text. text.now) said.entry) false }
{
    match said {
        Some(text) => wanted == text,
        None => false,
    }
}

/// Whether a number that is said is this one.
fn gives_number(wanted: u32, said: Option<u32>) -> bool
    ensures { result ≡ option_map_or (nat_eq wanted) said false }
{
    match said {
        Some(number) => wanted == number,
        None => false,
    }
}

/// Whether a fact says no more than that there is a value.
fn says_nothing(fact: &Fact) -> bool
    ensures { result ≡ decided.says_nothing fact.now }
{
    match fact {
        Fact::Is(_, Kinds::Any) => true,
        _ => false,
    }
}

/// The kind that a fact says.
fn kind_said(fact: &Fact) -> Kinds
    ensures { result ≡ decided.kind_said fact.now }
{
    match fact {
        Fact::Is(_, kind) => *kind,
        Fact::Int(_, _) => Kinds::Int,
        Fact::Text(_, _) => Kinds::Str,
        Fact::Call(_, _) => Kinds::Func,
        Fact::Block(_, _) => Kinds::Func,
        Fact::Blank(_) => Kinds::Optional,
        Fact::Nonblank(_) => Kinds::Str,
        Fact::Wellformed(_) => Kinds::Any,
    }
}

/// Whether a kind includes another.
pub fn includes(wide: Kinds, kind: Kinds) -> bool
    ensures { result ≡ decided.includes wide kind }
{
    match (wide, kind) {
        (Kinds::Any, _) => true,
        (Kinds::Int, Kinds::Int) => true,
        (Kinds::Str, Kinds::Str) => true,
        (Kinds::Missing, Kinds::Missing) => true,
        (Kinds::Optional, Kinds::Str) => true,
        (Kinds::Optional, Kinds::Missing) => true,
        (Kinds::Optional, Kinds::Optional) => true,
        (Kinds::Func, Kinds::Func) => true,
        _ => false,
    }
}

/// The integer that a fact says.
fn integer_said(fact: &Fact) -> Option<i32>
    ensures { result ≡ decided.integer_said fact.now }
{
    match fact {
        Fact::Int(_, n) => Some(*n),
        _ => None,
    }
}

/// The text that a fact says.
fn text_said<'a>(fact: &'a Fact) -> Option<&'a [u8]>
    ensures { option_map (λ text. text.now) result ≡ decided.text_said fact.now }
{
    match fact {
        Fact::Text(_, text) => Some(text.as_slice()),
        _ => None,
    }
}

/// Whether a fact says that its symbol is exactly a function.
fn is_function_said(fact: &Fact) -> bool
    ensures { result ≡ is_some (decided.function_said fact.now) }
{
    match fact {
        Fact::Call(_, _) | Fact::Block(_, _) => true,
        _ => false,
    }
}

/// The name of the function that a fact says, where it has one.
fn function_name(fact: &Fact) -> Option<NameId>
    ensures { result ≡ option_and_then decided.name_of (decided.function_said fact.now) }
{
    match fact {
        Fact::Call(_, name) => Some(*name),
        _ => None,
    }
}

/// The id of the name that a fact says.
fn name_said(fact: &Fact) -> Option<u32>
    ensures { result ≡ option_map (λ name. name.0) (decided.name_said fact.now) }
{
    match fact {
        Fact::Call(_, name) => Some(name.0),
        _ => None,
    }
}

/// The number of the block that a fact says.
fn block_said(fact: &Fact) -> Option<u32>
    ensures said { result ≡ decided.block_said fact.now }
    ensures function { result ≡ option_and_then decided.number_of (decided.function_said fact.now) }
{
    match fact {
        Fact::Block(_, number) => Some(*number),
        _ => None,
    }
}

/// What a fact says that `empty$` gives: true for 1.
fn emptiness_said(fact: &Fact) -> Option<bool>
    ensures { result ≡ decided.emptiness_said fact.now }
{
    match fact {
        Fact::Is(_, Kinds::Missing) => Some(true),
        Fact::Text(_, text) => Some(is_blank(text.as_slice())),
        Fact::Blank(_) => Some(true),
        Fact::Nonblank(_) => Some(false),
        _ => None,
    }
}

/// Whether a fact says that each name is well formed.
fn wellformed_said(fact: &Fact) -> bool
    ensures { result ≡ decided.wellformed_said fact.now }
{
    match fact {
        Fact::Text(_, text) => names_ok(text.as_slice()),
        Fact::Blank(_) => true,
        Fact::Wellformed(_) => true,
        _ => is_nameless(kind_said(fact)),
    }
}

/// Whether no value of a kind has a name that isn't well formed.
fn is_nameless(kind: Kinds) -> bool
    ensures { result ≡ decided.is_nameless kind }
{
    match kind {
        Kinds::Int | Kinds::Missing | Kinds::Func => true,
        _ => false,
    }
}
