//! Hints and proofs, as they are read.

ghost use Rattle.std.specs.Prelude.{◌≤◌, length, IfOk};
ghost use Rattle.sym_state.specs.Demands.{HasFewUses};

use crate::tests::reading::{Item, Unread, divided, halves, natural};
use std::alloc::Global;
use sym_state::hint::Hint;
use sym_state::proof::{Proof, Reference, Use};
use sym_state::symbol::Sym;

impl Item for Hint {
    ghost use Rattle.sym_state.specs.Demands.{HasFewUses};

    ghost holds = { HasFewUses };

    fn read(alloc: Global, text: &'static str) -> Result<Option<Hint>, Unread> {
        Ok(Some(hint(alloc, text)?))
    }
}

fn hint(alloc: Global, text: &'static str) -> Result<Hint, Unread>
    ensures { IfOk result HasFewUses }
{
    let (word, rest) = halves(text, " ");
    Ok(match word {
        "drop" => Hint::Drop(proof(alloc, rest)?),
        "step" => Hint::Step(proof(alloc, rest)?),
        "apply" => Hint::Apply(natural(rest)?),
        "loop" => Hint::Loop(natural(rest)?),
        "case" => Hint::Case(natural(rest)?),
        _ => return plain_hint(text),
    })
}

/// A hint of one word.
fn plain_hint(text: &'static str) -> Result<Hint, Unread>
    ensures { IfOk result HasFewUses }
{
    Ok(match text {
        "keep" => Hint::Keep,
        "walk" => Hint::Walk,
        "plain" => Hint::Plain,
        _ => return Err(Unread::At(text)),
    })
}

/// A proof of at most 64 uses.
pub fn proof(alloc: Global, text: &'static str) -> Result<Proof, Unread>
    ensures { IfOk result (λ proof. length proof.uses ≤ 64) }
{
    let (divisor, uses) = divided(alloc, text)?;
    Ok(Proof { divisor, uses })
}

impl Item for Use {
    ghost holds = { λ _. Unit {0} };

    fn read(_alloc: Global, text: &'static str) -> Result<Option<Use>, Unread> {
        let (times, reference) = text.split_once("*").unwrap_or(("1", text));
        Ok(Some(Use {
            reference: reference_of(reference)?,
            times: natural(times)?,
        }))
    }
}

fn reference_of(text: &'static str) -> Result<Reference, Unread> {
    let (name, symbol) = halves(text, ":");
    if symbol.is_empty() {
        return reference_to_entries(name);
    }
    reference_to(name, natural(symbol)?)
}

fn reference_to_entries(name: &'static str) -> Result<Reference, Unread> {
    Ok(match name {
        "PosLow" => Reference::PosLow,
        "PosHigh" => Reference::PosHigh,
        "CountLow" => Reference::CountLow,
        "CountHigh" => Reference::CountHigh,
        _ => return Err(Unread::At(name)),
    })
}

/// What refers to a row or a symbol.
fn reference_to(name: &'static str, number: u32) -> Result<Reference, Unread> {
    let sym = Sym(number);
    Ok(match name {
        "Row" => Reference::Row(number),
        "ValueLow" => Reference::ValueLow(sym),
        "ValueHigh" => Reference::ValueHigh(sym),
        "LengthLow" => Reference::LengthLow(sym),
        "NamesLow" => Reference::NamesLow(sym),
        "NamesHigh" => Reference::NamesHigh(sym),
        "ExactLow" => Reference::ExactLow(sym),
        "ExactHigh" => Reference::ExactHigh(sym),
        "NonblankLength" => Reference::NonblankLength(sym),
        "NonblankNames" => Reference::NonblankNames(sym),
        "TextLow" => Reference::TextLow(sym),
        "TextHigh" => Reference::TextHigh(sym),
        _ => return Err(Unread::At(name)),
    })
}
