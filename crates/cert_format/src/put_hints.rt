//! Hints, printed line by line.

ghost use Rattle.std.specs.Prelude.{◌≡◌, [], ◌∷◌, ◌++◌, map, codes, OnOk};
ghost use Rattle.std.specs.Fmt.{decimal};
ghost use Rattle.cert_format.specs.HintSpelling as spelling;
ghost use Rattle.cert_format.specs.Spelling.{after_item, line_text, text_of};

use crate::print::{put_number, put_word};
use crate::printer::Printer;
use bv_base::memory::NoMemory;
use sym_state::hint::Hint;
use sym_state::proof::{Proof, Reference, Use};

/// Puts the lines of hints, with the words before and after them.
pub(crate) fn put_hints(printer: &mut Printer, hints: &[Hint]) -> Result<(), NoMemory>
    ensures { OnOk result (printer.new ≡ printer.old ++ text_of (spelling.hints_lines hints.now)) }
{
    put_word(printer, b"hints")?;
    put_each(printer, hints)?;
    put_word(printer, b"end")
}

/// Puts a hint.
fn put_hint(printer: &mut Printer, hint: &Hint) -> Result<(), NoMemory>
    ensures { OnOk result (printer.new ≡ printer.old ++ line_text (spelling.hint_items hint.now)) }
{
    match hint {
        Hint::Apply(number) => put_number(printer, b"use", *number),
        Hint::Walk => put_word(printer, b"walk"),
        Hint::Loop(number) => put_number(printer, b"loop", *number),
        Hint::Case(number) => put_number(printer, b"case", *number),
        Hint::Plain => put_word(printer, b"plain"),
        Hint::Keep => put_word(printer, b"keep"),
        Hint::Drop(proof) => put_proof(printer, b"drop", proof),
        Hint::Step(proof) => put_proof(printer, b"step", proof),
    }
}

/// Puts hints.
fn put_each(printer: &mut Printer, hints: &[Hint]) -> Result<(), NoMemory>
    ensures { OnOk result (printer.new ≡ printer.old ++ text_of (map spelling.hint_items hints.now)) }
{
    for hint in hints {
        put_hint(printer, hint)?;
    }
    Ok(())
}

/// Puts a hint that has a proof.
fn put_proof(printer: &mut Printer, word: &[u8], proof: &Proof) -> Result<(), NoMemory>
    ensures { OnOk result (printer.new ≡ printer.old ++ line_text (word.now ∷ spelling.proof_items proof.now)) }
{
    printer.word(word)?;
    printer.number(proof.divisor)?;
    put_uses(printer, proof.uses.as_slice())
}

/// Puts what is added up as further items, and the line's end.
fn put_uses(printer: &mut Printer, uses: &[Use]) -> Result<(), NoMemory>
    ensures { OnOk result (printer.new ≡ printer.old ++ after_item (map spelling.use_text uses.now)) }
{
    for one in uses {
        printer.number(one.times)?;
        printer.word(b":")?;
        put_reference(printer, one.reference)?;
    }
    printer.end()
}

/// Puts a reference behind what stands.
fn put_reference(printer: &mut Printer, reference: Reference) -> Result<(), NoMemory>
    ensures { OnOk result (printer.new ≡ printer.old ++ spelling.reference_text reference) }
{
    match reference {
        Reference::Row(number) => printer.numbered(b'r', number),
        Reference::ValueLow(sym) => printer.numbered(b'v', sym.0),
        Reference::ValueHigh(sym) => printer.numbered(b'w', sym.0),
        Reference::LengthLow(sym) => printer.numbered(b'l', sym.0),
        Reference::NamesLow(sym) => printer.numbered(b'n', sym.0),
        Reference::NamesHigh(sym) => printer.numbered(b'm', sym.0),
        Reference::ExactLow(sym) => printer.numbered(b'e', sym.0),
        Reference::ExactHigh(sym) => printer.numbered(b'f', sym.0),
        Reference::NonblankLength(sym) => printer.numbered(b'b', sym.0),
        Reference::NonblankNames(sym) => printer.numbered(b'c', sym.0),
        Reference::TextLow(sym) => printer.numbered(b't', sym.0),
        Reference::TextHigh(sym) => printer.numbered(b'u', sym.0),
        Reference::PosLow => printer.word(b"p"),
        Reference::PosHigh => printer.word(b"q"),
        Reference::CountLow => printer.word(b"o"),
        Reference::CountHigh => printer.word(b"z"),
    }
}
