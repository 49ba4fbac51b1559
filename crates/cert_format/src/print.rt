//! Certificates and conditions, printed in their one spelling.

ghost use Rattle.std.specs.Prelude.{◌≡◌, [], ◌∷◌, ◌++◌, map, codes, IfOk, OnOk};
ghost use Rattle.std.specs.Fmt.{decimal};
ghost use Rattle.cert_format.specs.Spelling as spelling;
ghost use Rattle.cert_format.specs.UnitSpelling.{cert_lines};

use crate::cert::Cert;
use crate::printer::Printer;
use crate::put_units::{put_commands, put_loops, put_summaries};
use bst_meaning::condition::{Cond, NamesLine};
use bv_base::memory::NoMemory;
use bv_base::text::Text;
use name_table::names::{NameId, Names};
use name_table::style::Style;
use std::alloc::Global;

/// The one spelling of a condition.
pub fn print_cond(alloc: Global, cond: &Cond, style: &Style) -> Result<Vec<u8>, NoMemory>
    ensures { IfOk result (λ text. text.items ≡ spelling.text_of (spelling.cond_items style.now.names cond.now)) }
{
    let mut printer = Printer::new(alloc);
    put_cond(&mut printer, &style.names, cond)?;
    Ok(printer.into_text())
}

/// The one spelling of a certificate.
pub fn print(alloc: Global, cert: &Cert, style: &Style) -> Result<Vec<u8>, NoMemory>
    ensures { IfOk result (λ text. text.items ≡ spelling.text_of (cert_lines style.now cert.now)) }
{
    let mut printer = Printer::new(alloc);
    put_cert(&mut printer, style, cert)?;
    Ok(printer.into_text())
}

/// Puts the lines of a certificate.
fn put_cert(printer: &mut Printer, style: &Style, cert: &Cert) -> Result<(), NoMemory>
    ensures { OnOk result (printer.new ≡ printer.old ++ spelling.text_of (cert_lines style.now cert.now)) }
{
    put_number(printer, b"bstcert", cert.list)?;
    put_cond(printer, &style.names, &cert.cond)?;
    put_summaries(printer, style, cert.summaries.as_slice())?;
    put_loops(printer, style, cert.loops.as_slice())?;
    put_commands(printer, style, cert.commands.as_slice())?;
    put_word(printer, b"done")
}

/// Puts the lines of a condition.
pub(crate) fn put_cond(printer: &mut Printer, names: &Names, cond: &Cond) -> Result<(), NoMemory>
    ensures { OnOk result (printer.new ≡ printer.old ++ spelling.text_of (spelling.cond_items names.now cond.now)) }
{
    put_numbers(printer, cond)?;
    put_lists(printer, names, cond)?;
    put_cond_end(printer, cond.other)
}

/// Puts the first lines of a condition.
fn put_numbers(printer: &mut Printer, cond: &Cond) -> Result<(), NoMemory>
    ensures { OnOk result (printer.new ≡ printer.old ++ spelling.text_of (spelling.cond_numbers cond.now)) }
{
    put_number(printer, b"entries", cond.entries)?;
    put_number(printer, b"key", cond.key)?;
    put_number(printer, b"preamble", cond.preamble)?;
    put_number(printer, b"length", cond.length)
}

/// Puts the lists of a condition.
fn put_lists(printer: &mut Printer, names: &Names, cond: &Cond) -> Result<(), NoMemory>
    ensures { OnOk result (printer.new ≡ printer.old ++ spelling.text_of (spelling.cond_lists names.now cond.now)) }
{
    put_names(printer, names, cond.names.as_slice())?;
    put_nonblank(printer, names, cond.nonblank.as_slice())?;
    put_types(printer, cond.types.as_slice())
}

/// Puts a line of a word and a number.
pub(crate) fn put_number(printer: &mut Printer, word: &[u8], number: u32) -> Result<(), NoMemory>
    ensures { OnOk result (printer.new ≡ printer.old ++ spelling.line_text (word.now ∷ (decimal number ∷ []))) }
{
    printer.word(word)?;
    printer.number(number)?;
    printer.end()
}

/// Puts the lines on names.
fn put_names(printer: &mut Printer, names: &Names, lines: &[NamesLine]) -> Result<(), NoMemory>
    ensures { OnOk result (printer.new ≡ printer.old ++ spelling.text_of (map (spelling.names_items names.now) lines.now)) }
{
    for line in lines {
        put_names_line(printer, names, line)?;
    }
    Ok(())
}

/// Puts a line on names.
fn put_names_line(printer: &mut Printer, names: &Names, line: &NamesLine) -> Result<(), NoMemory>
    ensures { OnOk result (printer.new ≡ printer.old ++ spelling.line_text (spelling.names_items names.now line.now)) }
{
    printer.word(b"names")?;
    printer.name(names, line.field)?;
    printer.number(line.most)?;
    printer.end()
}

/// Puts the `nonblank` lines.
fn put_nonblank(printer: &mut Printer, names: &Names, fields: &[NameId]) -> Result<(), NoMemory>
    ensures { OnOk result (printer.new ≡ printer.old ++ spelling.text_of (map (spelling.nonblank_items names.now) fields.now)) }
{
    for field in fields {
        put_name(printer, b"nonblank", names, *field)?;
    }
    Ok(())
}

/// Puts a line of a word and a name.
pub(crate) fn put_name(
    printer: &mut Printer,
    word: &[u8],
    names: &Names,
    id: NameId,
) -> Result<(), NoMemory>
    ensures { OnOk result (printer.new ≡ printer.old
        ++ spelling.line_text (word.now ∷ (spelling.name_text names.now id ∷ []))) }
{
    printer.word(word)?;
    printer.name(names, id)?;
    printer.end()
}

/// Puts the `type` lines.
fn put_types(printer: &mut Printer, types: &[Text]) -> Result<(), NoMemory>
    ensures { OnOk result (printer.new ≡ printer.old ++ spelling.text_of (map spelling.type_items types.now)) }
{
    for name in types {
        put_item(printer, b"type", name.as_slice())?;
    }
    Ok(())
}

/// Puts a line of a word and an item.
fn put_item(printer: &mut Printer, word: &[u8], item: &[u8]) -> Result<(), NoMemory>
    ensures { OnOk result (printer.new ≡ printer.old ++ spelling.line_text (word.now ∷ (item.now ∷ []))) }
{
    printer.word(word)?;
    printer.item(item)?;
    printer.end()
}

/// Puts the last lines of a condition.
fn put_cond_end(printer: &mut Printer, other: bool) -> Result<(), NoMemory>
    ensures { OnOk result (printer.new ≡ printer.old ++ spelling.text_of (spelling.cond_end other)) }
{
    put_item(printer, b"othertype", choice_text(other))?;
    put_word(printer, b"end")
}

/// Puts a line of one word.
pub(crate) fn put_word(printer: &mut Printer, word: &[u8]) -> Result<(), NoMemory>
    ensures { OnOk result (printer.new ≡ printer.old ++ spelling.line_text (word.now ∷ [])) }
{
    printer.word(word)?;
    printer.end()
}

/// A choice.
fn choice_text(choice: bool) -> &'static [u8]
    ensures { result.now ≡ spelling.choice_text choice }
{
    if choice { b"yes" } else { b"no" }
}
