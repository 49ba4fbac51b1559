//! Pieces, printed line by line.

ghost use Rattle.std.specs.Prelude.{◌≡◌, [], ◌∷◌, ◌++◌, map, codes, OnOk};
ghost use Rattle.std.specs.Fmt.{decimal, signed_decimal};
ghost use Rattle.cert_format.specs.PieceSpelling as spelling;
ghost use Rattle.cert_format.specs.Spelling.{after_item, line_text, text_of, name_text};

use crate::printer::Printer;
use bv_base::memory::NoMemory;
use lin_facts::row::{Part, Row, Term};
use name_table::names::{NameId, Names};
use sym_state::piece::Piece;
use sym_state::symbol::{Bind, Fact, Kinds, Sym};

/// Puts the lines of a piece.
pub(crate) fn put_piece(printer: &mut Printer, names: &Names, piece: &Piece) -> Result<(), NoMemory>
    ensures { OnOk result (printer.new ≡ printer.old ++ text_of (spelling.piece_lines names.now piece.now)) }
{
    put_stack(printer, piece.stack.as_slice())?;
    put_binds(printer, b"var", names, piece.vars.as_slice())?;
    put_binds(printer, b"field", names, piece.fields.as_slice())?;
    put_facts(printer, names, piece.facts.as_slice())?;
    put_rows(printer, piece.rows.as_slice())
}

/// Puts the line of the stack, where it has a symbol.
fn put_stack(printer: &mut Printer, stack: &[Sym]) -> Result<(), NoMemory>
    ensures { OnOk result (printer.new ≡ printer.old ++ text_of (spelling.stack_lines stack.now)) }
{
    if stack.is_empty() {
        return Ok(());
    }
    printer.word(b"stack")?;
    put_symbols(printer, stack)
}

/// Puts symbols as further items, and the line's end.
fn put_symbols(printer: &mut Printer, symbols: &[Sym]) -> Result<(), NoMemory>
    ensures { OnOk result (printer.new ≡ printer.old ++ after_item (map spelling.sym_text symbols.now)) }
{
    for symbol in symbols {
        printer.number(symbol.0)?;
    }
    printer.end()
}

/// Puts the lines of variables or fields.
fn put_binds(
    printer: &mut Printer,
    word: &[u8],
    names: &Names,
    binds: &[Bind],
) -> Result<(), NoMemory>
    ensures { OnOk result (printer.new ≡ printer.old ++ text_of (map (spelling.bind_items word.now names.now) binds.now)) }
{
    for bind in binds {
        put_bind(printer, word, names, *bind)?;
    }
    Ok(())
}

/// Puts the line of a variable or a field.
fn put_bind(printer: &mut Printer, word: &[u8], names: &Names, bind: Bind) -> Result<(), NoMemory>
    ensures { OnOk result (printer.new ≡ printer.old ++ line_text (spelling.bind_items word.now names.now bind)) }
{
    printer.word(word)?;
    printer.name(names, bind.name)?;
    printer.number(bind.sym.0)?;
    printer.end()
}

/// Puts the lines of facts.
fn put_facts(printer: &mut Printer, names: &Names, facts: &[Fact]) -> Result<(), NoMemory>
    ensures { OnOk result (printer.new ≡ printer.old ++ text_of (map (spelling.fact_items names.now) facts.now)) }
{
    for fact in facts {
        put_fact(printer, names, fact)?;
    }
    Ok(())
}

/// Puts a fact.
fn put_fact(printer: &mut Printer, names: &Names, fact: &Fact) -> Result<(), NoMemory>
    ensures { OnOk result (printer.new ≡ printer.old ++ line_text (spelling.fact_items names.now fact.now)) }
{
    match fact {
        Fact::Is(sym, kind) => put_symbol_item(printer, b"is", *sym, kind_text(*kind)),
        Fact::Int(sym, n) => put_symbol_integer(printer, *sym, *n),
        Fact::Text(sym, text) => put_symbol_text(printer, *sym, text.as_slice()),
        Fact::Call(sym, name) => put_symbol_name(printer, names, *sym, *name),
        Fact::Block(sym, number) => put_symbol_number(printer, *sym, *number),
        Fact::Blank(sym) => put_symbol(printer, b"blank", *sym),
        Fact::Nonblank(sym) => put_symbol(printer, b"nonblank", *sym),
        Fact::Wellformed(sym) => put_symbol(printer, b"wellformed", *sym),
    }
}

/// Puts the fact of an exact block.
fn put_symbol_number(printer: &mut Printer, sym: Sym, number: u32) -> Result<(), NoMemory>
    ensures { OnOk result (printer.new ≡ printer.old
        ++ line_text (codes "block" ∷ (spelling.sym_text sym ∷ (decimal number ∷ [])))) }
{
    printer.word(b"block")?;
    printer.number(sym.0)?;
    printer.number(number)?;
    printer.end()
}

/// Puts a line of a word and a symbol.
fn put_symbol(printer: &mut Printer, word: &[u8], sym: Sym) -> Result<(), NoMemory>
    ensures { OnOk result (printer.new ≡ printer.old ++ line_text (word.now ∷ (spelling.sym_text sym ∷ []))) }
{
    printer.word(word)?;
    printer.number(sym.0)?;
    printer.end()
}

/// Puts a line of a word, a symbol and an item.
fn put_symbol_item(
    printer: &mut Printer,
    word: &[u8],
    sym: Sym,
    item: &[u8],
) -> Result<(), NoMemory>
    ensures { OnOk result (printer.new ≡ printer.old
        ++ line_text (word.now ∷ (spelling.sym_text sym ∷ (item.now ∷ [])))) }
{
    printer.word(word)?;
    printer.number(sym.0)?;
    printer.item(item)?;
    printer.end()
}

/// Puts the fact of an exact integer.
fn put_symbol_integer(printer: &mut Printer, sym: Sym, n: i32) -> Result<(), NoMemory>
    ensures { OnOk result (printer.new ≡ printer.old
        ++ line_text (codes "int" ∷ (spelling.sym_text sym ∷ (signed_decimal n ∷ [])))) }
{
    printer.word(b"int")?;
    printer.number(sym.0)?;
    printer.integer(i64::from(n))?;
    printer.end()
}

/// Puts the fact of an exact text.
fn put_symbol_text(printer: &mut Printer, sym: Sym, text: &[u8]) -> Result<(), NoMemory>
    ensures { OnOk result (printer.new ≡ printer.old
        ++ line_text (codes "text" ∷ (spelling.sym_text sym ∷ (spelling.hex_text text.now ∷ [])))) }
{
    printer.word(b"text")?;
    printer.number(sym.0)?;
    printer.hex(text)?;
    printer.end()
}

/// Puts the fact of an exact function.
fn put_symbol_name(
    printer: &mut Printer,
    names: &Names,
    sym: Sym,
    name: NameId,
) -> Result<(), NoMemory>
    ensures { OnOk result (printer.new ≡ printer.old
        ++ line_text (codes "call" ∷ (spelling.sym_text sym ∷ (name_text names.now name ∷ [])))) }
{
    printer.word(b"call")?;
    printer.number(sym.0)?;
    printer.name(names, name)?;
    printer.end()
}

/// The word of a kind; that of every value has none.
fn kind_text(kind: Kinds) -> &'static [u8]
    ensures { result.now ≡ spelling.kind_text kind }
{
    match kind {
        Kinds::Int => b"int",
        Kinds::Str => b"str",
        Kinds::Missing => b"miss",
        Kinds::Optional => b"opt",
        Kinds::Func => b"func",
        Kinds::Any => b"",
    }
}

/// Puts the lines of rows.
fn put_rows(printer: &mut Printer, rows: &[Row]) -> Result<(), NoMemory>
    ensures { OnOk result (printer.new ≡ printer.old ++ text_of (map spelling.row_items rows.now)) }
{
    for row in rows {
        put_row(printer, row)?;
    }
    Ok(())
}

/// Puts a row.
fn put_row(printer: &mut Printer, row: &Row) -> Result<(), NoMemory>
    ensures { OnOk result (printer.new ≡ printer.old ++ line_text (spelling.row_items row.now)) }
{
    printer.word(b"row")?;
    printer.integer(row.constant)?;
    put_parts(printer, row.parts.as_slice())
}

/// Puts coefficients and terms as further items, and the line's end.
fn put_parts(printer: &mut Printer, parts: &[Part]) -> Result<(), NoMemory>
    ensures { OnOk result (printer.new ≡ printer.old ++ after_item (spelling.part_items parts.now)) }
{
    for part in parts {
        printer.integer(part.coefficient)?;
        put_term(printer, part.term)?;
    }
    printer.end()
}

/// Puts a term as a further item.
fn put_term(printer: &mut Printer, term: Term) -> Result<(), NoMemory>
    ensures { OnOk result (printer.new ≡ printer.old ++ 32 ∷ spelling.term_text term) }
{
    match term {
        Term::Value(sym) => printer.joined(b"value:", sym),
        Term::Length(sym) => printer.joined(b"length:", sym),
        Term::Names(sym) => printer.joined(b"names:", sym),
        Term::Pos => printer.item(b"pos"),
        Term::Count => printer.item(b"count"),
    }
}
