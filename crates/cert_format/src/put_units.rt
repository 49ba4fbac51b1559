//! Summaries, loops and commands, printed line by line.

ghost use Rattle.std.specs.Prelude.{◌≡◌, [], ◌∷◌, ◌++◌, map, codes, OnOk, option_copied};
ghost use Rattle.std.specs.Fmt.{decimal};
ghost use Rattle.name_table.specs.Sound.{block_of};
ghost use Rattle.cert_format.specs.Spelling.{line_text, text_of};
ghost use Rattle.cert_format.specs.UnitSpelling as spelling;

use crate::cert::{CommandPart, Loop, Summary};
use crate::print::{put_name, put_number, put_word};
use crate::printer::Printer;
use crate::put_hints::put_hints;
use crate::put_pieces::put_piece;
use bst_meaning::value::Target;
use bv_base::memory::NoMemory;
use name_table::names::{NameId, Names};
use name_table::style::{Body, BodyId, Style};
use sym_state::piece::Piece;

/// Puts the lines of summaries.
pub(crate) fn put_summaries(
    printer: &mut Printer,
    style: &Style,
    summaries: &[Summary],
) -> Result<(), NoMemory>
    ensures { OnOk result (printer.new ≡ printer.old
        ++ text_of (spelling.each_lines (spelling.summary_lines style.now) summaries.now)) }
{
    for summary in summaries {
        put_summary(printer, style, summary)?;
    }
    Ok(())
}

/// Puts the lines of a summary.
fn put_summary(printer: &mut Printer, style: &Style, summary: &Summary) -> Result<(), NoMemory>
    ensures { OnOk result (printer.new ≡ printer.old ++ text_of (spelling.summary_lines style.now summary.now)) }
{
    put_summary_word(printer, style, summary.body)?;
    put_head(
        printer,
        &style.names,
        summary.entry,
        summary.whole,
        summary.writes.as_slice(),
    )?;
    put_marked(printer, b"pre", &style.names, &summary.pre)?;
    put_pieces(printer, b"post", &style.names, summary.posts.as_slice())?;
    put_hints(printer, summary.hints.as_slice())
}

/// Puts the first line of a summary.
fn put_summary_word(printer: &mut Printer, style: &Style, body: Target) -> Result<(), NoMemory>
    ensures { OnOk result (printer.new ≡ printer.old
        ++ line_text (codes "summary" ∷ (spelling.body_text style.now body ∷ []))) }
{
    printer.word(b"summary")?;
    put_body(printer, style, body)?;
    printer.end()
}

/// Puts the lines of loops.
pub(crate) fn put_loops(
    printer: &mut Printer,
    style: &Style,
    loops: &[Loop],
) -> Result<(), NoMemory>
    ensures { OnOk result (printer.new ≡ printer.old
        ++ text_of (spelling.each_lines (spelling.loop_lines style.now) loops.now)) }
{
    for one in loops {
        put_loop(printer, style, one)?;
    }
    Ok(())
}

/// Puts the lines of a loop.
fn put_loop(printer: &mut Printer, style: &Style, one: &Loop) -> Result<(), NoMemory>
    ensures { OnOk result (printer.new ≡ printer.old ++ text_of (spelling.loop_lines style.now one.now)) }
{
    put_loop_word(printer, style, one)?;
    put_head(
        printer,
        &style.names,
        one.entry,
        one.whole,
        one.writes.as_slice(),
    )?;
    put_pieces(printer, b"case", &style.names, one.cases.as_slice())?;
    put_pieces(printer, b"exit", &style.names, one.exits.as_slice())?;
    put_hints(printer, one.hints.as_slice())
}

/// Puts the first line of a loop.
fn put_loop_word(printer: &mut Printer, style: &Style, one: &Loop) -> Result<(), NoMemory>
    ensures { OnOk result (printer.new ≡ printer.old
        ++ line_text (codes "loop" ∷ (spelling.body_text style.now one.now.test ∷ (spelling.body_text style.now one.now.body ∷ [])))) }
{
    printer.word(b"loop")?;
    put_body(printer, style, one.test)?;
    put_body(printer, style, one.body)?;
    printer.end()
}

/// Puts the lines of commands.
pub(crate) fn put_commands(
    printer: &mut Printer,
    style: &Style,
    commands: &[CommandPart],
) -> Result<(), NoMemory>
    ensures { OnOk result (printer.new ≡ printer.old
        ++ text_of (spelling.each_lines (spelling.command_lines style.now) commands.now)) }
{
    for command in commands {
        put_command(printer, style, command)?;
    }
    Ok(())
}

/// Puts the lines of a command.
fn put_command(printer: &mut Printer, style: &Style, command: &CommandPart) -> Result<(), NoMemory>
    ensures { OnOk result (printer.new ≡ printer.old ++ text_of (spelling.command_lines style.now command.now)) }
{
    put_number(printer, b"command", command.index)?;
    put_maybe(printer, b"after", &style.names, command.after.as_ref())?;
    put_maybe(printer, b"visit", &style.names, command.visit.as_ref())?;
    put_maybe(printer, b"keeps", &style.names, command.keeps.as_ref())?;
    put_hints(printer, command.hints.as_slice())
}

/// Puts the lines of a unit between its first line and its pieces.
fn put_head(
    printer: &mut Printer,
    names: &Names,
    entry: bool,
    whole: bool,
    writes: &[NameId],
) -> Result<(), NoMemory>
    ensures { OnOk result (printer.new ≡ printer.old ++ text_of (spelling.head_lines names.now entry whole writes.now)) }
{
    put_flag(printer, b"entry", entry)?;
    put_flag(printer, b"whole", whole)?;
    put_writes(printer, names, writes)
}

/// Puts the lines of the variables that a unit may write.
fn put_writes(printer: &mut Printer, names: &Names, writes: &[NameId]) -> Result<(), NoMemory>
    ensures { OnOk result (printer.new ≡ printer.old ++ text_of (map (spelling.writes_items names.now) writes.now)) }
{
    for id in writes {
        put_name(printer, b"writes", names, *id)?;
    }
    Ok(())
}

/// Puts a line of one word, where it stands.
fn put_flag(printer: &mut Printer, word: &[u8], stands: bool) -> Result<(), NoMemory>
    ensures { OnOk result (printer.new ≡ printer.old ++ text_of (spelling.word_lines word.now stands)) }
{
    if stands {
        put_word(printer, word)
    } else {
        Ok(())
    }
}

/// Puts pieces, each behind a word.
fn put_pieces(
    printer: &mut Printer,
    word: &[u8],
    names: &Names,
    pieces: &[Piece],
) -> Result<(), NoMemory>
    ensures { OnOk result (printer.new ≡ printer.old ++ text_of (spelling.all_marked word.now names.now pieces.now)) }
{
    for piece in pieces {
        put_marked(printer, word, names, piece)?;
    }
    Ok(())
}

/// Puts a piece that may be missing.
fn put_maybe(
    printer: &mut Printer,
    word: &[u8],
    names: &Names,
    piece: Option<&Piece>,
) -> Result<(), NoMemory>
    ensures { OnOk result (printer.new ≡ printer.old
        ++ text_of (spelling.maybe_marked word.now names.now (option_copied piece.entry))) }
{
    match piece {
        Some(piece) => put_marked(printer, word, names, piece),
        None => Ok(()),
    }
}

/// Puts a piece behind a word.
fn put_marked(
    printer: &mut Printer,
    word: &[u8],
    names: &Names,
    piece: &Piece,
) -> Result<(), NoMemory>
    ensures { OnOk result (printer.new ≡ printer.old ++ text_of (spelling.marked_lines word.now names.now piece.now)) }
{
    put_word(printer, word)?;
    put_piece(printer, names, piece)
}

/// Puts a body as a further item.
fn put_body(printer: &mut Printer, style: &Style, body: Target) -> Result<(), NoMemory>
    ensures { OnOk result (printer.new ≡ printer.old ++ 32 ∷ spelling.body_text style.now body) }
{
    match body {
        Target::Named(id) => printer.name(&style.names, id),
        Target::Block(body) => printer.joined(b"#", block_number(style.bodies.as_slice(), body)),
    }
}

/// The number of a block.
fn block_number(bodies: &[Body], id: BodyId) -> u32
    ensures { result ≡ spelling.block_number (block_of id bodies.now) }
{
    match bodies.get(id.0 as usize) {
        Some(body) => body.block.unwrap_or(0),
        None => 0,
    }
}
