//! Whether a record fits its command (docs/CHECKER.md, "Commands").

ghost use Rattle.std.specs.Prelude.{◌≡◌, option_map};
ghost use Rattle.std.specs.List.{list_all};
ghost use Rattle.command_flow.specs.Commands as rule;

use bst_meaning::style_parts::kind_of;
use cert_format::cert::CommandPart;
use name_table::names::{Kind, NameId};
use name_table::style::{Command, Style};
use sym_state::piece::Piece;
use sym_state::symbol::Bind;

/// Whether the pieces of a record fit its command: EXECUTE has what holds after it, ITERATE and REVERSE what holds before
/// each visit and what a visit keeps, and another command has no record.
pub(crate) fn is_shaped(style: &Style, command: Command, part: &CommandPart) -> bool
    ensures { result ≡ rule.is_shaped style.now command part.now }
{
    match command {
        Command::Execute(_) => {
            part.visit.is_none()
                && part.keeps.is_none()
                && is_about(style, true, part.after.as_ref())
        }
        Command::Iterate(_) | Command::Reverse(_) => {
            part.after.is_none()
                && is_about(style, true, part.visit.as_ref())
                && is_about(style, false, part.keeps.as_ref())
        }
        _ => false,
    }
}

/// Whether a piece is about global variables alone, or about an entry alone; one that isn't there is.
fn is_about(style: &Style, globals: bool, piece: Option<&Piece>) -> bool
    ensures { result ≡ rule.is_about_some style.now (rule.belongs globals) (option_map (λ p. p.now) piece.entry) }
{
    match piece {
        Some(piece) => is_on(style, globals, piece),
        None => true,
    }
}

/// Whether a piece has no stack, and is about such names alone.
fn is_on(style: &Style, globals: bool, piece: &Piece) -> bool
    ensures { result ≡ rule.is_about style.now (rule.belongs globals) piece.now }
{
    piece.stack.as_slice().is_empty()
        && (all_belong(style, globals, piece.vars.as_slice())
            && all_belong(style, globals, piece.fields.as_slice()))
}

/// Whether the names of bindings are such.
fn all_belong(style: &Style, globals: bool, binds: &[Bind]) -> bool
    ensures { result ≡ list_all (λ bind. rule.is_of_kind style.now (rule.belongs globals) bind.name) binds.now }
{
    binds.iter().all(|bind| belongs(style, globals, bind.name))
}

/// Whether a name is that of a global variable, or of what an entry has.
fn belongs(style: &Style, globals: bool, name: NameId) -> bool
    ensures { result ≡ rule.is_of_kind style.now (rule.belongs globals) name }
{
    match kind_of(style, name) {
        Some(Kind::IntGlobal | Kind::StrGlobal) => globals,
        Some(Kind::Field | Kind::IntEntry | Kind::StrEntry) => !globals,
        _ => false,
    }
}
