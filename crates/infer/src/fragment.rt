//! The kind fragment (docs/ANALYSER.md, "The kind fragment").

ghost use Rattle.std.specs.Prelude.{◌≡◌};
ghost use Rattle.std.specs.List.{list_any};
ghost use Rattle.infer.specs.Fragment as rule;

use bst_meaning::style_parts::kind_of;
use name_table::builtin::Builtin;
use name_table::names::Kind;
use name_table::style::{Body, Command, Style, Token};

/// Which built-in functions are looked for in a style.
#[derive(Clone, Copy)]
pub(crate) enum Sought {
    /// Those of which no style of the fragment has one.
    Beyond,
    /// `while$`.
    While,
}

/// Whether no function beyond the fragment stands in a body of a style, entered or not, or in a command.
pub(crate) fn is_of_fragment(style: &Style) -> bool
    ensures { result ≡ rule.is_of_fragment style.now }
{
    !is_in_style(Sought::Beyond, style)
}

/// Whether `while$` stands in a body of a style, entered or not, or in a command.
pub(crate) fn has_while(style: &Style) -> bool
    ensures { result ≡ rule.has_while style.now }
{
    is_in_style(Sought::While, style)
}

/// Whether one of some functions stands in a body of a style, entered or not, or in a command.
fn is_in_style(sought: Sought, style: &Style) -> bool
    ensures { result ≡ rule.is_in_style sought style.now }
{
    is_in_bodies(sought, style) || is_in_commands(sought, style)
}

/// Whether one stands in a body of a style.
fn is_in_bodies(sought: Sought, style: &Style) -> bool
    ensures { result ≡ list_any (λ body. list_any (λ at. rule.is_in_token sought style.now at.token) body.tokens) style.now.bodies }
{
    style
        .bodies
        .as_slice()
        .iter()
        .any(|body| is_in_body(sought, style, body))
}

/// Whether a command of a style calls one.
fn is_in_commands(sought: Sought, style: &Style) -> bool
    ensures { result ≡ list_any (λ at. rule.is_in_command sought style.now at.command) style.now.commands }
{
    style
        .commands
        .as_slice()
        .iter()
        .any(|at| is_in_command(sought, style, at.command))
}

/// Whether one stands in a body.
fn is_in_body(sought: Sought, style: &Style, body: &Body) -> bool
    ensures { result ≡ list_any (λ at. rule.is_in_token sought style.now at.token) body.now.tokens }
{
    body.tokens
        .as_slice()
        .iter()
        .any(|at| is_in_token(sought, style, at.token))
}

/// Whether a token calls or quotes one.
fn is_in_token(sought: Sought, style: &Style, token: Token) -> bool
    ensures { result ≡ rule.is_in_token sought style.now token }
{
    match token {
        Token::Call(name) | Token::Quote(name) => stands_for(sought, kind_of(style, name)),
        _ => false,
    }
}

/// Whether a command calls one.
fn is_in_command(sought: Sought, style: &Style, command: Command) -> bool
    ensures { result ≡ rule.is_in_command sought style.now command }
{
    match command {
        Command::Execute(name) | Command::Iterate(name) | Command::Reverse(name) => {
            stands_for(sought, kind_of(style, name))
        }
        _ => false,
    }
}

/// Whether a name that stands for this stands for one.
fn stands_for(sought: Sought, kind: Option<Kind>) -> bool
    ensures { result ≡ rule.stands_for sought kind }
{
    match kind {
        Some(Kind::Builtin(op)) => is_sought(sought, op),
        _ => false,
    }
}

/// Whether a built-in function is one of them.
fn is_sought(sought: Sought, op: Builtin) -> bool
    ensures { result ≡ rule.is_sought sought op }
{
    match sought {
        Sought::Beyond => is_beyond(op),
        Sought::While => matches!(op, Builtin::WhileDo),
    }
}

/// Whether a built-in function is one of which no style of the fragment has one.
fn is_beyond(op: Builtin) -> bool
    ensures { result ≡ rule.is_beyond op }
{
    matches!(
        op,
        Builtin::Plus
            | Builtin::Minus
            | Builtin::ChangeCase
            | Builtin::ChrToInt
            | Builtin::FormatName
            | Builtin::IntToChr
            | Builtin::NumNames
            | Builtin::TextLength
            | Builtin::WhileDo
            | Builtin::Width
    )
}
