//! What is entered.

ghost use Rattle.std.specs.Prelude.{◌≡◌, ◌≤◌, length, option_map};
ghost use Rattle.std.specs.Option.{option_and_then};
ghost use Rattle.bst_meaning.specs.declared.value.Target.TheVariants.{Block as BlockOf};
ghost use Rattle.sym_state.specs.Decided.{exact_function, number_of};
ghost use Rattle.bst_meaning.specs.StyleParts as parts;
ghost use Rattle.cert_check.specs.Walks as rule;

use crate::scope::Scope;
use bst_meaning::style_parts::kind_of;
use bst_meaning::value::Target;
use name_table::names::{Kind, NameId};
use name_table::style::{MOST_BODIES, Style};
use sym_state::state::State;
use sym_state::symbol::Sym;

/// What a symbol exactly is, where that is known: a name, or the block with its number.
pub(crate) fn exact_target(scope: &Scope<'_>, state: &State, sym: Sym) -> Option<Target>
    requires { length scope.now.style.bodies ≤ MOST_BODIES }
    ensures { result ≡ rule.exact_target scope.now.style state.now sym }
{
    match state.exact_name(sym) {
        Some(name) => Some(Target::Named(name)),
        None => exact_block(scope, state, sym),
    }
}

/// The block that a symbol exactly is.
fn exact_block(scope: &Scope<'_>, state: &State, sym: Sym) -> Option<Target>
    requires { length scope.now.style.bodies ≤ MOST_BODIES }
    ensures { result ≡ option_map BlockOf (option_and_then (λ number. rule.block_body number 0 scope.now.style.bodies)
        (option_and_then number_of (exact_function state.now.facts sym.0))) }
{
    match state.exact_block(sym) {
        Some(number) => match scope.block_body(number) {
            Some(body) => Some(Target::Block(body)),
            None => None,
        },
        None => None,
    }
}

/// Whether a name is that of a function of the style.
pub(crate) fn is_function(style: &Style, name: NameId) -> bool
    ensures { result ≡ rule.is_wizard (parts.kind_of style.now name) }
{
    matches!(kind_of(style, name), Some(Kind::Wizard(_)))
}
