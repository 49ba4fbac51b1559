//! Literals of tokens.

ghost use Rattle.std.specs.Prelude.{◌≡◌, ◌<◌, IfOk};
ghost use Rattle.bst_meaning.specs.StyleParts as parts;
ghost use Rattle.sym_state.specs.declared.symbol.Fact.TheVariants as fact;
ghost use Rattle.cert_check.specs.Walks as rule;

use bst_meaning::style_parts::text_of;
use bv_base::memory::NoMemory;
use bv_base::text::Text;
use name_table::style::{BodyId, Style, TextId, Token};
use std::alloc::Global;
use sym_state::state::State;
use sym_state::symbol::{Fact, Kinds, Sym};

/// The state after a literal of a token. A name is none.
pub(crate) fn literal_state(style: &Style, token: Token, state: State) -> Result<State, NoMemory>
    requires { state.next < 4294967295 }
    ensures { IfOk result (λ after. after ≡ rule.literal_state style.now token state) }
{
    let sym = Sym(state.next());
    match token {
        Token::Int(n) => literal(state, Kinds::Int, Fact::Int(sym, n)),
        Token::Str(text) => {
            let text = text_fact(state.alloc(), style, sym, text)?;
            literal(state, Kinds::Str, text)
        }
        Token::Quote(name) => literal(state, Kinds::Func, Fact::Call(sym, name)),
        Token::Block(body) => {
            literal(state, Kinds::Func, Fact::Block(sym, number_of(style, body)))
        }
        Token::Call(_) => Ok(state),
    }
}

/// A literal is a new symbol on top, with the fact that says its value.
fn literal(mut state: State, kind: Kinds, said: Fact) -> Result<State, NoMemory>
    requires { state.next < 4294967295 }
    ensures { IfOk result (λ after. after ≡ rule.literal kind said state) }
{
    let sym = state.fresh(kind)?;
    state.add_fact(said)?;
    state.push(sym)?;
    Ok(state)
}

/// The fact that a symbol is a text of the style.
fn text_fact(alloc: Global, style: &Style, sym: Sym, text: TextId) -> Result<Fact, NoMemory>
    ensures { IfOk result (λ said. said ≡ fact.Text sym (parts.text_of style.now text)) }
{
    Ok(Fact::Text(sym, Text::from_slice(alloc, text_of(style, text))?))
}

/// The number of a body that is a block.
fn number_of(style: &Style, body: BodyId) -> u32
    ensures { result ≡ rule.number_of style.now body }
{
    match style.bodies.as_slice().get(body.0 as usize) {
        Some(body) => match body.block {
            Some(number) => number,
            None => 0,
        },
        None => 0,
    }
}
