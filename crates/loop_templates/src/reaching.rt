//! What is reachable from bodies, and which names occur there (docs/ANALYSER.md, "Loops").

ghost use Rattle.std.specs.Prelude.{◌≡◌, flat_map, fold, length, true, IfOk};
ghost use Rattle.bst_meaning.specs.StyleParts.{kind_of};
ghost use Rattle.loop_templates.specs.Reaching as rule;

use bst_meaning::style_parts::kind_of;
use bv_base::memory::NoMemory;
use name_table::builtin::Builtin;
use name_table::names::{Kind, NameId};
use name_table::style::{BodyId, Style, Token, TokenAt};
use std::alloc::Global;
use std::marker::Model;

/// Which names occur in the bodies that are reached, and which of them are quoted there, by their ids.
#[derive(Drop)]
pub struct Occurrences {
    pub named: Vec<bool>,
    pub quoted: Vec<bool>,
}

impl Model for Occurrences {
    ghost use Rattle.loop_templates.specs.Reaching as rule;

    ghost Value = { rule.Occurring };

    ghost view = { λ o. record { named = o.named.items; quoted = o.quoted.items } };
}

/// Which names occur in the bodies that are reachable from some, where these are the functions that `call.type$` enters.
/// It takes as many passes over the bodies as calls are nested, and one more.
pub fn occurring(
    alloc: Global,
    style: &Style,
    types: &[NameId],
    roots: &[BodyId],
) -> Result<Occurrences, NoMemory>
    ensures { IfOk result (λ found. found ≡ rule.occurring style.now types.now roots.now) }
{
    let reach = reached(alloc, style, types, roots)?;
    let mut found = Occurrences {
        named: vec![in alloc; false; style.names.len() as usize]?,
        quoted: vec![in alloc; false; style.names.len() as usize]?,
    };
    mark_names(&mut found, style, reach.as_slice());
    Ok(found)
}

/// Which names occur in any body, and which of them are quoted.
pub fn occurring_anywhere(alloc: Global, style: &Style) -> Result<Occurrences, NoMemory>
    ensures { IfOk result (λ found. found ≡ rule.occurring_anywhere style.now) }
{
    let all = vec![in alloc; true; style.bodies.as_slice().len()]?;
    let mut found = Occurrences {
        named: vec![in alloc; false; style.names.len() as usize]?,
        quoted: vec![in alloc; false; style.names.len() as usize]?,
    };
    mark_names(&mut found, style, all.as_slice());
    Ok(found)
}

/// The marks of the bodies that are reachable from some.
fn reached(
    alloc: Global,
    style: &Style,
    types: &[NameId],
    roots: &[BodyId],
) -> Result<Vec<bool>, NoMemory>
    ensures { IfOk result (λ marks. marks.items ≡ rule.reached style.now types.now roots.now) }
{
    let mut marks = vec![in alloc; false; style.bodies.as_slice().len()]?;
    mark_bodies(&mut marks, roots);
    further(alloc, style, types, marks)
}

/// Marks a number, where it is one of a mark.
fn mark(marks: &mut Vec<bool>, at: u32)
    ensures { marks.new.items ≡ rule.with_mark marks.old.items at }
{
    if (at as usize) < marks.len() {
        marks[at as usize] = true;
    }
}

/// Whether a number is marked.
pub fn is_marked(marks: &[bool], at: usize) -> bool
    ensures { result ≡ rule.is_marked marks.now at }
{
    match marks.get(at) {
        Some(mark) => *mark,
        None => false,
    }
}

/// Marks bodies.
fn mark_bodies(marks: &mut Vec<bool>, bodies: &[BodyId])
    ensures { marks.new.items ≡ rule.with_bodies bodies.now marks.old.items }
{
    for body in bodies {
        mark(marks, body.0);
    }
}

/// The marks behind as many steps as there are bodies. It ends where a step marks nothing more.
fn further(
    alloc: Global,
    style: &Style,
    types: &[NameId],
    from: Vec<bool>,
) -> Result<Vec<bool>, NoMemory>
    ensures { IfOk result (λ marks. marks.items ≡ rule.further style.now types.now (length style.now.bodies) from.items) }
{
    let mut marks = from;
    for _ in 0..style.bodies.as_slice().len() {
        let before = marks.as_slice().to_vec(alloc)?;
        mark_further(&mut marks, style, types);
        if same_marks(before.as_slice(), marks.as_slice()) {
            return Ok(marks);
        }
    }
    Ok(marks)
}

/// Whether the same numbers are marked.
fn same_marks(some: &[bool], others: &[bool]) -> bool
    ensures { result ≡ true → some.now ≡ others.now }
{
    some == others
}

/// Marks the bodies behind each body that is marked, in their order.
fn mark_further(marks: &mut Vec<bool>, style: &Style, types: &[NameId])
    ensures { marks.new.items ≡ rule.one_further style.now types.now 0 style.now.bodies marks.old.items }
{
    for (k, body) in style.bodies.as_slice().iter().enumerate() {
        if is_marked(marks.as_slice(), k) {
            mark_behind(marks, style, types, body.tokens.as_slice());
        }
    }
}

/// Marks the bodies behind tokens.
fn mark_behind(marks: &mut Vec<bool>, style: &Style, types: &[NameId], tokens: &[TokenAt])
    ensures { marks.new.items ≡ rule.with_behind style.now types.now tokens.now marks.old.items }
{
    for at in tokens {
        mark_behind_token(marks, style, types, at.token);
    }
}

/// Marks the bodies behind a token.
fn mark_behind_token(marks: &mut Vec<bool>, style: &Style, types: &[NameId], token: Token)
    ensures { marks.new.items ≡ rule.with_bodies (rule.bodies_behind style.now types.now token) marks.old.items }
{
    match token {
        Token::Int(_) | Token::Str(_) => {}
        Token::Quote(name) | Token::Call(name) => {
            mark_entered(marks, style, types, kind_of(style, name))
        }
        Token::Block(body) => mark(marks, body.0),
    }
}

/// Marks the bodies that a name of a kind enters.
fn mark_entered(marks: &mut Vec<bool>, style: &Style, types: &[NameId], kind: Option<Kind>)
    ensures { marks.new.items ≡ rule.with_bodies (rule.bodies_entered style.now types.now kind) marks.old.items }
{
    match kind {
        Some(Kind::Builtin(Builtin::CallType)) => mark_types(marks, style, types),
        kind => mark_own(marks, kind),
    }
}

/// Marks the bodies of functions.
fn mark_types(marks: &mut Vec<bool>, style: &Style, types: &[NameId])
    ensures { marks.new.items
        ≡ rule.with_bodies (flat_map (λ name. rule.own_body (kind_of style.now name)) types.now) marks.old.items }
{
    for name in types {
        mark_own(marks, kind_of(style, *name));
    }
}

/// Marks the body of a function that the style defines.
fn mark_own(marks: &mut Vec<bool>, kind: Option<Kind>)
    ensures { marks.new.items ≡ rule.with_bodies (rule.own_body kind) marks.old.items }
{
    if let Some(Kind::Wizard(body)) = kind {
        mark(marks, body.0);
    }
}

/// Marks the names of the bodies that are reached.
fn mark_names(found: &mut Occurrences, style: &Style, reach: &[bool])
    ensures named { found.new.named ≡ rule.names_from rule.named_in reach.now 0 style.now.bodies found.old.named }
    ensures quoted { found.new.quoted ≡ rule.names_from rule.quoted_in reach.now 0 style.now.bodies found.old.quoted }
{
    for (k, body) in style.bodies.as_slice().iter().enumerate() {
        if is_marked(reach, k) {
            mark_named(found, body.tokens.as_slice());
        }
    }
}

/// Marks the names of tokens.
fn mark_named(found: &mut Occurrences, tokens: &[TokenAt])
    ensures named { found.new.named ≡ rule.with_names rule.named_in tokens.now found.old.named }
    ensures quoted { found.new.quoted ≡ rule.with_names rule.quoted_in tokens.now found.old.quoted }
{
    for at in tokens {
        mark_named_in(found, at.token);
    }
}

/// Marks the name of a token.
fn mark_named_in(found: &mut Occurrences, token: Token)
    ensures named { found.new.named ≡ fold (λ n name. rule.with_mark n name.0) found.old.named (rule.named_in token) }
    ensures quoted { found.new.quoted ≡ fold (λ n name. rule.with_mark n name.0) found.old.quoted (rule.quoted_in token) }
{
    match token {
        Token::Quote(name) => {
            mark(&mut found.named, name.0);
            mark(&mut found.quoted, name.0);
        }
        Token::Call(name) => mark(&mut found.named, name.0),
        _ => {}
    }
}
