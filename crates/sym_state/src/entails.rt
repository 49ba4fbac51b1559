//! Whether a state entails a piece (docs/STATES.md, "Entailment").

ghost use Rattle.std.specs.Prelude.{◌≡◌, ◌+◌, ◌<◌, ◌≤◌, ◌^◌, ◌++◌, None, List, length, option_map, IfOk, IfSome};
ghost use Rattle.std.specs.List.{All, list_all};
ghost use Rattle.bst_meaning.specs.Config.{Config};
ghost use Rattle.bst_meaning.specs.EntryLists.{EntryList};
ghost use Rattle.bst_meaning.specs.declared.value.Value.{Value};
ghost use Rattle.name_table.specs.declared.style.Style.{Style};
ghost use Rattle.sym_state.specs.Entailing as rule;
ghost use Rattle.sym_state.specs.Matches.{matched_by};
ghost use Rattle.sym_state.specs.Renaming.{through};
ghost use Rattle.sym_state.specs.Stands.{Stands, PieceHolds, values_of};
ghost use Rattle.sym_state.specs.Symbols.{Valuation};
ghost use Rattle.sym_state.specs.WellMade.{HasBounds, IsBounded};

use crate::bindings::Bindings;
use crate::facts::subject;
use crate::matching::Matching;
use crate::piece::Piece;
use crate::proof::Proof;
use crate::shows::shows;
use crate::state::State;
use crate::symbol::{Bind, Fact, Sym};
use bst_meaning::condition::Cond;
use bv_base::memory::NoMemory;
use lin_facts::row::Row;
use std::alloc::Global;

/// `None` exactly where the state entails the piece, with one proof for each of its rows; else the number of the first
/// line that fails, from 1, and 0 where the state knows fewer symbols on the stack than the piece has. The piece's
/// symbols below `kept` are the state's own. Where it is entailed, the piece holds wherever the state stands.
pub fn entails(
    alloc: Global,
    state: &State,
    cond: &Cond,
    piece: &Piece,
    kept: u32,
    proofs: &[Proof],
) -> Result<Option<u32>, NoMemory>
    requires state { HasBounds state.now }
    requires rows { All IsBounded piece.now.rows }
    requires proofs { All (λ proof. length proof.uses ≤ 64) proofs.now }
    requires lines { rule.line_count piece.now ≤ 2147483648 }
    ensures line { IfOk result (λ line. line ≡ rule.first_unentailed state.now cond.now piece.now kept proofs.now) }
    ensures sound { IfOk result (λ line. line ≡ None → (style : Style) (list : EntryList) (v : Valuation) (c : Config) (below : List Value)
        → Stands style cond.now list v state.now c below
        → PieceHolds style (through (rule.match_of state.now piece.now kept) v) piece.now c (values_of v (rule.under state.now piece.now) ++ below)) }
{
    if state.stack().len() < piece.stack.as_slice().len() {
        return Ok(Some(0));
    }
    let matching = Matching::new(alloc, state, piece, kept)?;
    first_line_failing(alloc, state, cond, piece, &matching, proofs)
}

/// The first line of a piece that fails under a match.
fn first_line_failing(
    alloc: Global,
    state: &State,
    cond: &Cond,
    piece: &Piece,
    matching: &Matching,
    proofs: &[Proof],
) -> Result<Option<u32>, NoMemory>
    requires stack { length piece.now.stack ≤ length state.now.stack }
    requires state { HasBounds state.now }
    requires rows { All IsBounded piece.now.rows }
    requires proofs { All (λ proof. length proof.uses ≤ 64) proofs.now }
    requires lines { rule.line_count piece.now ≤ 2147483648 }
    ensures { IfOk result (λ line. line ≡ rule.first_line_failing (matched_by matching.now) cond.now state.now piece.now proofs.now) }
{
    let line = first_before_rows(state, piece, matching);
    if line.is_some() {
        return Ok(line);
    }
    first_unshown(
        alloc,
        state,
        cond,
        matching,
        first_row_line(piece),
        piece.rows.as_slice(),
        proofs,
    )
}

/// The first line before the rows that fails under a match.
pub(crate) fn first_before_rows(state: &State, piece: &Piece, matching: &Matching) -> Option<u32>
    requires stack { length piece.now.stack ≤ length state.now.stack }
    requires lines { rule.line_count piece.now ≤ 2147483648 }
    ensures { result ≡ rule.first_before_rows (matched_by matching.now) state.now piece.now }
{
    if !stack_agrees(matching, state.stack(), piece.stack.as_slice()) {
        return Some(1);
    }
    let vars = after_stack(piece.stack.as_slice());
    let fields = vars + piece.vars.as_slice().len() as u32;
    let facts = fields + piece.fields.as_slice().len() as u32;
    let line = first_unbound(matching, state.vars(), vars, piece.vars.as_slice());
    if line.is_some() {
        return line;
    }
    let line = first_unbound(matching, state.fields(), fields, piece.fields.as_slice());
    if line.is_some() {
        return line;
    }
    first_unknown(matching, state, facts, piece.facts.as_slice())
}

/// The number of the first row's line.
pub(crate) fn first_row_line(piece: &Piece) -> u32
    requires { rule.line_count piece.now ≤ 2147483648 }
    ensures { result ≡ rule.first_row_line piece.now }
{
    let facts = piece.facts.as_slice().len() as u32;
    let fields = piece.fields.as_slice().len() as u32;
    let vars = piece.vars.as_slice().len() as u32;
    after_stack(piece.stack.as_slice()) + (vars + (fields + facts))
}

/// The number of the line after the one of the stack.
fn after_stack(stack: &[Sym]) -> u32
    ensures line { result ≡ rule.after_stack stack.now }
    ensures small { result ≤ 2 }
{
    match stack {
        [] => 1,
        _ => 2,
    }
}

/// Whether each symbol on the piece's stack is matched to the one that lies there.
fn stack_agrees(matching: &Matching, known: &[Sym], stack: &[Sym]) -> bool
    requires { length stack.now ≤ length known.now }
    ensures { result ≡ list_all (rule.agrees (matched_by matching.now)) (rule.stack_places known.now stack.now) }
{
    let under = known.len() - stack.len();
    for (k, sym) in stack.iter().enumerate() {
        if matching.symbol(*sym).0 != known[under + k].0 {
            return false;
        }
    }
    true
}

/// The first line of a variable or field whose name isn't bound to the matched symbol.
fn first_unbound(matching: &Matching, known: &Bindings, first: u32, binds: &[Bind]) -> Option<u32>
    requires { first + length binds.now < 2 ^ 32 }
    ensures { result ≡ rule.first_failing (rule.bind_agrees (matched_by matching.now) known.now) first binds.now }
{
    let mut line = first;
    for bind in binds {
        if !bind_agrees(matching, known, *bind) {
            return Some(line);
        }
        line += 1;
    }
    None
}

/// Whether a name is bound to the matched symbol.
fn bind_agrees(matching: &Matching, known: &Bindings, bind: Bind) -> bool
    ensures { result ≡ rule.bind_agrees (matched_by matching.now) known.now bind }
{
    match known.symbol(bind.name) {
        Some(there) => matching.symbol(bind.sym).0 == there.0,
        None => false,
    }
}

/// The first line of a fact that isn't known of the matched symbol.
fn first_unknown(matching: &Matching, state: &State, first: u32, facts: &[Fact]) -> Option<u32>
    requires { first + length facts.now < 2 ^ 32 }
    ensures { result ≡ rule.first_failing (rule.fact_follows (matched_by matching.now) state.now.facts) first facts.now }
{
    let mut line = first;
    for fact in facts {
        if !state.is_known(matching.symbol(subject(fact)), fact) {
            return Some(line);
        }
        line += 1;
    }
    None
}

/// The first line of a row that its proof doesn't show with its symbols matched.
fn first_unshown(
    alloc: Global,
    state: &State,
    cond: &Cond,
    matching: &Matching,
    first: u32,
    rows: &[Row],
    proofs: &[Proof],
) -> Result<Option<u32>, NoMemory>
    requires state { HasBounds state.now }
    requires rows { All IsBounded rows.now }
    requires proofs { All (λ proof. length proof.uses ≤ 64) proofs.now }
    requires lines { first + length rows.now < 2 ^ 32 }
    ensures { IfOk result (λ line. line ≡ rule.first_unshown (matched_by matching.now) cond.now state.now first rows.now proofs.now) }
{
    let mut line = first;
    for (k, row) in rows.iter().enumerate() {
        if !row_shown(alloc, state, cond, matching, row, proofs.get(k))? {
            return Ok(Some(line));
        }
        line += 1;
    }
    Ok(None)
}

/// Whether a proof that may not be there shows a row with its symbols matched.
fn row_shown(
    alloc: Global,
    state: &State,
    cond: &Cond,
    matching: &Matching,
    row: &Row,
    proof: Option<&Proof>,
) -> Result<bool, NoMemory>
    requires state { HasBounds state.now }
    requires row { IsBounded row.now }
    requires proof { IfSome proof (λ p. length p.now.uses ≤ 64) }
    ensures { IfOk result (λ shown. shown ≡ rule.row_shown (matched_by matching.now) cond.now state.now row.now (option_map (λ p. p.now) proof.entry)) }
{
    let Some(proof) = proof else {
        return Ok(false);
    };
    let goal = matching.row(alloc, row)?;
    shows(alloc, state, cond, proof, &goal)
}
