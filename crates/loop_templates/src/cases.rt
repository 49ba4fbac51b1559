//! Cases of a list of states (docs/ANALYSER.md, "Loops").

ghost use Rattle.std.specs.Prelude.{◌≡◌, ◌+◌, ◌<◌, [], ◌++◌, length, map, option_map, IfOk};
ghost use Rattle.std.specs.List.{All, range_with_len};
ghost use Rattle.name_table.specs.Sound.{IsSound};
ghost use Rattle.sym_state.specs.Starting.{IsFit, IsNumbered, symbols_of};
ghost use Rattle.loop_templates.specs.Subjects.{HasBounds, WellMade, ids_from};
ghost use Rattle.loop_templates.specs.Bound.{is_bound_field};
ghost use Rattle.loop_templates.specs.Cases as rule;
ghost use Rattle.loop_templates.specs.Skeletons.{IsBoneOf};
ghost use Rattle.loop_templates.specs.Sums.{IsSmallSum};

use crate::facts::{push_common, push_further, push_skeleton};
use crate::in_order::kept_facts;
use crate::limits::MOST_SYMBOLS;
use crate::names::{fields, variables};
use crate::places::places_behind;
use crate::rows::rows_over;
use crate::skeletons::{Bone, skeleton, states_of};
use bst_meaning::condition::Cond;
use bv_base::memory::NoMemory;
use bv_base::seq::Seq;
use lin_facts::row::Part;
use name_table::names::NameId;
use name_table::style::Style;
use std::alloc::Global;
use std::marker::Model;
use sym_state::piece::Piece;
use sym_state::start::add_own_facts;
use sym_state::state::State;
use sym_state::symbol::{Bind, Fact, Sym};

/// Which names a case binds: the global variables, and the variables and fields of an entry.
#[derive(Clone, Copy)]
pub struct Bound {
    pub globals: bool,
    pub entry: bool,
}

/// What cases have in common. Contracts see the record of `specs/Cases.antt`.
#[derive(Drop)]
pub struct Frame<'a> {
    pub style: &'a Style,
    /// The condition.
    pub admits: &'a Cond,
    /// Whether the stacks of the cases are the whole stack.
    pub whole: bool,
    /// Whether an entry is visited.
    pub at_entry: bool,
    /// Whether rows may have `pos`.
    pub has_pos: bool,
    /// The names that cases bind.
    pub bound: Bound,
    /// The variables that count as written.
    pub writes: &'a [NameId],
    /// The sums whose floors are rows.
    pub sums: &'a [Seq<Part>],
    /// The states that enter.
    pub entering: &'a [State],
}

impl<'a> Model for Frame<'a> {
    ghost use Rattle.loop_templates.specs.Cases as cases;

    ghost Value = { cases.Frame };

    ghost view = { λ f. record {
      style = f.style.now;
      admits = f.admits.now;
      whole = f.whole;
      at_entry = f.at_entry;
      has_pos = f.has_pos;
      bound = f.bound;
      writes = f.writes.now;
      sums = f.sums.now;
      entering = f.entering.now;
    } };
}

/// The case of a state that enters, made from that state alone.
#[tactic(auto, using(crate::proofs::Cased::alone_bounded))]
pub(crate) fn entering_case(
    alloc: Global,
    frame: &Frame<'_>,
    state: &State,
) -> Result<Piece, NoMemory>
    requires frame { rule.IsFrame frame.now }
    requires state { WellMade frame.now.style state.now }
    ensures { IfOk result (λ piece. piece ≡ rule.entering_case frame.now state.now) }
{
    let bones = skeleton(alloc, state)?;
    let alone = [state];
    let piece = bare_case(alloc, frame, bones.as_slice(), &alone, Some(state))?;
    with_rows(alloc, frame, &alone, piece)
}

/// The case of those of some states that have a skeleton.
#[tactic(auto, using(crate::proofs::Cased::later_stands))]
pub(crate) fn case_of(
    alloc: Global,
    frame: &Frame<'_>,
    states: &[State],
    bones: &[Bone],
) -> Result<Piece, NoMemory>
    requires frame { rule.IsFrame frame.now }
    requires states { All (WellMade frame.now.style) states.now }
    requires bones { All (IsBoneOf frame.now.style) bones.now }
    ensures { IfOk result (λ piece. piece ≡ rule.case_of frame.now states.now bones.now) }
{
    let common = each(alloc, frame.entering)?;
    let piece = bare_case(alloc, frame, bones, common.as_slice(), None)?;
    let those = states_of(alloc, bones, states)?;
    with_rows(alloc, frame, those.as_slice(), piece)
}

/// Some states, each behind a reference.
pub(crate) fn each<'a>(alloc: Global, states: &'a [State]) -> Result<Vec<&'a State>, NoMemory>
    ensures { IfOk result (λ all. map (λ state. state.now) all.items ≡ states.now) }
{
    let mut all = Vec::new(alloc);
    for state in states {
        all.push(state)?;
    }
    Ok(all)
}

/// A case with the rows of a list of states.
pub(crate) fn with_rows(
    alloc: Global,
    frame: &Frame<'_>,
    states: &[&State],
    piece: Piece,
) -> Result<Piece, NoMemory>
    requires sums { All IsSmallSum frame.now.sums }
    requires states { All HasBounds (map (λ state. state.now) states.now) }
    requires numbered { IsNumbered piece }
    requires fit { IsFit frame.now.style piece }
    requires few { symbols_of piece + length frame.now.style.names < 4294967296 }
    ensures { IfOk result (λ after. after ≡ rule.with_rows frame.now (map (λ state. state.now) states.now) piece) }
{
    let rows = rows_over(
        alloc,
        frame.style,
        frame.admits,
        frame.whole,
        frame.at_entry,
        frame.sums,
        states,
        &piece,
    )?;
    let mut piece = piece;
    piece.rows = Seq::from_vec(rows);
    Ok(piece)
}

/// A case without rows, which may start a state. A stack that can't be numbered is want of memory.
#[tactic(auto, using(crate::proofs::Cased::has_few, crate::proofs::Cased::is_fit, crate::proofs::Cased::is_numbered))]
pub(crate) fn bare_case(
    alloc: Global,
    frame: &Frame<'_>,
    bones: &[Bone],
    common: &[&State],
    further: Option<&State>,
) -> Result<Piece, NoMemory>
    requires sound { IsSound frame.now.style }
    requires can { rule.CanStand frame.now bones.now (map (λ state. state.now) common.now) (option_map (λ state. state.now) further) }
    ensures piece { IfOk result (λ piece. piece
        ≡ rule.bare_case frame.now bones.now (map (λ state. state.now) common.now) (option_map (λ state. state.now) further.entry)) }
    ensures numbered { IfOk result IsNumbered }
    ensures fit { IfOk result (IsFit frame.now.style) }
    ensures few { IfOk result (λ piece. symbols_of piece + length frame.now.style.names < 4294967296) }
{
    if bones.len() < MOST_SYMBOLS {
        short_case(alloc, frame, common, further, bones)
    } else {
        Err(NoMemory)
    }
}

/// The same, where its stack can be numbered.
#[tactic(auto, using(crate::proofs::Cased::named_of))]
fn short_case(
    alloc: Global,
    frame: &Frame<'_>,
    common: &[&State],
    further: Option<&State>,
    bones: &[Bone],
) -> Result<Piece, NoMemory>
    requires sound { IsSound frame.now.style }
    requires short { length bones.now < MOST_SYMBOLS }
    ensures { IfOk result (λ piece. piece
        ≡ rule.bare_case frame.now bones.now (map (λ state. state.now) common.now) (option_map (λ state. state.now) further.entry)) }
{
    let names = variables(alloc, frame.style, frame.bound)?;
    let places = places_for(alloc, frame, bones.len() as u32, names.as_slice())?;
    let facts = facts_for(alloc, frame, bones, places.as_slice(), common, further)?;
    piece_of(
        alloc,
        bones.len() as u32,
        names.len(),
        places.as_slice(),
        facts,
    )
}

/// The places of a case behind a stack of this length, shared as in the first state that enters.
fn places_for(
    alloc: Global,
    frame: &Frame<'_>,
    n: u32,
    variables: &[NameId],
) -> Result<Vec<Bind>, NoMemory>
    requires sound { IsSound frame.now.style }
    requires few { n < MOST_SYMBOLS }
    requires names { variables.now ≡ rule.variables_of frame.now }
    ensures { IfOk result (λ places. places.items ≡ rule.places_for frame.now n) }
{
    match frame.entering {
        [] => Ok(Vec::new(alloc)),
        [first, ..] => {
            let names = names_of(alloc, frame.style, frame.bound, variables)?;
            places_behind(alloc, frame.writes, n, first, names.as_slice())
        }
    }
}

/// The variables of a case and behind them its fields.
fn names_of(
    alloc: Global,
    style: &Style,
    bound: Bound,
    variables: &[NameId],
) -> Result<Vec<NameId>, NoMemory>
    ensures { IfOk result (λ names. names.items ≡ variables.now ++ ids_from (is_bound_field bound) 0 style.now.names) }
{
    let mut names = variables.to_vec(alloc)?;
    let fields = fields(alloc, style, bound)?;
    names.extend_from_slice(fields.as_slice())?;
    Ok(names)
}

/// The facts of a case with this skeleton and these places.
fn facts_for(
    alloc: Global,
    frame: &Frame<'_>,
    bones: &[Bone],
    places: &[Bind],
    common: &[&State],
    further: Option<&State>,
) -> Result<Vec<Fact>, NoMemory>
    requires few { length bones.now < MOST_SYMBOLS }
    requires named { All (λ place. place.name.0 < length frame.now.style.names) places.now }
    ensures { IfOk result (λ facts. facts.items ≡ rule.facts_for frame.now bones.now places.now
        (map (λ state. state.now) common.now) (option_map (λ state. state.now) further.entry)) }
{
    let mut given = Vec::new(alloc);
    add_own_facts(&mut given, frame.style, frame.admits, places)?;
    let mut facts = Vec::new(alloc);
    push_skeleton(&mut facts, bones)?;
    push_further(alloc, &mut facts, frame.writes, places, further)?;
    push_common(alloc, &mut facts, frame.writes, places, common)?;
    kept_facts(alloc, given.as_slice(), facts)
}

/// A piece with these symbols on its stack and these places, the first of them those of variables.
#[tactic(auto, using(crate::proofs::OneByOne::front_min, crate::proofs::OneByOne::back_min))]
fn piece_of(
    alloc: Global,
    n: u32,
    vars: usize,
    places: &[Bind],
    facts: Vec<Fact>,
) -> Result<Piece, NoMemory>
    ensures { IfOk result (λ piece. piece ≡ rule.piece_of n vars places.now facts.items) }
{
    let (front, back) = places.split_at(vars.min(places.len()));
    Ok(Piece {
        stack: Seq::from_vec(numbers(alloc, n)?),
        vars: Seq::from_vec(front.to_vec(alloc)?),
        fields: Seq::from_vec(back.to_vec(alloc)?),
        facts: Seq::from_vec(facts),
        rows: Seq::new(alloc),
    })
}

/// So many symbols, numbered from 0.
fn numbers(alloc: Global, n: u32) -> Result<Vec<Sym>, NoMemory>
    ensures { IfOk result (λ stack. stack.items ≡ map rule.numbered (range_with_len 0 n)) }
{
    let mut stack = Vec::new(alloc);
    for k in 0..n {
        stack.push(Sym(k))?;
    }
    Ok(stack)
}
