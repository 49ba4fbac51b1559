//! The facts of cases (docs/ANALYSER.md, "Loops").

ghost use Rattle.std.specs.Prelude.{◌≡◌, ◌<◌, ◌++◌, ◌∷◌, [], flat_map, length, map, nat_eq, option_map, IfOk, OnOk};
ghost use Rattle.std.specs.List.{filter, list_all};
ghost use Rattle.std.specs.Option.{option_to_list};
ghost use Rattle.sym_state.specs.Changes.{kind_facts};
ghost use Rattle.sym_state.specs.Facts.{subject as subject_of};
ghost use Rattle.loop_templates.specs.Cases as rule;
ghost use Rattle.loop_templates.specs.Rows as rows;

use crate::limits::MOST_SYMBOLS;
use crate::skeletons::{Bone, stack_of};
use bv_base::copied::Copied;
use bv_base::memory::NoMemory;
use name_table::names::NameId;
use std::alloc::Global;
use sym_state::state::State;
use sym_state::subject;
use sym_state::symbol::{Bind, Fact, Kinds, Sym};

/// The number of the symbol that a state binds to a name, and 0 where it binds none.
pub(crate) fn symbol_in(state: &State, name: NameId) -> u32
    ensures { result ≡ rows.symbol_in state.now name.0 }
{
    match state.bound(name) {
        Some(sym) => sym.0,
        None => 0,
    }
}

/// Whether a variable counts as written.
pub(crate) fn is_written(writes: &[NameId], name: NameId) -> bool
    ensures { result ≡ rule.is_written writes.now name }
{
    writes.iter().any(|other| other.0 == name.0)
}

/// The facts that a state records.
#[tactic(auto, using(crate::proofs::OneByOne::one_more))]
pub(crate) fn facts_of<'a>(alloc: Global, state: &'a State) -> Result<Vec<&'a Fact>, NoMemory>
    ensures { IfOk result (λ facts. map (λ fact. fact.now) facts.items ≡ state.now.facts) }
{
    let mut facts = Vec::new(alloc);
    for index in 0..state.facts() {
        push_fact(&mut facts, state.fact(index))?;
    }
    Ok(facts)
}

/// Adds a fact that is there.
fn push_fact<'a>(facts: &mut Vec<&'a Fact>, fact: Option<&'a Fact>) -> Result<(), NoMemory>
    ensures { OnOk result (map (λ fact. fact.now) facts.new.items
        ≡ map (λ fact. fact.now) facts.old.items ++ option_to_list (option_map (λ fact. fact.now) fact.entry)) }
{
    if let Some(fact) = fact {
        facts.push(fact)?;
    }
    Ok(())
}

/// Adds the facts of a skeleton, whose symbols are numbered from 0.
pub(crate) fn push_skeleton(all: &mut Vec<Fact>, bones: &[Bone]) -> Result<(), NoMemory>
    requires { length bones.now < 4294967296 }
    ensures { OnOk result (all.new.items ≡ all.old.items ++ rule.skeleton_facts 0 bones.now) }
{
    for (k, bone) in bones.iter().enumerate() {
        push_bone(all, Sym(k as u32), *bone)?;
    }
    Ok(())
}

/// Adds the facts of a symbol by what a skeleton has of it.
fn push_bone(all: &mut Vec<Fact>, sym: Sym, bone: Bone) -> Result<(), NoMemory>
    ensures { OnOk result (all.new.items ≡ all.old.items ++ rule.bone_facts sym bone) }
{
    push_kind(all, sym, bone.kind)?;
    push_name(all, sym, bone.name)?;
    push_block(all, sym, bone.block)
}

/// Adds the fact of a kind; the kind of every value makes none.
fn push_kind(all: &mut Vec<Fact>, sym: Sym, kind: Kinds) -> Result<(), NoMemory>
    ensures { OnOk result (all.new.items ≡ all.old.items ++ kind_facts sym kind) }
{
    match kind {
        Kinds::Any => Ok(()),
        _ => Ok(all.push(Fact::Is(sym, kind))?),
    }
}

/// Adds the fact of a name that is there.
fn push_name(all: &mut Vec<Fact>, sym: Sym, name: Option<NameId>) -> Result<(), NoMemory>
    ensures { OnOk result (all.new.items ≡ all.old.items ++ rule.name_facts sym name) }
{
    match name {
        Some(name) => Ok(all.push(Fact::Call(sym, name))?),
        None => Ok(()),
    }
}

/// Adds the fact of a block that is there.
fn push_block(all: &mut Vec<Fact>, sym: Sym, block: Option<u32>) -> Result<(), NoMemory>
    ensures { OnOk result (all.new.items ≡ all.old.items ++ rule.block_facts sym block) }
{
    match block {
        Some(number) => Ok(all.push(Fact::Block(sym, number))?),
        None => Ok(()),
    }
}

/// Adds what a state that enters records on its stack and on the written places, where the case is one's.
pub(crate) fn push_further(
    alloc: Global,
    all: &mut Vec<Fact>,
    writes: &[NameId],
    places: &[Bind],
    further: Option<&State>,
) -> Result<(), NoMemory>
    ensures { OnOk result (all.new.items ≡ all.old.items
        ++ rule.further_facts writes.now places.now (option_map (λ state. state.now) further.entry)) }
{
    match further {
        Some(state) => push_recorded(alloc, all, writes, places, state),
        None => Ok(()),
    }
}

/// Adds what a state records on its stack and on the written places.
fn push_recorded(
    alloc: Global,
    all: &mut Vec<Fact>,
    writes: &[NameId],
    places: &[Bind],
    state: &State,
) -> Result<(), NoMemory>
    ensures { OnOk result (all.new.items ≡ all.old.items
        ++ (rule.stack_facts state.now 0 state.now.stack ++ flat_map (rule.written_facts writes.now state.now) places.now)) }
{
    let facts = facts_of(alloc, state)?;
    let stack = stack_of(alloc, state)?;
    if stack.len() >= MOST_SYMBOLS {
        return Err(NoMemory);
    }
    push_stack(alloc, all, state, facts.as_slice(), stack.as_slice())?;
    push_written(alloc, all, writes, state, facts.as_slice(), places)
}

/// Adds what a state records on the symbols of a stack, on symbols that are numbered from 0.
fn push_stack(
    alloc: Global,
    all: &mut Vec<Fact>,
    state: &State,
    facts: &[&Fact],
    stack: &[Sym],
) -> Result<(), NoMemory>
    requires few { length stack.now < 4294967296 }
    requires facts { map (λ fact. fact.now) facts.now ≡ state.now.facts }
    ensures { OnOk result (all.new.items ≡ all.old.items ++ rule.stack_facts state.now 0 stack.now) }
{
    for (k, sym) in stack.iter().enumerate() {
        push_facts_on(alloc, all, facts, sym.0, Sym(k as u32))?;
    }
    Ok(())
}

/// Adds what a state records on the places that are written.
fn push_written(
    alloc: Global,
    all: &mut Vec<Fact>,
    writes: &[NameId],
    state: &State,
    facts: &[&Fact],
    places: &[Bind],
) -> Result<(), NoMemory>
    requires { map (λ fact. fact.now) facts.now ≡ state.now.facts }
    ensures { OnOk result (all.new.items ≡ all.old.items ++ flat_map (rule.written_facts writes.now state.now) places.now) }
{
    for place in places {
        push_written_on(alloc, all, writes, state, facts, *place)?;
    }
    Ok(())
}

/// Adds what a state records on a place, where that is written.
fn push_written_on(
    alloc: Global,
    all: &mut Vec<Fact>,
    writes: &[NameId],
    state: &State,
    facts: &[&Fact],
    place: Bind,
) -> Result<(), NoMemory>
    requires { map (λ fact. fact.now) facts.now ≡ state.now.facts }
    ensures { OnOk result (all.new.items ≡ all.old.items ++ rule.written_facts writes.now state.now place) }
{
    if is_written(writes, place.name) {
        push_facts_on(alloc, all, facts, symbol_in(state, place.name), place.sym)
    } else {
        Ok(())
    }
}

/// Adds the facts on one symbol, on another one.
fn push_facts_on(
    alloc: Global,
    all: &mut Vec<Fact>,
    facts: &[&Fact],
    s: u32,
    sym: Sym,
) -> Result<(), NoMemory>
    ensures { OnOk result (all.new.items ≡ all.old.items
        ++ rule.moved_to sym (filter (λ fact. nat_eq (subject_of fact) s) (map (λ fact. fact.now) facts.now))) }
{
    for fact in facts {
        push_moved(alloc, all, subject(fact).0 == s, fact, sym)?;
    }
    Ok(())
}

/// Adds a fact that is wanted, on another symbol.
fn push_moved(
    alloc: Global,
    all: &mut Vec<Fact>,
    wanted: bool,
    fact: &Fact,
    sym: Sym,
) -> Result<(), NoMemory>
    ensures { OnOk result (all.new.items ≡ all.old.items ++ rule.moved_to sym (filter (λ fact. wanted) (fact.now ∷ []))) }
{
    if wanted {
        all.push(moved(fact.copied(alloc)?, sym))?;
    }
    Ok(())
}

/// A fact on another symbol.
fn moved(fact: Fact, sym: Sym) -> Fact
    ensures { result ≡ rule.moved sym fact }
{
    match fact {
        Fact::Is(_, kind) => Fact::Is(sym, kind),
        Fact::Int(_, n) => Fact::Int(sym, n),
        Fact::Text(_, text) => Fact::Text(sym, text),
        Fact::Call(_, name) => Fact::Call(sym, name),
        Fact::Block(_, number) => Fact::Block(sym, number),
        Fact::Blank(_) => Fact::Blank(sym),
        Fact::Nonblank(_) => Fact::Nonblank(sym),
        Fact::Wellformed(_) => Fact::Wellformed(sym),
    }
}

/// Adds the facts on unwritten places that one of these states records and that follow in all of them.
pub(crate) fn push_common(
    alloc: Global,
    all: &mut Vec<Fact>,
    writes: &[NameId],
    places: &[Bind],
    states: &[&State],
) -> Result<(), NoMemory>
    ensures { OnOk result (all.new.items ≡ all.old.items ++ rule.common_facts writes.now places.now (map (λ state. state.now) states.now)) }
{
    for state in states {
        push_common_of(alloc, all, writes, places, states, state)?;
    }
    Ok(())
}

/// Adds those that one state records.
fn push_common_of(
    alloc: Global,
    all: &mut Vec<Fact>,
    writes: &[NameId],
    places: &[Bind],
    states: &[&State],
    state: &State,
) -> Result<(), NoMemory>
    ensures { OnOk result (all.new.items ≡ all.old.items
        ++ flat_map (rule.common_of writes.now (map (λ state. state.now) states.now) state.now) places.now) }
{
    let facts = facts_of(alloc, state)?;
    for place in places {
        push_common_on(alloc, all, writes, states, state, facts.as_slice(), *place)?;
    }
    Ok(())
}

/// Adds those on one place.
fn push_common_on(
    alloc: Global,
    all: &mut Vec<Fact>,
    writes: &[NameId],
    states: &[&State],
    state: &State,
    facts: &[&Fact],
    place: Bind,
) -> Result<(), NoMemory>
    requires { map (λ fact. fact.now) facts.now ≡ state.now.facts }
    ensures { OnOk result (all.new.items ≡ all.old.items
        ++ rule.common_of writes.now (map (λ state. state.now) states.now) state.now place) }
{
    if is_written(writes, place.name) {
        Ok(())
    } else {
        push_common_at(
            alloc,
            all,
            states,
            facts,
            symbol_in(state, place.name),
            place,
        )
    }
}

/// Adds those on one symbol.
fn push_common_at(
    alloc: Global,
    all: &mut Vec<Fact>,
    states: &[&State],
    facts: &[&Fact],
    s: u32,
    place: Bind,
) -> Result<(), NoMemory>
    ensures { OnOk result (all.new.items ≡ all.old.items ++ rule.moved_to place.sym
        (filter (rule.is_common (map (λ state. state.now) states.now) place.name s) (map (λ fact. fact.now) facts.now))) }
{
    for fact in facts {
        push_moved(
            alloc,
            all,
            is_common(states, place.name, s, fact),
            fact,
            place.sym,
        )?;
    }
    Ok(())
}

/// Whether a fact is on a symbol and follows in all of some states.
fn is_common(states: &[&State], name: NameId, s: u32, fact: &Fact) -> bool
    ensures { result ≡ rule.is_common (map (λ state. state.now) states.now) name s fact.now }
{
    subject(fact).0 == s && follows_in_all(states, name, fact)
}

/// Whether a fact follows in all of some states for what is bound to a name.
fn follows_in_all(states: &[&State], name: NameId, fact: &Fact) -> bool
    ensures { result ≡ list_all (rule.follows_in name fact.now) (map (λ state. state.now) states.now) }
{
    for state in states {
        if !state.is_known(Sym(symbol_in(state, name)), fact) {
            return false;
        }
    }
    true
}
