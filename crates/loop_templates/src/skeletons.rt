//! Skeletons of states (docs/ANALYSER.md, "Loops").

ghost use Rattle.std.specs.Prelude.{◌≡◌, ◌++◌, map, reverse, IfOk, OnOk};
ghost use Rattle.std.specs.Option.{option_to_list};
ghost use Rattle.loop_templates.specs.Skeletons as rule;

use bv_base::memory::NoMemory;
use name_table::names::NameId;
use std::alloc::Global;
use sym_state::state::State;
use sym_state::symbol::{Kinds, Sym};

/// What a skeleton has of a symbol on the stack: its kind, and the name or the number of the function that it exactly is.
#[derive(Clone, Copy, Debug)]
pub struct Bone {
    pub kind: Kinds,
    pub name: Option<NameId>,
    pub block: Option<u32>,
}

/// The skeleton of a state.
pub(crate) fn skeleton(alloc: Global, state: &State) -> Result<Vec<Bone>, NoMemory>
    ensures { IfOk result (λ bones. bones.items ≡ rule.skeleton state.now) }
{
    let stack = stack_of(alloc, state)?;
    let mut bones = Vec::new(alloc);
    for sym in stack.as_slice() {
        bones.push(bone_of(state, *sym))?;
    }
    Ok(bones)
}

/// The symbols on the stack of a state, its top last.
pub(crate) fn stack_of(alloc: Global, state: &State) -> Result<Vec<Sym>, NoMemory>
    ensures { IfOk result (λ stack. stack.items ≡ state.now.stack) }
{
    let mut stack = tops_of(alloc, state)?;
    stack.reverse();
    Ok(stack)
}

/// The same, the top first.
#[tactic(auto, using(crate::proofs::OneByOne::one_more))]
fn tops_of(alloc: Global, state: &State) -> Result<Vec<Sym>, NoMemory>
    ensures { IfOk result (λ tops. tops.items ≡ reverse state.now.stack) }
{
    let mut tops = Vec::new(alloc);
    for from_top in 0..state.stack_len() {
        push_there(&mut tops, state.at(from_top))?;
    }
    Ok(tops)
}

/// Adds what is there.
pub(crate) fn push_there<T: Copy>(all: &mut Vec<T>, one: Option<T>) -> Result<(), NoMemory>
    ensures { OnOk result (all.new.items ≡ all.old.items ++ option_to_list one) }
{
    if let Some(one) = one {
        all.push(one)?;
    }
    Ok(())
}

/// What there is of a symbol in a state.
fn bone_of(state: &State, sym: Sym) -> Bone
    ensures { result ≡ rule.bone_of state.now sym }
{
    Bone {
        kind: state.known_kind(sym),
        name: state.exact_name(sym),
        block: state.exact_block(sym),
    }
}

/// Whether a state has a skeleton.
pub(crate) fn has_skeleton(alloc: Global, state: &State, bones: &[Bone]) -> Result<bool, NoMemory>
    ensures { IfOk result (λ has. has ≡ rule.same_skeleton bones.now (rule.skeleton state.now)) }
{
    let other = skeleton(alloc, state)?;
    Ok(same_skeleton(bones, other.as_slice()))
}

/// The states that have a skeleton.
pub(crate) fn states_of<'a>(
    alloc: Global,
    bones: &[Bone],
    states: &'a [State],
) -> Result<Vec<&'a State>, NoMemory>
    ensures { IfOk result (λ found. map (λ state. state.now) found.items ≡ rule.states_of bones.now states.now) }
{
    let mut found = Vec::new(alloc);
    for state in states {
        if has_skeleton(alloc, state, bones)? {
            found.push(state)?;
        }
    }
    Ok(found)
}

/// Whether two skeletons are one.
pub(crate) fn same_skeleton(bones: &[Bone], others: &[Bone]) -> bool
    ensures { result ≡ rule.same_skeleton bones.now others.now }
{
    if bones.len() != others.len() {
        return false;
    }
    for k in 0..bones.len() {
        if !same_bone(bones[k], others[k]) {
            return false;
        }
    }
    true
}

/// Whether two symbols are of one kind, and exactly one function or none.
fn same_bone(a: Bone, b: Bone) -> bool
    ensures { result ≡ rule.same_bone a b }
{
    same_kind(a.kind, b.kind) && same_name(a.name, b.name) && same_block(a.block, b.block)
}

/// Whether two kinds are one.
pub(crate) fn same_kind(a: Kinds, b: Kinds) -> bool
    ensures { result ≡ rule.same_kind a b }
{
    a == b
}

/// Whether two names that may be there are one.
fn same_name(a: Option<NameId>, b: Option<NameId>) -> bool
    ensures { result ≡ rule.same_name a b }
{
    match (a, b) {
        (None, None) => true,
        (Some(a), Some(b)) => a.0 == b.0,
        _ => false,
    }
}

/// Whether two numbers that may be there are one.
fn same_block(a: Option<u32>, b: Option<u32>) -> bool
    ensures { result ≡ rule.same_block a b }
{
    match (a, b) {
        (None, None) => true,
        (Some(a), Some(b)) => a == b,
        _ => false,
    }
}
