//! The state in which a run opens.

ghost use Rattle.std.specs.Prelude.{◌≡◌, ◌≤◌, ℕ, List, [], ◌∷◌, ◌++◌, length, map, OnOk, IfOk};
ghost use Rattle.bst_meaning.specs.Config as config;
ghost use Rattle.bst_meaning.specs.Entries.{field_ids_at, field_ids_from};
ghost use Rattle.bst_step.specs.Held.{value_of};
ghost use Rattle.bst_step.specs.Marks.{AreLent, lent_marks};
ghost use Rattle.bst_step.specs.Opening.{opening_of};
ghost use Rattle.bst_step.specs.Places.{StandAt};
ghost use Rattle.bst_step.specs.State.{config_of};
ghost use Rattle.bst_step.specs.Variables.{VariablesWithin, variable_in};

use crate::entry_states::EntryTable;
use crate::frame_list::Frames;
use crate::held::Operand;
use crate::state::State;
use crate::values::Values;
use crate::variables::{Variable, Variables};
use bst_meaning::value::{ENTRY_SIZE, GLOBAL_SIZE};
use bv_base::memory::NoMemory;
use bv_base::packed_texts::PackedTexts;
use entry_store::entry::EntryList;
use name_table::names::{Kind, NameId, Names};
use name_table::opening::{ENTRY_MAX, GLOBAL_MAX};
use name_table::style::Style;
use std::alloc::Global;

/// Whose variables are meant.
#[derive(Clone, Copy)]
pub enum Owner {
    /// The whole style.
    Style,
    /// An entry.
    Entry,
}

/// The state in which a run of the style over the list opens.
pub fn opening<'a>(
    alloc: Global,
    style: &'a Style,
    list: &'a EntryList,
) -> Result<State<'a>, NoMemory>
    ensures opened { IfOk result (λ state. config_of state ≡ config.opening style.now list.now) }
    ensures marks { IfOk result (λ state. state.values.marks ≡ lent_marks (config.opening style.now list.now)) }
{
    let own = variables(alloc, Owner::Entry, &style.names)?;
    let places = field_places(alloc, &style.names)?;
    let globals = variables(alloc, Owner::Style, &style.names)?;
    let entries = EntryTable::new(alloc, own, list, &style.names, places)?;
    Ok(State {
        alloc,
        preamble: list.preamble(),
        commands: style.commands.as_slice(),
        running: false,
        frames: Frames::new(alloc),
        values: Values::new(alloc, globals, entries),
        visit: None,
        events: PackedTexts::new(alloc),
        log: Vec::new(alloc),
        stopped: None,
    })
}

/// The value with which an integer variable of the whole style opens.
fn opening_integer(id: u32) -> i32
    ensures { result ≡ config.opening_integer id }
{
    if id == ENTRY_MAX.0 {
        ENTRY_SIZE as i32
    } else if id == GLOBAL_MAX.0 {
        GLOBAL_SIZE as i32
    } else {
        0
    }
}

/// The variables of the whole style, or those of an entry, as a run opens.
fn variables<'a>(alloc: Global, owner: Owner, names: &Names) -> Result<Variables<'a>, NoMemory>
    ensures within { IfOk result (VariablesWithin 0) }
    ensures marks { IfOk result AreLent }
    ensures opened { IfOk result (λ variables. map (variable_in []) variables ≡ config.opening_variables (opening_of owner) 0 names.now) }
{
    let mut places = Vec::new(alloc);
    let mut variables = Vec::new(alloc);
    for id in 0..names.len() {
        places.push(variables.as_slice().len())?;
        push_declared(&mut variables, owner, NameId(id), names.kind(NameId(id)))?;
    }
    Variables::new(alloc, places, variables.as_slice())
}

/// Appends the variable that a name of a kind is, if it is one of this owner.
fn push_declared(
    variables: &mut Vec<Variable<'_>>,
    owner: Owner,
    name: NameId,
    kind: Kind,
) -> Result<(), NoMemory>
    ensures within { OnOk result (VariablesWithin 0 variables.old.items → VariablesWithin 0 variables.new.items) }
    ensures marks { OnOk result (AreLent variables.old.items → AreLent variables.new.items) }
    ensures opened { OnOk result ((later : List config.Variable) →
        map (variable_in []) variables.new.items ++ later ≡ map (variable_in []) variables.old.items ++ opening_of owner name.0 kind later) }
{
    match (owner, kind) {
        (Owner::Style, Kind::IntGlobal) => {
            push_variable(variables, name, Operand::Int(opening_integer(name.0)))
        }
        (Owner::Entry, Kind::IntEntry) => push_variable(variables, name, Operand::Int(0)),
        (Owner::Style, Kind::StrGlobal) | (Owner::Entry, Kind::StrEntry) => {
            push_variable(variables, name, Operand::Str(&[]))
        }
        _ => Ok(()),
    }
}

/// Appends a variable whose value is lent.
fn push_variable<'a>(
    variables: &mut Vec<Variable<'a>>,
    name: NameId,
    value: Operand<'a>,
) -> Result<(), NoMemory>
    ensures within { OnOk result (VariablesWithin 0 variables.old.items → VariablesWithin 0 variables.new.items) }
    ensures marks { OnOk result (AreLent variables.old.items → AreLent variables.new.items) }
    ensures opened { OnOk result ((later : List config.Variable) →
        map (variable_in []) variables.new.items ++ later ≡ map (variable_in []) variables.old.items ++ record { name = name; value = value_of value.entry } ∷ later) }
{
    let value = value.held();
    variables.push(Variable { name, value })?;
    Ok(())
}

/// By the ids of the style's names, the place of each field among its fields.
fn field_places(alloc: Global, names: &Names) -> Result<Vec<usize>, NoMemory>
    ensures { IfOk result (λ places. StandAt places.items (field_ids_from 0 names.now)) }
{
    let mut places = Vec::new(alloc);
    let mut fields = 0;
    for id in 0..names.len() {
        places.push(fields)?;
        fields += count_of_fields(names.kind(NameId(id)));
    }
    Ok(places)
}

/// How many fields a name of a kind is.
fn count_of_fields(kind: Kind) -> usize
    ensures fields { (id : ℕ) → result ≡ length (field_ids_at id kind []) }
    ensures at_most_one { result ≤ 1 }
{
    match kind {
        Kind::Field => 1,
        _ => 0,
    }
}
