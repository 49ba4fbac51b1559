//! Variables with their values, each found by its place.

ghost use Rattle.std.specs.Prelude.{◌≡◌, ◌<◌, length, map, IfOk, IfSome};
ghost use Rattle.bst_step.specs.Held.{ValuesWithin};
ghost use Rattle.bst_step.specs.Marks.{marked_of};
ghost use Rattle.bst_step.specs.Places.{StandAt, place_of};
ghost use Rattle.bst_step.specs.Settled.{IsRenewed};
ghost use Rattle.bst_step.specs.Variables.{VariablesWithin, held_at, names_in, values_in, variable_in, with_held};

use crate::held::Held;
use crate::packed_values::PackedValues;
use crate::renewal::renew_values;
use bv_base::memory::NoMemory;
use name_table::names::NameId;
use std::alloc::Global;
use std::marker::Model;

/// A variable with its value.
#[derive(Clone, Copy)]
pub struct Variable<'a> {
    pub name: NameId,
    pub value: Held<'a>,
}

/// Variables with their values, in the order of their ids. Contracts see the list of them.
#[derive(Drop)]
pub struct Variables<'a> {
    /// By the id of its name, the place of each variable.
    places: Vec<usize>,
    names: Vec<NameId>,
    values: Vec<Held<'a>>,
}

impl<'a> Model for Variables<'a> {
    ghost use Rattle.std.specs.Prelude.{List};
    ghost use Rattle.bst_step.specs.declared.variables.Variable.{Variable};
    ghost use Rattle.bst_step.specs.Variables.{AreNamed, named};

    ghost Value = { List Variable };

    ghost view = { λ v. named v.names.items v.values.items };

    ghost invariant = { λ v. AreNamed v.places.items v.names.items v.values.items };
}

impl<'a> Variables<'a> {
    /// Variables, each of which stands at the place that the table has for it.
    pub fn new(
        alloc: Global,
        places: Vec<usize>,
        items: &[Variable<'a>],
    ) -> Result<Variables<'a>, NoMemory>
        requires { StandAt places.items (names_in items.now) }
        ensures { IfOk result (λ variables. variables ≡ items.now) }
    {
        let mut names = Vec::with_capacity(alloc, items.len())?;
        let mut values = Vec::with_capacity(alloc, items.len())?;
        for variable in items {
            names.push(variable.name)?;
            values.push(variable.value)?;
        }
        Ok(Variables {
            places,
            names,
            values,
        })
    }

    /// The place of the variable with this name.
    pub fn place(&self, name: NameId) -> Option<usize>
        ensures { result ≡ place_of name.0 (names_in self.now) }
    {
        place_in(self.places.as_slice(), self.names.as_slice(), name)
    }

    /// What the variables hold, in their order.
    pub fn values(&self) -> &[Held<'a>]
        ensures { result.now ≡ values_in self.now }
    {
        self.values.as_slice()
    }

    /// What the variable with this name holds.
    #[inline(always)]
    pub fn value(&self, name: NameId) -> Option<Held<'a>>
        ensures { result ≡ held_at name.0 self.now }
    {
        let values = self.values.as_slice();
        match place_in(self.places.as_slice(), self.names.as_slice(), name) {
            Some(at) => Some(values[at]),
            None => None,
        }
    }

    /// Gives the variable of this name, where there is one, its new value.
    #[inline(always)]
    pub fn set(&mut self, new: Variable<'a>)
        ensures { self.new ≡ with_held new.entry self.old }
    {
        if let Some(at) = place_in(self.places.as_slice(), self.names.as_slice(), new.name) {
            self.values[at] = new.value;
        }
    }

    /// Brings the bytes of the strings that the variables and other values hold to the front of their pool.
    pub fn renew(
        &mut self,
        others: &mut PackedValues<'a>,
        pool: &mut Vec<u8>,
        front: usize,
    ) -> Result<(), NoMemory>
        requires own { VariablesWithin (length pool.old.items) self.old }
        requires others { ValuesWithin (length pool.old.items) others.old }
        ensures within { VariablesWithin (length pool.new.items) self.new }
        ensures seen { map (variable_in pool.new.items) self.new ≡ map (variable_in pool.old.items) self.old }
        ensures marks { map marked_of self.new ≡ map marked_of self.old }
        ensures others { IsRenewed pool.old.items others.old pool.new.items others.new }
    {
        renew_values(self.values.as_mut_slice(), others, pool, front)
    }
}

/// The place of the variable with this name, by a table that has the place of each.
#[inline(always)]
fn place_in(places: &[usize], names: &[NameId], name: NameId) -> Option<usize>
    requires { StandAt places.now names.now }
    ensures place { result ≡ place_of name.0 names.now }
    ensures within { IfSome result (λ at. at < length names.now) }
{
    let Some(at) = places.get(name.0 as usize) else {
        return None;
    };
    let Some(found) = names.get(*at) else {
        return None;
    };
    if found.0 == name.0 { Some(*at) } else { None }
}
