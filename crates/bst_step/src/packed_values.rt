//! Values of which most take eight bytes.

ghost use Rattle.std.specs.Prelude.{◌≡◌, ◌-◌, ◌<◌, ◌≤◌, [], drop, length, map, slice_get, slice_set, take, vec_capacity, IfOk, IfSome};
ghost use Rattle.std.specs.Bool.{OnTrue};
ghost use Rattle.bst_step.specs.EntryStates.{repeated};
ghost use Rattle.bst_step.specs.PackedValues.{AreAmong, IsAmong, unpacked};
ghost use Rattle.bst_step.specs.Settled.{AreBefore, IsBefore};

use crate::held::Held;
use bv_base::memory::NoMemory;
use std::alloc::Global;
use std::marker::Model;

/// A value in eight bytes, or where it stands among those that take more.
#[derive(Clone, Copy)]
pub enum Packed {
    Int(i32),
    /// A lent string of no bytes.
    Empty,
    /// A string that was made: how many bytes there are, and where they begin in the pool.
    Made(u16, u32),
    /// The place of another value.
    Other(u32),
}

// Fields lie in the order of the source: with the shorter one behind the other a value would take twelve bytes.
const _: () = prove!(size_of::<Packed>() == 8);

/// Values in order, whose number stays. Contracts see the list of them.
///
/// An integer, a string of no bytes, and one of at most 65535 bytes that was made within the first 4294967295 of the pool
/// take eight bytes. Any other is kept beside them; where one is given after the other, so that as many were kept as there
/// are values, all stand as they are from then on.
#[derive(Drop)]
pub struct PackedValues<'a> {
    packed: Vec<Packed>,
    /// What was given and takes more than eight bytes, in the order in which it came. It never grows behind its room.
    others: Vec<Held<'a>>,
    /// None, with room for all, and all once the others have no room left.
    wide: Vec<Held<'a>>,
}

impl<'a> Model for PackedValues<'a> {
    ghost use Rattle.std.specs.Prelude.{List, vec_capacity};
    ghost use Rattle.bst_step.specs.declared.held.Held.{Held};
    ghost use Rattle.bst_step.specs.PackedValues.{ArePacked, values_in};

    ghost Value = { List Held };

    ghost view = { λ v. values_in v.packed.items v.others.items v.wide.items };

    ghost invariant = { λ v. ArePacked v.packed.items v.others.items v.wide.items (vec_capacity v.wide) };
}

impl<'a> PackedValues<'a> {
    /// The same values so many times.
    pub fn repeated(
        alloc: Global,
        values: &[Held<'a>],
        times: usize,
    ) -> Result<PackedValues<'a>, NoMemory>
        ensures { IfOk result (λ packed. packed ≡ repeated times values.now) }
    {
        let count = times.saturating_mul(values.len());
        let mut others = Vec::with_capacity(alloc, count.saturating_add(values.len()))?;
        let each = packed_each(alloc, values, &mut others)?;
        let mut packed = Vec::with_capacity(alloc, count)?;
        for time in 0..times {
            packed.extend_from_slice(each.as_slice())?;
        }
        let wide = Vec::with_capacity(alloc, packed.len())?;
        Ok(PackedValues {
            packed,
            others,
            wide,
        })
    }

    /// How many values there are.
    pub fn len(&self) -> usize
        ensures { result ≡ length self.now }
    {
        self.packed.len()
    }

    /// The value at a place.
    #[inline(always)]
    pub fn get(&self, at: usize) -> Option<Held<'a>>
        ensures { result ≡ slice_get self.now at }
    {
        if !self.wide.is_empty() {
            return match self.wide.as_slice().get(at) {
                Some(value) => Some(*value),
                None => None,
            };
        }
        match self.packed.as_slice().get(at) {
            Some(packed) => Some(unpacked(*packed, self.others.as_slice())),
            None => None,
        }
    }

    /// The first place, from one on, at which a string ends at a place in the pool or behind it, and where there is none, how
    /// many values there are.
    #[inline(never)]
    pub fn next_behind(&self, from: usize, front: usize) -> usize
        requires { from ≤ length self.now }
        ensures least { from ≤ result }
        ensures within { result ≤ length self.now }
        ensures passed { AreBefore front (take (result - from) (drop from self.now)) }
    {
        for at in from..self.len() {
            let Some(value) = self.get(at) else {
                unreachable!()
            };
            if !is_before(value, front) {
                return at;
            }
        }
        self.len()
    }

    /// Puts a value in the place of another.
    #[inline(always)]
    pub fn set(&mut self, at: usize, value: Held<'a>)
        requires { at < length self.old }
        ensures { self.new ≡ slice_set self.old at value.entry }
    {
        if !self.wide.is_empty() {
            self.wide[at] = value;
            return;
        }
        match packed_beside(value, &mut self.others) {
            Some(packed) => self.packed[at] = packed,
            None => {
                widen(
                    self.packed.as_slice(),
                    self.others.as_slice(),
                    &mut self.wide,
                );
                self.wide[at] = value;
            }
        }
    }
}

/// Values in eight bytes each, with those that take more put behind the others.
fn packed_each<'a>(
    alloc: Global,
    values: &[Held<'a>],
    others: &mut Vec<Held<'a>>,
) -> Result<Vec<Packed>, NoMemory>
    ensures values { IfOk result (λ packed. map (unpacked others.new.items) packed.items ≡ values.now) }
    ensures among { IfOk result (λ packed. AreAmong (length others.new.items) packed.items) }
{
    let mut packed = Vec::with_capacity(alloc, values.len())?;
    for value in values {
        let Some(one) = packed_beside(*value, others) else {
            return Err(NoMemory);
        };
        packed.push(one)?;
    }
    Ok(packed)
}

/// A value in eight bytes, which is put behind the others if it takes more. `None` comes where there is no room for it there.
#[inline(always)]
fn packed_beside<'a>(value: Held<'a>, others: &mut Vec<Held<'a>>) -> Option<Packed>
    ensures value { IfSome result (λ packed. unpacked others.new.items packed ≡ value.entry) }
    ensures among { IfSome result (IsAmong (length others.new.items)) }
    ensures grown { take (length others.old.items) others.new.items ≡ others.old.items }
{
    match packed_alone(value) {
        Some(packed) => Some(packed),
        None => kept_beside(value, others),
    }
}

/// A value in eight bytes, where it takes no more.
#[inline(always)]
fn packed_alone(value: Held<'_>) -> Option<Packed>
    ensures value { IfSome result (λ packed. unpacked [] packed ≡ value.entry) }
    ensures alone { IfSome result (IsAmong 0) }
{
    match value {
        Held::Int(n) => Some(Packed::Int(n)),
        Held::Empty => Some(Packed::Empty),
        Held::Made(start, count) => {
            let Ok(start) = u32::try_from(start) else {
                return None;
            };
            let Ok(count) = u16::try_from(count) else {
                return None;
            };
            Some(Packed::Made(count, start))
        }
        _ => None,
    }
}

/// The place of a value that is put behind the others, where there is room for it.
fn kept_beside<'a>(value: Held<'a>, others: &mut Vec<Held<'a>>) -> Option<Packed>
    ensures value { IfSome result (λ packed. unpacked others.new.items packed ≡ value.entry) }
    ensures among { IfSome result (IsAmong (length others.new.items)) }
    ensures grown { take (length others.old.items) others.new.items ≡ others.old.items }
{
    let at = others.len();
    if at >= others.capacity() {
        return None;
    }
    let Ok(place) = u32::try_from(at) else {
        return None;
    };
    others.push_reserved(value);
    Some(Packed::Other(place))
}

/// The value that a packed one is.
#[inline(always)]
fn unpacked<'a>(packed: Packed, others: &[Held<'a>]) -> Held<'a>
    ensures { result ≡ unpacked others.now packed }
{
    match packed {
        Packed::Int(n) => Held::Int(n),
        Packed::Empty => Held::Empty,
        Packed::Made(count, start) => Held::Made(start as usize, count as usize),
        Packed::Other(at) => match others.get(at as usize) {
            Some(value) => *value,
            None => Held::Int(0),
        },
    }
}

/// Puts all values as they are where none stands yet.
fn widen<'a>(packed: &[Packed], others: &[Held<'a>], wide: &mut Vec<Held<'a>>)
    requires none { wide.old.items ≡ [] }
    requires room { length packed.now ≤ vec_capacity wide.old }
    ensures wide { wide.new.items ≡ map (unpacked others.now) packed.now }
    ensures room { vec_capacity wide.new ≡ vec_capacity wide.old }
{
    for value in packed {
        wide.push_reserved(unpacked(*value, others));
    }
}

/// Whether a string ends before a place in the pool. What is no string that was made does.
#[inline(always)]
fn is_before(value: Held<'_>, front: usize) -> bool
    ensures { OnTrue result (IsBefore front value.entry) }
{
    match value {
        Held::Made(start, count) => start < front && count < front - start,
        _ => true,
    }
}
