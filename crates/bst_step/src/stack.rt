//! A list that grows and shrinks at its front.

ghost use Rattle.std.specs.Prelude.{◌≡◌, ◌+◌, ◌<◌, ◌≤◌, ◌∷◌, ◌++◌, [], drop, slice_get, slice_index_or, slice_set, length, IsOk, MatchOption, OnErr, OnOk};
ghost use Rattle.smallvec.specs.SmallVec.{HasRoomFor};

use bv_base::memory::NoMemory;
use smallvec::SmallVec;
use std::alloc::Global;
use std::marker::Model;

/// A list that grows and shrinks at its front, the top. Contracts see its items, the top first, and how many more fit with
/// no allocation.
#[derive(Drop)]
pub struct Stack<T> {
    /// The items, the top last, and behind it what was taken away: that is written over, and never let go.
    slots: SmallVec<T, 32>,
    /// How many items there are.
    count: usize,
}

impl<T> Model for Stack<T> {
    ghost use Rattle.std.specs.Prelude.{◌-◌, ◌≤◌, length, reverse, take};
    ghost use Rattle.bst_step.specs.Stack.{Pile, pile_code};

    ghost Value = { Pile T };

    ghost coded = { pile_code T.code };

    ghost view = { λ s. record { items = reverse (take s.count s.slots.items); room = s.slots.capacity - s.count } };

    ghost invariant = { λ s. s.count ≤ length s.slots.items };
}

impl<T: Copy + Default> Stack<T> {
    /// The empty stack.
    pub fn new(alloc: Global) -> Stack<T>
        ensures { result.items ≡ [] }
    {
        Stack {
            slots: SmallVec::new(alloc),
            count: 0,
        }
    }

    /// Puts a copy of an item on top. It is refused only where there is no room, and then nothing changes.
    #[inline(always)]
    pub fn push(&mut self, item: &T) -> Result<(), NoMemory>
        ensures moved { OnOk result (self.new.items ≡ item.now ∷ self.old.items) }
        ensures refused { OnErr result (self.new ≡ self.old) }
        ensures fits { 1 ≤ self.old.room → IsOk result }
        ensures room { self.old.room ≤ self.new.room + 1 }
    {
        // A length has 64 bits, and so has the count of one item more where there is a slot for it.
        let _ = self.slots.len();
        if let Some(slot) = self.slots.get_mut(self.count) {
            *slot = *item;
            self.count += 1;
            return Ok(());
        }
        push_slot(&mut self.slots, *item)?;
        self.count = self.slots.len();
        Ok(())
    }

    /// Makes room for so many items more. Where it is refused, the items stay.
    pub fn reserve(&mut self, count: usize) -> Result<(), NoMemory>
        ensures room { OnOk result (count ≤ self.new.room) }
        ensures more { self.old.room ≤ self.new.room }
        ensures items { self.new.items ≡ self.old.items }
    {
        self.slots.reserve(count)?;
        Ok(())
    }

    /// Puts an item in the place of the one so far below the top.
    #[inline(always)]
    pub fn replace(&mut self, depth: usize, item: T)
        requires { depth < length self.old.items }
        ensures moved { self.new.items ≡ slice_set self.old.items depth item }
        ensures room { self.new.room ≡ self.old.room }
    {
        let place = self.count - 1 - depth;
        if let Some(slot) = self.slots.get_mut(place) {
            *slot = item;
        }
    }

    /// Puts an item in the top's place.
    #[inline(always)]
    pub fn replace_top(&mut self, item: T)
        requires { 0 < length self.old.items }
        ensures moved { self.new.items ≡ item ∷ drop 1 self.old.items }
        ensures room { self.new.room ≡ self.old.room }
    {
        self.replace(0, item);
    }

    /// Puts an item in the place of the topmost ones.
    #[inline(always)]
    pub fn put(&mut self, taken: usize, item: T)
        requires some { 1 ≤ taken }
        requires enough { taken ≤ length self.old.items }
        ensures moved { self.new.items ≡ item ∷ drop taken self.old.items }
        ensures room { self.old.room ≤ self.new.room }
    {
        self.drop_top(taken - 1);
        self.replace_top(item);
    }

    /// Takes the topmost items away.
    #[inline(always)]
    pub fn drop_top(&mut self, taken: usize)
        ensures moved { self.new.items ≡ drop taken self.old.items }
        ensures room { self.old.room ≤ self.new.room }
    {
        self.count = self.count.saturating_sub(taken);
    }

    /// The top. `None` comes exactly where the stack is empty.
    #[inline(always)]
    pub fn top(&self) -> Option<T>
        ensures { MatchOption result (self.now.items ≡ []) (λ item. self.now.items ≡ item ∷ drop 1 self.now.items) }
    {
        match self.below(0) {
            Some(item) => Some(item),
            None => None,
        }
    }

    /// How many items there are.
    #[inline(always)]
    pub fn len(&self) -> usize
        ensures { result ≡ length self.now.items }
    {
        self.count
    }

    /// The item so far below the top, where there is one.
    #[inline(always)]
    pub fn at(&self, depth: usize) -> T
        requires { depth < length self.now.items }
        ensures { result ≡ slice_index_or self.now.items depth result }
    {
        self.slots.as_slice()[self.count - 1 - depth]
    }

    /// The item so far below the top.
    #[inline(always)]
    pub fn below(&self, depth: usize) -> Option<T>
        ensures { result ≡ slice_get self.now.items depth }
    {
        if depth < self.count {
            Some(self.at(depth))
        } else {
            None
        }
    }
}

/// Appends a slot. It is a call of its own, so that a push into a slot that is there stays short.
#[cold]
#[inline(never)]
fn push_slot<T: Copy + Default>(slots: &mut SmallVec<T, 32>, item: T) -> Result<(), NoMemory>
    ensures pushed { OnOk result (slots.new.items ≡ slots.old.items ++ item ∷ []) }
    ensures refused { OnErr result (slots.new ≡ slots.old) }
    ensures fits { HasRoomFor slots.old 1 → IsOk result }
    ensures capacity { slots.old.capacity ≤ slots.new.capacity }
    ensures had_room { HasRoomFor slots.old 1 → slots.new.capacity ≡ slots.old.capacity }
{
    slots.push(item)?;
    Ok(())
}
