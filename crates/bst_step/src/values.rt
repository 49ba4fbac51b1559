//! The values that the machine holds: those of the literal stack, and those of all variables.

ghost use Rattle.std.specs.Prelude.{◌≡◌, ◌+◌, ◌<◌, ◌≤◌, ◌∷◌, [], drop, is_some, length, map, option_map, slice_get, slice_index_or, Some, IfOk, IfSome, IsOk, MatchOption, OnErr, OnOk};
ghost use Rattle.std.specs.Option.{option_and_then};
ghost use Rattle.bst_meaning.specs.declared.value.Value.TheVariants.{Int, Str};
ghost use Rattle.bst_meaning.specs.Machine as rule;
ghost use Rattle.bst_meaning.specs.Sorting.{sorted};
ghost use Rattle.bst_step.specs.EntryStates.{EntriesWithin, state_in};
ghost use Rattle.bst_step.specs.Held.{value_of};
ghost use Rattle.bst_step.specs.Machine.{key_at};
ghost use Rattle.bst_step.specs.Marks as mark;
ghost use Rattle.bst_step.specs.Marks.{lent_at, lent_mark, mark_at, marks_in, sorted_marks};
ghost use Rattle.bst_step.specs.Stack.{doubled, swapped};
ghost use Rattle.bst_step.specs.Values.{cut, given_globally, given_in_entry, joined, with_pushed};
ghost use Rattle.bst_step.specs.Variables.{VariablesWithin, variable_in};

use crate::entry_states::EntryTable;
use crate::held::{Held, Operand, brought_down, joined_in, least_spared, live_after, made_in};
use crate::stack::Stack;
use crate::typed::TypedEntry;
use crate::variables::{Variable, Variables};
use bv_base::memory::NoMemory;
use name_format::known::Known;
use name_table::names::NameId;
use std::alloc::Global;
use std::marker::Model;

/// The literal stack, the variables of the whole style, and the entries with theirs. What strings were made stand in a
/// pool, and contracts see the values alone.
#[derive(Drop)]
pub struct Values<'a> {
    pool: Vec<u8>,
    /// Where the bytes end that variables may hold.
    kept: usize,
    /// How many bytes the strings have that variables hold and that were made: as many has a pool that is made anew.
    live: usize,
    /// Where the bytes ended when the pool was last made anew.
    front: usize,
    /// How many of these no variable held then.
    left: usize,
    stack: Stack<Held<'a>>,
    globals: Variables<'a>,
    entries: EntryTable<'a>,
    /// The patterns by which names were written.
    known: Known,
}

impl<'a> Model for Values<'a> {
    ghost use Rattle.bst_step.specs.Values.{Holding, IsHeld, holding_in};

    ghost Value = { Holding };

    ghost view = { λ v. holding_in v.pool.items v.stack.items v.stack.room v.globals v.entries };

    ghost invariant = { λ v. IsHeld v.pool.items v.kept v.stack.items v.globals v.entries };
}

impl<'a> Values<'a> {
    /// An empty stack, and variables none of whose strings was made.
    pub fn new(alloc: Global, globals: Variables<'a>, entries: EntryTable<'a>) -> Values<'a>
        requires globals { VariablesWithin 0 globals }
        requires entries { EntriesWithin 0 entries }
        ensures stack { result.stack ≡ [] }
        ensures globals { result.globals ≡ map (variable_in []) globals.entry }
        ensures entries { result.entries ≡ map (state_in []) entries.entry }
        ensures marks { result.marks ≡ marks_in [] globals.entry entries.entry }
    {
        Values {
            pool: Vec::new(alloc),
            kept: 0,
            live: 0,
            front: 0,
            left: 0,
            stack: Stack::new(alloc),
            globals,
            entries,
            known: Known::new(alloc),
        }
    }

    /// Takes the patterns out by which names were written.
    pub fn take_known(&mut self) -> Known
        ensures { self.new ≡ self.old }
    {
        let none = Known::new(*self.pool.allocator());
        std::mem::replace(&mut self.known, none)
    }

    /// Keeps the patterns by which names were written.
    pub fn keep_known(&mut self, known: Known)
        ensures { self.new ≡ self.old }
    {
        self.known = known;
    }

    /// How many values are on the stack.
    pub fn len(&self) -> usize
        ensures { result ≡ length self.now.stack }
    {
        self.stack.len()
    }

    /// The value so far below the top, where there is one.
    pub fn at(&self, depth: usize) -> Operand<'_>
        requires { depth < length self.now.stack }
        ensures { value_of result ≡ slice_index_or self.now.stack depth (value_of result) }
    {
        self.stack.at(depth).operand(self.pool.as_slice())
    }

    /// The top. `None` comes exactly where the stack is empty.
    #[inline(always)]
    pub fn top(&self) -> Option<Operand<'_>>
        ensures { MatchOption result (self.now.stack ≡ []) (λ a. self.now.stack ≡ value_of a ∷ drop 1 self.now.stack) }
    {
        match self.stack.top() {
            Some(held) => Some(held.operand(self.pool.as_slice())),
            None => None,
        }
    }

    /// The integer on top.
    #[inline(always)]
    pub fn top_integer(&self) -> Option<i32>
        ensures { IfSome result (λ n. self.now.stack ≡ Int n ∷ drop 1 self.now.stack) }
    {
        match self.top() {
            Some(Operand::Int(n)) => Some(n),
            _ => None,
        }
    }

    /// The integer so far below the top. Nothing else is looked at.
    #[inline(always)]
    pub fn integer_below(&self, depth: usize) -> Option<i32>
        ensures { IfSome result (λ n. slice_get self.now.stack depth ≡ Some (Int n)) }
    {
        match self.below(depth) {
            Some(Operand::Int(n)) => Some(n),
            _ => None,
        }
    }

    /// The bytes of the string so far below the top. Nothing else is looked at.
    #[inline(always)]
    pub fn string_below(&self, depth: usize) -> Option<&[u8]>
        ensures { IfSome result (λ bytes. slice_get self.now.stack depth ≡ Some (Str bytes.now)) }
    {
        match self.below(depth) {
            Some(Operand::Str(bytes)) => Some(bytes),
            _ => None,
        }
    }

    /// The value so far below the top.
    #[inline(always)]
    pub fn below(&self, depth: usize) -> Option<Operand<'_>>
        ensures { option_map value_of result ≡ slice_get self.now.stack depth }
    {
        match self.stack.below(depth) {
            Some(held) => Some(held.operand(self.pool.as_slice())),
            None => None,
        }
    }

    /// The bytes of the string so far below the top, where they are lent.
    pub fn lent_below(&self, depth: usize) -> Option<&'a [u8]>
        ensures { option_map (λ bytes. bytes.now) result ≡ lent_at depth self.now.marks.stack self.now.stack }
    {
        match self.stack.below(depth) {
            Some(held) => held.lent(),
            None => None,
        }
    }

    /// The bytes of the string on top, where they are lent.
    pub fn lent_top(&self) -> Option<&'a [u8]>
        ensures { IfSome result (λ bytes. self.now.stack ≡ Str bytes.now ∷ drop 1 self.now.stack) }
    {
        match self.stack.top() {
            Some(top) => top.lent(),
            None => None,
        }
    }

    /// Makes room for so many values more on the stack. Where it is refused, what is held stays.
    pub fn reserve(&mut self, count: usize) -> Result<(), NoMemory>
        ensures fits { OnOk result (count ≤ self.new.room) }
        ensures stack { self.new.stack ≡ self.old.stack }
        ensures globals { self.new.globals ≡ self.old.globals }
        ensures entries { self.new.entries ≡ self.old.entries }
        ensures marks { self.new.marks ≡ self.old.marks }
        ensures room { self.old.room ≤ self.new.room }
    {
        self.stack.reserve(count)
    }

    /// Takes the topmost values away.
    pub fn drop_top(&mut self, count: usize)
        ensures stack { self.new.stack ≡ drop count self.old.stack }
        ensures globals { self.new.globals ≡ self.old.globals }
        ensures entries { self.new.entries ≡ self.old.entries }
        ensures marks { self.new.marks ≡ mark.taken count self.old.marks }
        ensures room { self.old.room ≤ self.new.room }
    {
        self.stack.drop_top(count);
    }

    /// Takes all values away.
    pub fn clear(&mut self)
        ensures stack { self.new.stack ≡ [] }
        ensures globals { self.new.globals ≡ self.old.globals }
        ensures entries { self.new.entries ≡ self.old.entries }
        ensures marks { self.new.marks ≡ mark.cleared self.old.marks }
        ensures room { self.old.room ≤ self.new.room }
    {
        self.stack.drop_top(self.stack.len());
    }

    /// Pushes a value whose bytes are lent.
    #[inline(always)]
    pub fn push(&mut self, value: Operand<'a>) -> Result<(), NoMemory>
        ensures stack { OnOk result (self.new.stack ≡ value_of value.entry ∷ self.old.stack) }
        ensures globals { self.new.globals ≡ self.old.globals }
        ensures entries { self.new.entries ≡ self.old.entries }
        ensures marks { OnOk result (self.new.marks ≡ mark.pushed (lent_mark (value_of value.entry)) self.old.marks) }
        ensures fits { 1 ≤ self.old.room → IsOk result }
        ensures room { self.old.room ≤ self.new.room + 1 }
    {
        self.stack.push(&value.held())?;
        Ok(())
    }

    /// Puts a value whose bytes are lent in the place of the topmost ones.
    #[inline(always)]
    pub fn put(&mut self, taken: usize, value: Operand<'a>)
        requires some { 1 ≤ taken }
        requires enough { taken ≤ length self.old.stack }
        ensures stack { self.new.stack ≡ value_of value.entry ∷ drop taken self.old.stack }
        ensures globals { self.new.globals ≡ self.old.globals }
        ensures entries { self.new.entries ≡ self.old.entries }
        ensures marks { self.new.marks ≡ mark.resulting taken (lent_mark (value_of value.entry)) self.old.marks }
        ensures room { self.old.room ≤ self.new.room }
    {
        self.stack.put(taken, value.held());
    }

    /// Puts a string of these bytes, which are copied, in the place of the topmost values.
    pub fn make(&mut self, taken: usize, bytes: &[u8]) -> Result<(), NoMemory>
        requires some { 1 ≤ taken }
        requires enough { taken ≤ length self.old.stack }
        ensures stack { OnOk result (self.new.stack ≡ Str bytes.now ∷ drop taken self.old.stack) }
        ensures globals { self.new.globals ≡ self.old.globals }
        ensures entries { self.new.entries ≡ self.old.entries }
        ensures marks { OnOk result (self.new.marks ≡ mark.resulting taken mark.Made self.old.marks) }
        ensures room { self.old.room ≤ self.new.room }
    {
        let made = made_in(bytes, &mut self.pool)?;
        self.stack.put(taken, made);
        Ok(())
    }

    /// Pushes the top once more.
    pub fn double(&mut self) -> Result<(), NoMemory>
        ensures stack { OnOk result (self.new.stack ≡ doubled self.old.stack) }
        ensures globals { self.new.globals ≡ self.old.globals }
        ensures entries { self.new.entries ≡ self.old.entries }
        ensures marks { OnOk result (self.new.marks ≡ mark.doubled self.old.marks) }
        ensures fits { 1 ≤ self.old.room → IsOk result }
        ensures room { self.old.room ≤ self.new.room + 1 }
    {
        match self.stack.top() {
            Some(top) => {
                self.stack.push(&top)?;
                Ok(())
            }
            None => Ok(()),
        }
    }

    /// Exchanges the two topmost values.
    pub fn swap(&mut self)
        ensures stack { self.new.stack ≡ swapped self.old.stack }
        ensures globals { self.new.globals ≡ self.old.globals }
        ensures entries { self.new.entries ≡ self.old.entries }
        ensures marks { self.new.marks ≡ mark.swapped self.old.marks }
        ensures room { self.old.room ≤ self.new.room }
    {
        let Some(a) = self.stack.below(1) else {
            return;
        };
        self.stack.replace(1, self.stack.at(0));
        self.stack.replace_top(a);
    }

    /// Joins the two topmost strings, the lower one first.
    pub fn join(&mut self) -> Result<(), NoMemory>
        ensures stack { OnOk result (self.new.stack ≡ joined self.old.stack) }
        ensures globals { self.new.globals ≡ self.old.globals }
        ensures entries { self.new.entries ≡ self.old.entries }
        ensures marks { OnOk result (2 ≤ length self.old.stack → self.new.marks ≡ mark.resulting 2 mark.Made self.old.marks) }
        ensures room { self.old.room ≤ self.new.room }
    {
        match self.stack.below(1) {
            Some(a) => {
                let joined = joined_in(a, self.stack.at(0), &mut self.pool)?;
                self.stack.drop_top(1);
                self.stack.replace_top(joined);
                Ok(())
            }
            None => Ok(()),
        }
    }

    /// Leaves of a string on top so many bytes from a place on.
    pub fn cut_top(&mut self, from: usize, count: usize)
        ensures stack { self.new.stack ≡ cut from count self.old.stack }
        ensures globals { self.new.globals ≡ self.old.globals }
        ensures entries { self.new.entries ≡ self.old.entries }
        ensures marks { self.new.marks ≡ self.old.marks }
        ensures room { self.old.room ≤ self.new.room }
    {
        let Some(top) = self.stack.top() else {
            return;
        };
        self.stack
            .replace_top(top.part(self.pool.as_slice(), from, count));
    }

    /// The integer that a variable of the whole style holds. Nothing else is looked at.
    #[inline(always)]
    pub fn global_integer(&self, name: NameId) -> Option<i32>
        ensures value { IfSome result (λ n. rule.value_at name.0 self.now.globals ≡ Some (Int n)) }
        ensures mark { IfSome result (λ n. mark_at name.0 self.now.marks.globals ≡ Some mark.NoString) }
    {
        match self.globals.value(name) {
            Some(held) => held.integer(),
            None => None,
        }
    }

    /// Pushes the value of a variable of the whole style, and tells whether there is one.
    #[inline(always)]
    pub fn push_global(&mut self, name: NameId) -> Result<bool, NoMemory>
        ensures stack { OnOk result (self.new.stack ≡ with_pushed (rule.value_at name.0 self.old.globals) self.old.stack) }
        ensures found { IfOk result (λ found. found ≡ is_some (rule.value_at name.0 self.old.globals)) }
        ensures globals { self.new.globals ≡ self.old.globals }
        ensures entries { self.new.entries ≡ self.old.entries }
        ensures marks { OnOk result (self.new.marks ≡ mark.found (mark_at name.0 self.old.marks.globals) self.old.marks) }
        ensures fits { 1 ≤ self.old.room → IsOk result }
        ensures room { self.old.room ≤ self.new.room + 1 }
    {
        match self.globals.value(name) {
            Some(held) => {
                self.stack.push(&held)?;
                Ok(true)
            }
            None => Ok(false),
        }
    }

    /// Pushes the value of a variable of the entry at a place, and tells whether there is one.
    pub fn push_entry_variable(&mut self, at: usize, name: NameId) -> Result<bool, NoMemory>
        ensures stack { OnOk result (self.new.stack ≡
            with_pushed (option_and_then (λ e. rule.value_at name.0 e.variables) (slice_get self.old.entries at)) self.old.stack) }
        ensures found { IfOk result (λ found. found ≡
            is_some (option_and_then (λ e. rule.value_at name.0 e.variables) (slice_get self.old.entries at))) }
        ensures globals { self.new.globals ≡ self.old.globals }
        ensures entries { self.new.entries ≡ self.old.entries }
        ensures marks { OnOk result (self.new.marks ≡
            mark.found (option_and_then (mark_at name.0) (slice_get self.old.marks.entries at)) self.old.marks) }
        ensures fits { 1 ≤ self.old.room → IsOk result }
        ensures room { self.old.room ≤ self.new.room + 1 }
    {
        match self.entries.value(at, name) {
            Some(held) => {
                self.stack.push(&held)?;
                Ok(true)
            }
            None => Ok(false),
        }
    }

    /// Takes the top off, and gives it to a variable of the whole style.
    #[inline(always)]
    pub fn give_globally(&mut self, name: NameId)
        ensures stack { self.new.stack ≡ drop 1 self.old.stack }
        ensures globals { self.new.globals ≡ given_globally name self.old.stack self.old.globals }
        ensures entries { self.new.entries ≡ self.old.entries }
        ensures marks { self.new.marks ≡ mark.given_globally name self.old.marks.stack self.old.marks }
        ensures room { self.old.room ≤ self.new.room }
    {
        if let Some(top) = self.stack.top() {
            self.stack.drop_top(1);
            let value = brought_down(top, self.stack.len(), self.kept, &mut self.pool);
            self.kept = self.kept.max(value.end(self.pool.as_slice()));
            self.live = live_after(self.live, self.globals.value(name), value);
            self.globals.set(Variable { name, value });
        }
    }

    /// Gives a string whose bytes are lent to a variable of the whole style, as if it had been pushed before.
    #[inline(always)]
    pub fn give_lent(&mut self, name: NameId, bytes: &'a [u8])
        ensures stack { self.new.stack ≡ self.old.stack }
        ensures globals { self.new.globals ≡ given_globally name (Str bytes.now ∷ self.old.stack) self.old.globals }
        ensures entries { self.new.entries ≡ self.old.entries }
        ensures marks { self.new.marks ≡ mark.given_globally name (mark.Lent ∷ self.old.marks.stack) self.old.marks }
        ensures room { self.old.room ≤ self.new.room }
    {
        let value = Operand::Str(bytes).held();
        self.live = live_after(self.live, self.globals.value(name), value);
        self.globals.set(Variable { name, value });
    }

    /// Takes the top off, and gives it to a variable of the entry at a place.
    pub fn give_in_entry(&mut self, at: usize, name: NameId)
        ensures stack { self.new.stack ≡ drop 1 self.old.stack }
        ensures globals { self.new.globals ≡ self.old.globals }
        ensures entries { self.new.entries ≡ given_in_entry name (Some at) self.old.stack self.old.entries }
        ensures marks { self.new.marks ≡ mark.given_in_entry name (Some at) self.old.marks.stack self.old.marks }
        ensures room { self.old.room ≤ self.new.room }
    {
        if let Some(top) = self.stack.top() {
            self.stack.drop_top(1);
            let value = brought_down(top, self.stack.len(), self.kept, &mut self.pool);
            self.kept = self.kept.max(value.end(self.pool.as_slice()));
            self.live = live_after(self.live, self.entries.value(at, name), value);
            self.entries.set(at, Variable { name, value });
        }
    }

    /// How many entries there are.
    pub fn entries(&self) -> usize
        ensures { result ≡ length self.now.entries }
    {
        self.entries.len()
    }

    /// The entry at a place.
    pub fn entry(&self, at: usize) -> Option<TypedEntry<'a>>
        ensures { result ≡ option_map (λ e. e.entry) (slice_get self.now.entries at) }
    {
        self.entries.entry(at)
    }

    /// The position of the entry at a place in the list with which the run opened.
    pub fn position(&self, at: usize) -> Option<u64>
        ensures { result ≡ option_map (λ e. e.position) (slice_get self.now.entries at) }
    {
        self.entries.position(at)
    }

    /// The value of a field of the entry at a place.
    pub fn field(&self, at: usize, name: NameId) -> Option<Operand<'a>>
        ensures { option_map value_of result ≡ option_map (λ e. rule.field_in name e.entry.fields) (slice_get self.now.entries at) }
    {
        self.entries.field(at, name)
    }

    /// The key of the entry with this position in the list with which the run opened, and no bytes where there is none.
    pub fn key(&self, position: u64) -> &'a [u8]
        ensures { result.now ≡ key_at position self.now.entries }
    {
        self.entries.key(position)
    }

    /// Orders the entries by their sort keys. Equal keys keep their order.
    pub fn sort(&mut self) -> Result<(), NoMemory>
        ensures stack { self.new.stack ≡ self.old.stack }
        ensures globals { self.new.globals ≡ self.old.globals }
        ensures sorted { OnOk result (self.new.entries ≡ sorted self.old.entries) }
        ensures kept { OnErr result (self.new.entries ≡ self.old.entries) }
        ensures marks { OnOk result (self.new.marks ≡ record self.old.marks { entries = sorted_marks self.old.entries self.old.marks.entries }) }
        ensures room { self.old.room ≤ self.new.room }
    {
        self.entries.sort(self.pool.as_slice())
    }

    /// Lets go of the bytes that no variable may hold, where the stack is empty.
    pub fn trim(&mut self)
        ensures { self.new ≡ self.old }
    {
        if self.stack.len() > 0 {
            return;
        }
        self.pool.truncate(self.kept);
    }

    /// Makes the pool anew of what variables hold, where the stack is empty and enough is left of what they held before.
    pub fn renew(&mut self) -> Result<(), NoMemory>
        ensures stack { OnOk result (self.new.stack ≡ self.old.stack) }
        ensures globals { OnOk result (self.new.globals ≡ self.old.globals) }
        ensures entries { self.new.entries ≡ self.old.entries }
        ensures marks { OnOk result (self.new.marks ≡ self.old.marks) }
        ensures room { self.old.room ≤ self.new.room }
    {
        if self.stack.len() > 0 {
            return Ok(());
        }
        let least = least_spared(self.kept, self.entries.len());
        if self.kept.saturating_sub(self.live) <= least {
            return Ok(());
        }
        let front = if self.left > least / 2 { 0 } else { self.front };
        let renewed = self.entries.renew(&mut self.globals, &mut self.pool, front);
        self.kept = self.pool.as_slice().len();
        self.front = self.kept;
        self.left = self.kept.saturating_sub(self.live);
        renewed
    }
}
