//! Lists that share their beginnings.

ghost use Rattle.std.specs.Prelude.{◌≡◌, Bool, [], ◌∷◌, ◌++◌, length, reverse, slice_get, option_map, OnOk, OnErr, IfOk, MatchOption};
ghost use Rattle.std.specs.Borrow.{Bor};
ghost use Rattle.std.specs.List.{find};

use bv_base::memory::NoMemory;
use std::alloc::Global;
use std::marker::Model;
use std::rc::Rc;

/// Items, the newest outermost. What stands before an item may be shared.
enum Chain<T> {
    End,
    Link(T, Rc<Chain<T>>),
}

impl<T: Drop> Drop for Chain<T> {
    /// A loop, since a chain may be longer than calls can nest.
    fn drop(mut self) {
        loop {
            match self {
                Chain::End => return,
                Chain::Link(_, before) => match Rc::into_inner(before) {
                    Some(chain) => self = chain,
                    None => return,
                },
            }
        }
    }
}

/// A list that grows at its end. A branch of it shares the items that both have, so that it costs the same however long
/// the list is. Contracts see the list of its items.
#[derive(Drop)]
pub struct SharedList<T: Drop> {
    alloc: Global,
    chain: Rc<Chain<T>>,
    len: u64,
}

impl<T: Drop> Model for SharedList<T> {
    ghost use Rattle.std.specs.Prelude.{◌≡◌, List, length};

    ghost Value = { List T };

    ghost use Rattle.sym_state.specs.SharedLists.{items};

    ghost view = { λ l. items l.chain.value };

    ghost invariant = { λ l. l.len ≡ length (items l.chain.value) };
}

impl<T: Drop> SharedList<T> {
    /// No item.
    pub fn new(alloc: Global) -> Result<SharedList<T>, NoMemory>
        ensures { IfOk result (λ list. list ≡ []) }
    {
        Ok(SharedList {
            alloc,
            chain: Rc::new(alloc, Chain::End)?,
            len: 0,
        })
    }

    /// The list of these items.
    pub fn from_vec(alloc: Global, items: Vec<T>) -> Result<SharedList<T>, NoMemory>
        ensures { IfOk result (λ list. list ≡ items.items) }
    {
        let mut list = SharedList::new(alloc)?;
        list.append(items)?;
        Ok(list)
    }

    /// Adds items at the end.
    pub fn append(&mut self, items: Vec<T>) -> Result<(), NoMemory>
        ensures { OnOk result (self.new ≡ self.old ++ items.items) }
    {
        for item in items {
            self.push(item)?;
        }
        Ok(())
    }

    /// How many items there are.
    pub fn len(&self) -> u64
        ensures { result ≡ length self.now }
    {
        self.len
    }

    /// The same list.
    pub fn branch(&self) -> Result<SharedList<T>, NoMemory>
        ensures { IfOk result (λ list. list ≡ self.now) }
    {
        Ok(SharedList {
            alloc: self.alloc,
            chain: self.chain.clone()?,
            len: self.len,
        })
    }

    /// Adds an item at the end. A refusal leaves the list as it was.
    pub fn push(&mut self, item: T) -> Result<(), NoMemory>
        ensures ok { OnOk result (self.new ≡ self.old ++ item ∷ []) }
        ensures err { OnErr result (self.new ≡ self.old) }
    {
        let Some(more) = self.len.checked_add(1) else {
            return Err(NoMemory);
        };
        let before = self.chain.clone()?;
        self.chain = Rc::new(self.alloc, Chain::Link(item, before))?;
        self.len = more;
        Ok(())
    }

    /// The item of a number, from 0.
    pub fn get(&self, index: u64) -> Option<&T>
        ensures { option_map (λ item. item.now) result ≡ slice_get self.now index }
    {
        if index >= self.len {
            return None;
        }
        let mut items = self.backwards();
        for _ in index + 1..self.len {
            items.next();
        }
        items.next()
    }

    /// The first item that passes a test, which is pure.
    pub fn find<F: Fn(&T) -> bool>(&self, test: F) -> Option<&T>
        requires { F.IsAlwaysCallable test }
        ensures { (passes : T → Bool) → ((item : Bor T) (r : Bool) → F.post test item r → r ≡ passes item.now)
            → option_map (λ item. item.now) result ≡ find passes self.now }
    {
        let mut left = self.backwards();
        let mut found = None;
        while let Some(item) = left.next() {
            if test(item) {
                found = Some(item);
            }
        }
        found
    }

    /// The last item that passes a test, which is pure.
    pub fn rfind<F: Fn(&T) -> bool>(&self, test: F) -> Option<&T>
        requires { F.IsAlwaysCallable test }
        ensures { (passes : T → Bool) → ((item : Bor T) (r : Bool) → F.post test item r → r ≡ passes item.now)
            → option_map (λ item. item.now) result ≡ find passes (reverse self.now) }
    {
        let mut left = self.backwards();
        while let Some(item) = left.next() {
            if test(item) {
                return Some(item);
            }
        }
        None
    }

    /// The items from the last to the first.
    fn backwards(&self) -> Backwards<'_, T>
        ensures { result ≡ self.now }
    {
        Backwards {
            left: self.chain.as_ref(),
        }
    }
}

/// The items of a list from the last to the first. Contracts see those that are left, the first of them first.
#[derive(Drop)]
struct Backwards<'a, T> {
    left: &'a Chain<T>,
}

impl<'a, T> Model for Backwards<'a, T> {
    ghost use Rattle.std.specs.Prelude.{List};

    ghost Value = { List T };

    ghost use Rattle.sym_state.specs.SharedLists.{items};

    ghost view = { λ c. items c.left.now };
}

impl<'a, T> Backwards<'a, T> {
    /// Takes the last item that is left.
    fn next(&mut self) -> Option<&'a T>
        ensures { MatchOption result ((self.old ≡ []) × (self.new ≡ [])) (λ item. self.old ≡ self.new ++ item.now ∷ []) }
    {
        match self.left {
            Chain::End => None,
            Chain::Link(item, before) => {
                self.left = before.as_ref();
                Some(item)
            }
        }
    }
}
