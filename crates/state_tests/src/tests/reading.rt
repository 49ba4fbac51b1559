//! How the texts of rows are read.

ghost use Rattle.std.specs.Prelude.{◌≤◌, length, IfOk, IfSome};
ghost use Rattle.std.specs.List.{All};

use bv_base::memory::NoMemory;
use bv_base::seq::Seq;
use std::alloc::{AllocError, Global};

/// Why a row has no answer.
#[derive(Clone, Copy, Debug)]
pub enum Unread {
    NoMemory,
    /// This isn't what has to stand there.
    At(&'static str),
}

impl From<NoMemory> for Unread {
    fn from(_refused: NoMemory) -> Unread {
        Unread::NoMemory
    }
}

impl From<AllocError> for Unread {
    fn from(_refused: AllocError) -> Unread {
        Unread::NoMemory
    }
}

/// What a list is of.
pub trait Item: Drop {
    /// What holds of each that is read.
    ghost holds: { Self → Type 0 };

    /// Reads an item, or nothing where it is one of another sort that may stand in the list.
    fn read(alloc: Global, text: &'static str) -> Result<Option<Self>, Unread>
        ensures { IfOk result (λ item. IfSome item holds) };
}

/// The items of a list, which are parted by this.
pub fn list<T: Item>(
    alloc: Global,
    text: &'static str,
    between: &'static str,
) -> Result<Seq<T>, Unread>
    ensures { IfOk result (λ items. All T.holds items) }
{
    let mut items = Seq::new(alloc);
    if text.is_empty() {
        return Ok(items);
    }
    for text in text.split(between) {
        if let Some(item) = T::read(alloc, text)? {
            items.push(item)?;
        }
    }
    Ok(items)
}

/// What stands before this and after it. Where it isn't there, nothing is after it.
pub fn halves(text: &'static str, between: &'static str) -> (&'static str, &'static str) {
    text.split_once(between).unwrap_or((text, ""))
}

/// The three parts of what is given. Where the last isn't there, it is empty.
pub fn thirds(given: &'static str) -> (&'static str, &'static str, &'static str) {
    let (first, rest) = halves(given, " | ");
    let (second, third) = halves(rest, " | ");
    (first, second, third)
}

/// A divisor, and at most 64 of what is added up.
pub fn divided<T: Item>(alloc: Global, text: &'static str) -> Result<(u32, Seq<T>), Unread>
    ensures { IfOk result (λ divided. length divided.1 ≤ 64) }
{
    let (divisor, added) = halves(text, " ");
    let divisor = natural(divisor)?;
    let added = list(alloc, added, " ")?;
    if added.as_slice().len() > 64 {
        return Err(Unread::At(text));
    }
    Ok((divisor, added))
}

/// A number.
pub fn natural(text: &'static str) -> Result<u32, Unread> {
    match text.parse::<u32>() {
        Ok(number) => Ok(number),
        Err(_) => Err(Unread::At(text)),
    }
}

/// An integer.
pub fn integer(text: &'static str) -> Result<i32, Unread> {
    match text.parse::<i32>() {
        Ok(number) => Ok(number),
        Err(_) => Err(Unread::At(text)),
    }
}
