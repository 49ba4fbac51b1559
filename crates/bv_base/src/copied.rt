//! Copies of values that hold texts and lists.

ghost use Rattle.std.specs.Prelude.{◌≡◌, IfOk};

use crate::memory::NoMemory;
use crate::seq::Seq;
use crate::text::Text;
use std::alloc::Global;

/// A value that is copied where there is memory for it.
pub trait Copied: Drop {
    /// A copy of the value.
    fn copied(&self, alloc: Global) -> Result<Self, NoMemory>
        ensures { IfOk result (λ copy. copy ≡ self.now) };
}

impl Copied for Text {
    fn copied(&self, alloc: Global) -> Result<Text, NoMemory> {
        Text::from_slice(alloc, self.as_slice())
    }
}

impl<T: Copied> Copied for Seq<T> {
    fn copied(&self, alloc: Global) -> Result<Seq<T>, NoMemory> {
        Ok(Seq::from_vec(copies(alloc, self.as_slice())?))
    }
}

/// Copies of some values, in order.
pub fn copies<T: Copied>(alloc: Global, items: &[T]) -> Result<Vec<T>, NoMemory>
    ensures { IfOk result (λ copies. copies.items ≡ items.now) }
{
    let mut copies = Vec::new(alloc);
    for item in items {
        copies.push(item.copied(alloc)?)?;
    }
    Ok(copies)
}
